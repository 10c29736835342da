//! What the records of an answer tell, kept to come after those of a next text.
ghost use Rattle.std.specs.Prelude.{◌≡◌, ◌<◌, ◌∷◌, ◌++◌, [], ℕ, List, IsSome, OnOk, codes, length, map};
ghost use Rattle.net_parts.specs.{Numbers.Net, Outline.link_at};
ghost use Rattle.road_net.specs.Network.{IsNetwork};
ghost use Rattle.round_states.specs.{NextTexts.AreKept, NextTexts.Keeps, StateRecords.board_records, StateRecords.green_record, StateRecords.row_record, StateRecords.version_record};

use crate::entries::{Entry, StateRecord};
use crate::states::LinkBoard;
use board_model::Row;
use control_flow::greens::Green;
use road_net::{Network, law_of_network};
use std::alloc::{AllocError, Global};

/// What the records of an answer tell: plans, greens and boards. It is kept to come after the records of a next text.
///
/// docs/FORMATS.md, "Serving".
#[derive(Drop)]
pub struct KeptRecords {
    pub(crate) all: Vec<Entry>,
}

impl KeptRecords {
    /// What no record tells.
    ///
    /// docs/FORMATS.md, "Serving".
    pub fn none(alloc: Global) -> KeptRecords
        ensures { (net : Net) → AreKept net [] result }
    {
        KeptRecords {
            all: Vec::new(alloc),
        }
    }

    /// Adds the record of a plan, whatever is planned: a state does not depend on it. `Err`: out of memory.
    ///
    /// docs/FORMATS.md, "Serving".
    pub fn add_plan(&mut self) -> Result<(), AllocError>
        ensures { OnOk result ((net : Net) (name x y z : List ℕ)
            → Keeps net self.old self.new ((codes "plan" ∷ name ∷ x ∷ y ∷ z ∷ []) ∷ [])) }
    {
        self.push(Entry {
            place: 0,
            content: StateRecord::Plan,
        })
    }

    /// Adds the records of rows of a node's timeline. `Err`: out of memory.
    ///
    /// docs/FORMATS.md, "Serving".
    pub fn add_greens(
        &mut self,
        net: &Network,
        node: u32,
        greens: &[Green],
    ) -> Result<(), AllocError>
        requires { node < length net.now.node_names }
        ensures { OnOk result (Keeps net.now self.old self.new (map (green_record net.now node) greens.now)) }
    {
        for green in greens {
            self.add_green(net, node, *green)?;
        }
        Ok(())
    }

    /// Adds the records of the board of a link on which one node tells another. `Err`: out of memory.
    ///
    /// docs/FORMATS.md, "Serving".
    pub fn add_board(
        &mut self,
        net: &Network,
        link: u32,
        board: &LinkBoard,
    ) -> Result<(), AllocError>
        requires link { link < length net.now.link_names }
        requires from { IsSome (link_at net.now link).from }
        requires to { IsSome (link_at net.now link).to }
        ensures { OnOk result (Keeps net.now self.old self.new (board_records net.now link board.now)) }
    {
        self.add_version(net, link, board.version)?;
        self.add_rows(net, link, board.forecast.rows())
    }

    /// Adds the record of a row of a node's timeline.
    fn add_green(&mut self, net: &Network, node: u32, green: Green) -> Result<(), AllocError>
        requires { node < length net.now.node_names }
        ensures { OnOk result (Keeps net.now self.old self.new (green_record net.now node green ∷ [])) }
    {
        law_of_network(net);
        self.push(Entry {
            place: node,
            content: StateRecord::Green(green),
        })
    }

    /// Adds the record of the version of a link.
    fn add_version(&mut self, net: &Network, link: u32, version: u32) -> Result<(), AllocError>
        requires link { link < length net.now.link_names }
        requires from { IsSome (link_at net.now link).from }
        requires to { IsSome (link_at net.now link).to }
        ensures { OnOk result (Keeps net.now self.old self.new (version_record net.now link version ∷ [])) }
    {
        law_of_network(net);
        self.push(Entry {
            place: link,
            content: StateRecord::Version(version),
        })
    }

    /// Adds the records of the rows of the forecast of a link.
    fn add_rows(&mut self, net: &Network, link: u32, rows: &[Row]) -> Result<(), AllocError>
        requires link { link < length net.now.link_names }
        requires from { IsSome (link_at net.now link).from }
        requires to { IsSome (link_at net.now link).to }
        ensures { OnOk result (Keeps net.now self.old self.new (map (row_record net.now link) rows.now)) }
    {
        for row in rows {
            self.add_row(net, link, *row)?;
        }
        Ok(())
    }

    /// Adds the record of a row of the forecast of a link.
    fn add_row(&mut self, net: &Network, link: u32, row: Row) -> Result<(), AllocError>
        requires link { link < length net.now.link_names }
        requires from { IsSome (link_at net.now link).from }
        requires to { IsSome (link_at net.now link).to }
        ensures { OnOk result (Keeps net.now self.old self.new (row_record net.now link row ∷ [])) }
    {
        law_of_network(net);
        self.push(Entry {
            place: link,
            content: StateRecord::Row(row),
        })
    }

    /// Adds what a record tells.
    fn push(&mut self, entry: Entry) -> Result<(), AllocError>
        ensures { OnOk result (self.new.all.items ≡ self.old.all.items ++ entry ∷ []) }
    {
        self.all.push(entry)?;
        Ok(())
    }
}
