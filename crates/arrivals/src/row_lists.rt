//! Rows as they come, in any order.
use crate::amounts::Arrivals;
use crate::checks::check;
use crate::rows::{ArrivalRow, RowFault};
use road_net::Network;
use std::alloc::{AllocError, Global};
use std::marker::Model;

/// Rows in the order in which they came, all together at most 2,000,000,000 thousandths of a vehicle.
#[derive(Drop)]
pub(crate) struct RowList {
    /// The rows.
    rows: Vec<ArrivalRow>,
    /// What they bring together.
    whole: u32,
}

impl Model for RowList {
    ghost use Rattle.std.specs.Prelude.{List};
    ghost use Rattle.arrivals.specs.declared.rows.ArrivalRow.{ArrivalRow};

    ghost Value = { List ArrivalRow };

    ghost use Rattle.arrivals.specs.Stored.{IsStored};

    ghost view = { λ list. list.rows.items };

    ghost invariant = { λ list. IsStored list.rows.items list.whole };
}

impl RowList {
    ghost use Rattle.std.specs.Prelude.{◌≡◌, ◌++◌, ◌∷◌, ℕ, [], IfErr, IfOk, OnOk, sum_by};
    ghost use Rattle.arrivals.specs.{Amounts.AreKept, Amounts.arriving_of, Rows.amount_of, Rows.arriving_by, Stored.IsRefused, Stored.IsTaken};

    /// No rows.
    pub(crate) fn new(alloc: Global) -> RowList
        ensures { result ≡ [] }
    {
        RowList {
            rows: Vec::new(alloc),
            whole: 0,
        }
    }

    /// Adds the row with this number at the end.
    pub(crate) fn add(
        &mut self,
        net: &Network,
        row: ArrivalRow,
        number: u32,
    ) -> Result<(), RowFault>
        ensures taken { OnOk result (IsTaken net.now row (sum_by amount_of self.old)) }
        ensures added { OnOk result (self.new ≡ self.old ++ row ∷ []) }
        ensures first { IfErr result (IsRefused net.now row number (sum_by amount_of self.old)) }
    {
        let whole = check(net, &row, self.whole, number)?;
        self.rows.push(row)?;
        self.whole = whole;
        Ok(())
    }

    /// The arrivals of the rows. `Err`: out of memory.
    pub(crate) fn into_arrivals(self, alloc: Global) -> Result<Arrivals, AllocError>
        ensures kept { IfOk result (λ a. AreKept a.rows) }
        ensures sums { IfOk result (λ a. (link second : ℕ)
            → arriving_of a second link ≡ arriving_by self second link) }
    {
        Arrivals::of_rows(alloc, self.rows)
    }
}
