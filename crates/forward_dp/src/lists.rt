//! The lists of a table, which are kept from one planning to the next.
ghost use Rattle.forward_dp.specs.Groups.{IsEmpty};

use crate::Reached;
use crate::cell_ends::CellEnds;
use crate::live_rows::Rows;
use crate::table::row_capacity;
use foundation::threads::CrossesThreads;
use schedule_meaning::Instance;
use std::alloc::{AllocError, Global};

/// The lists that a table is made in. Who plans many times keeps them, so that they take their memory once.
///
/// docs/RULES.md, "Table".
#[derive(Drop)]
pub struct Lists {
    pub(crate) reached: Reached,
    pub(crate) rows: Rows,
    pub(crate) cells: CellEnds,
    ghost empty: { IsEmpty reached },
}

impl CrossesThreads for Lists {}

impl Lists {
    ghost use Rattle.std.specs.Prelude.{IfOk};
    ghost use Rattle.forward_dp.specs.Tables.{HasNone};

    /// Lists with nothing in them. It takes no memory.
    ///
    /// docs/RULES.md, "Table".
    pub fn new(alloc: Global) -> Lists {
        Lists {
            reached: Reached::none(alloc),
            rows: Rows::none(alloc),
            cells: CellEnds::none(alloc),
        }
    }

    /// These lists with no row, with capacity for the table of an instance. `Err`: out of memory.
    pub(crate) fn for_table(self, i: &Instance) -> Result<Lists, AllocError>
        ensures { IfOk result (λ lists. HasNone lists.rows) }
    {
        let Lists {
            mut reached,
            mut rows,
            cells,
        } = self;
        let capacity = row_capacity(i);
        reached.reserve_rows(capacity / 8)?;
        rows.clear(capacity)?;
        Ok(Lists {
            reached,
            rows,
            cells,
        })
    }
}
