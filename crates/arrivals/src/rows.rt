//! Rows of arrivals, and their faults.
use foundation::threads::CrossesThreads;
use std::alloc::{AllocError, AllocFailed};

/// Vehicles that enter a link in a second.
///
/// docs/RULES.md, "Arrivals".
#[derive(Debug, Clone, Copy, PartialEq, Eq)]
pub struct ArrivalRow {
    /// The second, 0 to 17,999, or to the last one of the run where that is later.
    pub second: u32,
    /// The number of the link, which comes from no node.
    pub link: u32,
    /// What enters it, 1 to 1,000,000 thousandths of a vehicle.
    pub amount: u32,
}

impl CrossesThreads for ArrivalRow {}

/// Why a list of rows or a file are no arrivals. A number is that of the first row at fault, from 1.
///
/// docs/FORMATS.md, "Arrivals file".
#[derive(Debug, Clone, Copy, PartialEq, Eq)]
pub enum RowFault {
    /// Out of memory. It says nothing of the rows or the file.
    NoMemory,
    /// The file does not begin with the record `second,link,amount`.
    Header,
    /// The row has not three fields, or its second or amount is not 1 to 10 digits.
    Row(u32),
    /// The link is none of the network, or comes from a node.
    Link(u32),
    /// The second is above 17,999 and not in the run, or the amount is not 1 to 1,000,000.
    Bound(u32),
    /// With this row the amounts add up to more than 2,000,000,000.
    Sum(u32),
}

impl CrossesThreads for RowFault {}

impl From<AllocError> for RowFault {
    ghost use Rattle.std.specs.Prelude.{◌≡◌};
    ghost use Rattle.arrivals.specs.declared.rows.RowFault.TheVariants.{NoMemory};

    ghost from_gives = { λ _ fault. fault ≡ NoMemory };

    fn from(_error: AllocError) -> RowFault {
        RowFault::NoMemory
    }
}

impl<T: Drop> From<AllocFailed<T>> for RowFault {
    ghost use Rattle.std.specs.Prelude.{◌≡◌};
    ghost use Rattle.arrivals.specs.declared.rows.RowFault.TheVariants.{NoMemory};

    ghost from_gives = { λ _ fault. fault ≡ NoMemory };

    fn from(_error: AllocFailed<T>) -> RowFault {
        RowFault::NoMemory
    }
}
