//! Faults of the file of a history.
use foundation::threads::CrossesThreads;
use std::alloc::{AllocError, AllocFailed};

/// Why a file is no history of a network. A number is that of the first row at fault, from 1.
///
/// docs/FORMATS.md, "History file".
#[derive(Debug, Clone, Copy, PartialEq, Eq)]
pub enum HistoryFault {
    /// Memory ran out. It says nothing of the file.
    NoMemory,
    /// The file does not begin with the record `kind,round,node,x,y,z,w`.
    Header,
    /// The row has not seven fields, or the first is none of the five kinds.
    Row(u32),
    /// The row is a step of no node.
    Node(u32),
    /// The row is a step, and all rounds are done.
    Extra(u32),
    /// The row is a step of a node that has done all its steps of this round.
    Turn(u32),
    /// The file ends before all rounds are done.
    Short,
}

impl CrossesThreads for HistoryFault {}

impl From<AllocError> for HistoryFault {
    ghost use Rattle.std.specs.Prelude.{◌≡◌};
    ghost use Rattle.delay_report.specs.declared.faults.HistoryFault.TheVariants.{NoMemory};

    ghost from_gives = { λ _ fault. fault ≡ NoMemory };

    fn from(_error: AllocError) -> HistoryFault {
        HistoryFault::NoMemory
    }
}

impl<T: Drop> From<AllocFailed<T>> for HistoryFault {
    ghost use Rattle.std.specs.Prelude.{◌≡◌};
    ghost use Rattle.delay_report.specs.declared.faults.HistoryFault.TheVariants.{NoMemory};

    ghost from_gives = { λ _ fault. fault ≡ NoMemory };

    fn from(_error: AllocFailed<T>) -> HistoryFault {
        HistoryFault::NoMemory
    }
}
