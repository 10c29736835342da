//! Faults of the file of a fixed plan.
use foundation::threads::CrossesThreads;
use std::alloc::{AllocError, AllocFailed};

/// Why a file is no fixed plan of a network. A number is that of the first row at fault, from 1.
///
/// docs/FORMATS.md, "Fixed plan".
#[derive(Debug, Clone, Copy, PartialEq, Eq)]
pub enum FixedFault {
    /// Out of memory. It says nothing of the file.
    NoMemory,
    /// The file does not begin with the record `node,phase,green,offset`.
    Header,
    /// The row has not four fields, or one of the last three is not 1 to 10 digits.
    Row(u32),
    /// The row is one of no node.
    Node(u32),
    /// The row is not the next one up the ring of the node of the row before it, nor, where that one has all its rows,
    /// at least two, the first of the next node; or it is the first row, and not the first of node 0.
    Phase(u32),
    /// The green is shorter than the least or longer than the greatest green of its phase.
    Green(u32),
    /// The offset is above 17,999, or not that of the node's other rows.
    Offset(u32),
    /// The file ends before each unmarked phase of each node had a row, and each node two.
    Short,
}

impl CrossesThreads for FixedFault {}

impl From<AllocError> for FixedFault {
    ghost use Rattle.std.specs.Prelude.{◌≡◌};
    ghost use Rattle.fixed_plans.specs.declared.faults.FixedFault.TheVariants.{NoMemory};

    ghost from_gives = { λ _ fault. fault ≡ NoMemory };

    fn from(_error: AllocError) -> FixedFault {
        FixedFault::NoMemory
    }
}

impl<T: Drop> From<AllocFailed<T>> for FixedFault {
    ghost use Rattle.std.specs.Prelude.{◌≡◌};
    ghost use Rattle.fixed_plans.specs.declared.faults.FixedFault.TheVariants.{NoMemory};

    ghost from_gives = { λ _ fault. fault ≡ NoMemory };

    fn from(_error: AllocFailed<T>) -> FixedFault {
        FixedFault::NoMemory
    }
}
