//! Faults of the file of a report that is read as a sheet.
use foundation::threads::CrossesThreads;
use std::alloc::{AllocError, AllocFailed};

/// Why a file is no report of a network. A number is that of the first row at fault, from 1.
///
/// docs/FORMATS.md, "Sheet".
#[derive(Debug, Clone, Copy, PartialEq, Eq)]
pub enum SheetFault {
    /// Out of memory. It says nothing of the file.
    NoMemory,
    /// The file does not begin with the record `kind,round,node,x,y,z,w`.
    Header,
    /// The row has not seven fields, the first is none of the five kinds, or a number that is read of it is none.
    Row(u32),
    /// The row is a link after as many as there are, or a second total.
    Extra(u32),
    /// The row is a green of no node, or a link that is not the next one.
    Name(u32),
    /// The file ends before each link and the total were told.
    Short,
}

impl CrossesThreads for SheetFault {}

impl From<AllocError> for SheetFault {
    ghost use Rattle.std.specs.Prelude.{◌≡◌};
    ghost use Rattle.audit.specs.declared.sheet_faults.SheetFault.TheVariants.{NoMemory};

    ghost from_gives = { λ _ fault. fault ≡ NoMemory };

    fn from(_error: AllocError) -> SheetFault {
        SheetFault::NoMemory
    }
}

impl<T: Drop> From<AllocFailed<T>> for SheetFault {
    ghost use Rattle.std.specs.Prelude.{◌≡◌};
    ghost use Rattle.audit.specs.declared.sheet_faults.SheetFault.TheVariants.{NoMemory};

    ghost from_gives = { λ _ fault. fault ≡ NoMemory };

    fn from(_error: AllocFailed<T>) -> SheetFault {
        SheetFault::NoMemory
    }
}
