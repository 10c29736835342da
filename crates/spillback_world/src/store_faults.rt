//! Faults of the file of a store.
use foundation::threads::CrossesThreads;
use std::alloc::{AllocError, AllocFailed};

/// Why a file is no store. A number is that of the first row at fault, from 1.
///
/// docs/FORMATS.md, "Store file".
#[derive(Debug, Clone, Copy, PartialEq, Eq)]
pub enum StoreFault {
    /// Out of memory. It says nothing of the file.
    NoMemory,
    /// The file does not begin with the record `link,storage`.
    Header,
    /// The row has not two fields, or its storage is not 1 to 10 digits.
    Row(u32),
    /// The link is none of the network.
    Link(u32),
    /// The storage is not 1 to 2,000,000,000.
    Bound(u32),
    /// An earlier row has the link.
    Twice(u32),
}

impl CrossesThreads for StoreFault {}

impl From<AllocError> for StoreFault {
    ghost use Rattle.std.specs.Prelude.{◌≡◌};
    ghost use Rattle.spillback_world.specs.declared.store_faults.StoreFault.TheVariants.{NoMemory};

    ghost from_gives = { λ _ fault. fault ≡ NoMemory };

    fn from(_error: AllocError) -> StoreFault {
        StoreFault::NoMemory
    }
}

impl<T: Drop> From<AllocFailed<T>> for StoreFault {
    ghost use Rattle.std.specs.Prelude.{◌≡◌};
    ghost use Rattle.spillback_world.specs.declared.store_faults.StoreFault.TheVariants.{NoMemory};

    ghost from_gives = { λ _ fault. fault ≡ NoMemory };

    fn from(_error: AllocFailed<T>) -> StoreFault {
        StoreFault::NoMemory
    }
}
