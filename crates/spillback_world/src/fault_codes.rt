//! Codes of faults of a store.

use crate::StoreFault;
use std::alloc::AllocError;
use text_lines::{Fault, push_one};

impl Fault for StoreFault {
    ghost use Rattle.std.specs.Prelude.{◌≢◌};
    ghost use Rattle.spillback_world.specs.Codes.{store_code};
    ghost use Rattle.spillback_world.specs.declared.store_faults.StoreFault.TheVariants.{NoMemory};

    ghost code = { store_code };

    ghost is_of_text = { λ fault. fault ≢ NoMemory };

    fn push_code(self, line: &mut Vec<u8>) -> Result<(), AllocError> {
        match self {
            StoreFault::NoMemory => Err(AllocError),
            StoreFault::Header => line.extend_from_slice(b"header"),
            StoreFault::Row(number) => push_one(line, b"row ", u64::from(number)),
            StoreFault::Link(number) => push_one(line, b"link ", u64::from(number)),
            StoreFault::Bound(number) => push_one(line, b"storage ", u64::from(number)),
            StoreFault::Twice(number) => push_one(line, b"twice ", u64::from(number)),
        }
    }
}
