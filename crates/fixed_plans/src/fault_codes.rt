//! Codes of faults of a fixed plan.

use crate::FixedFault;
use std::alloc::AllocError;
use text_lines::{Fault, push_one};

impl Fault for FixedFault {
    ghost use Rattle.std.specs.Prelude.{◌≢◌};
    ghost use Rattle.fixed_plans.specs.Codes.{fixed_code};
    ghost use Rattle.fixed_plans.specs.declared.faults.FixedFault.TheVariants.{NoMemory};

    ghost code = { fixed_code };

    ghost is_of_text = { λ fault. fault ≢ NoMemory };

    fn push_code(self, line: &mut Vec<u8>) -> Result<(), AllocError> {
        match self {
            FixedFault::NoMemory => Err(AllocError),
            FixedFault::Header => line.extend_from_slice(b"header"),
            FixedFault::Row(number) => push_one(line, b"row ", u64::from(number)),
            FixedFault::Node(number) => push_one(line, b"node ", u64::from(number)),
            FixedFault::Phase(number) => push_one(line, b"phase ", u64::from(number)),
            FixedFault::Green(number) => push_one(line, b"green ", u64::from(number)),
            FixedFault::Offset(number) => push_one(line, b"offset ", u64::from(number)),
            FixedFault::Short => line.extend_from_slice(b"short"),
        }
    }
}
