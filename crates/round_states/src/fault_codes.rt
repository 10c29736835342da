//! Codes of faults of a state.

use crate::StateFault;
use std::alloc::AllocError;
use text_lines::{Fault, push_one};

impl Fault for StateFault {
    ghost use Rattle.std.specs.Prelude.{◌≢◌};
    ghost use Rattle.round_states.specs.Codes.{state_code};
    ghost use Rattle.round_states.specs.declared.faults.StateFault.TheVariants.{NoMemory};

    ghost code = { state_code };

    ghost is_of_text = { λ fault. fault ≢ NoMemory };

    fn push_code(self, line: &mut Vec<u8>) -> Result<(), AllocError> {
        match self {
            StateFault::NoMemory => Err(AllocError),
            StateFault::Header => line.extend_from_slice(b"header"),
            StateFault::Row(number) => push_one(line, b"row ", u64::from(number)),
            StateFault::Name(number) => push_one(line, b"name ", u64::from(number)),
            StateFault::Time(number) => push_one(line, b"time ", u64::from(number)),
            StateFault::Sense(link) => push_one(line, b"sense ", u64::from(link) + 1),
            StateFault::Board(link) => push_one(line, b"board ", u64::from(link) + 1),
            StateFault::Line(node) => push_one(line, b"line ", u64::from(node) + 1),
            StateFault::Sum(node) => push_one(line, b"sum ", u64::from(node) + 1),
            StateFault::Stood(link) => push_one(line, b"stood ", u64::from(link) + 1),
            StateFault::Late(node) => push_one(line, b"late ", u64::from(node) + 1),
            StateFault::Told(link) => push_one(line, b"told ", u64::from(link) + 1),
        }
    }
}
