//! Codes of faults of arrivals.

use crate::RowFault;
use std::alloc::AllocError;
use text_lines::{Fault, push_one};

impl Fault for RowFault {
    ghost use Rattle.std.specs.Prelude.{◌≢◌};
    ghost use Rattle.arrivals.specs.Codes.{row_code};
    ghost use Rattle.arrivals.specs.declared.rows.RowFault.TheVariants.{NoMemory};

    ghost code = { row_code };

    ghost is_of_text = { λ fault. fault ≢ NoMemory };

    fn push_code(self, line: &mut Vec<u8>) -> Result<(), AllocError> {
        match self {
            RowFault::NoMemory => Err(AllocError),
            RowFault::Header => line.extend_from_slice(b"header"),
            RowFault::Row(number) => push_one(line, b"row ", u64::from(number)),
            RowFault::Link(number) => push_one(line, b"link ", u64::from(number)),
            RowFault::Bound(number) => push_one(line, b"amount ", u64::from(number)),
            RowFault::Sum(number) => push_one(line, b"sum ", u64::from(number)),
        }
    }
}
