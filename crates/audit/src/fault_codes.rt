//! Codes of faults of a sheet.

use crate::SheetFault;
use std::alloc::AllocError;
use text_lines::{Fault, push_one};

impl Fault for SheetFault {
    ghost use Rattle.std.specs.Prelude.{◌≢◌};
    ghost use Rattle.audit.specs.Codes.{sheet_code};
    ghost use Rattle.audit.specs.declared.sheet_faults.SheetFault.TheVariants.{NoMemory};

    ghost code = { sheet_code };

    ghost is_of_text = { λ fault. fault ≢ NoMemory };

    fn push_code(self, line: &mut Vec<u8>) -> Result<(), AllocError> {
        match self {
            SheetFault::NoMemory => Err(AllocError),
            SheetFault::Header => line.extend_from_slice(b"header"),
            SheetFault::Row(number) => push_one(line, b"row ", u64::from(number)),
            SheetFault::Extra(number) => push_one(line, b"extra ", u64::from(number)),
            SheetFault::Name(number) => push_one(line, b"name ", u64::from(number)),
            SheetFault::Short => line.extend_from_slice(b"short"),
        }
    }
}
