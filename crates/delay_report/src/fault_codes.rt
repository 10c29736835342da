//! Codes of faults of a history.

use crate::HistoryFault;
use std::alloc::AllocError;
use text_lines::{Fault, push_one};

impl Fault for HistoryFault {
    ghost use Rattle.std.specs.Prelude.{◌≢◌};
    ghost use Rattle.delay_report.specs.Codes.{history_code};
    ghost use Rattle.delay_report.specs.declared.faults.HistoryFault.TheVariants.{NoMemory};

    ghost code = { history_code };

    ghost is_of_text = { λ fault. fault ≢ NoMemory };

    fn push_code(self, line: &mut Vec<u8>) -> Result<(), AllocError> {
        match self {
            HistoryFault::NoMemory => Err(AllocError),
            HistoryFault::Header => line.extend_from_slice(b"header"),
            HistoryFault::Row(number) => push_one(line, b"row ", u64::from(number)),
            HistoryFault::Node(number) => push_one(line, b"node ", u64::from(number)),
            HistoryFault::Extra(number) => push_one(line, b"extra ", u64::from(number)),
            HistoryFault::Turn(number) => push_one(line, b"turn ", u64::from(number)),
            HistoryFault::Short => line.extend_from_slice(b"short"),
        }
    }
}
