//! Codes of faults of the entries of a certificate.

use crate::CertFault;
use std::alloc::AllocError;
use text_lines::{Fault, push_one};

impl Fault for CertFault {
    ghost use Rattle.dp_certificate.specs.Codes.{entry_code};

    ghost code = { entry_code };

    fn push_code(self, line: &mut Vec<u8>) -> Result<(), AllocError> {
        match self {
            CertFault::Entry(number) => push_one(line, b"entry ", u64::from(number)),
            CertFault::Order(number) => push_one(line, b"entry order ", u64::from(number)),
        }
    }
}
