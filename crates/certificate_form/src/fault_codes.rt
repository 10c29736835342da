//! Codes of faults of a certificate's text.

use crate::CertText;
use std::alloc::AllocError;
use text_lines::{Fault, push_one};

impl Fault for CertText {
    ghost use Rattle.std.specs.Prelude.{◌≢◌};
    ghost use Rattle.certificate_form.specs.Codes.{cert_code};
    ghost use Rattle.certificate_form.specs.declared.reading.CertText.TheVariants.{NoMemory};

    ghost code = { cert_code };

    ghost is_of_text = { λ fault. fault ≢ NoMemory };

    fn push_code(self, line: &mut Vec<u8>) -> Result<(), AllocError> {
        match self {
            CertText::Line(number) => push_one(line, b"line ", u64::from(number)),
            CertText::Plan(fault) => fault.push_code(line),
            CertText::Instance(fault) => fault.push_code(line),
            CertText::Cert(fault) => fault.push_code(line),
            CertText::NoMemory => Err(AllocError),
        }
    }
}
