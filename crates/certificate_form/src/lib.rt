//! The text of a certificate: reading it, and writing it.
#![tactic(auto)]

mod fault_codes;
mod lines;
mod reading;
mod writing;

pub use reading::{CertText, law_of_certificates, read_certificate};
pub use writing::{PutFault, law_of_certificate_text, put_certificate, write_certificate};
