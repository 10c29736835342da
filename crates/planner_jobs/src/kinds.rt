//! The files of an instance and of a certificate, and what they are read as.
use certificate_form::read_certificate;
use commands::{Flaw, TextKind};
use dp_certificate::Certificate;
use schedule_meaning::{Instance, read_instance};
use std::alloc::Global;

/// The file of an instance.
///
/// docs/FORMATS.md, "Words".
#[derive(Debug, Clone, Copy, PartialEq, Eq)]
pub struct InstanceFile;

impl TextKind for InstanceFile {
    ghost use Rattle.planner_jobs.specs.Kinds.{InstanceText};

    type Value = Instance;

    type Over = ();

    ghost kind = { λ over. InstanceText };

    ghost said = { λ over instance. instance };

    fn read(alloc: Global, text: &[u8], _: &()) -> Result<Instance, Flaw> {
        match read_instance(alloc, text) {
            Ok(value) => Ok(value),
            Err(fault) => Err(Flaw::from_fault(alloc, fault)),
        }
    }
}

/// The file of a certificate.
///
/// docs/FORMATS.md, "Words".
#[derive(Debug, Clone, Copy, PartialEq, Eq)]
pub struct CertificateFile;

impl TextKind for CertificateFile {
    ghost use Rattle.planner_jobs.specs.Kinds.{CertificateText};

    type Value = Certificate;

    type Over = ();

    ghost kind = { λ over. CertificateText };

    ghost said = { λ over certificate. certificate };

    fn read(alloc: Global, text: &[u8], _: &()) -> Result<Certificate, Flaw> {
        match read_certificate(alloc, text) {
            Ok(value) => Ok(value),
            Err(fault) => Err(Flaw::from_fault(alloc, fault)),
        }
    }
}
