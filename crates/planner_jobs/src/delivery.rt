//! How a certificate that a command made, or why it made none, is answered.
ghost use Rattle.planner_jobs.specs.Delivery.{EndsCertificate};

use certificate_form::{PutFault, put_certificate};
use commands::{Refusal, Status, refuse};
use dp_certificate::Certificate;
use outside_world::Sink;
use std::alloc::Global;

/// Writes a certificate's text in parts, or why there is none, and answers how it ended.
pub(crate) fn deliver<O: Sink, E: Sink>(
    alloc: Global,
    made: Result<Certificate, Refusal>,
    out: &mut O,
    err: &mut E,
) -> Status
    ensures { EndsCertificate made (O.state out.old) (O.state out.new) (E.state err.old) (E.state err.new) result }
{
    match made {
        Ok(certificate) => match put_certificate(alloc, &certificate, out) {
            Ok(()) => Status::Done,
            Err(PutFault::Unwritten) => refuse(alloc, Refusal::Unwritten, err),
            Err(PutFault::NoMemory) => refuse(alloc, Refusal::NoMemory, err),
        },
        Err(why) => refuse(alloc, why, err),
    }
}
