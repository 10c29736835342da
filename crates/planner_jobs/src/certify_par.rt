//! The command `certify_par FILE WIDTH`.
ghost use Rattle.std.specs.Prelude.{◌≡◌, ℕ, ◌≤◌, List};
ghost use Rattle.commands.specs.Outcome.{Outcome};
ghost use Rattle.planner_jobs.specs.{Delivery.MakesCertificate, Meanings.IsWholeCertificate, Meanings.certify_meaning};
ghost use Rattle.schedule_meaning.specs.Instances.{Problem};

use crate::delivery::deliver;
use crate::kinds::InstanceFile;
use certificate_form::{law_of_certificate_text, law_of_certificates};
use commands::{Refusal, Status, TextPlace, fetch};
use dp_certificate::Certificate;
use outside_world::{Shelf, Sink};
use parallel_dp::certify_par;
use std::alloc::Global;
use std::thread::Threads;

/// The certificate by the whole table of the instance in a file, its layers extended in pieces of this width, with what
/// is promised of its text.
fn certificate_of_file<S: Shelf>(
    rt: &(impl Threads + Sync),
    alloc: Global,
    width: u32,
    shelf: &mut S,
    file: &str,
) -> Result<Certificate, Refusal>
    requires { (1 ≤ width) × (width ≤ 4096) }
    ensures { MakesCertificate (certify_meaning file.now) (S.state shelf.old) (S.state shelf.new) result }
{
    let instance = fetch::<InstanceFile, S>(alloc, shelf, TextPlace::First, file, &())?;
    let certificate = certify_par(rt, alloc, &instance, width)?;
    // Called for its clauses `lawful`, `is_text` and `short`.
    law_of_certificate_text(&certificate);
    // Called for its clause: no other certificate has this text.
    law_of_certificates();
    Ok(certificate)
}

/// The law of whole certificates: an instance has one text of a certificate with the whole table and the best answer. So
/// what `certify_par` appends for a file is what `certify` appends, byte for byte and whatever the width. It does nothing
/// when it runs.
///
/// docs/RULES.md, "Layers in pieces".
pub fn law_of_whole_certificates()
    ensures { (p : Problem) (one other : List ℕ) → IsWholeCertificate p one → IsWholeCertificate p other → one ≡ other }
{}

/// The command `certify_par FILE WIDTH`: as `certify_job`, byte for byte (`law_of_whole_certificates`), with the layers of
/// the table extended in pieces of this width in threads. It returns, also where no thread can be started.
///
/// docs/FORMATS.md, "Words".
pub fn certify_par_job<S: Shelf, O: Sink, E: Sink>(
    rt: &(impl Threads + Sync),
    alloc: Global,
    file: &str,
    width: u32,
    shelf: &mut S,
    out: &mut O,
    err: &mut E,
) -> Status
    requires { (1 ≤ width) × (width ≤ 4096) }
    ensures { Outcome (certify_meaning file.now)
        (record { shelf = S.state shelf.old; out = O.state out.old; err = E.state err.old })
        (record { shelf = S.state shelf.new; out = O.state out.new; err = E.state err.new }) result }
{
    let certificate = certificate_of_file(rt, alloc, width, shelf, file);
    deliver(alloc, certificate, out, err)
}
