//! The commands `certify FILE` and `certify_bound FILE`.
ghost use Rattle.std.specs.Prelude.{◌≡◌};
ghost use Rattle.commands.specs.Outcome.{Outcome};
ghost use Rattle.planner_jobs.specs.{Delivery.MakesCertificate, Meanings.certify_bound_meaning, Meanings.certify_meaning};

use crate::certificates::{Table, certificate_in_ledger};
use crate::delivery::deliver;
use crate::kinds::InstanceFile;
use certificate_form::{law_of_certificate_text, law_of_certificates};
use commands::{Refusal, Status, TextPlace, fetch};
use dp_certificate::Certificate;
use outside_world::{Shelf, Sink};
use std::alloc::Global;
use std::marker::Brand;
use std::sync::ledger::Blank;

/// The certificate by this table of the instance in a file, with what is promised of its text.
fn certificate_of_file<S: Shelf>(
    alloc: Global,
    table: Table,
    shelf: &mut S,
    file: &str,
) -> Result<Certificate, Refusal>
    ensures whole { table ≡ Table.Whole
        → MakesCertificate (certify_meaning file.now) (S.state shelf.old) (S.state shelf.new) result }
    ensures bounded { table ≡ Table.Bounded
        → MakesCertificate (certify_bound_meaning file.now) (S.state shelf.old) (S.state shelf.new) result }
{
    let instance = fetch::<InstanceFile, S>(alloc, shelf, TextPlace::First, file, &())?;
    let certificate = certificate_in_ledger::<Brand>(alloc, Blank::new(1), table, &instance)?;
    // Called for its clauses `lawful`, `is_text` and `short`.
    law_of_certificate_text(&certificate);
    // Called for its clause: no other certificate has this text.
    law_of_certificates();
    Ok(certificate)
}

/// The command `certify FILE`: writes the certificate of the instance in the file, with its best answer and the whole
/// table of entries, which prove it. `check` accepts that text: it is within the limit of a text, and is the text of this
/// certificate and of no other.
///
/// Each status has its cause, and each refusal writes its line to `err`, as `signal` says.
///
/// docs/FORMATS.md, "Words".
pub fn certify_job<S: Shelf, O: Sink, E: Sink>(
    alloc: Global,
    file: &str,
    shelf: &mut S,
    out: &mut O,
    err: &mut E,
) -> Status
    ensures { Outcome (certify_meaning file.now)
        (record { shelf = S.state shelf.old; out = O.state out.old; err = E.state err.old })
        (record { shelf = S.state shelf.new; out = O.state out.new; err = E.state err.new }) result }
{
    let certificate = certificate_of_file(alloc, Table::Whole, shelf, file);
    deliver(alloc, certificate, out, err)
}

/// The command `certify_bound FILE`: as `certify_job`, with the bounded table of entries.
///
/// docs/FORMATS.md, "Words".
pub fn certify_bound_job<S: Shelf, O: Sink, E: Sink>(
    alloc: Global,
    file: &str,
    shelf: &mut S,
    out: &mut O,
    err: &mut E,
) -> Status
    ensures { Outcome (certify_bound_meaning file.now)
        (record { shelf = S.state shelf.old; out = O.state out.old; err = E.state err.old })
        (record { shelf = S.state shelf.new; out = O.state out.new; err = E.state err.new }) result }
{
    let certificate = certificate_of_file(alloc, Table::Bounded, shelf, file);
    deliver(alloc, certificate, out, err)
}
