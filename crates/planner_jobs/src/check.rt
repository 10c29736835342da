//! The command `check FILE`.
ghost use Rattle.std.specs.Prelude.{◌≡◌, ◌↔◌, ◌<◌, ℕ, List, IfOk};
ghost use Rattle.schedule_meaning.specs.Best.{IsLeast};
ghost use Rattle.dp_certificate.specs.Proves.{Proves};
ghost use Rattle.cert_checker.specs.Verdicts.{IfRejected, IsWhy};
ghost use Rattle.commands.specs.{Ending.IsMadeOf, Outcome.Outcome};
ghost use Rattle.planner_jobs.specs.Meanings.{check_meaning};

use crate::kinds::CertificateFile;
use crate::verdicts::rejected_line;
use cert_checker::Verdict;
use commands::{Made, Refusal, Status, TextPlace, Work, fetch, job};
use dp_certificate::Certificate;
use foundation::steps::Steps;
use outside_world::{Shelf, Sink};
use std::alloc::{AllocError, Global};
use std::marker::Brand;
use std::sync::ledger::{Blank, Ledger};

/// The verdict on a certificate.
fn verdict_of(c: &Certificate) -> Verdict
    ensures accepted { result ≡ Verdict.Accepted ↔ Proves c.now }
    ensures least { result ≡ Verdict.Accepted → IsLeast c.now.problem c.now.answer }
    ensures first { IfRejected result (IsWhy c.now) }
{
    verdict_in_ledger::<Brand>(c, Blank::new(1))
}

/// The verdict on a certificate, its steps counted in the ledger of this blank.
fn verdict_in_ledger<L: Ledger>(c: &Certificate, blank: Blank) -> Verdict
    requires name { blank.name ≡ L.name }
    requires parts { blank.parts ≡ L.parts }
    requires some { 0 < L.parts }
    ensures accepted { result ≡ Verdict.Accepted ↔ Proves c.now }
    ensures least { result ≡ Verdict.Accepted → IsLeast c.now.problem c.now.answer }
    ensures first { IfRejected result (IsWhy c.now) }
{
    let mut steps = Steps::<L>::new(blank);
    cert_checker::check(c, &mut steps)
}

/// The verdict on a certificate, as it is written, whatever file it is in.
fn verdict(alloc: Global, c: &Certificate) -> Result<Made, AllocError>
    ensures { (file : List ℕ) → IfOk result (λ made. IsMadeOf (check_meaning file) made (c.now, tt)) }
{
    match verdict_of(c) {
        Verdict::Accepted => {
            let line = Vec::from_slice(alloc, b"accepted\n")?;
            Ok(Made::Done(line))
        }
        Verdict::Rejected(why) => {
            let line = rejected_line(alloc, why)?;
            Ok(Made::Rejected(line))
        }
    }
}

/// `check` with the name of its file.
#[derive(Clone, Copy)]
struct CheckWork<'a> {
    file: &'a str,
}

impl Work for CheckWork<'_> {
    ghost use Rattle.planner_jobs.specs.Meanings.{check_meaning};

    ghost means = { λ work. check_meaning work.file.now };

    // The verdict on the certificate in the file.
    fn make<S: Shelf>(&self, alloc: Global, shelf: &mut S) -> Result<Made, Refusal> {
        let certificate = fetch::<CertificateFile, S>(
            alloc,
            shelf,
            TextPlace::First,
            self.file,
            &(),
        )?;
        let made = verdict(alloc, &certificate)?;
        Ok(made)
    }
}

/// The command `check FILE`: writes the verdict on the certificate in the file, that it is accepted, or
/// the first reason why it is rejected.
///
/// Each status has its cause, and each refusal writes its line to `err`, as `signal` says.
///
/// docs/FORMATS.md, "Words".
pub fn check_job<S: Shelf, O: Sink, E: Sink>(
    alloc: Global,
    file: &str,
    shelf: &mut S,
    out: &mut O,
    err: &mut E,
) -> Status
    ensures { Outcome (check_meaning file.now)
        (record { shelf = S.state shelf.old; out = O.state out.old; err = E.state err.old })
        (record { shelf = S.state shelf.new; out = O.state out.new; err = E.state err.new }) result }
{
    job(alloc, &CheckWork { file }, shelf, out, err)
}
