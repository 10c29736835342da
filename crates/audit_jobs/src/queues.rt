//! The command `queues NET ARR REPORT`.
ghost use Rattle.std.specs.Prelude.{◌≡◌, ◌<◌, ◌^◌, List, ℕ, All, IfOk, length};
ghost use Rattle.arrivals.specs.Amounts.{AreArrivals, arriving_of};
ghost use Rattle.audit.specs.SheetTexts.{HasShape};
ghost use Rattle.commands.specs.{Ending.IsMadeOf, Outcome.Outcome};
ghost use Rattle.audit_jobs.specs.Meanings.{queues_meaning};

use crate::audits::unclean_line;
use crate::kinds::SheetFile;
use arrivals::Arrivals;
use audit::{Audited, Sheet, audit_lines};
use commands::{Made, Refusal, Status, Work, job};
use outside_world::{Shelf, Sink};
use queue_series::queue_series;
use road_net::Network;
use scene_jobs::{SceneWith, fetch_scene_with};
use std::alloc::{AllocError, Global};

// The queues under the greens of a clean sheet, or why it is not clean, whatever files it and the others stand in.
#[tactic(auto, using(crate::proofs::Findings::names_part))]
fn queues(
    alloc: Global,
    net: &Network,
    arrivals: &Arrivals,
    sheet: Sheet,
) -> Result<Made, AllocError>
    requires arrivals { AreArrivals net.now arrivals.now }
    requires shape { HasShape net.now sheet }
    requires rows { All (λ rows. length rows < 2 ^ 32) sheet.lines }
    ensures { (file arr report : List ℕ) → IfOk result (λ made.
        IsMadeOf (queues_meaning file arr report) made (net.now, (arriving_of arrivals.now, (sheet, tt)))) }
{
    match audit_lines(alloc, net, arrivals, sheet)? {
        Audited::Clean(lines) => {
            let text = queue_series(alloc, net, arrivals, lines.as_slice())?;
            Ok(Made::Done(text))
        }
        Audited::Bad(why) => {
            let line = unclean_line(alloc, net, why)?;
            Ok(Made::Rejected(line))
        }
    }
}

/// `queues` with the names of its files.
#[derive(Clone, Copy)]
struct QueuesWork<'a> {
    net: &'a str,
    arr: &'a str,
    report: &'a str,
}

impl Work for QueuesWork<'_> {
    ghost use Rattle.audit_jobs.specs.Meanings.{queues_meaning};

    ghost means = { λ work. queues_meaning work.net.now work.arr.now work.report.now };

    // The queues under the greens of the report in a file, with the network and the arrivals in the others.
    fn make<S: Shelf>(&self, alloc: Global, shelf: &mut S) -> Result<Made, Refusal> {
        let SceneWith {
            scene,
            value: sheet,
        } = fetch_scene_with::<SheetFile, S>(alloc, shelf, self.net, self.arr, self.report)?;
        let made = queues(alloc, &scene.network, &scene.arrivals, sheet)?;
        Ok(made)
    }
}

/// The command `queues NET ARR REPORT`: writes how long the queues are and what is on the links, second by second, under the
/// greens of a report, and the longest queue of each link. A report that `audit` rejects is rejected with the same verdict.
///
/// Each status has its cause, and each refusal writes its line to `err`, as `signal` says.
///
/// docs/FORMATS.md, "Queues".
pub fn queues_job<S: Shelf, O: Sink, E: Sink>(
    alloc: Global,
    net: &str,
    arr: &str,
    report: &str,
    shelf: &mut S,
    out: &mut O,
    err: &mut E,
) -> Status
    ensures { Outcome (queues_meaning net.now arr.now report.now)
        (record { shelf = S.state shelf.old; out = O.state out.old; err = E.state err.old })
        (record { shelf = S.state shelf.new; out = O.state out.new; err = E.state err.new }) result }
{
    let work = QueuesWork { net, arr, report };
    job(alloc, &work, shelf, out, err)
}
