//! The command `replay NET ARR HIST`.
ghost use Rattle.commands.specs.Outcome.{Outcome};
ghost use Rattle.network_jobs.specs.Meanings.{replay_meaning};

use crate::history_runs::report;
use crate::kinds::HistoryFile;
use commands::{Made, Refusal, Status, Work, job};
use outside_world::{Shelf, Sink};
use scene_jobs::fetch_scene_with;
use std::alloc::Global;

/// `replay`.
#[derive(Clone, Copy)]
struct ReplayWork<'a> {
    net: &'a str,
    arr: &'a str,
    hist: &'a str,
}

impl Work for ReplayWork<'_> {
    ghost use Rattle.network_jobs.specs.Meanings.{replay_meaning};

    ghost means = { λ work. replay_meaning work.net.now work.arr.now work.hist.now };

    fn make<S: Shelf>(&self, alloc: Global, shelf: &mut S) -> Result<Made, Refusal> {
        let read = fetch_scene_with::<HistoryFile, S>(alloc, shelf, self.net, self.arr, self.hist)?;
        let scene = &read.scene;
        let text = report(alloc, &scene.network, &scene.arrivals, &read.value)?;
        Ok(Made::Done(text))
    }
}

/// The command `replay NET ARR HIST`: writes the report of the run of the history in the third file, with the network and the
/// arrivals in the other two. In it all is kept that is promised of runs, whatever the order of the history's board steps.
///
/// Each status has its cause, and each refusal writes its line to `err`, as `signal` says.
///
/// docs/FORMATS.md, "Words".
pub fn replay_job<S: Shelf, O: Sink, E: Sink>(
    alloc: Global,
    net: &str,
    arr: &str,
    hist: &str,
    shelf: &mut S,
    out: &mut O,
    err: &mut E,
) -> Status
    ensures { Outcome (replay_meaning net.now arr.now hist.now)
        (record { shelf = S.state shelf.old; out = O.state out.old; err = E.state err.old })
        (record { shelf = S.state shelf.new; out = O.state out.new; err = E.state err.new }) result }
{
    job(alloc, &ReplayWork { net, arr, hist }, shelf, out, err)
}
