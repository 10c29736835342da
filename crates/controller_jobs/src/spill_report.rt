//! The command `spill NET ARR STORE actuated`.
ghost use Rattle.std.specs.Prelude.{◌≡◌, IfOk, length};
ghost use Rattle.arrivals.specs.Amounts.{AreArrivals, arriving_of};
ghost use Rattle.audit.specs.{LineReports.cut_at, LineReports.line_text, SheetTexts.HasShape, SheetTexts.IsSheetText};
ghost use Rattle.controller_jobs.specs.Storages.{IsSpillReport, told_totals};
ghost use Rattle.net_simulator.specs.Sums.{end_of_run};

use crate::kinds::StoreFile;
use arrivals::Arrivals;
use audit::line_report;
use commands::{Made, Refusal, Work};
use net_simulator::{Lines, LinkTotals, Totals};
use outside_world::Shelf;
use road_net::{Network, law_of_network};
use scene_jobs::fetch_scene_with;
use spillback_control::{SpillRun, spill_run};
use spillback_world::{Store, spill_links};
use std::alloc::{AllocError, Global};

// The report of the last timelines of a run, of these totals of each link, and of all totals: what waits outside has no place
// of its own there.
fn report_text(
    alloc: Global,
    net: &Network,
    run: &SpillRun,
    links: &[LinkTotals],
) -> Result<Vec<u8>, AllocError>
    requires { HasShape net.now
        (record { lines = run.now.timelines; links = links.now; totals = told_totals run.now.totals }) }
    ensures text { IfOk result (λ text. text.items ≡ line_text net.now
        (record { lines = run.now.timelines; links = links.now; totals = told_totals run.now.totals })) }
    ensures sheet { IfOk result (λ text. IsSheetText net.now text.items (cut_at net.now (end_of_run net.now)
        (record { lines = run.now.timelines; links = links.now; totals = told_totals run.now.totals }))) }
{
    let lines = run.timelines.as_slice();
    let all = &run.totals;
    let totals = Totals {
        entered: all.entered,
        left: all.left,
        on: all.on,
        delay: all.delay,
    };
    line_report(alloc, net, lines, links, totals)
}

// The report of the run under actuated control in the world with a store.
fn report_spill(
    alloc: Global,
    net: &Network,
    arrivals: &Arrivals,
    store: &Store,
) -> Result<Vec<u8>, AllocError>
    requires arrivals { AreArrivals net.now arrivals.now }
    requires store { length store.now ≡ length net.now.link_names }
    ensures { IfOk result (λ text. IsSpillReport net.now (arriving_of arrivals.now) store.now text.items) }
{
    law_of_network(net);
    let run = spill_run(alloc, net, arrivals, store)?;
    let lines = Lines {
        all: run.timelines.as_slice(),
    };
    let links = spill_links(alloc, net, arrivals, store, &lines)?;
    let text = report_text(alloc, net, &run, links.as_slice())?;
    Ok(text)
}

/// `spill NET ARR STORE actuated`: the report of the run under actuated control which senses the world whose
/// links hold what the store says, with the network, the arrivals and the store in the files. Its greens are lawful and the
/// network is safe under them; its totals are those of that world. It is read as the sheet of these. It has no plans and no board
/// steps.
///
/// docs/FORMATS.md, "Words".
#[derive(Clone, Copy)]
pub struct SpillActuatedWork<'a> {
    /// The file of the network.
    pub net: &'a str,
    /// The file of the arrivals at it.
    pub arr: &'a str,
    /// The file of the store.
    pub store: &'a str,
}

impl Work for SpillActuatedWork<'_> {
    ghost use Rattle.controller_jobs.specs.Meanings.{spill_actuated_meaning};

    ghost means = { λ work. spill_actuated_meaning work.net.now work.arr.now work.store.now };

    fn make<S: Shelf>(&self, alloc: Global, shelf: &mut S) -> Result<Made, Refusal> {
        let read = fetch_scene_with::<StoreFile, S>(alloc, shelf, self.net, self.arr, self.store)?;
        let scene = &read.scene;
        let text = report_spill(alloc, &scene.network, &scene.arrivals, &read.value)?;
        Ok(Made::Done(text))
    }
}
