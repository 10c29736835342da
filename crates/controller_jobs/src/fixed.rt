//! The command `fixed NET ARR PLAN`.
ghost use Rattle.std.specs.Prelude.{◌≡◌, ◌≤◌, ℕ, IfOk};
ghost use Rattle.arrivals.specs.Amounts.{AreArrivals, arriving_of};
ghost use Rattle.net_parts.specs.Limits.{most_of_all};
ghost use Rattle.audit.specs.{Audits.IsClean, Audits.IsCleanText, LineReports.line_text, LineRuns.sheet_of, LineRuns.shown_sheet, SheetTexts.HasShape};
ghost use Rattle.controller_jobs.specs.Controllers.{IsFixedReport, fixed_timelines};
ghost use Rattle.fixed_plans.specs.{FixedBounds.fixed_bounds, Rows.IsFixedPlan};
ghost use Rattle.net_simulator.specs.{Shown.cumulative_of_lines, Sums.end_of_run, Sums.total_arrived, Worlds.line_in};
ghost use Rattle.signal_safety.specs.Safe.{IsSafe};
ghost use Rattle.waits.specs.Discharges.{AreWaitsWithin};

use crate::kinds::PlanFile;
use arrivals::Arrivals;
use audit::{LineRun, line_report, run_lines};
use commands::{Made, Refusal, Work};
use fixed_plans::{FixedPlan, fixed_lines};
use outside_world::Shelf;
use road_net::{Network, law_of_network};
use scene_jobs::fetch_scene_with;
use std::alloc::{AllocError, Global};

/// The run of a network under a fixed plan of it, with all that it keeps. `Err`: out of memory.
pub(crate) fn fixed_run(
    alloc: Global,
    net: &Network,
    arrivals: &Arrivals,
    plan: &FixedPlan,
) -> Result<LineRun, AllocError>
    requires arrivals { AreArrivals net.now arrivals.now }
    requires plan { IsFixedPlan net.now plan.now }
    ensures value { IfOk result (λ run. sheet_of run
        ≡ shown_sheet net.now (arriving_of arrivals.now) (fixed_timelines net.now plan.now)) }
    ensures shape { IfOk result (λ run. HasShape net.now (sheet_of run)) }
    ensures clean { IfOk result (λ run. IsClean net.now (arriving_of arrivals.now) (sheet_of run)) }
    ensures safe { IfOk result (λ run. IsSafe net.now (line_in run.timelines)) }
    ensures waits { IfOk result (λ run. AreWaitsWithin net.now (fixed_bounds net.now plan.now)
        (cumulative_of_lines net.now (arriving_of arrivals.now) run.timelines) (end_of_run net.now)) }
{
    let lines = fixed_lines(alloc, net, plan)?;
    run_lines(alloc, net, arrivals, lines)
}

// The report of a run of given lines.
fn run_report(alloc: Global, net: &Network, run: &LineRun) -> Result<Vec<u8>, AllocError>
    requires { HasShape net.now (sheet_of run.now) }
    ensures text { IfOk result (λ text. text.items ≡ line_text net.now (sheet_of run.now)) }
    ensures clean { (arriving : ℕ → ℕ → ℕ) → ((n : ℕ) → total_arrived net.now arriving n ≤ most_of_all)
        → IsClean net.now arriving (sheet_of run.now)
        → IfOk result (λ text. IsCleanText net.now arriving text.items) }
{
    let lines = run.timelines.as_slice();
    let links = run.links.as_slice();
    line_report(alloc, net, lines, links, run.totals)
}

// The report of the run under a fixed plan.
fn report_fixed(
    alloc: Global,
    net: &Network,
    arrivals: &Arrivals,
    plan: &FixedPlan,
) -> Result<Vec<u8>, AllocError>
    requires arrivals { AreArrivals net.now arrivals.now }
    requires plan { IsFixedPlan net.now plan.now }
    ensures { IfOk result (λ text. IsFixedReport net.now (arriving_of arrivals.now) plan.now text.items) }
{
    law_of_network(net);
    let run = fixed_run(alloc, net, arrivals, plan)?;
    let text = run_report(alloc, net, &run)?;
    Ok(text)
}

/// `fixed NET ARR PLAN`: the report of the run under the fixed plan in the third file, with the network and the
/// arrivals in the first two. Its greens are lawful and the network is safe under them; it has no plans and no board steps.
///
/// docs/FORMATS.md, "Words".
#[derive(Clone, Copy)]
pub struct FixedWork<'a> {
    /// The file of the network.
    pub net: &'a str,
    /// The file of the arrivals at it.
    pub arr: &'a str,
    /// The file of the fixed plan.
    pub plan: &'a str,
}

impl Work for FixedWork<'_> {
    ghost use Rattle.controller_jobs.specs.Meanings.{fixed_meaning};

    ghost means = { λ work. fixed_meaning work.net.now work.arr.now work.plan.now };

    fn make<S: Shelf>(&self, alloc: Global, shelf: &mut S) -> Result<Made, Refusal> {
        let read = fetch_scene_with::<PlanFile, S>(alloc, shelf, self.net, self.arr, self.plan)?;
        let scene = &read.scene;
        let text = report_fixed(alloc, &scene.network, &scene.arrivals, &read.value)?;
        Ok(Made::Done(text))
    }
}
