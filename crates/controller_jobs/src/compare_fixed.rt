//! The command `compare NET ARR PLAN`.
ghost use Rattle.std.specs.Prelude.{◌≡◌, IfOk};
ghost use Rattle.arrivals.specs.Amounts.{AreArrivals, arriving_of};
ghost use Rattle.net_simulator.specs.Shown.{all_shown};
ghost use Rattle.controller_jobs.specs.Controllers.{IsComparisonWith, fixed_timelines};
ghost use Rattle.fixed_plans.specs.Rows.{IsFixedPlan};

use super::compare::comparison;
use super::fixed::fixed_run;
use crate::kinds::PlanFile;
use arrivals::Arrivals;
use bounded_runs::push_totals;
use commands::{Made, Refusal, Work};
use fixed_plans::FixedPlan;
use net_simulator::Totals;
use outside_world::Shelf;
use road_net::Network;
use scene_jobs::fetch_scene_with;
use std::alloc::{AllocError, Global};

// The totals of the run under a fixed plan.
fn fixed_totals(
    alloc: Global,
    net: &Network,
    arrivals: &Arrivals,
    plan: &FixedPlan,
) -> Result<Totals, AllocError>
    requires arrivals { AreArrivals net.now arrivals.now }
    requires plan { IsFixedPlan net.now plan.now }
    ensures { IfOk result (λ totals. totals
        ≡ all_shown net.now (arriving_of arrivals.now) (fixed_timelines net.now plan.now)) }
{
    let run = fixed_run(alloc, net, arrivals, plan)?;
    Ok(run.totals)
}

// The totals of all three runs.
fn comparison_with(
    alloc: Global,
    net: &Network,
    arrivals: &Arrivals,
    plan: &FixedPlan,
) -> Result<Vec<u8>, AllocError>
    requires arrivals { AreArrivals net.now arrivals.now }
    requires plan { IsFixedPlan net.now plan.now }
    ensures { IfOk result (λ text. IsComparisonWith net.now (arriving_of arrivals.now) plan.now text.items) }
{
    let mut text = comparison(alloc, net, arrivals)?;
    let of_rows = fixed_totals(alloc, net, arrivals, plan)?;
    push_totals(&mut text, b"fixed", &of_rows)?;
    Ok(text)
}

/// `compare NET ARR PLAN`: what `compare NET ARR` does, and what the run under the fixed plan in the third file
/// counts in all. It says nothing of which makes less delay.
///
/// docs/FORMATS.md, "Words".
#[derive(Clone, Copy)]
pub struct CompareFixedWork<'a> {
    /// The file of the network.
    pub net: &'a str,
    /// The file of the arrivals at it.
    pub arr: &'a str,
    /// The file of the fixed plan.
    pub plan: &'a str,
}

impl Work for CompareFixedWork<'_> {
    ghost use Rattle.controller_jobs.specs.Meanings.{compare_fixed_meaning};

    ghost means = { λ work. compare_fixed_meaning work.net.now work.arr.now work.plan.now };

    fn make<S: Shelf>(&self, alloc: Global, shelf: &mut S) -> Result<Made, Refusal> {
        let read = fetch_scene_with::<PlanFile, S>(alloc, shelf, self.net, self.arr, self.plan)?;
        let scene = &read.scene;
        let text = comparison_with(alloc, &scene.network, &scene.arrivals, &read.value)?;
        Ok(Made::Done(text))
    }
}
