//! Within how many seconds queues lose something under a fixed plan.
ghost use Rattle.std.specs.Prelude.{◌≡◌, ◌<◌, ◌≤◌, ◌==◌, find, option_copied, IfOk, length, map};
ghost use Rattle.std.specs.List.{range_with_len};
ghost use Rattle.fixed_plans.specs.{Cycles.IsCycle, FixedBounds.green_bound, Rows.IsFixedPlan};
ghost use Rattle.fixed_plans.specs.FixedBounds as spec;
ghost use Rattle.net_parts.specs.Outline.{plan_at};
ghost use Rattle.phase_plan.specs.Phases.{IsPhase};

use crate::cycles::{cycle_length, rows_of};
use crate::plan::FixedPlan;
use crate::rows::FixedRow;
use phase_plan::{Phase, PhasePlan};
use road_net::Network;
use std::alloc::{AllocError, Global};
use waits::NoBound;

/// Within how many seconds each queue of each phase of a node, of a link without a walk, loses something under a fixed plan, or why
/// there is no such bound; by phase. The plan is one of the network. `Err`: out of memory.
///
/// docs/RULES.md, "How long a queue can wait".
pub fn fixed_bounds(
    alloc: Global,
    net: &Network,
    plan: &FixedPlan,
    node: u32,
) -> Result<Vec<Result<u32, NoBound>>, AllocError>
    requires plan { IsFixedPlan net.now plan.now }
    requires node { node < length net.now.node_names }
    ensures { IfOk result (λ bounds. bounds.items
        ≡ map (spec.fixed_bounds net.now plan.now node) (range_with_len 0 (length (plan_at net.now node)))) }
{
    let phases = net.plan(node);
    let cycle = rows_of(alloc, plan.rows(), node)?;
    let mut bounds = Vec::new(alloc);
    for phase in 0..phases.count() {
        bounds.push(cycle_bound(phases, cycle.as_slice(), phase))?;
    }
    Ok(bounds)
}

/// Within how many seconds each queue of a phase, of a link without a walk, loses something in a cycle, or why there is no such bound.
fn cycle_bound(plan: &PhasePlan, cycle: &[FixedRow], phase: u8) -> Result<u32, NoBound>
    requires cycle { IsCycle plan.now cycle.now }
    requires phase { phase < length plan.now }
    ensures { result ≡ spec.cycle_bound plan.now cycle.now phase }
{
    match row_of(cycle, u32::from(phase)) {
        Some(row) => row_bound(plan.phase(phase), cycle_length(plan, cycle), row.green),
        None => Err(NoBound::Marked),
    }
}

/// The row of a phase, if it has one.
pub(crate) fn row_of(cycle: &[FixedRow], phase: u32) -> Option<&FixedRow>
    ensures { option_copied result ≡ find (λ row. row.phase == phase) cycle.now }
{
    cycle.iter().find(|row| row.phase == phase)
}

/// The same for a phase whose green lasts so long, in a cycle of this length.
fn row_bound(times: &Phase, length: u32, green: u32) -> Result<u32, NoBound>
    requires times { IsPhase times.now }
    requires length { length ≤ 1040 }
    ensures { result ≡ green_bound times.now.loss length green }
{
    if times.loss < green {
        Ok(length + times.loss + 1)
    } else {
        Err(NoBound::ShortGreen)
    }
}
