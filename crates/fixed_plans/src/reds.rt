//! How long phases are red under a fixed plan.
ghost use Rattle.std.specs.Prelude.{◌≡◌, ℕ, ◌<◌, List, IfOk, length, map};
ghost use Rattle.std.specs.List.{range_with_len};
ghost use Rattle.fixed_plans.specs.{Cycles.IsCycle, Lines.fixed_line, Reds.AreReds, Reds.fixed_red, Rows.IsFixedPlan, declared.rows.FixedRow.FixedRow};
ghost use Rattle.fixed_plans.specs.Reds as spec;
ghost use Rattle.net_parts.specs.{Numbers.Net, Outline.plan_at};
ghost use Rattle.net_simulator.specs.Sums.{end_of_run};
ghost use Rattle.road_net.specs.Network.{IsNetwork};

use crate::bounds::row_of;
use crate::cycles::{cycle_length, rows_of};
use crate::plan::FixedPlan;
use crate::rows::FixedRow;
use phase_plan::PhasePlan;
use road_net::Network;
use std::alloc::{AllocError, Global};

/// The seconds from the end of a green of each phase of a node to the begin of its next one under a fixed plan, or none where the
/// phase has no row; by phase. The plan is one of the network. `Err`: out of memory.
///
/// docs/RULES.md, "How long a queue can wait".
pub fn fixed_reds(
    alloc: Global,
    net: &Network,
    plan: &FixedPlan,
    node: u32,
) -> Result<Vec<Option<u32>>, AllocError>
    requires plan { IsFixedPlan net.now plan.now }
    requires node { node < length net.now.node_names }
    ensures { IfOk result (λ reds. reds.items
        ≡ map (fixed_red net.now plan.now node) (range_with_len 0 (length (plan_at net.now node)))) }
{
    let phases = net.plan(node);
    let cycle = rows_of(alloc, plan.rows(), node)?;
    let mut reds = Vec::new(alloc);
    for phase in 0..phases.count() {
        reds.push(cycle_red(phases, cycle.as_slice(), phase))?;
    }
    Ok(reds)
}

/// How long each red of a phase is in a cycle, or none where it has no row.
fn cycle_red(plan: &PhasePlan, cycle: &[FixedRow], phase: u8) -> Option<u32>
    requires { IsCycle plan.now cycle.now }
    ensures { result ≡ spec.cycle_red plan.now cycle.now phase }
{
    match row_of(cycle, u32::from(phase)) {
        Some(row) => Some(cycle_length(plan, cycle).saturating_sub(row.green)),
        None => None,
    }
}

/// Under a fixed plan each red of a phase that has a row is as long as `fixed_reds` says, from its first green on: that many seconds
/// after the end of a green of it the next one begins, and none before.
///
/// docs/RULES.md, "How long a queue can wait".
pub fn law_of_fixed_reds()
    ensures { (net : Net) → IsNetwork net → (rows : List FixedRow) → IsFixedPlan net rows
        → AreReds net (fixed_red net rows) (fixed_line net rows) (end_of_run net) }
{}
