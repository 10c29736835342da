//! The timelines of a fixed plan.
ghost use Rattle.std.specs.Prelude.{◌≡◌, ◌+◌, ◌-◌, ◌%◌, ◌<◌, ◌≤◌, ◌++◌, ◌∷◌, [], ℕ, nat_lt, if◌then◌else◌, IfOk, OnOk, length, map, slice_index_or};
ghost use Rattle.std.specs.List.{range_with_len};
ghost use Rattle.fixed_plans.specs.{Cycles.IsCycle, FixedBounds.fixed_bounds, Lines.cycle_length, Lines.cycle_line, Lines.fixed_line, Lines.green_of, Lines.offset_of, Rows.IsFixedPlan};
ghost use Rattle.net_parts.specs.{Limits.most_seconds, Outline.plan_at};
ghost use Rattle.control_flow.specs.Greens.{IsLawful, end_of};
ghost use Rattle.net_simulator.specs.{Shown.cumulative_of_lines, Worlds.line_in};
ghost use Rattle.net_simulator.specs.Sums as sums;
ghost use Rattle.phase_plan.specs.Phases.{IsRing};
ghost use Rattle.fixed_plans.specs.Lines as spec;
ghost use Rattle.waits.specs.Discharges.{AreWaitsWithin};

use crate::plan::FixedPlan;
use crate::rows::FixedRow;
use control_flow::greens::{Green, Timeline};
use net_simulator::end_of_run;
use phase_plan::PhasePlan;
use road_net::{Network, law_of_network};
use std::alloc::{AllocError, Global};

/// The timeline of each node under a fixed plan, by node. Every green is followed by its yellow and its clear time,
/// and then by the next green of the node's cycle. A cycle begins at the offset, and whole cycles before and after it;
/// of the cycles before, the greens count that begin at second 0 or later. Each timeline ends after the run. Where they
/// are shown, each queue of a link without a walk loses something within the bound of its phase under the plan, where it has one.
///
/// The plan is one of the network. `Err`: out of memory.
///
/// docs/RULES.md, "Fixed plan".
pub fn fixed_lines(
    alloc: Global,
    net: &Network,
    plan: &FixedPlan,
) -> Result<Vec<Timeline>, AllocError>
    requires { IsFixedPlan net.now plan.now }
    ensures value { IfOk result (λ lines. lines.items
        ≡ map (fixed_line net.now plan.now) (range_with_len 0 (length net.now.node_names))) }
    ensures lawful { IfOk result (λ lines. (node : ℕ) → node < length net.now.node_names
        → IsLawful (plan_at net.now node) (line_in lines.items node)) }
    ensures end { IfOk result (λ lines. (node : ℕ) → node < length net.now.node_names
        → sums.end_of_run net.now < end_of (line_in lines.items node)) }
    ensures waits { IfOk result (λ lines. (arriving : ℕ → ℕ → ℕ)
        → AreWaitsWithin net.now (fixed_bounds net.now plan.now)
        (cumulative_of_lines net.now arriving lines.items) (sums.end_of_run net.now)) }
{
    law_of_network(net);
    let mut lines = Vec::new(alloc);
    for node in 0..net.nodes() {
        lines.push(node_line(alloc, net, plan.rows(), node)?)?;
    }
    Ok(lines)
}

/// The timeline of a node.
fn node_line(
    alloc: Global,
    net: &Network,
    rows: &[FixedRow],
    node: u32,
) -> Result<Timeline, AllocError>
    requires plan { IsFixedPlan net.now rows.now }
    requires node { node < length net.now.node_names }
    ensures value { IfOk result (λ line. line ≡ fixed_line net.now rows.now node) }
    ensures lawful { IfOk result (IsLawful (plan_at net.now node)) }
    ensures end { IfOk result (λ line. sums.end_of_run net.now < end_of line) }
{
    let own = rows_of(alloc, rows, node)?;
    cycle_line(alloc, net.plan(node), own.as_slice(), end_of_run(net))
}

/// The rows of a node.
pub(crate) fn rows_of(
    alloc: Global,
    rows: &[FixedRow],
    node: u32,
) -> Result<Vec<FixedRow>, AllocError>
    ensures { IfOk result (λ own. own.items ≡ spec.rows_of rows.now node) }
{
    let mut own = Vec::new(alloc);
    for row in rows {
        if row.node == node {
            own.push(*row)?;
        }
    }
    Ok(own)
}

/// The timeline of the rows of a node, up to one cycle after `end`.
fn cycle_line(
    alloc: Global,
    plan: &PhasePlan,
    cycle: &[FixedRow],
    end: u32,
) -> Result<Timeline, AllocError>
    requires cycle { IsCycle plan.now cycle.now }
    requires end { end ≤ most_seconds }
    ensures value { IfOk result (λ line. line ≡ cycle_line plan.now cycle.now end) }
    ensures lawful { IfOk result (IsLawful plan.now) }
    ensures end { IfOk result (λ line. end < end_of line) }
{
    // Called for its clause `ring`.
    let _ = plan.count();
    let length = cycle_length(plan, cycle);
    let lead = length - cycle[0].offset % length;
    let until = lead + end + length;
    let mut rows = Vec::new(alloc);
    let mut at = 0;
    let mut index = 0;
    while at < until {
        let row = cycle[index];
        add_green(&row, at, lead, &mut rows)?;
        at += span(plan, &row);
        index = next_index(index, cycle.len());
    }
    Ok(Timeline::from_rows(rows))
}

/// How long a cycle of these rows is.
pub(crate) fn cycle_length(plan: &PhasePlan, cycle: &[FixedRow]) -> u32
    requires { IsCycle plan.now cycle.now }
    ensures value { result ≡ cycle_length plan.now cycle.now }
    ensures bounds { result ≤ 1040 }
{
    // Called for its clause `ring`.
    let _ = plan.count();
    let mut length = 0;
    for row in cycle {
        length += span(plan, row);
    }
    length
}

/// From the begin of the green of a row to that of the next one.
fn span(plan: &PhasePlan, row: &FixedRow) -> u32
    requires phase { row.now.phase < length plan.now }
    requires green { row.now.green ≤ 240 }
    ensures value { result ≡ spec.span plan.now row.now }
    ensures some { 0 < result }
    ensures bounds { result ≤ 260 }
{
    // Called for its clause `ring`.
    let _ = plan.count();
    let times = plan.phase(row.phase as u8);
    row.green + times.yellow + times.clear
}

/// The place after this one in a cycle of `count` rows.
fn next_index(index: usize, count: usize) -> usize
    requires { index < count }
    ensures { result ≡ if nat_lt (index + 1) count then index + 1 else 0 }
{
    if index + 1 < count { index + 1 } else { 0 }
}

/// Adds the green of a row that begins `at` seconds after a second that is `lead` seconds before second 0, where it
/// begins at second 0 or later.
fn add_green(row: &FixedRow, at: u32, lead: u32, rows: &mut Vec<Green>) -> Result<(), AllocError>
    requires phase { row.now.phase < 4 }
    requires green { row.now.green ≤ 240 }
    requires at { at ≤ 100000 }
    ensures { OnOk result (rows.new.items ≡ rows.old.items
        ++ (if nat_lt at lead then [] else green_of (at - lead) row.now ∷ [])) }
{
    if at < lead {
        return Ok(());
    }
    let from = at - lead;
    rows.push(Green {
        phase: row.phase as u8,
        from,
        to: from + row.green,
    })?;
    Ok(())
}
