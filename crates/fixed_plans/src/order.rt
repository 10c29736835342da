//! Which row may come after another one.
ghost use Rattle.std.specs.Prelude.{◌≡◌, ◌↔◌, ◌<◌, ◌≤◌, IfSome, IsTrue, length};
ghost use Rattle.fixed_plans.specs.Rows as spec;
ghost use Rattle.fixed_plans.specs.{Readers.IsPlaced, Rows.AreMarked, Rows.ComesNext, Rows.HasGreen, Rows.HasOffset, Rows.IsEnd, Rows.IsFirstFrom, Rows.IsLastRow};

use crate::rows::{Before, FixedRow};
use phase_plan::PhasePlan;
use road_net::Network;

/// The greatest offset, in seconds.
const GREATEST_OFFSET: u32 = 17_999;

/// Whether a row comes next after the row before it.
pub(crate) fn comes_next(net: &Network, before: Option<Before>, row: &FixedRow) -> bool
    requires node { row.now.node < length net.now.node_names }
    requires before { IfSome before (IsPlaced net.now) }
    ensures { IsTrue result ↔ ComesNext net.now before row.now }
{
    let plan = net.plan(row.node);
    match before {
        None => row.node == 0 && is_first_from(plan, 0, row.phase),
        Some(last) => if row.node == last.row.node {
            is_first_from(plan, last.row.phase + 1, row.phase)
        } else {
            row.node == last.row.node + 1
                && is_last(net, &last)
                && is_first_from(plan, 0, row.phase)
        },
    }
}

/// Whether a row may be the last of its node: no unmarked phase comes after its own, and it is not the only one.
pub(crate) fn is_last(net: &Network, before: &Before) -> bool
    requires { IsPlaced net.now before.now }
    ensures { IsTrue result ↔ IsLastRow net.now before.now }
{
    let plan = net.plan(before.row.node);
    !before.first && are_marked(plan, before.row.phase + 1, u32::from(plan.count()))
}

/// A row as the one before the next: whether it is the first of its node, after the row before it.
pub(crate) fn as_before(before: Option<Before>, row: FixedRow) -> Before
    ensures { result ≡ spec.as_before before row }
{
    let first = match before {
        None => true,
        Some(last) => row.node != last.row.node,
    };
    Before { row, first }
}

/// Whether this is the last row of the last node.
pub(crate) fn is_end(net: &Network, last: Option<Before>) -> bool
    requires { IfSome last (IsPlaced net.now) }
    ensures { IsTrue result ↔ IsEnd net.now last }
{
    let nodes = net.nodes();
    match last {
        None => false,
        Some(before) => before.row.node + 1 == nodes && is_last(net, &before),
    }
}

/// Whether phase `k` is one from `low` on, before which from there all are marked.
fn is_first_from(plan: &PhasePlan, low: u32, k: u32) -> bool
    ensures { IsTrue result ↔ IsFirstFrom plan.now low k }
{
    low <= k && k < u32::from(plan.count()) && are_marked(plan, low, k)
}

/// Whether the phases from `low` up to `high` are marked.
fn are_marked(plan: &PhasePlan, low: u32, high: u32) -> bool
    requires { high ≤ length plan.now }
    ensures { IsTrue result ↔ AreMarked plan.now low high }
{
    // Called for its clause `ring`.
    let _ = plan.count();
    for phase in low..high {
        if !plan.phase(phase as u8).skip {
            return false;
        }
    }
    true
}

/// Whether the green of a row is within the bounds of its phase.
pub(crate) fn has_green(plan: &PhasePlan, row: &FixedRow) -> bool
    requires { row.now.phase < length plan.now }
    ensures { IsTrue result ↔ HasGreen plan.now row.now }
{
    // Called for its clause `ring`.
    let _ = plan.count();
    let times = plan.phase(row.phase as u8);
    times.least <= row.green && row.green <= times.greatest
}

/// Whether the offset of a row is within its bounds, and that of the row before it of the same node.
pub(crate) fn has_offset(before: Option<Before>, row: &FixedRow) -> bool
    ensures { IsTrue result ↔ HasOffset before row.now }
{
    match before {
        None => row.offset <= GREATEST_OFFSET,
        Some(last) => row.offset <= GREATEST_OFFSET
            && (row.node != last.row.node || row.offset == last.row.offset),
    }
}
