//! Whether rows are a lawful timeline of a plan. Their seconds are any numbers, so nothing is added to them.

ghost use Rattle.std.specs.Prelude.{◌↔◌, ℕ, ◌+◌, ◌-◌, ◌<◌, ◌≤◌, IsTrue, All, length};
ghost use Rattle.std.specs.List.{range_with_len};
ghost use Rattle.phase_plan.specs.Phases.{IsMarkedAt, between};
ghost use Rattle.control_flow.specs.Greens.{Follows, IsGreen, IsLawful, row_at};

use super::greens::Green;
use phase_plan::PhasePlan;

/// Whether a row is a green of the plan: of one of its phases, and at least as long as the least and at most as long as
/// the greatest green of that phase. The seconds of the row are any.
///
/// docs/RULES.md, "Timeline".
pub fn is_green(plan: &PhasePlan, row: &Green) -> bool
    ensures { IsTrue result ↔ IsGreen plan.now row.now }
{
    if row.phase >= plan.count() || row.to <= row.from {
        return false;
    }
    let times = plan.phase(row.phase);
    let long = row.to - row.from;
    times.least <= long && long <= times.greatest
}

/// Whether a row may follow one of a phase of the plan: it is of another phase, all phases between, going up the ring,
/// are marked, and it begins, at the earliest, after the yellow and the clear time of that row. The seconds of both
/// rows are any.
///
/// docs/RULES.md, "Timeline".
pub fn follows(plan: &PhasePlan, before: &Green, next: &Green) -> bool
    requires { before.now.phase < length plan.now }
    ensures { IsTrue result ↔ Follows plan.now before.now next.now }
{
    let times = plan.phase(before.phase);
    before.to <= next.from
        && times.yellow + times.clear <= next.from - before.to
        && next.phase != before.phase
        && are_marked_between(plan, before.phase, next.phase)
}

/// Whether all phases between these two, going up the ring, are marked.
fn are_marked_between(plan: &PhasePlan, leaving: u8, wanted: u8) -> bool
    requires { leaving < length plan.now }
    ensures { IsTrue result ↔ All (IsMarkedAt plan.now) (between plan.now leaving wanted) }
{
    let count = plan.count();
    if leaving < wanted {
        are_marked(plan, leaving + 1, wanted)
    } else {
        are_marked(plan, leaving + 1, count) && are_marked(plan, 0, wanted)
    }
}

/// Whether all phases from `low` up to `high` are marked.
fn are_marked(plan: &PhasePlan, low: u8, high: u8) -> bool
    requires { low ≤ high }
    ensures { IsTrue result ↔ All (IsMarkedAt plan.now) (range_with_len low (high - low)) }
{
    for phase in low..high {
        if !is_marked(plan, phase) {
            return false;
        }
    }
    true
}

/// Whether a phase with this number is one of the plan, and marked.
fn is_marked(plan: &PhasePlan, phase: u8) -> bool
    ensures { IsTrue result ↔ IsMarkedAt plan.now phase }
{
    phase < plan.count() && plan.phase(phase).skip
}

/// Whether rows are a lawful timeline of the plan: each is a green of it, and each but the first follows the one before
/// it. The seconds of the rows are any.
///
/// docs/RULES.md, "Timeline".
pub fn is_lawful(plan: &PhasePlan, rows: &[Green]) -> bool
    ensures { IsTrue result ↔ IsLawful plan.now rows.now }
{
    are_greens(plan, rows) && all_follow(plan, rows)
}

/// Whether each row is a green of the plan.
fn are_greens(plan: &PhasePlan, rows: &[Green]) -> bool
    ensures { IsTrue result ↔ All (IsGreen plan.now) rows.now }
{
    rows.iter().all(|row| is_green(plan, row))
}

/// Whether each of these greens of the plan but the first follows the one before it.
fn all_follow(plan: &PhasePlan, rows: &[Green]) -> bool
    requires { All (IsGreen plan.now) rows.now }
    ensures { IsTrue result ↔ ((k : ℕ) → k + 1 < length rows.now
        → Follows plan.now (row_at rows.now k) (row_at rows.now (k + 1))) }
{
    for k in 1..rows.len() {
        if !follows(plan, &rows[k - 1], &rows[k]) {
            return false;
        }
    }
    true
}
