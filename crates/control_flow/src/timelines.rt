//! The timeline of a plan of servings, and that of no plan.

ghost use Rattle.std.specs.Prelude.{◌≡◌, ℕ, ◌+◌, ◌-◌, ◌<◌, ◌≤◌, ◌++◌, ◌||◌, filter, length, All, OnOk, IfOk};
ghost use Rattle.std.specs.List.{range_with_len};
ghost use Rattle.phase_plan.specs.Phases.{IsRing, is_unmarked_at, passed_numbers, phase_at};
ghost use Rattle.switch_rules.specs.{Bounds.latest_time, Serving.IsHead, Serving.earliest_end, Serving.earliest_green};
ghost use Rattle.control_flow.specs.Greens.{AreApart, BeginBy, GoesOn, IsLawful, end_of};
ghost use Rattle.control_flow.specs.Timelines.{AreServings, HasGreens, line_of, rotation_of, turned, left_for, last_end, shortest_greens, begin_after, stops_at};

use super::greens::{Green, Timeline};
use super::ring::turn;
use phase_plan::PhasePlan;
use std::alloc::{AllocError, Global};
use switch_rules::{Head, Served, earliest_end};

/// The timeline of servings, one after another from a head: each serving has its green, the first row is the green of
/// the head, and the last row ends after second `until`.
///
/// The head is one of the plan, and `at` and `until` are at most 104,000. `Err`: out of memory. The
/// two lists are the phases and the servings of one feasible sequence from that head.
///
/// docs/RULES.md, "Timeline".
pub fn timeline(
    alloc: Global,
    plan: &PhasePlan,
    head: &Head,
    phases: &[u8],
    served: &[Served],
    until: u32,
) -> Result<Timeline, AllocError>
    requires head { IsHead plan.now head.now }
    requires reach { head.now.at ≤ latest_time }
    requires until { until ≤ latest_time }
    requires servings { AreServings plan.now head.now phases.now served.now }
    ensures value { IfOk result (λ line. line ≡ line_of plan.now head.now phases.now served.now until) }
    ensures greens { IfOk result (λ line. HasGreens line phases.now served.now) }
    ensures lawful { IfOk result (λ line. IsLawful plan.now line) }
    ensures apart { IfOk result (λ line. AreApart plan.now line) }
    ensures begin { IfOk result (λ line. GoesOn head.now line) }
    ensures end { IfOk result (λ line. until < end_of line) }
    ensures begins_by { (n : ℕ) → head.now.since ≤ n → until + 20 ≤ n → All (λ s. s.green ≤ n) served.now
        → IfOk result (BeginBy n) }
{
    // Called for its clause: the phases are those of a ring.
    law_of_rings(plan);
    let mut rows = Vec::with_capacity(alloc, phases.len() + 2 * usize::from(plan.count()))?;
    let mut current = *head;
    for (index, phase) in phases.iter().enumerate() {
        let next = &served[index];
        if !next.kept {
            leave(plan, &current, *phase, next.green, &mut rows)?;
        }
        current = Head {
            phase: *phase,
            since: next.green,
            at: next.finish,
            fresh: false,
        };
    }
    let latest = current.since + plan.phase(current.phase).greatest;
    turn(plan, &[], &current, latest, until, &mut rows)?;
    Ok(Timeline::from_rows(rows))
}

/// The timeline with no plan: the green of the head ends as soon as it may, and then the ring turns, each green of its
/// least length, until one ends after second `until`.
///
/// The head is one of the plan, and `at` and `until` are at most 104,000. `Err`: out of memory.
///
/// docs/RULES.md, "Timeline".
pub fn rotation(
    alloc: Global,
    plan: &PhasePlan,
    head: &Head,
    until: u32,
) -> Result<Timeline, AllocError>
    requires head { IsHead plan.now head.now }
    requires reach { head.now.at ≤ latest_time }
    requires until { until ≤ latest_time }
    ensures value { IfOk result (λ line. line ≡ rotation_of plan.now head.now until) }
    ensures lawful { IfOk result (λ line. IsLawful plan.now line) }
    ensures apart { IfOk result (λ line. AreApart plan.now line) }
    ensures begin { IfOk result (λ line. GoesOn head.now line) }
    ensures end { IfOk result (λ line. until < end_of line) }
    ensures begins_by { (n : ℕ) → head.now.since ≤ n → until + 20 ≤ n → IfOk result (BeginBy n) }
{
    // Called for its clause: the phases are those of a ring.
    law_of_rings(plan);
    let earliest = earliest_end(plan, head);
    rotation_by_calls(alloc, plan, head, earliest, &[], until)
}

/// The timeline of a green that ends at a given second: the green of the head ends at `to`, and then the ring turns,
/// each green of its least length, until one ends after second `until`. The ring stops at the phases that are
/// unmarked or called: those with a number above 0 in `calls`, where a phase without a number has 0. Where no other than
/// the present one is, it goes to the phase after it.
///
/// The head is one of the plan, and `at` and `until` are at most 104,000. `to` is not before the green may end, nor
/// after it has to. `Err`: out of memory.
///
/// docs/RULES.md, "Timeline".
pub fn rotation_by_calls(
    alloc: Global,
    plan: &PhasePlan,
    head: &Head,
    to: u32,
    calls: &[u32],
    until: u32,
) -> Result<Timeline, AllocError>
    requires head { IsHead plan.now head.now }
    requires reach { head.now.at ≤ latest_time }
    requires earliest { earliest_end plan.now head.now ≤ to }
    requires latest { to ≤ head.now.since + (phase_at plan.now head.now.phase).greatest }
    requires until { until ≤ latest_time }
    ensures value { IfOk result (λ line. line ≡ turned plan.now (stops_at plan.now calls.now) head.now to until) }
    ensures lawful { IfOk result (λ line. IsLawful plan.now line) }
    ensures apart { IfOk result (λ line. AreApart plan.now line) }
    ensures begin { IfOk result (λ line. GoesOn head.now line) }
    ensures end { IfOk result (λ line. until < end_of line) }
    ensures begins_by { (n : ℕ) → head.now.since ≤ n → until + 20 ≤ n → IfOk result (BeginBy n) }
{
    // Called for its clause: the phases are those of a ring.
    law_of_rings(plan);
    let mut rows = Vec::with_capacity(alloc, 8)?;
    turn(plan, calls, head, to, until, &mut rows)?;
    Ok(Timeline::from_rows(rows))
}

/// The phases are those of a ring.
fn law_of_rings(plan: &PhasePlan)
    ensures { IsRing plan.now }
{
    let _ = plan.count();
}

/// Adds the green of a head that is left for a wanted green of a phase from `begin` on, and greens of the phases that
/// the ring passes on the way.
fn leave(
    plan: &PhasePlan,
    head: &Head,
    phase: u8,
    begin: u32,
    rows: &mut Vec<Green>,
) -> Result<(), AllocError>
    requires ring { IsRing plan.now }
    requires head { IsHead plan.now head.now }
    requires reach { head.now.at ≤ latest_time }
    requires phase { phase < length plan.now }
    requires begin { earliest_green plan.now head.now phase ≤ begin }
    ensures { OnOk result (rows.new.items ≡ rows.old.items
        ++ left_for plan.now head.now (last_end plan.now head.now phase begin)
        (passed_numbers plan.now head.now.phase phase)) }
{
    let times = plan.phase(head.phase);
    let in_time = begin - plan.switch_time(head.phase, phase);
    let latest = (head.since + times.greatest).min(in_time);
    let end = earliest_end(plan, head).max(latest);
    rows.push(Green {
        phase: head.phase,
        from: head.since,
        to: end,
    })?;
    pass(
        plan,
        head.phase,
        phase,
        end + times.yellow + times.clear,
        rows,
    )
}

/// Adds greens of the phases that the ring passes between two phases, each of its least length, from `from` on.
fn pass(
    plan: &PhasePlan,
    leaving: u8,
    wanted: u8,
    from: u32,
    rows: &mut Vec<Green>,
) -> Result<(), AllocError>
    requires ring { IsRing plan.now }
    requires leaving { leaving < length plan.now }
    requires wanted { wanted < length plan.now }
    requires from { from ≤ 105000 }
    ensures { OnOk result (rows.new.items
        ≡ rows.old.items ++ shortest_greens plan.now from (passed_numbers plan.now leaving wanted)) }
{
    let all = plan.passes_all(leaving, wanted);
    if leaving < wanted {
        add_shortest(plan, leaving + 1, wanted, all, from, rows)?;
    } else {
        let from = add_shortest(plan, leaving + 1, plan.count(), all, from, rows)?;
        add_shortest(plan, 0, wanted, all, from, rows)?;
    }
    Ok(())
}

/// Adds greens of the unmarked phases from `low` up to `high`, or of all, each of its least length, from `from` on; the
/// second at which the next green can begin.
fn add_shortest(
    plan: &PhasePlan,
    low: u8,
    high: u8,
    all: bool,
    from: u32,
    rows: &mut Vec<Green>,
) -> Result<u32, AllocError>
    requires ring { IsRing plan.now }
    requires low { low ≤ high }
    requires high { high ≤ length plan.now }
    requires from { from ≤ 106000 }
    ensures rows { OnOk result (rows.new.items
        ≡ rows.old.items ++ shortest_greens plan.now from (filter (λ k. is_unmarked_at plan.now k || all) (range_with_len low (high - low)))) }
    ensures behind { IfOk result (λ next. next
        ≡ begin_after plan.now from (filter (λ k. is_unmarked_at plan.now k || all) (range_with_len low (high - low)))) }
    ensures bounds { IfOk result (λ next. next ≤ from + 560) }
{
    let mut from = from;
    for phase in low..high {
        if !is_shown(plan, phase, all) {
            continue;
        }
        let times = plan.phase(phase);
        let to = from + times.least;
        rows.push(Green { phase, from, to })?;
        from = to + times.yellow + times.clear;
    }
    Ok(from)
}

/// Whether the ring shows a green of a phase that it passes: of an unmarked one, or of each.
fn is_shown(plan: &PhasePlan, phase: u8, all: bool) -> bool
    requires { phase < length plan.now }
    ensures { result ≡ (is_unmarked_at plan.now phase || all) }
{
    !plan.phase(phase).skip || all
}
