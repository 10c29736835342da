//! Greens of the ring as it turns.

ghost use Rattle.std.specs.Prelude.{◌≡◌, ℕ, ◌-◌, ◌<◌, ◌≤◌, ◌++◌, filter, length, slice_get, OnOk};
ghost use Rattle.std.specs.List.{range_with_len};
ghost use Rattle.phase_plan.specs.Phases as ring;
ghost use Rattle.phase_plan.specs.Phases.{IsRing, first_up};
ghost use Rattle.switch_rules.specs.Bounds.{latest_time};
ghost use Rattle.control_flow.specs.Timelines as spec;
ghost use Rattle.control_flow.specs.Timelines.{calls_for, green_after, stops_at, turned};

use super::greens::Green;
use phase_plan::PhasePlan;
use std::alloc::AllocError;
use switch_rules::Head;

/// Adds the green of a head up to `to`, and then greens of the ring, each of its least length, until one ends after
/// `until`. The ring stops at the phases that are unmarked or called; where no other is, it goes to the next one.
pub(crate) fn turn(
    plan: &PhasePlan,
    calls: &[u32],
    head: &Head,
    to: u32,
    until: u32,
    rows: &mut Vec<Green>,
) -> Result<(), AllocError>
    requires ring { IsRing plan.now }
    requires phase { head.now.phase < length plan.now }
    requires to { to ≤ 105000 }
    requires until { until ≤ latest_time }
    ensures { OnOk result (rows.new.items
        ≡ rows.old.items ++ turned plan.now (stops_at plan.now calls.now) head.now to until) }
{
    let mut last = Green {
        phase: head.phase,
        from: head.since,
        to,
    };
    rows.push(last)?;
    while last.to <= until {
        last = green_after(plan, calls, &last);
        rows.push(last)?;
    }
    Ok(())
}

/// The green of the first phase up the ring after a row that is unmarked or called, or of the next one, as early as it
/// may be, of its least length.
fn green_after(plan: &PhasePlan, calls: &[u32], row: &Green) -> Green
    requires ring { IsRing plan.now }
    requires phase { row.now.phase < length plan.now }
    requires to { row.now.to ≤ latest_time }
    ensures value { result ≡ green_after plan.now (stops_at plan.now calls.now) row.now.phase row.now.to }
    ensures phase { result.phase < length plan.now }
    ensures later { row.now.to < result.to }
    ensures bounds { result.to ≤ 105000 }
{
    let times = plan.phase(row.phase);
    let phase = next_stop(plan, calls, row.phase);
    let from = row.to + times.yellow + times.clear;
    Green {
        phase,
        from,
        to: from + plan.phase(phase).least,
    }
}

/// The first phase up the ring from phase `s` that is unmarked or called; the one after `s` where no other is.
fn next_stop(plan: &PhasePlan, calls: &[u32], s: u8) -> u8
    requires ring { IsRing plan.now }
    requires phase { s < length plan.now }
    ensures value { result ≡ first_up plan.now (stops_at plan.now calls.now) s }
    ensures bounds { result < length plan.now }
{
    if calls.is_empty() {
        return plan.next(s);
    }
    first_up(plan, calls, s)
}

/// The first phase up the ring from phase `s` that is unmarked or called, or the one after `s`, by a search.
fn first_up(plan: &PhasePlan, calls: &[u32], s: u8) -> u8
    requires ring { IsRing plan.now }
    requires phase { s < length plan.now }
    ensures { result ≡ ring.first_up plan.now (stops_at plan.now calls.now) s }
{
    match first_stop(plan, calls, s + 1, plan.count()) {
        Some(k) => k,
        None => first_stop(plan, calls, 0, s).unwrap_or(one_up(plan, s)),
    }
}

/// The phase after `s` up the ring.
fn one_up(plan: &PhasePlan, s: u8) -> u8
    requires { s < length plan.now }
    ensures { result ≡ ring.one_up plan.now s }
{
    let count = plan.count();
    if s + 1 < count { s + 1 } else { 0 }
}

/// The first phase from `low` up to `high` that is unmarked or called.
fn first_stop(plan: &PhasePlan, calls: &[u32], low: u8, high: u8) -> Option<u8>
    requires low { low ≤ high }
    requires high { high ≤ length plan.now }
    ensures { result ≡ slice_get (filter (stops_at plan.now calls.now) (range_with_len low (high - low))) 0 }
{
    for phase in low..high {
        if stops_at(plan, calls, phase) {
            return Some(phase);
        }
    }
    None
}

/// Whether a phase is unmarked or called.
fn stops_at(plan: &PhasePlan, calls: &[u32], phase: u8) -> bool
    requires { phase < length plan.now }
    ensures { result ≡ spec.stops_at plan.now calls.now phase }
{
    !plan.phase(phase).skip || is_called(calls, phase)
}

/// Whether a phase is called: it has a number above 0.
fn is_called(calls: &[u32], phase: u8) -> bool
    ensures { result ≡ calls_for calls.now phase }
{
    match calls.get(phase as usize) {
        Some(call) => *call > 0,
        None => false,
    }
}
