//! The timeline from a head by what calls for each phase.

ghost use Rattle.std.specs.Prelude.{◌≡◌, ℕ, ◌+◌, ◌<◌, ◌≤◌, IfOk, length, nat_lt};
ghost use Rattle.std.specs.List.{list_any};
ghost use Rattle.phase_plan.specs.Phases.{phase_at};
ghost use Rattle.switch_rules.specs.{Bounds.latest_time, Serving.IsHead, Serving.earliest_end};
ghost use Rattle.control_flow.specs.Greens.{AreApart, BeginBy, GoesOn, IsLawful, end_of};
ghost use Rattle.actuated.specs.Calls as spec;
ghost use Rattle.actuated.specs.Calls.{act_line, another_calls, held_until};

use control_flow::greens::Timeline;
use control_flow::rotation_by_calls;
use phase_plan::PhasePlan;
use std::alloc::{AllocError, Global};
use switch_rules::{Head, earliest_end};

/// The timeline from a head by what calls for each phase: the green of the head is held as long as it may while its
/// phase is called or no other is, and else ends as soon as it may. Then the ring turns, each green of its least
/// length, until one ends after second `until`; it stops at the phases that are unmarked or called, or, where no other is,
/// at the next one.
///
/// The head is one of the plan, `at` and `until` are at most 104,000, and there is a number for each phase. `Err`:
/// out of memory.
///
/// docs/RULES.md, "Actuated control".
pub fn act_line(
    alloc: Global,
    plan: &PhasePlan,
    head: &Head,
    calls: &[u32],
    until: u32,
) -> Result<Timeline, AllocError>
    requires head { IsHead plan.now head.now }
    requires reach { head.now.at ≤ latest_time }
    requires until { until ≤ latest_time }
    requires calls { length calls.now ≡ length plan.now }
    ensures value { IfOk result (λ line. line ≡ act_line plan.now head.now calls.now until) }
    ensures lawful { IfOk result (λ line. IsLawful plan.now line) }
    ensures apart { IfOk result (λ line. AreApart plan.now line) }
    ensures begin { IfOk result (λ line. GoesOn head.now line) }
    ensures end { IfOk result (λ line. until < end_of line) }
    ensures begins_by { (n : ℕ) → head.now.since ≤ n → until + 20 ≤ n → IfOk result (BeginBy n) }
{
    let to = held_until(plan, head, calls);
    rotation_by_calls(alloc, plan, head, to, calls, until)
}

/// When the green of a head ends.
fn held_until(plan: &PhasePlan, head: &Head, calls: &[u32]) -> u32
    requires head { IsHead plan.now head.now }
    requires reach { head.now.at ≤ latest_time }
    requires calls { length calls.now ≡ length plan.now }
    ensures value { result ≡ held_until plan.now head.now calls.now }
    ensures earliest { earliest_end plan.now head.now ≤ result }
    ensures latest { result ≤ head.now.since + (phase_at plan.now head.now.phase).greatest }
{
    // Called for its clause `ring`.
    let _ = plan.count();
    if is_held(calls, head.phase) {
        head.since + plan.phase(head.phase).greatest
    } else {
        earliest_end(plan, head)
    }
}

/// Whether a green is held: its phase is called, or no other is.
fn is_held(calls: &[u32], phase: u8) -> bool
    requires { phase < length calls.now }
    ensures { result ≡ spec.is_held calls.now phase }
{
    calls[phase as usize] > 0 || !another_calls(calls, phase)
}

/// Whether another phase than this is called.
fn another_calls(calls: &[u32], phase: u8) -> bool
    requires { phase < length calls.now }
    ensures { result ≡ another_calls calls.now phase }
{
    let phase = phase as usize;
    any_calls(&calls[..phase]) || any_calls(&calls[phase + 1..])
}

/// Whether any of these is above 0.
fn any_calls(calls: &[u32]) -> bool
    ensures { result ≡ list_any (nat_lt 0) calls.now }
{
    calls.iter().any(|call| *call > 0)
}
