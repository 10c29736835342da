//! The best answer out of the whole table: backwards over its entries, what completes each at the least cost.

ghost use Rattle.std.specs.Prelude.{◌≡◌, ℕ, ◌+◌, ◌*◌, ◌^◌, ◌<◌, ◌≤◌, List, IfNone, IfOk, IfSome, None, length};
ghost use Rattle.schedule_meaning.specs.{Best.IsBest, Best.IsLeast, Instances.IsInstance};
ghost use Rattle.dp_certificate.specs.{Certificates.entry_at, Prefixes.first_stage, Prefixes.stage_after, Proves.stage_of_entry, Whole.IsWhole};
ghost use Rattle.forward_dp.specs.Completions.{AreCompletions, Follows, IsAfter, IsBestBelow, IsBetter, IsCompletion, IsFollowed, cost_of};
ghost use Rattle.forward_dp.specs.declared.completions.Completion.{Completion as Line};

use crate::table::first_row;
use dp_certificate::{Entry, is_all_served, next_after, place_of};
use foundation::items::Items;
use foundation::steps::Steps;
use schedule_meaning::{Answer, Instance};
use std::alloc::{AllocError, Global};
use std::sync::ledger::Ledger;
use switch_rules::MOST_CLUSTERS;

/// What completes the sequences that reach a key, at the least cost, and of several the first in lexicographic order.
#[derive(Clone, Copy)]
enum Completion {
    /// Nothing completes them.
    Never,
    /// They are complete.
    Complete,
    /// A phase, and then what completes the entry this many places before the last.
    By { cost: u64, phase: u8, next: usize },
}

impl Completion {
    ghost use Rattle.std.specs.Prelude.{◌≡◌};
    ghost use Rattle.forward_dp.specs.Completions.{cost_of};

    /// What it costs, where something completes them.
    fn cost(&self) -> Option<u64>
        ensures { result ≡ cost_of self.now }
    {
        match self {
            Completion::Never => None,
            Completion::Complete => Some(0),
            Completion::By { cost, .. } => Some(*cost),
        }
    }
}

/// The best answer of an instance, out of its whole table of entries: for each entry, from the last one back, the least
/// cost of completing it is found with the first phase that has it; then these phases are followed from the first
/// entry on.
///
/// There are at most as many servings as phases for each entry. `Err`: out of memory.
///
/// docs/RULES.md, "Layers in pieces".
pub fn answer_of<L: Ledger>(
    alloc: Global,
    i: &Instance,
    entries: &[Entry],
    steps: &mut Steps<L>,
) -> Result<Answer, AllocError>
    requires { IsWhole i.now entries.now }
    ensures best { IfOk result (IsBest i.now) }
    ensures least { IfOk result (IsLeast i.now) }
    ensures servings { steps.new ≤ steps.old + length i.now.plan * length entries.now }
{
    let all = completions(alloc, i, entries, steps)?;
    let first = first_of(i, entries, all.as_slice());
    let Some(delay) = first.cost() else {
        return Ok(Answer::NoPlan);
    };
    let sequence = follow(alloc, all.as_slice(), first)?;
    Ok(Answer::Plan {
        sequence: Items::from_vec(sequence),
        delay,
    })
}

/// What completes the first stage.
fn first_of(i: &Instance, entries: &[Entry], all: &[Completion]) -> Completion
    requires whole { IsWhole i.now entries.now }
    requires all { AreCompletions i.now entries.now all.now }
    requires count { length all.now ≡ length entries.now }
    ensures completion { IsCompletion i.now all.now (first_stage i.now) result }
    ensures instance { IsInstance i.now }
{
    let place = place_of(entries, &first_row(i).entry, 0);
    all[entries.len() - 1 - place]
}

/// What completes each entry, from the last one back.
fn completions<L: Ledger>(
    alloc: Global,
    i: &Instance,
    entries: &[Entry],
    steps: &mut Steps<L>,
) -> Result<Vec<Completion>, AllocError>
    requires { IsWhole i.now entries.now }
    ensures all { IfOk result (λ v. AreCompletions i.now entries.now v.items) }
    ensures count { IfOk result (λ v. length v.items ≡ length entries.now) }
    ensures servings { steps.new ≤ steps.old + length i.now.plan * length entries.now }
{
    law_of_instance(i);
    let mut all = Vec::with_capacity(alloc, entries.len())?;
    let mut near = [0; 4];
    for place in (0..entries.len()).rev() {
        let completion = cheapest(i, entries, place, all.as_slice(), &mut near, steps);
        all.push(completion)?;
    }
    Ok(all)
}

/// What completes the entry at a place, where it is known what completes those after it.
fn cheapest<L: Ledger>(
    i: &Instance,
    entries: &[Entry],
    place: usize,
    later: &[Completion],
    near: &mut [usize; 4],
    steps: &mut Steps<L>,
) -> Completion
    requires lawful { IsInstance i.now }
    requires whole { IsWhole i.now entries.now }
    requires place { length later.now + place + 1 ≡ length entries.now }
    requires later { AreCompletions i.now entries.now later.now }
    ensures completion { IsCompletion i.now later.now (stage_of_entry i.now (entry_at entries.now place)) result }
    ensures servings { steps.new ≤ steps.old + length i.now.plan }
{
    let mut best = before_any(i, entries, place);
    for phase in 0..i.plan().count() {
        let after = place_after(i, entries, place, phase, near, steps);
        if let Some((there, cost)) = after {
            let far = entries.len() - 1 - there;
            best = better(&best, phase, cost, far, &later[far]);
        }
    }
    best
}

/// What completes the entry at a place without a serving.
fn before_any(i: &Instance, entries: &[Entry], place: usize) -> Completion
    requires lawful { IsInstance i.now }
    requires whole { IsWhole i.now entries.now }
    requires place { place < length entries.now }
    ensures { (all : List Line) → IsBestBelow i.now all (stage_of_entry i.now (entry_at entries.now place)) 0 result }
{
    if is_all_served(i, &entries[place].counts) {
        Completion::Complete
    } else {
        Completion::Never
    }
}

/// The place of the entry that is next by a phase after the one at a place, and what its serving costs; none where it
/// is unfit. It is sought from the place on where the last one by this phase was.
fn place_after<L: Ledger>(
    i: &Instance,
    entries: &[Entry],
    place: usize,
    phase: u8,
    near: &mut [usize; 4],
    steps: &mut Steps<L>,
) -> Option<(usize, u64)>
    requires lawful { IsInstance i.now }
    requires whole { IsWhole i.now entries.now }
    requires place { place < length entries.now }
    requires phase { phase < length i.now.plan }
    ensures none { IfNone result
        (stage_after i.now (stage_of_entry i.now (entry_at entries.now place)) phase ≡ None) }
    ensures some { IfSome result (λ x. IsAfter i.now entries.now place phase x.0 x.1) }
    ensures servings { steps.new ≤ steps.old + 1 }
{
    let entry = &entries[place];
    let next = next_after(i, entry, phase, steps)?;
    let there = place_of(entries, &next, near[phase as usize]);
    near[phase as usize] = there;
    Some((there, next.delay - entry.delay))
}

/// What is lent is an instance.
fn law_of_instance(i: &Instance)
    ensures { IsInstance i.now }
{
    let _ = i.plan();
}

/// The better of a completion and the one by a phase at this cost, which another completion goes on from: the former
/// where they cost the same.
fn better(best: &Completion, phase: u8, cost: u64, next: usize, rest: &Completion) -> Completion
    requires { IfSome (cost_of rest.now) (λ left. cost + left < 2 ^ 64) }
    ensures { IsBetter best.now phase cost next rest.now result }
{
    let Some(left) = rest.cost() else {
        return *best;
    };
    let cost = cost + left;
    match best.cost() {
        Some(least) if least <= cost => *best,
        _ => Completion::By { cost, phase, next },
    }
}

/// The phases that completions give from one on.
fn follow(alloc: Global, all: &[Completion], first: Completion) -> Result<Vec<u8>, AllocError>
    requires { IsFollowed all.now first 40 }
    ensures { IfOk result (λ v. (cost : ℕ) × Follows all.now first v.items cost) }
{
    let mut sequence = Vec::with_capacity(alloc, MOST_CLUSTERS as usize)?;
    let mut here = first;
    for _ in 0..MOST_CLUSTERS {
        let Completion::By { phase, next, .. } = here else {
            return Ok(sequence);
        };
        sequence.push(phase)?;
        here = all[next];
    }
    Ok(sequence)
}
