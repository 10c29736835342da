//! Planners, and the plain one.

ghost use Rattle.std.specs.Prelude.{◌≡◌, ◌<◌, ◌^◌, ℕ, ◌++◌, List, IfOk, OnOk, Some, sum};
ghost use Rattle.std.specs.Option.{option_map};
ghost use Rattle.switch_rules.specs.Orders.{orders};
ghost use Rattle.schedule_meaning.specs.{Best.IsBest, Best.IsLeast, Choice.best_after, Choice.better, Timing.IsUnderWay, Timing.onward, Timing.timed_from, Timing.timing, declared.planners.Answer.Answer};

use super::instances::Instance;
use super::replays::next_cluster;
use foundation::items::Items;
use foundation::steps::Steps;
use foundation::threads::CrossesThreads;
use std::alloc::{AllocError, Global};
use std::marker::Brand;
use std::sync::ledger::{Blank, Ledger};
use switch_rules::{Head, serve};

/// What a planner answers.
///
/// docs/RULES.md, "Best answer".
#[derive(Drop)]
pub enum Answer {
    /// The best sequence of phases, and its weighted delay in thousandths of a vehicle times weight times seconds.
    Plan { sequence: Items<u8>, delay: u64 },
    /// No sequence is feasible.
    NoPlan,
}

impl CrossesThreads for Answer {}

/// Finds the best answer of an instance. All planners have this one contract.
///
/// docs/RULES.md, "Best answer".
pub trait Planner {
    /// The sequence of least weighted delay, and of several that reach it the lexicographically first; or
    /// no plan, exactly where no sequence is feasible. `Err`: out of memory.
    fn best<L: Ledger>(
        &mut self,
        alloc: Global,
        i: &Instance,
        steps: &mut Steps<L>,
    ) -> Result<Answer, AllocError>
        ensures best { IfOk result (IsBest i.now) }
        ensures least { IfOk result (IsLeast i.now) }
        // No other answer is the best: all planners answer the same.
        ensures only { IfOk result (λ answer. (other : Answer) → IsBest i.now other → other ≡ answer) };
}

/// The plain planner: it walks along all orders of the clusters, and keeps the best.
///
/// docs/RULES.md, "Best answer".
#[derive(Clone, Copy)]
pub struct PlainPlanner;

impl CrossesThreads for PlainPlanner {}

impl Planner for PlainPlanner {
    fn best<L: Ledger>(
        &mut self,
        alloc: Global,
        i: &Instance,
        steps: &mut Steps<L>,
    ) -> Result<Answer, AllocError> {
        let mut counts = [0; 4];
        let left = &mut counts[..i.plan().count() as usize];
        i.count(left);
        let mut sequence = Vec::new(alloc);
        let mut best = Answer::NoPlan;
        walk_on(i, left, i.head(), 0, &mut sequence, &mut best, steps)?;
        Ok(best)
    }
}

/// Walks along all orders of the clusters that are left, after a sequence that reached this head
/// with this delay, and keeps the best of them and the best so far.
fn walk_on<L: Ledger>(
    i: &Instance,
    left: &mut [u32],
    head: Head,
    delay: u64,
    sequence: &mut Vec<u8>,
    best: &mut Answer,
    steps: &mut Steps<L>,
) -> Result<(), AllocError>
    requires way { IsUnderWay i.now left.old head delay }
    requires reached { (rest : List ℕ) → timing i.now (sequence.old.items ++ rest)
        ≡ option_map (onward delay) (timed_from i.now left.old head rest) }
    ensures left { OnOk result (left.new ≡ left.old) }
    ensures sequence { OnOk result (sequence.new.items ≡ sequence.old.items) }
    ensures best { OnOk result (best.new ≡ best_after i.now sequence.old.items best.old (orders left.old)) }
{
    if total_left(left) == 0 {
        return keep_better(best, sequence, delay);
    }
    for phase in 0..i.plan().count() {
        if left[phase as usize] == 0 {
            continue;
        }
        let cluster = next_cluster(i, phase, left);
        if let Ok((served, next)) = serve(i.plan(), &head, phase, cluster, steps) {
            left[phase as usize] -= 1;
            sequence.push(phase)?;
            walk_on(i, left, next, delay + served.cost, sequence, best, steps)?;
            sequence.pop();
            left[phase as usize] += 1;
        }
    }
    Ok(())
}

/// How many clusters are left in all.
fn total_left(left: &[u32]) -> u32
    requires { sum left.now < 2 ^ 32 }
    ensures { result ≡ sum left.now }
{
    left.iter().sum()
}

/// Keeps a feasible sequence where its delay is less than that of the best so far.
fn keep_better(best: &mut Answer, sequence: &Vec<u8>, delay: u64) -> Result<(), AllocError>
    ensures { OnOk result (best.new ≡ better best.old sequence.now.items (Some delay)) }
{
    if let Answer::Plan { delay: least, .. } = best
        && *least <= delay
    {
        return Ok(());
    }
    *best = Answer::Plan {
        sequence: Items::from_vec(sequence.clone()?),
        delay,
    };
    Ok(())
}

/// The best answer of an instance by this planner, for callers that count no steps. `Err`: out of memory.
///
/// docs/RULES.md, "Best answer".
pub fn best_answer<P: Planner>(
    alloc: Global,
    planner: &mut P,
    i: &Instance,
) -> Result<Answer, AllocError>
    ensures best { IfOk result (IsBest i.now) }
    ensures least { IfOk result (IsLeast i.now) }
    ensures only { IfOk result (λ answer. (other : Answer) → IsBest i.now other → other ≡ answer) }
{
    best_in_ledger::<P, Brand>(alloc, planner, i, Blank::new(1))
}

/// The best answer of an instance, its steps counted in the ledger of this blank.
fn best_in_ledger<P: Planner, L: Ledger>(
    alloc: Global,
    planner: &mut P,
    i: &Instance,
    blank: Blank,
) -> Result<Answer, AllocError>
    requires name { blank.name ≡ L.name }
    requires parts { blank.parts ≡ L.parts }
    requires some { 0 < L.parts }
    ensures best { IfOk result (IsBest i.now) }
    ensures least { IfOk result (IsLeast i.now) }
    ensures only { IfOk result (λ answer. (other : Answer) → IsBest i.now other → other ≡ answer) }
{
    let mut steps = Steps::<L>::new(blank);
    planner.best(alloc, i, &mut steps)
}
