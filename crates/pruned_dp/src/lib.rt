//! The best answer of an instance by a smaller table: what is kept has less delay at the least than serving all as
//! they arrive, or as much.
#![tactic(auto)]

ghost use Rattle.std.specs.Prelude.{◌≡◌, ◌+◌, ◌*◌, ◌≤◌, List, length, sum, IfOk};
ghost use Rattle.switch_rules.specs.Bounds.{most_clusters, most_entries};
ghost use Rattle.schedule_meaning.specs.{Best.IsBest, Best.IsLeast, Instances.counts_of, declared.planners.Answer.Answer};
ghost use Rattle.dp_certificate.specs.{Numbers.sequence_of, Proves.Proves, declared.Entry.Entry};
ghost use Rattle.pruned_dp.specs.Bounded.{IsBounded};

mod arrivals;

use arrivals::arrival_delay;
use dp_certificate::Certificate;
use forward_dp::{Lists, certify_within, layered_in};
use foundation::steps::Steps;
use foundation::threads::CrossesThreads;
use schedule_meaning::{Answer, Instance, Planner};
use std::alloc::{AllocError, Global};
use std::sync::ledger::Ledger;

/// The best answer of an instance, by its bounded table: the sequence in order of arrival is timed first, and where
/// it is feasible nothing is kept whose delay, with what the clusters that are left cost at the least, is above that
/// sequence's.
///
/// It takes at most as many steps, for each entry of the bounded table, as the instance has phases, and one for each
/// cluster; also where it fails. `Err`: out of memory.
///
/// docs/RULES.md, "Bounded table".
pub fn bounded<L: Ledger>(
    alloc: Global,
    i: &Instance,
    steps: &mut Steps<L>,
) -> Result<Answer, AllocError>
    ensures best { IfOk result (IsBest i.now) }
    ensures least { IfOk result (IsLeast i.now) }
    ensures servings { (entries : List Entry) → IsBounded i.now entries
        → steps.new ≤ steps.old + length i.now.plan * length entries + sum (counts_of i.now.lists) }
{
    bounded_in(alloc, &mut Lists::new(alloc), i, steps)
}

/// The best answer of an instance by its bounded table, made in these lists.
fn bounded_in<L: Ledger>(
    alloc: Global,
    lists: &mut Lists,
    i: &Instance,
    steps: &mut Steps<L>,
) -> Result<Answer, AllocError>
    ensures best { IfOk result (IsBest i.now) }
    ensures least { IfOk result (IsLeast i.now) }
    ensures servings { (entries : List Entry) → IsBounded i.now entries
        → steps.new ≤ steps.old + length i.now.plan * length entries + sum (counts_of i.now.lists) }
{
    let limit = arrival_delay(alloc, i, steps)?;
    layered_in(alloc, lists, i, limit, steps)
}

/// The bounded table with the best answer: a certificate with those entries of the whole table whose delay, with what the
/// clusters that are left cost at the least, is not above the delay of the sequence in order of arrival; with all entries
/// where that sequence is not feasible. It proves its answer.
///
/// It takes at most as many steps, for each entry, as the instance has phases, and one for each cluster. `Err`: out
/// of memory.
///
/// docs/RULES.md, "Bounded table".
pub fn certify_bound<L: Ledger>(
    alloc: Global,
    i: &Instance,
    steps: &mut Steps<L>,
) -> Result<Certificate, AllocError>
    ensures instance { IfOk result (λ c. c.problem ≡ i.now) }
    ensures bounded { IfOk result (λ c. IsBounded i.now c.entries) }
    ensures best { IfOk result (λ c. IsBest i.now c.answer) }
    ensures proves { IfOk result Proves }
    ensures few { IfOk result (λ c. (length c.entries ≤ most_entries)
        × (length (sequence_of c.answer) ≤ most_clusters)) }
    ensures servings { (entries : List Entry) → IsBounded i.now entries
        → steps.new ≤ steps.old + length i.now.plan * length entries + sum (counts_of i.now.lists) }
{
    let limit = arrival_delay(alloc, i, steps)?;
    certify_within(alloc, i, limit, steps)
}

/// The planner that answers by `bounded`, in as few steps. It keeps the lists of its tables from one planning to the
/// next.
///
/// docs/RULES.md, "Bounded table".
#[derive(Drop)]
pub struct BoundPlanner {
    lists: Lists,
}

impl CrossesThreads for BoundPlanner {}

impl BoundPlanner {
    ghost use Rattle.std.specs.Prelude.{◌≡◌, IfOk, length};

    /// A planner that has not planned yet. It takes no memory.
    ///
    /// docs/RULES.md, "Bounded table".
    pub fn new(alloc: Global) -> BoundPlanner {
        BoundPlanner {
            lists: Lists::new(alloc),
        }
    }

    /// This many planners that have not planned yet. `Err`: out of memory.
    ///
    /// docs/RULES.md, "Bounded table".
    pub fn many(alloc: Global, count: usize) -> Result<Vec<BoundPlanner>, AllocError>
        ensures { IfOk result (λ planners. length planners.items ≡ count) }
    {
        let mut planners = Vec::with_capacity(alloc, count)?;
        for _planner in 0..count {
            planners.push(BoundPlanner::new(alloc))?;
        }
        Ok(planners)
    }
}

impl Planner for BoundPlanner {
    fn best<L: Ledger>(
        &mut self,
        alloc: Global,
        i: &Instance,
        steps: &mut Steps<L>,
    ) -> Result<Answer, AllocError>
        ensures best { IfOk result (IsBest i.now) }
        ensures least { IfOk result (IsLeast i.now) }
        ensures only { IfOk result (λ answer. (other : Answer) → IsBest i.now other → other ≡ answer) }
        ensures servings { (entries : List Entry) → IsBounded i.now entries
            → steps.new ≤ steps.old + length i.now.plan * length entries + sum (counts_of i.now.lists) }
    {
        bounded_in(alloc, &mut self.lists, i, steps)
    }
}
