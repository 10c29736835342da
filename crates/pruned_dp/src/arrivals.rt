//! The sequence in order of arrival, and its delay.

ghost use Rattle.std.specs.Prelude.{◌≡◌, ◌+◌, ◌≤◌, [], IfNone, IfOk, IfSome, length, sum};
ghost use Rattle.schedule_meaning.specs.Instances.{IsInstance, counts_of};
ghost use Rattle.pruned_dp.specs.{Arrivals.ComesNext, Arrivals.GoesByArrival, Arrivals.IsArrivalDelay, Arrivals.IsByArrival, Firsts.IsEarlier, Firsts.IsFirstOf, Firsts.IsNextArrival};

use foundation::steps::Steps;
use schedule_meaning::{Instance, replay};
use std::alloc::{AllocError, Global};
use std::sync::ledger::Ledger;
use switch_rules::{Cluster, MOST_CLUSTERS};

/// The delay of the sequence in order of arrival, in one step at most for each cluster; none where it is not
/// feasible. `Err`: out of memory.
pub(crate) fn arrival_delay<L: Ledger>(
    alloc: Global,
    i: &Instance,
    steps: &mut Steps<L>,
) -> Result<Option<u64>, AllocError>
    ensures delay { IfOk result (IsArrivalDelay i.now) }
    ensures steps { steps.new ≤ steps.old + sum (counts_of i.now.lists) }
{
    let sequence = by_arrival(alloc, i)?;
    match replay(i, sequence.as_slice(), steps) {
        Ok(timed) => Ok(Some(timed.delay)),
        Err(_) => Ok(None),
    }
}

/// The sequence in order of arrival. `Err`: out of memory.
fn by_arrival(alloc: Global, i: &Instance) -> Result<Vec<u8>, AllocError>
    ensures order { IfOk result (λ v. IsByArrival i.now v.items) }
    ensures places { IfOk result (λ v. length v.items ≡ sum (counts_of i.now.lists)) }
    ensures instance { IsInstance i.now }
{
    // Called for its clause `instance`, and not for the head.
    let _ = i.head();
    let mut sequence = Vec::with_capacity(alloc, MOST_CLUSTERS as usize)?;
    let mut counts = [0; 4];
    while let Some(phase) = next_phase(i, &counts) {
        counts[phase as usize] += 1;
        sequence.push(phase)?;
    }
    Ok(sequence)
}

/// The phase whose next cluster comes before all that are left; none where none is left.
fn next_phase(i: &Instance, counts: &[u8; 4]) -> Option<u8>
    ensures some { IfSome result (ComesNext i.now counts.now) }
    ensures none { IfNone result (GoesByArrival i.now counts.now []) }
    ensures instance { IsInstance i.now }
{
    let (_, phase) = first_left(i, counts)?;
    Some(phase)
}

/// When the cluster arrives that comes first of all that are left, and its phase; none where none is left.
fn first_left(i: &Instance, counts: &[u8; 4]) -> Option<(u32, u8)>
    ensures first { IsFirstOf i.now counts.now (length i.now.plan) result }
    ensures instance { IsInstance i.now }
{
    let mut first = None;
    for phase in 0..i.plan().count() {
        if let Some(arr) = next_arrival(i.list(phase), counts[phase as usize]) {
            first = Some(earlier(first, arr, phase));
        }
    }
    first
}

/// When the cluster after the first `served` arrives, if there is one.
fn next_arrival(list: &[Cluster], served: u8) -> Option<u32>
    ensures { IsNextArrival list.now served result }
{
    list.get(usize::from(served)).map(|cluster| cluster.arr)
}

/// The earlier of what was first so far and the cluster of a later phase.
fn earlier(first: Option<(u32, u8)>, arr: u32, phase: u8) -> (u32, u8)
    ensures { IsEarlier first arr phase result }
{
    match first {
        Some((earliest, earlier)) if earliest <= arr => (earliest, earlier),
        _ => (arr, phase),
    }
}
