//! The timing of a sequence.

ghost use Rattle.std.specs.Prelude.{◌≡◌, ◌≢◌, ℕ, ◌+◌, ◌^◌, ◌<◌, ◌≤◌, All, IfNone, IfOk, IfErr, IfSome, OnErr, OnOk, take, Some, None, length, slice_index};
ghost use Rattle.foundation.specs.Firsts.{IsFirstWithout};
ghost use Rattle.switch_rules.specs.Serving.{IsCluster};
ghost use Rattle.schedule_meaning.specs.{Faults.IsSeqFault, Instances.IsInstance, Instances.counts_of, Instances.list_at, Timing.next_cluster, Timing.timed, Timing.times_of, Timing.timing};

use super::faults::SeqFault;
use super::instances::Instance;
use foundation::steps::Steps;
use foundation::threads::CrossesThreads;
use std::sync::ledger::Ledger;
use switch_rules::{Cluster, Head, serve};

/// A feasible sequence, timed: its delay, and the head after its last serving.
///
/// docs/RULES.md, "Sequence, feasibility, delay".
#[derive(Debug, Clone, Copy, PartialEq, Eq)]
pub struct Timed {
    /// Thousandths of a vehicle times weight times seconds.
    pub delay: u64,
    /// The head after the last serving; the instance's where the sequence is empty.
    pub head: Head,
}

impl CrossesThreads for Timed {}

/// Times a sequence of phases from the instance's head, in one step for each place, or up to the one that is unfit.
///
/// It is refused exactly where it is not feasible; the fault is the first in the order of `SeqFault`.
/// The sequence has fewer than 2^32 numbers.
///
/// docs/RULES.md, "Sequence, feasibility, delay".
pub fn replay<L: Ledger>(i: &Instance, seq: &[u8], steps: &mut Steps<L>) -> Result<Timed, SeqFault>
    requires { length seq.now < 2 ^ 32 }
    ensures ok { IfOk result (λ t. timing i.now seq.now ≡ Some (t.delay, t.head)) }
    ensures refused { OnErr result (timed i.now seq.now ≡ None) }
    ensures first { IfErr result (IsSeqFault i.now seq.now) }
    ensures steps { steps.new ≤ steps.old + length seq.now }
    ensures each { OnOk result (steps.new ≡ steps.old + length seq.now) }
{
    let phases = i.plan().count();
    if let Some(index) = first_unknown(seq, phases) {
        return Err(SeqFault::Phase {
            place: index as u32 + 1,
        });
    }
    if let Some(phase) = wrong_count(i, seq) {
        return Err(SeqFault::WrongCount(phase));
    }
    let mut counts = [0; 4];
    let left = &mut counts[..phases as usize];
    i.count(left);
    walk(i, seq, left, steps)
}

/// The index of the first number that is no phase.
fn first_unknown(seq: &[u8], phases: u8) -> Option<usize>
    ensures none { IfNone result (All (λ k. k < phases) seq.now) }
    ensures some { IfSome result (λ i. (i < length seq.now) × All (λ k. k < phases) (take i seq.now)
        × (phases ≤ slice_index seq.now i)) }
{
    seq.iter().position(|phase| *phase >= phases)
}

/// The least phase that the sequence has not as often as it has clusters.
fn wrong_count(i: &Instance, seq: &[u8]) -> Option<u8>
    ensures none { IfNone result ((k : ℕ) → k < length i.now.lists
        → times_of k seq.now ≡ length (list_at i.now.lists k)) }
    ensures some { IfSome result (IsFirstWithout
        (λ k. times_of k seq.now ≡ length (list_at i.now.lists k)) (length i.now.lists)) }
{
    for phase in 0..i.plan().count() {
        let times = seq.iter().filter(|named| **named == phase).count();
        if times != i.list(phase).len() {
            return Some(phase);
        }
    }
    None
}

/// Serves the clusters in the order of a sequence that names each phase as often as it has clusters.
fn walk<L: Ledger>(
    i: &Instance,
    seq: &[u8],
    left: &mut [u32],
    steps: &mut Steps<L>,
) -> Result<Timed, SeqFault>
    requires short { length seq.now < 2 ^ 32 }
    requires counts { left.old ≡ counts_of i.now.lists }
    requires all { All (λ k. k < length i.now.plan) seq.now }
    requires times { (k : ℕ) → times_of k seq.now ≡ slice_index left.old k }
    ensures ok { IfOk result (λ t. timing i.now seq.now ≡ Some (t.delay, t.head)) }
    ensures refused { OnErr result (timed i.now seq.now ≡ None) }
    ensures first { IfErr result (IsSeqFault i.now seq.now) }
    ensures steps { steps.new ≤ steps.old + length seq.now }
    ensures each { OnOk result (steps.new ≡ steps.old + length seq.now) }
{
    let mut head = i.head();
    let mut delay = 0;
    for (index, phase) in seq.iter().enumerate() {
        let cluster = next_cluster(i, *phase, left);
        match serve(i.plan(), &head, *phase, cluster, steps) {
            Ok((served, next)) => {
                left[*phase as usize] -= 1;
                delay += served.cost;
                head = next;
            }
            Err(why) => {
                return Err(SeqFault::Unfit {
                    place: index as u32 + 1,
                    why,
                });
            }
        }
    }
    Ok(Timed { delay, head })
}

/// The next cluster of a phase, given how many of each phase are left, and of this phase at least one.
///
/// docs/RULES.md, "Sequence, feasibility, delay".
pub fn next_cluster<'a>(i: &'a Instance, phase: u8, left: &[u32]) -> &'a Cluster
    requires phase { phase < length i.now.plan }
    requires lists { length left.now ≡ length i.now.plan }
    requires some { 0 < slice_index left.now phase }
    requires left { slice_index left.now phase ≤ length (list_at i.now.lists phase) }
    ensures value { next_cluster i.now.lists left.now phase ≡ Some result.now }
    ensures bounds { IsCluster result.now }
{
    let list = i.list(phase);
    &list[list.len() - left[phase as usize] as usize]
}
