//! What clusters cost at the least that are not yet served: between two arrivals it is linear in the second.

ghost use Rattle.std.specs.Prelude.{◌≡◌, ℕ, ◌≤◌, All, length, slice_index, sum_by};
ghost use Rattle.switch_rules.specs.{Bounds.latest_time, Bounds.most_clusters, Serving.IsCluster};
ghost use Rattle.schedule_meaning.specs.Instances.{IsSpaced, list_at};
ghost use Rattle.dp_certificate.specs.{LowerBound.IsLinear, LowerBound.IsShallow, LowerBound.most_rest, Proves.rest_of, Proves.wait_until};

use super::Entry;
use schedule_meaning::Instance;
use switch_rules::{Cluster, LATEST_TIME};

/// From one second up to another, what each second costs: a steepness for each second, less an offset.
#[derive(Clone, Copy)]
struct LinearCost {
    from: u32,
    to: u32,
    steepness: u64,
    offset: u64,
}

/// What clusters of one instance cost at the least that are not yet served, for the counts that were last asked for:
/// found anew only where other counts are asked for, or where a cluster begins or ceases to wait.
///
/// docs/RULES.md, "Bounded table".
#[derive(Clone, Copy)]
pub struct RemainingCost {
    counts: [u8; 4],
    line: LinearCost,
}

impl RemainingCost {
    ghost use Rattle.std.specs.Prelude.{◌≡◌, ◌↔◌, ℕ, ◌≤◌, IsTrue, length, slice_index};
    ghost use Rattle.switch_rules.specs.Bounds.{latest_time};
    ghost use Rattle.schedule_meaning.specs.Instances.{Problem, list_at};
    ghost use Rattle.dp_certificate.specs.{Limits.IsWithin, LowerBound.IsRemainingCost, NextEntry.stage_of_next, Proves.rest_of};

    /// Nothing was asked for yet, of any instance.
    ///
    /// docs/RULES.md, "Bounded table".
    pub fn new() -> RemainingCost
        ensures { (p : Problem) → IsRemainingCost p result }
    {
        RemainingCost {
            counts: [0; 4],
            line: LinearCost {
                from: 1,
                to: 0,
                steepness: 0,
                offset: 0,
            },
        }
    }

    /// Whether the delay of an entry, with what is left at the least, is not above a limit, where there is one. Its `at` is
    /// at most 104,000.
    ///
    /// docs/RULES.md, "Bounded table".
    #[inline]
    pub fn is_within(&mut self, i: &Instance, entry: &Entry, limit: Option<u64>) -> bool
        requires remaining { IsRemainingCost i.now self.old }
        requires counts { (k : ℕ) → slice_index entry.now.counts k ≤ length (list_at i.now.lists k) }
        requires at { entry.now.at ≤ latest_time }
        ensures value { IsTrue result ↔ IsWithin i.now limit (stage_of_next entry.now) }
        ensures remaining { IsRemainingCost i.now self.new }
    {
        match limit {
            Some(most) => {
                entry.delay <= most && self.rest(i, &entry.counts, entry.at) <= most - entry.delay
            }
            None => true,
        }
    }

    /// What the clusters that are not yet served cost at the least, when the green is free at this second.
    #[inline]
    fn rest(&mut self, i: &Instance, counts: &[u8; 4], at: u32) -> u64
        requires remaining { IsRemainingCost i.now self.old }
        requires counts { (k : ℕ) → slice_index counts.now k ≤ length (list_at i.now.lists k) }
        requires at { at ≤ latest_time }
        ensures value { result ≡ rest_of i.now counts.now at }
        ensures remaining { IsRemainingCost i.now self.new }
    {
        if self.counts == *counts && self.line.from <= at && at <= self.line.to {
            return self.line.steepness * u64::from(at) - self.line.offset;
        }
        let line = linear_cost(i, counts, at);
        self.counts = *counts;
        self.line = line;
        line.steepness * u64::from(at) - line.offset
    }
}

/// What the clusters that are not yet served cost at the least, when the green is free at this second, at most 104,000:
/// each waits until then. In thousandths of a vehicle times weight times seconds.
///
/// docs/RULES.md, "Certificate".
pub fn rest_of(i: &Instance, counts: &[u8; 4], at: u32) -> u64
    requires counts { (k : ℕ) → slice_index counts.now k ≤ length (list_at i.now.lists k) }
    requires at { at ≤ latest_time }
    ensures value { result ≡ rest_of i.now counts.now at }
    ensures bounds { result ≤ most_rest }
{
    let line = linear_cost(i, counts, at);
    line.steepness * u64::from(at) - line.offset
}

/// What is left of all phases, at this second and at those round it between which no cluster begins to wait.
fn linear_cost(i: &Instance, counts: &[u8; 4], at: u32) -> LinearCost
    requires counts { (k : ℕ) → slice_index counts.now k ≤ length (list_at i.now.lists k) }
    requires at { at ≤ latest_time }
    ensures line { IsLinear (λ t. rest_of i.now counts.now t) result }
    ensures from { result.from ≤ at }
    ensures to { at ≤ result.to }
    ensures small { IsShallow 4 result }
{
    let mut line = LinearCost {
        from: 0,
        to: LATEST_TIME,
        steepness: 0,
        offset: 0,
    };
    for phase in 0..i.plan().count() {
        let served = usize::from(counts[phase as usize]);
        let other = list_cost(&i.list(phase)[served..], at);
        line = LinearCost {
            from: line.from.max(other.from),
            to: line.to.min(other.to),
            steepness: line.steepness + other.steepness,
            offset: line.offset + other.offset,
        };
    }
    line
}

/// What the clusters of a list cost, at this second and at those round it between which none begins to wait.
fn list_cost(list: &[Cluster], at: u32) -> LinearCost
    requires few { length list.now ≤ most_clusters }
    requires clusters { All IsCluster list.now }
    requires spaced { IsSpaced list.now }
    requires at { at ≤ latest_time }
    ensures line { IsLinear (λ t. sum_by (wait_until t) list.now) result }
    ensures from { result.from ≤ at }
    ensures to { at ≤ result.to }
    ensures small { IsShallow 1 result }
{
    let mut from = 0;
    let mut steepness = 0;
    let mut offset = 0;
    for cluster in list {
        if cluster.arr >= at {
            return LinearCost {
                from,
                to: cluster.arr,
                steepness,
                offset,
            };
        }
        from = cluster.arr;
        steepness += u64::from(cluster.load);
        offset += u64::from(cluster.load) * u64::from(cluster.arr);
    }
    LinearCost {
        from,
        to: LATEST_TIME,
        steepness,
        offset,
    }
}
