//! Instances, and what makes one.

ghost use Rattle.std.specs.Prelude.{◌≡◌, ◌+◌, ◌^◌, ◌<◌, ◌≤◌, All, length, map, sum, take, IfOk, IfErr, IfNone, IfSome, IsTrue, OnOk, ◌↔◌};
ghost use Rattle.foundation.specs.Firsts.{IsFirstWithout};
ghost use Rattle.phase_plan.specs.Phases.{IsRing};
ghost use Rattle.switch_rules.specs.{Bounds.latest_arrival, Bounds.most_clusters, Bounds.most_orders, Orders.orders, Serving.IsHead, Serving.IsCluster};
ghost use Rattle.schedule_meaning.specs.{Faults.AreMany, Faults.IsBoundFault, Faults.IsHeadFault, Faults.IsOrderFault, Faults.IsSpacedAt, Instances.IsSpaced, Instances.cluster_at, Instances.counts_of};

use super::faults::InstanceFault;
use foundation::items::Items;
use foundation::threads::CrossesThreads;
use phase_plan::PhasePlan;
use std::alloc::{AllocError, Global};
use std::marker::Model;
use switch_rules::{
    Cluster, GREATEST_SIZE, GREATEST_WEIGHT, Head, LATEST_ARRIVAL, MOST_CLUSTERS, MOST_ORDERS, ways,
};

/// What one intersection plans: its phases, its signal head, and the clusters of each phase in the
/// order of their arrival, all within bounds. Contracts see it as a `Problem`.
///
/// docs/RULES.md, "Instance".
#[derive(Drop)]
pub struct Instance {
    plan: PhasePlan,
    head: Head,
    lists: Items<Items<Cluster>>,
}

impl Model for Instance {
    ghost use Rattle.schedule_meaning.specs.Instances.{Problem, IsInstance};

    ghost Value = { Problem };

    ghost view = { λ i. record { plan = i.plan; head = i.head; lists = i.lists } };

    ghost invariant = { λ i. IsInstance (record { plan = i.plan; head = i.head; lists = i.lists }) };
}

impl CrossesThreads for Instance {}

impl Instance {
    ghost use Rattle.std.specs.Prelude.{◌≡◌, ◌^◌, ◌<◌, All, length, IfOk, IfErr, OnErr, vec_len};
    ghost use Rattle.switch_rules.specs.Serving.{IsCluster};
    ghost use Rattle.schedule_meaning.specs.{Faults.IsInstanceFault, Instances.IsInstance, Instances.counts_of, Instances.list_at};

    /// The instance of these parts, where all bounds hold. The fault is the first in the order of
    /// `InstanceFault`, and there the one of the first phase and the first place. Each list has fewer
    /// than 2^32 clusters.
    ///
    /// docs/RULES.md, "Instance".
    pub fn new(
        plan: PhasePlan,
        head: Head,
        lists: Vec<Items<Cluster>>,
    ) -> Result<Instance, InstanceFault>
        requires { All (λ list. length list < 2 ^ 32) lists.items }
        ensures ok { IfOk result (λ i. (i ≡ record { plan = plan; head = head; lists = lists.items }) × IsInstance i) }
        ensures refused { OnErr result (¬ IsInstance (record { plan = plan; head = head; lists = lists.items })) }
        ensures first { IfErr result (IsInstanceFault (record { plan = plan; head = head; lists = lists.items })) }
    {
        check_head(&plan, &head)?;
        if lists.len() != plan.count() as usize {
            return Err(InstanceFault::ListCount);
        }
        check_bounds(&lists)?;
        check_order(&lists)?;
        check_number(&lists)?;
        Ok(Instance {
            plan,
            head,
            lists: Items::from_vec(lists),
        })
    }

    /// An equal instance, on this allocator. `Err`: out of memory.
    ///
    /// docs/RULES.md, "Instance".
    pub fn copy(&self, alloc: Global) -> Result<Instance, AllocError>
        ensures { IfOk result (λ copy. copy ≡ self.now) }
    {
        Ok(Instance {
            plan: self.plan.copy(alloc)?,
            head: self.head,
            lists: copy_lists(alloc, self.lists.as_slice())?,
        })
    }

    /// The phases.
    ///
    /// docs/RULES.md, "Phases".
    pub fn plan(&self) -> &PhasePlan
        ensures value { result.now ≡ self.now.plan }
        ensures instance { IsInstance self.now }
    {
        &self.plan
    }

    /// The signal head from which all sequences start.
    ///
    /// docs/RULES.md, "Head".
    pub fn head(&self) -> Head
        ensures value { result ≡ self.now.head }
        ensures instance { IsInstance self.now }
    {
        self.head
    }

    /// The clusters of a phase, in the order of their arrival; with all phases at most 40. A number that is no phase
    /// of the plan has none.
    ///
    /// docs/RULES.md, "Clusters".
    pub fn list(&self, phase: u8) -> &[Cluster]
        ensures value { result.now ≡ list_at self.now.lists phase }
        ensures bounds { All IsCluster result.now }
    {
        match self.lists.as_slice().get(phase as usize) {
            Some(list) => list.as_slice(),
            None => &[],
        }
    }

    /// The clusters of each phase, in the order of the phases.
    ///
    /// docs/RULES.md, "Clusters".
    pub fn lists(&self) -> &[Items<Cluster>]
        ensures { result.now ≡ self.now.lists }
    {
        self.lists.as_slice()
    }

    /// Writes down how many clusters each phase has, into as many places as there are phases.
    ///
    /// docs/RULES.md, "Instance".
    pub fn count(&self, counts: &mut [u32])
        requires { length counts.old ≡ length self.now.plan }
        ensures { counts.new ≡ counts_of self.now.lists }
    {
        count_clusters(self.lists.as_slice(), counts);
    }
}

/// Lists of clusters that are equal to these.
fn copy_lists(alloc: Global, lists: &[Items<Cluster>]) -> Result<Items<Items<Cluster>>, AllocError>
    ensures { IfOk result (λ copy. copy ≡ lists.now) }
{
    let mut copy = Vec::with_capacity(alloc, lists.len())?;
    for list in lists {
        copy.push(Items::from_vec(list.as_slice().to_vec(alloc)?))?;
    }
    Ok(Items::from_vec(copy))
}

/// Refuses a head whose phase is none of the plan, or whose times are out of bounds.
fn check_head(plan: &PhasePlan, head: &Head) -> Result<(), InstanceFault>
    ensures ok { OnOk result (IsRing plan.now × IsHead plan.now head.now × (head.now.since ≤ latest_arrival)) }
    ensures first { IfErr result (IsHeadFault plan.now head.now) }
{
    if head.phase >= plan.count() {
        return Err(InstanceFault::HeadPhase);
    }
    let greatest = plan.phase(head.phase).greatest;
    if head.since > LATEST_ARRIVAL || head.at < head.since || head.at - head.since > greatest {
        return Err(InstanceFault::HeadTime);
    }
    Ok(())
}

/// Refuses the first cluster that is out of bounds.
fn check_bounds(lists: &[Items<Cluster>]) -> Result<(), InstanceFault>
    requires few { length lists.now ≤ 4 }
    requires short { All (λ list. length list < 2 ^ 32) lists.now }
    ensures ok { OnOk result (All (All IsCluster) lists.now) }
    ensures first { IfErr result (IsBoundFault lists.now) }
{
    for (phase, list) in lists.iter().enumerate() {
        if let Some(index) = first_out_of_bounds(list.as_slice()) {
            return Err(InstanceFault::ClusterBound {
                phase: phase as u8,
                place: index as u32 + 1,
            });
        }
    }
    Ok(())
}

/// The index of the first cluster that is out of bounds.
fn first_out_of_bounds(list: &[Cluster]) -> Option<usize>
    ensures none { IfNone result (All IsCluster list.now) }
    ensures some { IfSome result (λ index. (index < length list.now) × All IsCluster (take index list.now)
        × ¬ IsCluster (cluster_at list.now index)) }
{
    list.iter().position(|cluster| !is_in_bounds(cluster))
}

/// Whether a cluster is within its bounds.
fn is_in_bounds(cluster: &Cluster) -> bool
    ensures { IsTrue result ↔ IsCluster cluster.now }
{
    (1..=GREATEST_SIZE).contains(&cluster.size)
        && (cluster.size..=GREATEST_WEIGHT * cluster.size).contains(&cluster.load)
        && cluster.arr <= LATEST_ARRIVAL
        && (1..=240).contains(&cluster.len)
}

/// Refuses the first cluster that arrives before the one before it has arrived whole.
fn check_order(lists: &[Items<Cluster>]) -> Result<(), InstanceFault>
    requires few { length lists.now ≤ 4 }
    requires short { All (λ list. length list < 2 ^ 32) lists.now }
    requires bounds { All (All IsCluster) lists.now }
    ensures ok { OnOk result (All IsSpaced lists.now) }
    ensures first { IfErr result (IsOrderFault lists.now) }
{
    for (phase, list) in lists.iter().enumerate() {
        if let Some(index) = first_too_early(list.as_slice()) {
            return Err(InstanceFault::Order {
                phase: phase as u8,
                place: index as u32 + 1,
            });
        }
    }
    Ok(())
}

/// The index of the first cluster that arrives before the one before it has arrived whole.
fn first_too_early(list: &[Cluster]) -> Option<usize>
    requires { All IsCluster list.now }
    ensures none { IfNone result (IsSpaced list.now) }
    ensures some { IfSome result (IsFirstWithout (IsSpacedAt list.now) (length list.now)) }
{
    for index in 1..list.len() {
        let before = &list[index - 1];
        if list[index].arr < before.arr + before.len {
            return Some(index);
        }
    }
    None
}

/// Refuses more than 40 clusters, or more than 50,000 orders of them.
fn check_number(lists: &[Items<Cluster>]) -> Result<(), InstanceFault>
    requires few { length lists.now ≤ 4 }
    requires short { All (λ list. length list < 2 ^ 32) lists.now }
    ensures ok { OnOk result ((sum (counts_of lists.now) ≤ most_clusters)
        × (length (orders (counts_of lists.now)) ≤ most_orders)) }
    ensures first { IfErr result (λ fault. (fault ≡ InstanceFault.Many) × AreMany lists.now) }
{
    let mut counts = [0; 4];
    let counts = &mut counts[..lists.len()];
    count_clusters(lists, counts);
    if total_of(counts) > u64::from(MOST_CLUSTERS) || ways(counts) > MOST_ORDERS {
        return Err(InstanceFault::Many);
    }
    Ok(())
}

/// Writes down how many clusters each phase has.
fn count_clusters(lists: &[Items<Cluster>], counts: &mut [u32])
    requires same { length counts.old ≡ length lists.now }
    requires short { All (λ list. length list < 2 ^ 32) lists.now }
    ensures { counts.new ≡ counts_of lists.now }
{
    for (phase, list) in lists.iter().enumerate() {
        counts[phase] = list.len() as u32;
    }
}

/// How many clusters these are in all.
fn total_of(counts: &[u32]) -> u64
    requires { length counts.now ≤ 4 }
    ensures { result ≡ sum counts.now }
{
    let mut total = 0;
    for count in counts {
        total += u64::from(*count);
    }
    total
}
