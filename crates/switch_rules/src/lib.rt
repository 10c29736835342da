//! How one cluster of vehicles is served from a signal head, and in how many orders clusters can be.
#![tactic(auto)]

ghost use Rattle.std.specs.Prelude.{◌≡◌, ◌+◌, ◌^◌, ◌<◌, ◌≤◌, length, IfOk, min, sum};
ghost use Rattle.switch_rules.specs.{Bounds.greatest_cost, Bounds.latest_time, Bounds.most_orders, Orders.orders, Orders.choose, Orders.mixtures, Serving.IsHead, Serving.IsCluster, Serving.IsServing, Serving.IsTimed, Serving.earliest_end};
ghost use Rattle.switch_rules.specs.{Serving.head_after, Serving.serving, Serving.served_from, Serving.start_in_green};
ghost use Rattle.phase_plan.specs.Phases.{IsPhase};

mod bounds;

pub use bounds::{
    GREATEST_DELAY, GREATEST_SIZE, GREATEST_WEIGHT, LATEST_ARRIVAL, LATEST_TIME, MOST_CLUSTERS,
    MOST_ORDERS,
};
use foundation::steps::Steps;
use foundation::threads::CrossesThreads;
use phase_plan::{Phase, PhasePlan};
use std::sync::ledger::Ledger;

/// Vehicles of one phase that arrive together.
///
/// docs/RULES.md, "Clusters".
#[derive(Debug, Clone, Copy, PartialEq, Eq)]
pub struct Cluster {
    /// Thousandths of a vehicle, 1 to 20,000,000.
    pub size: u32,
    /// What a second of its wait costs, `size` to 20 times `size`: where nothing counts more, each part of its size by the weight of its
    /// link.
    pub load: u32,
    /// The second at which the first of them arrives, 0 to 100,000.
    pub arr: u32,
    /// How many seconds they take, 1 to 240.
    pub len: u32,
}

/// The state of a signal: which phase is green, since when, and up to when its time is spent.
///
/// docs/RULES.md, "Head".
#[derive(Debug, Clone, Copy, PartialEq, Eq)]
pub struct Head {
    /// The phase that is green, from 0.
    pub phase: u8,
    /// The second at which its green began.
    pub since: u32,
    /// The second from which on the green is free: not before `since`, and at most the phase's greatest
    /// green after it.
    pub at: u32,
    /// Whether the start-up loss of this green is not yet spent.
    pub fresh: bool,
}

/// A cluster that has been served.
///
/// docs/RULES.md, "Serving".
#[derive(Debug, Clone, Copy, PartialEq, Eq)]
pub struct Served {
    /// The second at which the green that serves it began.
    pub green: u32,
    /// The second at which its first vehicle leaves.
    pub start: u32,
    /// The second after its last vehicle has left.
    pub finish: u32,
    /// Its weighted delay: its load by the seconds that it waits, in thousandths of a vehicle times weight times seconds.
    pub cost: u64,
    /// Whether the green of the head before it went on.
    pub kept: bool,
}

/// Why a cluster cannot be served from a head.
///
/// docs/RULES.md, "Serving".
#[derive(Debug, Clone, Copy, PartialEq, Eq)]
pub enum Unfit {
    /// It does not end within the greatest green.
    TooLong,
    /// It would wait longer than its phase allows.
    TooLate,
}

impl CrossesThreads for Cluster {}

impl CrossesThreads for Head {}

impl CrossesThreads for Served {}

impl CrossesThreads for Unfit {}

/// Serves a cluster of a phase from a head, in one step: the served cluster with the head after it,
/// or why that cannot be. A cluster that is both too long and too late is too long.
///
/// The head is one of the plan with `at` up to 104,000, the phase is one of the plan, and the cluster
/// is within its bounds.
///
/// docs/RULES.md, "Serving".
pub fn serve<L: Ledger>(
    plan: &PhasePlan,
    head: &Head,
    phase: u8,
    cluster: &Cluster,
    steps: &mut Steps<L>,
) -> Result<(Served, Head), Unfit>
    requires head { IsHead plan.now head.now }
    requires reach { head.now.at ≤ latest_time }
    requires phase { phase < length plan.now }
    requires cluster { IsCluster cluster.now }
    ensures value { result ≡ serving plan.now head.now phase cluster.now }
    ensures steps { steps.new ≡ steps.old + 1 }
    ensures times { IfOk result (λ s. IsTimed plan.now head.now phase cluster.now s.0) }
    ensures behind { IfOk result (λ s. s.1 ≡ head_after phase s.0) }
    ensures bounds { IfOk result (λ s. IsServing plan.now s) }
{
    steps.tick();
    let times = plan.phase(phase);
    if phase == head.phase {
        let start = start_in_green(times, head, cluster);
        if start + cluster.len <= head.since + times.greatest {
            return served_from(times, phase, cluster, head.since, start, true);
        }
    }
    let earliest = earliest_end(plan, head) + plan.switch_time(head.phase, phase);
    if cluster.arr <= earliest {
        served_from(
            times,
            phase,
            cluster,
            earliest,
            earliest + times.loss,
            false,
        )
    } else {
        served_from(times, phase, cluster, cluster.arr, cluster.arr, false)
    }
}

/// When the green of a head can end, if nothing more is served in it: it lasts its least time and until its time is
/// spent. The head is one of the plan with `at` up to 104,000.
///
/// docs/RULES.md, "Serving".
pub fn earliest_end(plan: &PhasePlan, head: &Head) -> u32
    requires head { IsHead plan.now head.now }
    requires reach { head.now.at ≤ latest_time }
    ensures value { result ≡ earliest_end plan.now head.now }
    ensures bounds { result ≤ latest_time + 240 }
{
    head.at.max(head.since + plan.phase(head.phase).least)
}

/// When the cluster starts if the green of the head goes on.
fn start_in_green(times: &Phase, head: &Head, cluster: &Cluster) -> u32
    requires times { IsPhase times.now }
    requires head { head.now.at ≤ latest_time }
    requires begun { head.now.since ≤ head.now.at }
    requires cluster { IsCluster cluster.now }
    ensures value { result ≡ start_in_green times.now head.now cluster.now }
    ensures bounds { result ≤ latest_time + 10 }
{
    if head.fresh && cluster.arr <= head.at {
        head.at.max(head.since + times.loss)
    } else {
        cluster.arr.max(head.at)
    }
}

/// The cluster served from this start in this green, or why that cannot be.
#[tactic(auto, using(crate::proofs::ServingLaws::load_within))]
fn served_from(
    times: &Phase,
    phase: u8,
    cluster: &Cluster,
    green: u32,
    start: u32,
    kept: bool,
) -> Result<(Served, Head), Unfit>
    requires times { IsPhase times.now }
    requires cluster { IsCluster cluster.now }
    requires green { green ≤ start }
    requires start { start ≤ 110000 }
    requires arrived { cluster.now.arr ≤ start }
    ensures value { result ≡ served_from times.now phase cluster.now green start kept }
    ensures cost { IfOk result (λ s. s.0.cost ≤ greatest_cost) }
{
    let finish = start + cluster.len;
    let waited = start - cluster.arr;
    if finish > green + times.greatest {
        return Err(Unfit::TooLong);
    }
    if waited > times.wait {
        return Err(Unfit::TooLate);
    }
    let served = Served {
        green,
        start,
        finish,
        cost: u64::from(cluster.load) * u64::from(waited),
        kept,
    };
    let head = Head {
        phase,
        since: green,
        at: finish,
        fresh: false,
    };
    Ok((served, head))
}

/// In how many orders clusters can be served, given how many each of at most 4 phases has, at most
/// 41 in all; where there are more than 50,000, the answer is 50,001.
///
/// docs/RULES.md, "Instance".
pub fn ways(counts: &[u32]) -> u32
    requires few { length counts.now ≤ 4 }
    requires sum { sum counts.now ≤ 41 }
    ensures { result ≡ min (most_orders + 1) (length (orders counts.now)) }
{
    let (ways, _) = mixtures(counts);
    ways as u32
}

/// The number of ways to mix groups of these sizes, at most 50,001, and how many things there
/// are in all.
fn mixtures(counts: &[u32]) -> (u64, u32)
    requires { sum counts.now ≤ 41 }
    ensures ways { result.0 ≡ min (most_orders + 1) (mixtures counts.now) }
    ensures total { result.1 ≡ sum counts.now }
{
    let Some((first, others)) = counts.split_first() else {
        return (1, 0);
    };
    let (ways, total) = mixtures(others);
    let ways = ways * choices(*first, total);
    (ways.min(u64::from(MOST_ORDERS) + 1), first + total)
}

/// The number of ways to choose `few` things and leave `others`, which is that of leaving `few`.
fn choices(few: u32, others: u32) -> u64
    requires { few + others ≤ 41 }
    ensures value { result ≡ choose (few + others) few }
    ensures bounds { result ≤ 2 ^ 41 }
{
    let fewer = few.min(others);
    let more = few.max(others);
    let mut value = 1;
    for i in 0..fewer {
        value = value * u64::from(more + i + 1) / u64::from(i + 1);
    }
    value
}
