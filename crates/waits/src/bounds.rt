//! Within how many seconds each queue of a phase, of a link without a walk, loses something, or why there is no such bound.
ghost use Rattle.std.specs.Prelude.{◌≡◌, ◌++◌, ◌+◌, ◌-◌, ◌*◌, ◌<◌, ◌≤◌, nat_lt, if◌then◌else◌, IfOk, IfSome, OnOk, Ok, Err, length, max, sum_by};
ghost use Rattle.std.specs.List.{range_with_len};
ghost use Rattle.net_parts.specs.{Limits.most_look, Outline.plan_at};
ghost use Rattle.phase_plan.specs.Phases.{IsPhase};
ghost use Rattle.waits.specs.Bounds as spec;
ghost use Rattle.waits.specs.{Bounds.most_until, Waits.longest_span};
ghost use Rattle.waits.specs.Discharges as discharges;
ghost use Rattle.waits.specs.Waits as waits;

use foundation::threads::CrossesThreads;
use phase_plan::{Phase, PhasePlan};
use road_net::Network;
use std::alloc::{AllocError, Global};

/// Why the queues of a phase may wait for ever.
///
/// docs/RULES.md, "How long a queue can wait".
#[derive(Debug, Clone, Copy, PartialEq, Eq)]
pub enum NoBound {
    /// The phase is marked: the ring may leave it out.
    Marked,
    /// Its least green is no longer than its start-up, in which nothing leaves a queue.
    ShortGreen,
}

/// The bounds of a phase of a network's node, in seconds.
///
/// docs/RULES.md, "How long a queue can wait".
#[derive(Debug, Clone, Copy, PartialEq, Eq)]
pub struct PhaseBounds {
    /// The number of the node.
    pub node: u32,
    /// The phase, from 0.
    pub phase: u8,
    /// Where the nodes plan.
    pub planned: Result<u32, NoBound>,
    /// Under actuated control.
    pub actuated: Result<u32, NoBound>,
}

impl CrossesThreads for NoBound {}

impl CrossesThreads for PhaseBounds {}

/// The bounds of all phases of a network, by node and phase. `Err`: out of memory.
///
/// docs/RULES.md, "How long a queue can wait".
pub fn network_bounds(alloc: Global, net: &Network) -> Result<Vec<PhaseBounds>, AllocError>
    ensures { IfOk result (λ bounds. bounds.items ≡ spec.network_bounds net.now) }
{
    let mut bounds = Vec::new(alloc);
    for node in 0..net.nodes() {
        push_node_bounds(net, node, &mut bounds)?;
    }
    Ok(bounds)
}

/// Adds the bounds of the phases of a node.
fn push_node_bounds(
    net: &Network,
    node: u32,
    bounds: &mut Vec<PhaseBounds>,
) -> Result<(), AllocError>
    requires { node < length net.now.node_names }
    ensures { OnOk result (bounds.new.items ≡ bounds.old.items ++ spec.node_bounds net.now node) }
{
    for phase in 0..net.plan(node).count() {
        bounds.push(phase_bounds(net, node, phase))?;
    }
    Ok(())
}

/// The bounds of a phase of a node, where the nodes plan and under actuated control.
///
/// docs/RULES.md, "How long a queue can wait".
pub fn phase_bounds(net: &Network, node: u32, phase: u8) -> PhaseBounds
    requires node { node < length net.now.node_names }
    requires phase { phase < length (plan_at net.now node) }
    ensures value { result ≡ spec.phase_bounds net.now node phase }
{
    let plan = net.plan(node);
    PhaseBounds {
        node,
        phase,
        planned: wait_bound(plan, net.run().look, until_recalled(net), phase),
        actuated: wait_bound(plan, 0, Some(until_called(net)), phase),
    }
}

/// Within how many seconds of the begin of a queue a round begins in which its phase is recalled, if the network has `recall`.
fn until_recalled(net: &Network) -> Option<u32>
    ensures value { result ≡ spec.until_recalled net.now }
    ensures bounds { IfSome result (λ seconds. seconds ≤ most_until) }
{
    let run = net.run();
    match run.recall {
        Some(recall) => Some(recall + run.step),
        None => None,
    }
}

/// The seconds of a round of actuated control.
fn until_called(net: &Network) -> u32
    ensures value { result ≡ spec.until_called net.now }
    ensures bounds { result ≤ most_until }
{
    let run = net.run();
    run.act_step.unwrap_or(run.step)
}

/// Within how many seconds each queue of a phase, of a link without a walk, loses something, where the signal stays in all-red at most
/// `look` seconds from the end of a green, and a marked phase is recalled by a round that begins within `until_recalled` seconds of the
/// begin of a queue, if at all; else why there is no such bound. `look` is at most 180, `until_recalled` at most 3630.
///
/// docs/RULES.md, "How long a queue can wait".
pub fn wait_bound(
    plan: &PhasePlan,
    look: u32,
    until_recalled: Option<u32>,
    phase: u8,
) -> Result<u32, NoBound>
    requires look { look ≤ most_look }
    requires until { IfSome until_recalled (λ seconds. seconds ≤ most_until) }
    requires phase { phase < length plan.now }
    ensures value { result
        ≡ discharges.wait_bound plan.now (waits.longest_intergreen plan.now look) until_recalled phase }
{
    let times = plan.phase(phase);
    let longest = longest_red(plan, look, phase) + times.loss + 1;
    if !times.skip {
        return green_bound(times, longest);
    }
    match until_recalled {
        Some(seconds) => green_bound(times, seconds + greatest_intergreen(plan, look) + longest),
        None => Err(NoBound::Marked),
    }
}

/// This many seconds, where the least green of a phase is longer than its start-up.
fn green_bound(times: &Phase, wait: u32) -> Result<u32, NoBound>
    ensures { result ≡ if nat_lt times.now.loss times.now.least then Ok wait else Err NoBound.ShortGreen }
{
    if times.loss < times.least {
        Ok(wait)
    } else {
        Err(NoBound::ShortGreen)
    }
}

/// The longest of the intergreens after the phases.
fn greatest_intergreen(plan: &PhasePlan, look: u32) -> u32
    requires { look ≤ most_look }
    ensures value { result ≡ discharges.greatest_intergreen plan.now (waits.longest_intergreen plan.now look) }
    ensures bounds { result ≤ 200 }
{
    let mut greatest: u32 = 0;
    for phase in 0..plan.count() {
        greatest = greatest.max(longest_intergreen(plan.phase(phase), look));
    }
    greatest
}

/// The longest time that a phase is without green.
fn longest_red(plan: &PhasePlan, look: u32, phase: u8) -> u32
    requires look { look ≤ most_look }
    requires phase { phase < length plan.now }
    ensures value { result ≡ waits.longest_red plan.now (waits.longest_intergreen plan.now look) phase }
    ensures bounds { result ≤ 2000 }
{
    let count = plan.count();
    let after = longest_spans(plan, look, phase + 1, count);
    let before = longest_spans(plan, look, 0, phase);
    longest_intergreen(plan.phase(phase), look) + (after + before)
}

/// How long the phases from `low` up to `high` keep the others waiting, one after another.
fn longest_spans(plan: &PhasePlan, look: u32, low: u8, high: u8) -> u32
    requires look { look ≤ most_look }
    requires low { low ≤ high }
    requires high { high ≤ length plan.now }
    ensures value { result
        ≡ sum_by (longest_span plan.now (waits.longest_intergreen plan.now look)) (range_with_len low (high - low)) }
    ensures bounds { result ≤ 420 * (high - low) }
{
    let mut total = 0;
    for k in low..high {
        let times = plan.phase(k);
        total += times.greatest + longest_intergreen(times, look);
    }
    total
}

/// The longest intergreen after a phase.
fn longest_intergreen(times: &Phase, look: u32) -> u32
    requires { IsPhase times.now }
    ensures value { result ≡ max (times.now.yellow + times.now.clear) look }
{
    (times.yellow + times.clear).max(look)
}
