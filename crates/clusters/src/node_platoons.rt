//! The platoons that a node expects.
ghost use Rattle.std.specs.Prelude.{◌≡◌, ◌==◌, ◌&&◌, ℕ, ◌<◌, ◌≤◌, List, Some, None, All, IfOk, IfSome, length, if◌then◌else◌};
ghost use Rattle.net_parts.specs.{Numbers.Net, Outline.phase_links_at, Outline.plan_at};
ghost use Rattle.road_net.specs.{Network.IsNetwork, Senses.IsSensedOf};
ghost use Rattle.clusters.specs.{Inflow.IsHeardOf, Options.AreExpected, Options.AreExpectedIn, Options.AsksNothing, Options.rate_of, Options.with_hold, Platoons.ArePlatoonsOf, Platoons.streams_of, Sound.AreOfNode, Sound.AreSpacedClusters};
ghost use Rattle.clusters.specs.{Sound.cluster_lists, Sound.clusters_of, Steps.ArePlatoonsAsked, Steps.IsAge, Windows.IsRising};
ghost use Rattle.switch_rules.specs.Serving.{IsHead};

use crate::cuts::{Cutting, gather_platoons, together};
use crate::inflows::streams;
use crate::loads::hold_first;
use crate::spans::first_in_green;
use crate::vehicle_groups::Platoon;
use board_model::Heard;
use foundation::items::Items;
use road_net::{Network, Sensed};
use std::alloc::{AllocError, Global};
use switch_rules::Head;

/// The platoons that a node expects, phase by phase, by what it senses and what it has heard: one reading for each of
/// its entry links that comes from a node, in link order.
///
/// What leaves a link in a second is smoothed by its `sat`; what the links of a phase bring together is cut into runs.
/// Each platoon arrives at `sensed.now` or later, has a part for each link of its phase, in their order, and is a
/// cluster within the bounds of an instance; none arrives before the one before it has arrived whole.
///
/// `Err`: out of memory.
///
/// docs/RULES.md, "Platoons".
pub fn platoons(
    alloc: Global,
    net: &Network,
    node: u32,
    sensed: &Sensed,
    heard: &[Heard],
) -> Result<Vec<Items<Platoon>>, AllocError>
    requires node { node < length net.now.node_names }
    requires sensed { IsSensedOf net.now node sensed.now }
    requires heard { IsHeardOf net.now node heard.now }
    ensures platoons { IfOk result (λ lists. ArePlatoonsOf net.now node sensed.entry.now heard.now lists.items) }
    ensures node { IfOk result (λ lists. AreOfNode net.now node sensed.entry.now.now lists.items) }
    ensures clusters { IfOk result (λ lists. All AreSpacedClusters (cluster_lists lists.items)) }
    ensures rising { IfOk result (λ lists. All IsRising lists.items) }
{
    let asked = ClusterOptions {
        age: None,
        rate: 0,
        split: None,
    };
    let mut lists = Vec::with_capacity(alloc, net.plan(node).count() as usize)?;
    for phase in 0..net.plan(node).count() {
        let list = platoons_of(alloc, net, node, phase, sensed, heard, asked)?;
        lists.push(Items::from_vec(list))?;
    }
    Ok(lists)
}

/// The platoons that a node expects whose signal has this head, phase by phase, as its network asks for them: those of
/// `platoons`, where the network has no `split`, `age`, `hold` and `rate` (`law_without_options`).
///
/// With `rate` a platoon ends before a second in which less comes than `rate` thousandths of its greatest amount. With
/// `split` the first platoon of the head's phase ends in the standing green, where that still stands as the
/// platoon can start. With an age a link counts more in the loads the longer its queue stands. With `hold` the load of
/// the first platoon of the head's phase counts `hold` times, and at most 20 times its size, where it has
/// arrived by the head's second `at`.
///
/// `Err`: out of memory.
///
/// docs/RULES.md, "Streets under load".
pub fn expected_platoons(
    alloc: Global,
    net: &Network,
    node: u32,
    head: &Head,
    sensed: &Sensed,
    heard: &[Heard],
) -> Result<Vec<Items<Platoon>>, AllocError>
    requires node { node < length net.now.node_names }
    requires head { IsHead (plan_at net.now node) head.now }
    requires sensed { IsSensedOf net.now node sensed.now }
    requires heard { IsHeardOf net.now node heard.now }
    ensures platoons { IfOk result (λ lists. AreExpected net.now node head.now sensed.entry.now heard.now lists.items) }
    ensures node { IfOk result (λ lists. AreOfNode net.now node sensed.entry.now.now lists.items) }
    ensures clusters { IfOk result (λ lists. All AreSpacedClusters (cluster_lists lists.items)) }
    ensures rising { IfOk result (λ lists. All IsRising lists.items) }
{
    let mut lists = Vec::with_capacity(alloc, net.plan(node).count() as usize)?;
    for phase in 0..net.plan(node).count() {
        let list = expected_in(alloc, net, node, phase, head, sensed, heard)?;
        lists.push(Items::from_vec(list))?;
    }
    Ok(lists)
}

/// Where a network asks for none of `split`, `age`, `hold` and `rate`, the platoons that are expected are those of the rules
/// alone, with any head.
///
/// docs/RULES.md, "Streets under load".
pub fn law_without_options()
    ensures { (net : Net) (node : ℕ) (head : Head) (sensed : Sensed) (heard : List Heard) (lists : List (List Platoon))
        → AsksNothing net → AreExpected net node head sensed heard lists → ArePlatoonsOf net node sensed heard lists }
{}

/// The platoons of one phase that a node with this head expects.
fn expected_in(
    alloc: Global,
    net: &Network,
    node: u32,
    phase: u8,
    head: &Head,
    sensed: &Sensed,
    heard: &[Heard],
) -> Result<Vec<Platoon>, AllocError>
    requires node { node < length net.now.node_names }
    requires phase { phase < length (plan_at net.now node) }
    requires head { head.now.since ≤ head.now.at }
    requires sensed { IsSensedOf net.now node sensed.now }
    ensures { IfOk result (λ list. AreExpectedIn net.now node head.now sensed.entry.now phase
        (streams_of net.now sensed.entry.now heard.now (phase_links_at net.now node phase)) list.items) }
{
    let asked = asked_of(net, phase, head);
    let mut list = platoons_of(alloc, net, node, phase, sensed, heard, asked)?;
    hold_in(list.as_mut_slice(), net, phase, head);
    Ok(list)
}

/// What a network asks of the platoons of a phase where a node has this head.
fn asked_of(net: &Network, phase: u8, head: &Head) -> ClusterOptions
    ensures age { result.age ≡ net.now.run.age }
    ensures rate { result.rate ≡ rate_of net.now }
    ensures split { result.split ≡ (if net.now.run.split && (phase == head.now.phase) then Some head.now else None) }
    ensures network { IsNetwork net.now }
{
    let run = net.run();
    let split = if run.split && phase == head.phase {
        Some(*head)
    } else {
        None
    };
    ClusterOptions {
        age: run.age,
        rate: run.rate.unwrap_or(0),
        split,
    }
}

/// Lets the load of the first of these platoons count as often as the network asks, where the standing green can serve
/// it at once.
fn hold_in(list: &mut [Platoon], net: &Network, phase: u8, head: &Head)
    requires { AreSpacedClusters (clusters_of list.old) }
    ensures { list.new ≡ with_hold net.now head.now phase list.old }
{
    if phase == head.phase
        && let Some(hold) = net.run().hold
    {
        hold_first(list, hold, head.at);
    }
}

/// What is asked of the platoons of a phase beside the rules.
#[derive(Clone, Copy)]
struct ClusterOptions {
    /// In how many seconds the weight of a link whose queue stands grows by itself, if it grows.
    age: Option<u32>,
    /// How many thousandths of the greatest amount before it in its platoon each later second of one has at least; 0 for any.
    rate: u32,
    /// The head in whose green the first platoon is to end, if it has to.
    split: Option<Head>,
}

/// The platoons of one phase, before a load is held.
fn platoons_of(
    alloc: Global,
    net: &Network,
    node: u32,
    phase: u8,
    sensed: &Sensed,
    heard: &[Heard],
    asked: ClusterOptions,
) -> Result<Vec<Platoon>, AllocError>
    requires node { node < length net.now.node_names }
    requires phase { phase < length (plan_at net.now node) }
    requires sensed { IsSensedOf net.now node sensed.now }
    requires age { IsAge asked.age }
    requires head { IfSome asked.split (λ head. head.since ≤ head.at) }
    ensures { IfOk result
        (λ list. ArePlatoonsAsked asked.age asked.rate asked.split net.now node phase
        sensed.entry.now heard.now list.items) }
{
    let times = net.plan(node).phase(phase);
    let run = net.run();
    let streams = streams(alloc, net, net.phase_links(node, phase), sensed, heard)?;
    let mut places = [0; 180];
    let series = &mut places[..run.look as usize];
    together(series, streams.as_slice());
    let cutting = Cutting {
        gap: run.gap,
        rate: asked.rate,
        most: times.greatest - times.loss,
        first: first_in_green(times, asked.split, sensed.now, series),
    };
    gather_platoons(alloc, net, sensed, asked.age, cutting, series, &streams)
}
