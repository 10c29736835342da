//! One round of an actor, whose calls are tried once more where memory is refused.
ghost use Rattle.std.specs.Prelude.{◌≡◌, ◌<◌, IfOk, length};
ghost use Rattle.arrivals.specs.Amounts.{AreArrivals};
ghost use Rattle.control_flow.specs.Greens.{end_of};
ghost use Rattle.intersection_actor.specs.Rounds.{IsOf};
ghost use Rattle.road_net.specs.Senses.{IsSensedOf};

use arrivals::Arrivals;
use board_model::{Forecast, Heard, Row};
use control_flow::greens::Green;
use forward_dp::LayerPlanner;
use intersection_actor::{Actor, PlanRecord, Used, Want};
use net_simulator::World;
use road_net::{Network, Sensed};
use std::alloc::{AllocError, Global};
use std::test::Fail;
use worked_network::network;

/// What node a senses in the empty world.
fn sensed(alloc: Global, net: &Network, arrivals: &Arrivals) -> Result<Sensed, AllocError>
    requires node { 0 < length net.now.node_names }
    requires arrivals { AreArrivals net.now arrivals.now }
    ensures { IfOk result (IsSensedOf net.now 0) }
{
    let world = World::new(alloc, net)?;
    world.sense(alloc, net, 0)
}

/// Half a vehicle in each of the seconds 10 and 11 is heard of link 2.
fn heard(alloc: Global) -> Result<Heard, AllocError>
    ensures { IfOk result (λ heard. heard.link ≡ 2) }
{
    let mut forecast = Forecast::with_capacity(alloc, 2)?;
    forecast.push(Row {
        second: 10,
        amount: 500,
    })?;
    forecast.push(Row {
        second: 11,
        amount: 500,
    })?;
    Ok(Heard {
        link: 2,
        version: 1,
        forecast,
    })
}

/// Begins round 0.
fn begin(
    alloc: Global,
    net: &Network,
    actor: &mut Actor,
    sensed: Sensed,
    again: Sensed,
) -> Result<(), AllocError>
    requires of { IsOf net.now actor.old }
    requires want { actor.old.want ≡ Want.Done }
    requires ahead { 0 < end_of actor.old.line }
    requires rounds { 0 < net.now.run.rounds }
    requires sensed { IsSensedOf net.now actor.old.node sensed }
    requires again { IsSensedOf net.now actor.old.node again }
    ensures { IsOf net.now actor.new }
{
    if sensed.now != 0 || again.now != 0 {
        return Err(AllocError);
    }
    match actor.begin(alloc, net, 0, sensed) {
        Ok(()) => Ok(()),
        Err(AllocError) => actor.begin(alloc, net, 0, again),
    }
}

/// Takes what is heard of link 2.
fn take(alloc: Global, net: &Network, actor: &mut Actor) -> Result<(), AllocError>
    requires { IsOf net.now actor.old }
    ensures { IsOf net.now actor.new }
{
    let (heard, again) = (heard(alloc)?, heard(alloc)?);
    if actor.want() != Want::Read(2) {
        return Err(AllocError);
    }
    match actor.take(heard) {
        Ok(()) => Ok(()),
        Err(AllocError) => actor.take(again),
    }
}

/// Plans.
fn commit(alloc: Global, net: &Network, actor: &mut Actor) -> Result<(), AllocError>
    requires { IsOf net.now actor.old }
    ensures { IsOf net.now actor.new }
{
    if actor.want() != Want::Commit {
        return Err(AllocError);
    }
    match actor.commit(alloc, net, &mut LayerPlanner) {
        Ok(()) => Ok(()),
        Err(AllocError) => actor.commit(alloc, net, &mut LayerPlanner),
    }
}

/// What the node tells on link 1.
fn outgoing(alloc: Global, net: &Network, actor: &Actor) -> Result<Forecast, AllocError>
    requires of { IsOf net.now actor.now }
    requires want { actor.now.want ≡ Want.Publish 1 }
{
    match actor.outgoing(alloc, net) {
        Ok(forecast) => Ok(forecast),
        Err(AllocError) => actor.outgoing(alloc, net),
    }
}

/// Tells on link 1.
fn tell(alloc: Global, net: &Network, actor: &mut Actor) -> Result<Forecast, AllocError>
    requires { IsOf net.now actor.old }
{
    if actor.want() != Want::Publish(1) {
        return Err(AllocError);
    }
    let forecast = outgoing(alloc, net, actor)?;
    actor.sent(net);
    Ok(forecast)
}

/// Rests, and gives the rows of the timeline.
fn rest(alloc: Global, actor: &mut Actor) -> Result<&[Green], AllocError> {
    if actor.want() != Want::Done {
        return Err(AllocError);
    }
    actor.rest(alloc);
    Ok(actor.timeline().rows())
}

/// Moves what the node has planned into a list.
fn planned(alloc: Global, actor: &mut Actor) -> Result<Vec<PlanRecord>, AllocError> {
    let mut plans = Vec::with_capacity(alloc, actor.records().len())?;
    actor.move_records(&mut plans);
    Ok(plans)
}

/// What the node wants in its round, call by call, what it tells, its timeline, and what it has planned.
#[derive(Drop)]
struct Played {
    wants: [Want; 4],
    told: Forecast,
    line: Vec<Green>,
    plans: Vec<PlanRecord>,
}

/// The round, once it has begun.
fn play(alloc: Global, net: &Network, actor: &mut Actor) -> Result<Played, AllocError>
    requires { IsOf net.now actor.old }
{
    let first = actor.want();
    take(alloc, net, actor)?;
    let second = actor.want();
    commit(alloc, net, actor)?;
    let third = actor.want();
    let told = tell(alloc, net, actor)?;
    let last = actor.want();
    let line = rest(alloc, actor)?.to_vec(alloc)?;
    let plans = planned(alloc, actor)?;
    Ok(Played {
        wants: [first, second, third, last],
        told,
        line,
        plans,
    })
}

/// The round of node a.
fn round(alloc: Global, net: &Network, arrivals: &Arrivals) -> Result<Played, AllocError>
    requires { AreArrivals net.now arrivals.now }
{
    if net.nodes() == 0 || net.run().rounds == 0 {
        return Err(AllocError);
    }
    let sensed = (sensed(alloc, net, arrivals)?, sensed(alloc, net, arrivals)?);
    let mut actor = Actor::new(alloc, net, 0)?;
    begin(alloc, net, &mut actor, sensed.0, sensed.1)?;
    play(alloc, net, &mut actor)
}

/// The round of node a of the worked network, which nothing enters.
fn round_of_a(alloc: Global) -> Result<Played, AllocError> {
    let Ok(net) = network(alloc, 4) else {
        return Err(AllocError);
    };
    match Arrivals::new(alloc, &net, Vec::new(alloc)) {
        Ok(arrivals) => round(alloc, &net, &arrivals),
        Err(_) => Err(AllocError),
    }
}

/// Adds each of these wants.
fn add_wants(text: &mut String, wants: &[Want]) -> Result<(), AllocError> {
    for want in wants {
        write!(text, "{want:?} ")?;
    }
    Ok(())
}

/// Adds the second of each row of a forecast.
fn add_seconds(text: &mut String, rows: &[Row]) -> Result<(), AllocError> {
    for row in rows {
        let second = row.second;
        write!(text, "{second} ")?;
    }
    Ok(())
}

/// Adds the phase and the seconds of each row of a timeline.
fn add_greens(text: &mut String, rows: &[Green]) -> Result<(), AllocError> {
    for &Green { phase, from, to } in rows {
        write!(text, "{phase} {from} {to} ")?;
    }
    Ok(())
}

/// Adds the link and the number of each version that a plan names.
fn add_versions(text: &mut String, versions: &[Used]) -> Result<(), AllocError> {
    for &Used { link, version } in versions {
        write!(text, "{link} {version} ")?;
    }
    Ok(())
}

/// The wants up to what it tells, the seconds of that, the last want, the timeline, and the versions that its plan names.
fn shown(alloc: Global, played: &Played) -> Result<String, AllocError> {
    let mut text = String::new(alloc);
    add_wants(&mut text, &played.wants[..3])?;
    add_seconds(&mut text, played.told.rows())?;
    add_wants(&mut text, &played.wants[3..])?;
    add_greens(&mut text, played.line.as_slice())?;
    if let Some(plan) = played.plans.first() {
        add_versions(&mut text, plan.used.as_slice())?;
    }
    Ok(text)
}

/// The round as a text.
fn text_of_round(alloc: Global) -> Result<String, AllocError> {
    shown(alloc, &round_of_a(alloc)?)
}

/// What the round shows.
const ROUND: &str = "Read(2) Commit Publish(1) 20 21 Done 0 0 30 1 35 40 2 1 ";

/// The calls of one round. It holds whichever allocation is refused, once: a call is tried again where it is its own, and its refusal
/// leaves the actor as it was.
#[test]
fn a_round_whichever_is_refused(rt: HostRuntime) -> Result<(), Fail> {
    let alloc = rt.alloc();
    let found = match text_of_round(alloc) {
        Ok(text) => text,
        Err(AllocError) => text_of_round(alloc)?,
    };
    assert_eq!(rt; found.as_str(), ROUND);
    Ok(())
}
