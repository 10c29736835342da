//! A node's turn: it senses, hears what stands on the boards, plans, and publishes what it tells.
ghost use Rattle.std.specs.Prelude.{◌≡◌, ℕ, ◌+◌, ◌<◌, ◌≤◌, [], ◌∷◌, All, IfOk, OnOk, length};
ghost use Rattle.control_flow.specs.Greens.{end_of};
ghost use Rattle.intersection_actor.specs.{Acting.reading, Acting.tells_from, Acting.wanting, Acting.with_heard, Rounds.IsOf};
ghost use Rattle.net_parts.specs.{Limits.most_seconds, Numbers.Net};
ghost use Rattle.round_states.specs.States.{begin_of};
ghost use Rattle.round_decisions.specs.{Steps.CanTurn, Steps.HasHeard, Steps.HasPlayed, Steps.MayTell, Steps.outgoing, Turns.ArePublished, Turns.IsTurn, Turns.next_board};

use board_model::Heard;
use control_flow::greens::Timeline;
use intersection_actor::{Actor, PlanRecord, Want};
use road_net::{Network, Sensed, law_of_network};
use round_states::LinkBoard;
use schedule_meaning::Planner;
use std::alloc::{AllocError, Global};

/// A node before its turn.
#[derive(Drop)]
pub(crate) struct NodeState {
    pub(crate) node: u32,
    pub(crate) sensed: Sensed,
    pub(crate) line: Timeline,
}

/// What a node's turn leaves.
#[derive(Drop)]
pub(crate) struct NodePlan {
    pub(crate) plan: PlanRecord,
    pub(crate) line: Timeline,
}

/// The node reads the board of the link that it wants to read.
fn read(alloc: Global, link: u32, board: &LinkBoard, actor: &mut Actor) -> Result<(), AllocError>
    requires { actor.old.want ≡ Want.Read link }
    ensures read { OnOk result (actor.new ≡ with_heard
        (record { link = link; version = board.now.version; forecast = board.now.forecast }) actor.old) }
    ensures of { (net : Net) → IsOf net actor.old → IsOf net actor.new }
{
    let forecast = board.forecast.copy(alloc)?;
    actor.take(Heard {
        link,
        version: board.version,
        forecast,
    })
}

/// The node reads the boards of all links on which it hears another one.
fn hear(alloc: Global, boards: &Vec<LinkBoard>, actor: &mut Actor) -> Result<(), AllocError>
    requires want { actor.old.want ≡ reading actor.old.left }
    requires there { All (λ link. link < length boards.now.items) actor.old.left }
    ensures heard { OnOk result (HasHeard boards.now.items actor.old actor.new) }
    ensures all { OnOk result (actor.new.left ≡ []) }
    ensures of { (net : Net) → IsOf net actor.old → IsOf net actor.new }
{
    while let Want::Read(link) = actor.want() {
        read(alloc, link, &boards[link as usize], actor)?;
    }
    Ok(())
}

/// The node publishes on the board of the link on which it wants to.
fn publish(
    alloc: Global,
    net: &Network,
    link: u32,
    board: &mut LinkBoard,
    actor: &mut Actor,
) -> Result<(), AllocError>
    requires of { IsOf net.now actor.old }
    requires want { actor.old.want ≡ Want.Publish link }
    requires below { board.old.version ≤ most_seconds }
    ensures told { OnOk result (actor.new ≡ wanting (tells_from net.now actor.old.node (link + 1)) actor.old) }
    ensures board { OnOk result (board.new ≡ next_board board.old (outgoing net.now actor.old link)) }
    ensures of { IsOf net.now actor.new }
{
    let forecast = actor.outgoing(alloc, net)?;
    actor.sent(net);
    board.version += 1;
    board.forecast = forecast;
    Ok(())
}

/// The node publishes on all links on which it tells another one.
fn tell(
    alloc: Global,
    net: &Network,
    boards: &mut Vec<LinkBoard>,
    actor: &mut Actor,
) -> Result<(), AllocError>
    requires of { IsOf net.now actor.old }
    requires want { actor.old.want ≡ tells_from net.now actor.old.node 0 }
    requires count { length boards.old.items ≡ length net.now.link_names }
    requires below { MayTell net.now actor.old.node boards.old.items }
    ensures boards { OnOk result (ArePublished net.now actor.old.node (outgoing net.now actor.old)
        boards.old.items boards.new.items) }
    ensures done { OnOk result (actor.new ≡ wanting Want.Done actor.old) }
    ensures of { IsOf net.now actor.new }
{
    law_of_network(net);
    while let Want::Publish(link) = actor.want() {
        publish(alloc, net, link, &mut boards[link as usize], actor)?;
    }
    Ok(())
}

/// The node of an actor that rests plays the round.
fn play<P: Planner>(
    alloc: Global,
    net: &Network,
    round: u32,
    sensed: Sensed,
    boards: &mut Vec<LinkBoard>,
    actor: &mut Actor,
    planner: &mut P,
) -> Result<(), AllocError>
    requires of { IsOf net.now actor.old }
    requires want { actor.old.want ≡ Want.Done }
    requires can { CanTurn net.now round actor.old.node actor.old.line sensed boards.old.items }
    ensures played { OnOk result (HasPlayed net.now round sensed boards.old.items boards.new.items
        actor.old actor.new) }
{
    law_of_network(net);
    actor.begin(alloc, net, round, sensed)?;
    hear(alloc, boards, actor)?;
    actor.commit(alloc, net, planner)?;
    tell(alloc, net, boards, actor)?;
    Ok(())
}

/// A node's turn in a round.
pub(crate) fn turn<P: Planner>(
    alloc: Global,
    net: &Network,
    round: u32,
    state: NodeState,
    boards: &mut Vec<LinkBoard>,
    planner: &mut P,
) -> Result<NodePlan, AllocError>
    requires can { CanTurn net.now round state.node state.line state.sensed boards.old.items }
    ensures turn { IfOk result (λ made. IsTurn net.now round state.node state.line state.sensed
        boards.old.items boards.new.items made.plan made.line) }
    ensures later { IfOk result (λ made. begin_of net.now (round + 1) < end_of made.line) }
{
    let NodeState { node, sensed, line } = state;
    let mut actor = Actor::standing(alloc, node, line);
    play(alloc, net, round, sensed, boards, &mut actor, planner)?;
    Ok(plan_of(actor))
}

/// The one plan of an actor, and its timeline.
fn plan_of(actor: Actor) -> NodePlan
    requires { length actor.records ≡ 1 }
    ensures plan { actor.records ≡ result.plan ∷ [] }
    ensures line { result.line ≡ actor.line }
{
    let (line, mut records) = actor.into_parts();
    let Some(plan) = records.pop() else {
        unreachable!()
    };
    NodePlan { plan, line }
}
