//! The turns of all nodes, one after another.
ghost use Rattle.std.specs.Prelude.{◌≡◌, ◌+◌, ◌<◌, [], OnOk, length, slice_index_or};
ghost use Rattle.round_states.specs.States.{IsStateOf, no_sense};
ghost use Rattle.round_decisions.specs.Steps.{CanTurn, HasTurned, HaveTurned, state_of};

use crate::node_turns::{NodeState, turn};
use control_flow::greens::Timeline;
use intersection_actor::PlanRecord;
use road_net::{Network, Sensed};
use round_states::{Asked, LinkBoard};
use schedule_meaning::Planner;
use std::alloc::{AllocError, Global};
use std::collections::VecDeque;

/// What the nodes sense that still wait for their turns, and their lines.
#[derive(Drop)]
pub(crate) struct Waiting {
    pub(crate) sensed: VecDeque<Sensed>,
    pub(crate) lines: VecDeque<Timeline>,
}

/// What the turns have made so far.
#[derive(Drop)]
pub(crate) struct Decided {
    pub(crate) plans: Vec<PlanRecord>,
    pub(crate) lines: Vec<Timeline>,
    pub(crate) boards: Vec<LinkBoard>,
}

/// The first node that waits has its turn.
fn take_turn<P: Planner>(
    alloc: Global,
    net: &Network,
    round: u32,
    node: u32,
    waiting: &mut Waiting,
    decided: &mut Decided,
    planner: &mut P,
) -> Result<(), AllocError>
    requires sensed { 0 < length waiting.old.sensed.items }
    requires lines { 0 < length waiting.old.lines.items }
    requires can { CanTurn net.now round node (slice_index_or waiting.old.lines.items 0 [])
        (slice_index_or waiting.old.sensed.items 0 no_sense) decided.old.boards.items }
    ensures { OnOk result (HasTurned net.now round node waiting.old waiting.new decided.old decided.new) }
{
    let Some(sensed) = waiting.sensed.pop_front() else {
        unreachable!()
    };
    let Some(line) = waiting.lines.pop_front() else {
        unreachable!()
    };
    let state = NodeState { node, sensed, line };
    let made = turn(alloc, net, round, state, &mut decided.boards, planner)?;
    decided.plans.push(made.plan)?;
    decided.lines.push(made.line)?;
    Ok(())
}

/// All nodes have their turns, in the order of their numbers.
pub(crate) fn take_turns<P: Planner>(
    alloc: Global,
    net: &Network,
    round: u32,
    waiting: &mut Waiting,
    decided: &mut Decided,
    planner: &mut P,
) -> Result<(), AllocError>
    requires state { IsStateOf net.now Asked.AllNodes (state_of round waiting.old decided.old) }
    requires plans { decided.old.plans.items ≡ [] }
    requires lines { decided.old.lines.items ≡ [] }
    ensures { OnOk result (HaveTurned net.now (state_of round waiting.old decided.old) (length net.now.node_names)
        waiting.new decided.new) }
{
    for node in 0..net.nodes() {
        take_turn(alloc, net, round, node, waiting, decided, planner)?;
    }
    Ok(())
}
