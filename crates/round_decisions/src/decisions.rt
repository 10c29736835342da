//! Decisions of a round.
ghost use Rattle.std.specs.Prelude.{◌<◌, All, IfOk, Some, length};
ghost use Rattle.board_model.specs.Forecasts.{IsForecast};
ghost use Rattle.round_states.specs.States.{IsStateOf};
ghost use Rattle.round_decisions.specs.Promises.{IsKeptDecision, IsKeptTurn};

use crate::node_turns::{NodePlan, NodeState, turn};
use crate::rounds::{Decided, Waiting, take_turns};
use control_flow::greens::Timeline;
use foundation::items::Items;
use foundation::threads::CrossesThreads;
use intersection_actor::PlanRecord;
use road_net::{Network, law_of_network};
use round_states::{Asked, LinkBoard, RoundState};
use schedule_meaning::Planner;
use std::alloc::{AllocError, Global};
use std::collections::VecDeque;

/// What all nodes of a network decide in a round.
///
/// docs/RULES.md, "Decision of a round".
#[derive(Drop)]
pub struct Decision {
    /// The plan record of each node, by node.
    pub plans: Items<PlanRecord>,
    /// The timeline of each node, by node: that of the state, spliced with the one of its plan.
    pub lines: Items<Timeline>,
    /// The board of each link after all turns, by link.
    pub boards: Items<LinkBoard>,
}

impl CrossesThreads for Decision {}

/// What one node decides in a round.
///
/// docs/RULES.md, "Decision of a round".
#[derive(Drop)]
pub struct NodeDecision {
    /// The node's plan record.
    pub plan: PlanRecord,
    /// Its timeline: that of the state, spliced with the one of its plan.
    pub line: Timeline,
    /// The board of each link after its turn, by link.
    pub boards: Items<LinkBoard>,
}

impl CrossesThreads for NodeDecision {}

/// One round of all nodes of a network from a state, in the order of their numbers: each reads the links on which it hears
/// another node, plans, and publishes on those on which it tells one, before the next node reads.
///
/// `Err`: out of memory.
///
/// docs/RULES.md, "Decision of a round".
pub fn decide<P: Planner>(
    alloc: Global,
    net: &Network,
    state: RoundState,
    planner: &mut P,
) -> Result<Decision, AllocError>
    requires { IsStateOf net.now Asked.AllNodes state }
    ensures { IfOk result (IsKeptDecision net.now state) }
{
    law_of_network(net);
    let RoundState {
        round,
        sensed,
        lines,
        boards,
    } = state;
    let mut waiting = Waiting {
        sensed: VecDeque::from(sensed.into_vec()),
        lines: VecDeque::from(lines.into_vec()),
    };
    let mut decided = Decided {
        plans: Vec::new(alloc),
        lines: Vec::new(alloc),
        boards: boards.into_vec(),
    };
    take_turns(alloc, net, round, &mut waiting, &mut decided, planner)?;
    let Decided {
        plans,
        lines,
        boards,
    } = decided;
    law_of_boards(boards.as_slice());
    Ok(Decision {
        plans: Items::from_vec(plans),
        lines: Items::from_vec(lines),
        boards: Items::from_vec(boards),
    })
}

/// What stands on each of these boards is a forecast.
fn law_of_boards(boards: &[LinkBoard])
    ensures { All (λ board. IsForecast board.forecast) boards.now }
{
    for board in boards {
        // `rows` is called for its clause `forecast`.
        let _ = board.forecast.rows();
    }
}

/// One node's turn in a round from a state: it reads the boards of the state as they are.
///
/// `Err`: out of memory.
///
/// docs/RULES.md, "Decision of a round".
pub fn decide_node<P: Planner>(
    alloc: Global,
    net: &Network,
    state: RoundState,
    node: u32,
    planner: &mut P,
) -> Result<NodeDecision, AllocError>
    requires state { IsStateOf net.now (Asked.OneNode (Some node)) state }
    requires node { node < length net.now.node_names }
    ensures { IfOk result (IsKeptTurn net.now state node) }
{
    law_of_network(net);
    let RoundState {
        round,
        sensed,
        lines,
        boards,
    } = state;
    let mut sensed = sensed.into_vec();
    let mut lines = lines.into_vec();
    let mut boards = boards.into_vec();
    let own = NodeState {
        node,
        sensed: sensed.remove(node as usize),
        line: lines.remove(node as usize),
    };
    let NodePlan { plan, line } = turn(alloc, net, round, own, &mut boards, planner)?;
    law_of_boards(boards.as_slice());
    Ok(NodeDecision {
        plan,
        line,
        boards: Items::from_vec(boards),
    })
}
