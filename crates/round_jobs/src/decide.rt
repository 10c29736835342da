//! The commands `decide NET STATE` and `decide NET STATE NODE`.
ghost use Rattle.std.specs.Prelude.{◌≡◌, ◌<◌, ℕ, List, IfErr, IfOk, IsSome, OnOk, Some, length};
ghost use Rattle.net_parts.specs.Numbers.{number_of};
ghost use Rattle.round_states.specs.States.{IsStateOf};
ghost use Rattle.round_jobs.specs.{Gathering.IsDecidedIn, Nodes.IsUndecided, Rounds.IsDecisionText, Rounds.IsNodeDecisionText};

use crate::kinds::StateFile;
use crate::states::fetch_node_state;
use commands::{Made, Named, Refusal, Work};
use outside_world::Shelf;
use pruned_dp::BoundPlanner;
use road_net::{Network, law_of_network};
use round_decisions::{decide, decide_node, decision_text, keep_decision, node_decision_text};
use round_states::{Asked, KeptRecords, RoundState};
use scene_jobs::{NetworkWith, fetch_network_with};
use std::alloc::{AllocError, Global};

/// What is answered to a request: what is decided, or that it is refused.
#[derive(Drop)]
pub(crate) struct Reply {
    /// Its text.
    pub(crate) text: Vec<u8>,
    /// What it tells, kept for the next round; none where not all nodes decide.
    pub(crate) kept: Option<KeptRecords>,
}

/// The text of the decision of the round of a state.
fn decided_text(alloc: Global, net: &Network, state: RoundState) -> Result<Vec<u8>, AllocError>
    requires { IsStateOf net.now Asked.AllNodes state }
    ensures { IfOk result (λ text. IsDecisionText net.now state text.items) }
{
    law_of_network(net);
    let round = state.round;
    let decision = decide(alloc, net, state, &mut BoundPlanner::new(alloc))?;
    let text = decision_text(alloc, net, round, &decision)?;
    Ok(text)
}

/// The text of the decision of the round of a state, with what it tells.
pub(crate) fn decide_all(
    alloc: Global,
    net: &Network,
    state: RoundState,
) -> Result<Reply, AllocError>
    requires { IsStateOf net.now Asked.AllNodes state }
    ensures { IfOk result (IsDecidedIn net.now state) }
{
    law_of_network(net);
    let round = state.round;
    let decision = decide(alloc, net, state, &mut BoundPlanner::new(alloc))?;
    let kept = keep_decision(alloc, net, round, &decision)?;
    let text = decision_text(alloc, net, round, &decision)?;
    Ok(Reply {
        text,
        kept: Some(kept),
    })
}

/// The text of what the node with this number decides in the round of a state.
pub(crate) fn turn_text(
    alloc: Global,
    net: &Network,
    state: RoundState,
    number: u32,
) -> Result<Vec<u8>, AllocError>
    requires state { IsStateOf net.now (Asked.OneNode (Some number)) state }
    requires number { number < length net.now.node_names }
    ensures { IfOk result (λ text. (node : List ℕ) → number_of net.now.node_names node ≡ Some number
        → IsNodeDecisionText net.now state node text.items) }
{
    law_of_network(net);
    let round = state.round;
    let decision = decide_node(alloc, net, state, number, &mut BoundPlanner::new(alloc))?;
    let text = node_decision_text(alloc, net, round, number, &decision)?;
    Ok(text)
}

// The text of what the node with this name decides in the round of a state.
fn node_text(
    alloc: Global,
    net: &Network,
    state: RoundState,
    node: &str,
) -> Result<Vec<u8>, Refusal>
    requires { IsStateOf net.now (Asked.OneNode (number_of net.now.node_names node.now)) state }
    ensures text { IfOk result (λ text. IsNodeDecisionText net.now state node.now text.items) }
    ensures exists { OnOk result (IsSome (number_of net.now.node_names node.now)) }
    ensures refused { IfErr result (IsUndecided net.now node.now) }
{
    let Some(number) = net.find_node(node) else {
        return Err(Refusal::Missing { what: Named::Node });
    };
    let text = turn_text(alloc, net, state, number)?;
    Ok(text)
}

/// `decide NET STATE`: the decision of the round of the state in the second file, with the network in the
/// first: the plan of each node, how its signal goes on, and what then stands on the boards.
///
/// docs/FORMATS.md, "Words".
#[derive(Clone, Copy)]
pub struct DecideWork<'a> {
    /// The file of the network.
    pub net: &'a str,
    /// The file of the state.
    pub state: &'a str,
}

impl Work for DecideWork<'_> {
    ghost use Rattle.round_jobs.specs.Meanings.{decide_meaning};

    ghost means = { λ work. decide_meaning work.net.now work.state.now };

    fn make<S: Shelf>(&self, alloc: Global, shelf: &mut S) -> Result<Made, Refusal> {
        let NetworkWith {
            network,
            value: state,
        } = fetch_network_with::<StateFile, S>(alloc, shelf, self.net, self.state)?;
        let text = decided_text(alloc, &network, state)?;
        Ok(Made::Done(text))
    }
}

/// `decide NET STATE NODE`: what the node with this name decides in the round of the state in the second file,
/// with the network in the first, where all boards are as in the state.
///
/// docs/FORMATS.md, "Words".
#[derive(Clone, Copy)]
pub struct DecideNodeWork<'a> {
    /// The file of the network.
    pub net: &'a str,
    /// The file of the state.
    pub state: &'a str,
    /// The name of the node that decides.
    pub node: &'a str,
}

impl Work for DecideNodeWork<'_> {
    ghost use Rattle.round_jobs.specs.Meanings.{decide_node_meaning};

    ghost means = { λ work. decide_node_meaning work.net.now work.state.now work.node.now };

    // The text of what a node decides in the round of the state in the second file, with the network in the first.
    fn make<S: Shelf>(&self, alloc: Global, shelf: &mut S) -> Result<Made, Refusal> {
        let NetworkWith {
            network,
            value: state,
        } = fetch_node_state(alloc, shelf, self.net, self.state, self.node)?;
        let text = node_text(alloc, &network, state, self.node)?;
        Ok(Made::Done(text))
    }
}
