//! The state of a round for a node alone, fetched with the network.
ghost use Rattle.std.specs.Prelude.{◌≡◌, IfErr, IfOk, OnOk};
ghost use Rattle.net_parts.specs.Numbers.{number_of};
ghost use Rattle.commands.specs.{Stops.StopsIn, Texts.AreIn};
ghost use Rattle.scene_jobs.specs.Meanings.{two_texts};
ghost use Rattle.round_jobs.specs.Kinds.{node_state_of};
ghost use Rattle.round_states.specs.States.{IsStateOf};

use crate::kinds::{NetworkNode, NodeStateFile};
use commands::{Refusal, TextPlace, fetch};
use outside_world::Shelf;
use round_states::{Asked, RoundState};
use scene_jobs::{NetworkFile, NetworkWith};
use std::alloc::Global;

/// The network of a command's first text, and what its second says of a round of it for the node with this name alone.
///
/// `Err`: that of the first text that can't be had, as `fetch` says.
///
/// docs/FORMATS.md, "Words".
pub(crate) fn fetch_node_state<S: Shelf>(
    alloc: Global,
    shelf: &mut S,
    net: &str,
    state: &str,
    node: &str,
) -> Result<NetworkWith<RoundState>, Refusal>
    ensures texts { IfOk result (λ all. AreIn (S.state shelf.old).files
        (two_texts (node_state_of node.now) net.now state.now) (all.network, (all.value, tt))) }
    ensures keeps { IfOk result (λ all. IsStateOf all.network
        (Asked.OneNode (number_of all.network.node_names node.now)) all.value) }
    ensures ok { OnOk result (S.state shelf.new ≡ S.state shelf.old) }
    ensures refused { IfErr result
        (StopsIn (two_texts (node_state_of node.now) net.now state.now) (S.state shelf.old) (S.state shelf.new)) }
{
    let network = fetch::<NetworkFile, S>(alloc, shelf, TextPlace::First, net, &())?;
    let node = network.find_node(node);
    let over = NetworkNode { network, node };
    let value = fetch::<NodeStateFile, S>(alloc, shelf, TextPlace::Second, state, &over)?;
    Ok(NetworkWith {
        network: over.network,
        value,
    })
}
