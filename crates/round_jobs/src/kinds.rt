//! The file of the state of a round, and what it is read as.
use commands::{Flaw, TextKind};
use road_net::Network;
use round_states::{Asked, RoundState, read_state};
use std::alloc::Global;

/// The file of the state of a round, where all nodes are asked.
///
/// docs/FORMATS.md, "Words".
#[derive(Debug, Clone, Copy, PartialEq, Eq)]
pub struct StateFile;

impl TextKind for StateFile {
    ghost use Rattle.round_states.specs.{States.IsStateOf, declared.asked.Asked.TheVariants.AllNodes};
    ghost use Rattle.round_jobs.specs.Kinds.{StateText};

    type Value = RoundState;

    type Over = Network;

    ghost kind = { StateText };

    ghost said = { λ net state. state };

    ghost keeps = { λ net. IsStateOf net AllNodes };

    fn read(alloc: Global, text: &[u8], net: &Network) -> Result<RoundState, Flaw> {
        match read_state(alloc, text, net, Asked::AllNodes) {
            Ok(value) => Ok(value),
            Err(fault) => Err(Flaw::from_fault(alloc, fault)),
        }
    }
}

/// A network, and the number of the node that is asked alone; none where the network has no such node.
#[derive(Drop)]
pub(crate) struct NetworkNode {
    /// The network.
    pub(crate) network: Network,
    /// The number of the node.
    pub(crate) node: Option<u32>,
}

/// The file of the state of a round, for a node that is asked alone.
///
/// docs/FORMATS.md, "Words".
#[derive(Debug, Clone, Copy, PartialEq, Eq)]
pub(crate) struct NodeStateFile;

impl TextKind for NodeStateFile {
    ghost use Rattle.round_states.specs.{States.IsStateOf, declared.asked.Asked.TheVariants.OneNode};
    ghost use Rattle.round_jobs.specs.Kinds.{NodeStateText};

    type Value = RoundState;

    type Over = NetworkNode;

    ghost kind = { λ over. NodeStateText over.network over.node };

    ghost said = { λ over state. state };

    ghost keeps = { λ over value. IsStateOf over.network (OneNode over.node) value };

    fn read(alloc: Global, text: &[u8], over: &NetworkNode) -> Result<RoundState, Flaw> {
        match read_state(alloc, text, &over.network, Asked::OneNode(over.node)) {
            Ok(value) => Ok(value),
            Err(fault) => Err(Flaw::from_fault(alloc, fault)),
        }
    }
}
