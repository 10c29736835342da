//! How many calls the passes of the nodes need.
ghost use Rattle.std.specs.Prelude.{◌≡◌, ◌≤◌, IfOk};
ghost use Rattle.std.specs.List.{sum};
ghost use Rattle.board_model.specs.Boards.{most_versions};
ghost use Rattle.node_rounds.specs.Calls.{node_calls};

use histories::step_count;
use road_net::{Network, law_of_network};
use std::alloc::{AllocError, Global};

/// How many calls the pass of each node needs, by node: as many as the node has board steps in all rounds. Since on each link at most one
/// node tells and at most one hears it, all together need at most 4,000,000,000.
///
/// `Err`: out of memory.
///
/// docs/DESIGN.md, "Rounds in threads".
pub fn node_calls(alloc: Global, net: &Network) -> Result<Vec<u32>, AllocError>
    ensures value { IfOk result (λ calls. calls.items ≡ node_calls net.now) }
    ensures few { IfOk result (λ calls. sum calls.items ≤ most_versions) }
{
    law_of_network(net);
    let rounds = net.run().rounds;
    let nodes = net.nodes();
    let mut calls = Vec::with_capacity(alloc, nodes as usize)?;
    for node in 0..nodes {
        calls.push(rounds * step_count(net, node))?;
    }
    Ok(calls)
}
