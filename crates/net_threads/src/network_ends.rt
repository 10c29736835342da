//! Boards whose forecasts are read beside the writer, for a network: the ends of its links, and new boards for them.
ghost use Rattle.std.specs.Prelude.{◌≡◌, [], All, IfOk, length};
ghost use Rattle.link_boards.specs.Passes.{AreAllPasses};
ghost use Rattle.node_rounds.specs.Calls.{HaveCallsLeft};
ghost use Rattle.snap_boards.specs.Boards.{AreAllEnds, shared_of};
ghost use Rattle.net_threads.specs.Ends.{AreEndsOf, ends_of};

use net_parts::Link;
use node_rounds::node_calls;
use road_net::{Network, law_of_network};
use snap_boards::{Ends, SnapBoards, SnapPass};
use std::alloc::{AllocError, Global};
use std::sync::Wait;

/// The ends of a link.
fn ends_of(link: Link) -> Option<Ends>
    ensures { result ≡ ends_of link }
{
    match link.from {
        Some(writer) => match link.to {
            Some(reader) => Some(Ends { writer, reader }),
            None => None,
        },
        None => None,
    }
}

/// The ends of a network's links, by number: of a link that comes from a node and ends at a node these two, and none of another.
///
/// `Err`: out of memory.
///
/// docs/DESIGN.md, "Rounds in threads".
pub fn link_ends(alloc: Global, net: &Network) -> Result<Vec<Option<Ends>>, AllocError>
    ensures ends { IfOk result (λ ends. AreEndsOf net.now ends.items) }
    ensures nodes { IfOk result (λ ends. AreAllEnds (length net.now.node_names) ends.items) }
{
    let links = net.links();
    let mut ends = Vec::with_capacity(alloc, links as usize)?;
    for l in 0..links {
        ends.push(ends_of(net.link(l)))?;
    }
    Ok(ends)
}

/// New boards for the links of a network, whose ends are its nodes, and new passes at them, one for each node, with the calls of all
/// its rounds. `Err`: out of memory.
///
/// docs/DESIGN.md, "Rounds in threads".
pub fn open_boards<R: Wait>(
    rt: &R,
    alloc: Global,
    net: &Network,
) -> Result<(SnapBoards, Vec<SnapPass>), AllocError>
    ensures links { IfOk result (λ r. r.0.links ≡ length net.now.link_names) }
    ensures ends { IfOk result (λ r. AreEndsOf net.now r.0.ends) }
    ensures all { IfOk result (λ r. AreAllPasses (shared_of r.0) r.1.items) }
    ensures nodes { IfOk result (λ r. length r.1.items ≡ length net.now.node_names) }
    ensures fresh { IfOk result (λ r. All (λ p. p.calls ≡ []) r.1.items) }
    ensures left { IfOk result (λ r. HaveCallsLeft net.now r.1.items) }
{
    law_of_network(net);
    let ends = link_ends(alloc, net)?;
    let calls = node_calls(alloc, net)?;
    let (boards, passes) = SnapBoards::new(rt, alloc, ends.as_slice(), calls.as_slice())?;
    Ok((boards, passes))
}
