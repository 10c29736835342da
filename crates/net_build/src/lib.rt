//! The network of a draft: its numbers are tested for their bounds, numbers stand for its names, and its parts are joined.
#![tactic(auto)]

ghost use Rattle.std.specs.Prelude.{IfOk, IfErr};
ghost use Rattle.net_parts.specs.{FirstFaults.Refuses, Numbers.Net};
ghost use Rattle.road_net.specs.{FirstFaults.IsDraftFault, Network.IsNetworkOf};

mod bounds;
mod numbering;

use bounds::check_bounds;
use net_parts::{Draft, NetFault};
use numbering::number_draft;
use road_net::{Network, join_parts};
use std::alloc::Global;

/// The network of a draft.
///
/// The fault is out of memory, or the first that is found when the whole draft is tested for bounds, then for
/// names that come twice, for unknown names, for the ends of links, for crowded nodes, for shares, for phases,
/// for further greens, for conflicts, for links that give way and for walks. It is never `NotToml` or `Shape`.
///
/// docs/RULES.md, "Road network".
pub fn build(alloc: Global, draft: Draft) -> Result<Network, NetFault>
    ensures ok { IfOk result (IsNetworkOf draft) }
    ensures refused { IfErr result (λ fault. Refuses fault ((net : Net) → ¬ IsNetworkOf draft net)) }
    ensures first { IfErr result (IsDraftFault draft) }
{
    check_bounds(&draft)?;
    let parts = number_draft(alloc, &draft)?;
    join_parts(alloc, parts)
}
