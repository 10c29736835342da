//! What calls for the phases of a node, by what is near on each link.

ghost use Rattle.std.specs.Prelude.{◌≡◌, ◌≢◌, ◌<◌, ◌≤◌, All, AllPairs, OnOk, length, slice_index, sum_by};
ghost use Rattle.net_parts.specs.Limits.{most_of_all};
ghost use Rattle.road_net.specs.Totals.{total};
ghost use Rattle.actuated.specs.{Calls.calls_by, Rounds.AreAmounts};

use road_net::Network;
use std::alloc::AllocError;

/// What calls for each phase of a node, written into a list. `Err`: out of memory.
pub(crate) fn list_calls(
    net: &Network,
    node: u32,
    near: &[u32],
    calls: &mut Vec<u32>,
) -> Result<(), AllocError>
    requires node { node < length net.now.node_names }
    requires near { AreAmounts net.now near.now }
    ensures { OnOk result (calls.new.items ≡ calls_by net.now (slice_index near.now) node) }
{
    calls.clear();
    for phase in 0..net.plan(node).count() {
        calls.push(sum_near(near, net.phase_links(node, phase)))?;
    }
    Ok(())
}

/// The sum of what is near on these links.
fn sum_near(near: &[u32], links: &[u32]) -> u32
    requires links { All (λ l. l < length near.now) links.now }
    requires differ { AllPairs (λ a b. a ≢ b) links.now }
    requires few { total (slice_index near.now) (length near.now) ≤ most_of_all }
    ensures { result ≡ sum_by (slice_index near.now) links.now }
{
    let mut all = 0;
    for link in links {
        all += near[*link as usize];
    }
    all
}
