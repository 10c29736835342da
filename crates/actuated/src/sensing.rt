//! What is near on the links of a world.

ghost use Rattle.std.specs.Prelude.{◌≡◌, ℕ, List, length};
ghost use Rattle.control_flow.specs.declared.greens.Green.{Green};
ghost use Rattle.net_simulator.specs.{Flow.cumulative_under, Worlds.IsWorldOf, Worlds.Stands, Worlds.signs_by};
ghost use Rattle.actuated.specs.{Rounds.AreAmounts, RunsSoFar.AreNear};

use net_simulator::World;
use road_net::Network;

/// Writes what is near on each link of the network.
pub(crate) fn sense_near(near: &mut [u32], net: &Network, world: &World)
    requires near { length near.old ≡ length net.now.link_names }
    requires world { IsWorldOf net.now world.now }
    ensures amounts { AreAmounts net.now near.new }
    ensures near { (arriving : ℕ → ℕ → ℕ) (lines : ℕ → List Green)
        → Stands net.now arriving (signs_by lines) world.now
        → AreNear net.now (cumulative_under net.now arriving (signs_by lines) world.now.second)
        world.now.second near.new }
{
    for link in 0..net.links() {
        near[link as usize] = world.near(net, link, net.run().gap);
    }
}
