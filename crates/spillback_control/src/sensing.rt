//! What is near on the links of a world with a store.

ghost use Rattle.std.specs.Prelude.{◌≡◌, ℕ, length};
ghost use Rattle.control_flow.specs.declared.greens.Sign.{Sign};
ghost use Rattle.actuated.specs.{Rounds.AreAmounts, RunsSoFar.AreNear};
ghost use Rattle.spillback_world.specs.{Storage.cumulative_in, Worlds.IsWorldOf, Worlds.Stands};

use road_net::Network;
use spillback_world::SpillWorld;

/// Writes what is near on each link of the network.
pub(crate) fn sense_near(near: &mut [u32], net: &Network, world: &SpillWorld)
    requires near { length near.old ≡ length net.now.link_names }
    requires world { IsWorldOf net.now world.now }
    ensures amounts { AreAmounts net.now near.new }
    ensures near { (arriving : ℕ → ℕ → ℕ) (store : ℕ → ℕ) (shown : ℕ → ℕ → Sign)
        → Stands net.now arriving store shown world.now
        → AreNear net.now (cumulative_in net.now arriving store shown world.now.second) world.now.second near.new }
{
    for link in 0..net.links() {
        near[link as usize] = world.near(net, link, net.run().gap);
    }
}
