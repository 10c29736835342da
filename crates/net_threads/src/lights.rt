//! The lights by which the world moves: the timelines of all nodes.
ghost use Rattle.std.specs.Prelude.{◌≡◌, ◌+◌, ◌≤◌};
ghost use Rattle.net_parts.specs.Limits.{most_seconds};
ghost use Rattle.arrivals.specs.Amounts.{AreArrivals, arriving_of};
ghost use Rattle.net_simulator.specs.Worlds.{Stands, signs_by};
ghost use Rattle.runs.specs.Resting.{lines_of};
ghost use Rattle.net_threads.specs.Tasks.{actors_in};

use crate::all_nodes::NodeTasks;
use arrivals::Arrivals;
use control_flow::greens::Sign;
use control_flow::sign_at;
use link_boards::LinkSlot;
use net_simulator::{Lights, World};
use road_net::Network;

impl<'a, P, S: LinkSlot, G> Lights for NodeTasks<'a, P, S, G> {
    ghost use Rattle.net_threads.specs.Tasks.{actors_in};
    ghost use Rattle.runs.specs.Resting.{lines_of};

    ghost lines = { λ tasks node. lines_of (actors_in tasks.all.items) node };

    fn sign(&self, node: u32, second: u32) -> Sign {
        if node as usize >= self.all.len() {
            return Sign::Dark;
        }
        sign_at(self.all[node as usize].node.actor.timeline(), second)
    }
}

/// The world moves by this number of seconds, as the nodes' timelines show their greens.
pub(crate) fn move_world<'a, P, S: LinkSlot, G>(
    world: &mut World,
    net: &Network,
    nodes: &NodeTasks<'a, P, S, G>,
    arrivals: &Arrivals,
    seconds: u32,
)
    requires second { world.old.second + seconds ≤ most_seconds }
    requires arrivals { AreArrivals net.now arrivals.now }
    requires stands { Stands net.now (arriving_of arrivals.now)
        (signs_by (lines_of (actors_in nodes.now.all.items))) world.old }
    ensures second { world.new.second ≡ world.old.second + seconds }
    ensures stands { Stands net.now (arriving_of arrivals.now)
        (signs_by (lines_of (actors_in nodes.now.all.items))) world.new }
{
    world.advance(net, nodes, arrivals, seconds);
}
