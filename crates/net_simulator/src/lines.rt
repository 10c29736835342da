//! Timelines that are given, one for each node, and the world under them.

ghost use Rattle.std.specs.Prelude.{◌≡◌, ◌≤◌, IfOk};
ghost use Rattle.net_parts.specs.Limits.{most_seconds};
ghost use Rattle.arrivals.specs.Amounts.{AreArrivals, arriving_of};
ghost use Rattle.net_simulator.specs.Sums as sums;
ghost use Rattle.net_simulator.specs.Worlds.{Stands, line_in, signs_by};

use super::lights::Lights;
use super::world::World;
use arrivals::Arrivals;
use control_flow::greens::{Sign, Timeline};
use control_flow::sign_at;
use road_net::Network;
use std::alloc::{AllocError, Global};

/// Timelines, by node; a node without one is dark.
///
/// docs/RULES.md, "Timeline".
#[derive(Drop)]
pub struct Lines<'a> {
    /// The timelines, in the order of the nodes.
    pub all: &'a [Timeline],
}

impl<'a> Lights for Lines<'a> {
    ghost use Rattle.net_simulator.specs.Worlds.{line_in};

    ghost lines = { λ lines node. line_in lines.all.now node };

    fn sign(&self, node: u32, second: u32) -> Sign {
        if node as usize >= self.all.len() {
            return Sign::Dark;
        }
        sign_at(&self.all[node as usize], second)
    }
}

/// The world of a network that moved from second 0 by `seconds` seconds, up to second 86,400, under these timelines.
///
/// `Err`: out of memory.
///
/// docs/RULES.md, "World".
pub fn play<'a>(
    alloc: Global,
    net: &Network,
    arrivals: &Arrivals,
    lines: &Lines<'a>,
    seconds: u32,
) -> Result<World, AllocError>
    requires second { seconds ≤ most_seconds }
    requires arrivals { AreArrivals net.now arrivals.now }
    ensures second { IfOk result (λ world. world.second ≡ seconds) }
    ensures stands { IfOk result (Stands net.now (arriving_of arrivals.now) (signs_by (line_in lines.now.all.now))) }
{
    let mut world = World::new(alloc, net)?;
    world.advance(net, lines, arrivals, seconds);
    Ok(world)
}

/// The second after the last round of a network's run, at most 86,400.
///
/// docs/RULES.md, "Run".
pub fn end_of_run(net: &Network) -> u32
    ensures value { result ≡ sums.end_of_run net.now }
    ensures bound { result ≤ most_seconds }
{
    net.run().rounds * net.run().step
}
