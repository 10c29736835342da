//! The world with a store under timelines that are given.

ghost use Rattle.std.specs.Prelude.{◌≡◌, IfOk, length, slice_index};
ghost use Rattle.arrivals.specs.Amounts.{AreArrivals};
ghost use Rattle.net_simulator.specs.Sums.{end_of_run};
ghost use Rattle.net_simulator.specs.Worlds.{line_in, signs_by};
ghost use Rattle.spillback_world.specs.Laws.{AreAmple, spilled_in, unbounded_in};

use crate::store::Store;
use crate::totals::SpillTotals;
use crate::worlds::SpillWorld;
use arrivals::Arrivals;
use net_simulator::{Lines, end_of_run};
use road_net::{Network, law_of_network};
use std::alloc::{AllocError, Global};

/// What is counted of a network whose links hold what the store says, over its whole run under these timelines. Where every
/// storage is 2,000,000,000, it is what `net_simulator::play` counts under them, and nothing waits outside.
///
/// `Err`: out of memory.
///
/// docs/RULES.md, "Storage".
pub fn spill_lines<'a>(
    alloc: Global,
    net: &Network,
    arrivals: &Arrivals,
    store: &Store,
    lines: &Lines<'a>,
) -> Result<SpillTotals, AllocError>
    requires arrivals { AreArrivals net.now arrivals.now }
    requires store { length store.now ≡ length net.now.link_names }
    ensures value { IfOk result (λ t. t ≡ spilled_in net.now arrivals.now (slice_index store.now)
        (signs_by (line_in lines.now.all.now)) (end_of_run net.now)) }
    ensures ample { AreAmple store.now → IfOk result (λ t. t ≡ unbounded_in net.now arrivals.now
        (signs_by (line_in lines.now.all.now)) (end_of_run net.now)) }
{
    law_of_network(net);
    let mut world = SpillWorld::new(alloc, net)?;
    let seconds = end_of_run(net);
    world.advance(net, store, lines, arrivals, seconds);
    Ok(world.totals())
}
