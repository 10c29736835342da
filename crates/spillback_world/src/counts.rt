//! What is counted of each link of the world with a store under timelines that are given.

ghost use Rattle.std.specs.Prelude.{◌≡◌, ℕ, ◌≤◌, ◌<◌, IfOk, length, replicate, slice_index};
ghost use Rattle.arrivals.specs.Amounts.{AreArrivals, arriving_of};
ghost use Rattle.net_parts.specs.Limits.{most_seconds};
ghost use Rattle.net_simulator.specs.Counts.{counts_at, no_totals};
ghost use Rattle.net_simulator.specs.Sums.{end_of_run};
ghost use Rattle.net_simulator.specs.Worlds.{line_in, signs_by};
ghost use Rattle.spillback_world.specs.Counting.{CanBeCounted, counted_by};
ghost use Rattle.spillback_world.specs.StoredLinks.{stored_links};
ghost use Rattle.spillback_world.specs.Worlds.{HasShape};

use crate::store::Store;
use crate::worlds::SpillWorld;
use arrivals::Arrivals;
use net_simulator::{Lines, LinkTotals, end_of_run};
use road_net::{Network, law_of_network};
use std::alloc::{AllocError, Global};

/// What is counted of each link of a network whose links hold what the store says, over its whole run under these timelines:
/// what entered it, what left it, and the sum of its queues after each second. What waits outside of a link is not counted
/// there.
///
/// `Err`: out of memory.
///
/// docs/RULES.md, "Storage".
pub fn spill_links<'a>(
    alloc: Global,
    net: &Network,
    arrivals: &Arrivals,
    store: &Store,
    lines: &Lines<'a>,
) -> Result<Vec<LinkTotals>, AllocError>
    requires arrivals { AreArrivals net.now arrivals.now }
    requires store { length store.now ≡ length net.now.link_names }
    ensures { IfOk result (λ links. links.items ≡ stored_links net.now (arriving_of arrivals.now)
        (slice_index store.now) (signs_by (line_in lines.now.all.now)) (end_of_run net.now)) }
{
    law_of_network(net);
    let mut world = SpillWorld::new(alloc, net)?;
    let mut counts = none_counted(alloc, net.links() as usize)?;
    let seconds = end_of_run(net);
    for _second in 0..seconds {
        world.advance(net, store, lines, arrivals, 1);
        count_second(counts.as_mut_slice(), net, &world);
    }
    Ok(counts)
}

/// Counts each link of a world once a second is over.
fn count_second(counts: &mut [LinkTotals], net: &Network, world: &SpillWorld)
    requires counts { length counts.old ≡ length net.now.link_names }
    requires shape { HasShape net.now world.now }
    requires second { world.now.second ≤ most_seconds }
    requires fits { (l : ℕ) → l < length net.now.link_names
        → CanBeCounted (counts_at counts.old l) world.now l }
    ensures { (l : ℕ) → l < length net.now.link_names
        → counts_at counts.new l ≡ counted_by (counts_at counts.old l) world.now l }
{
    for l in 0..net.links() {
        let before = counts[l as usize];
        counts[l as usize] = world.count(l, before);
    }
}

/// What is counted of `n` links at second 0.
fn none_counted(alloc: Global, n: usize) -> Result<Vec<LinkTotals>, AllocError>
    ensures { IfOk result (λ v. v.items ≡ replicate n no_totals) }
{
    let nothing = LinkTotals {
        entered: 0,
        left: 0,
        delay: 0,
    };
    vec![in alloc; nothing; n]
}
