//! What a sheet says of links and totals, against what the world shows under its lines.

ghost use Rattle.std.specs.Prelude.{◌≡◌, ◌↔◌, ℕ, ◌<◌, IfNone, IfOk, IfSome, IsTrue, length};
ghost use Rattle.arrivals.specs.Amounts.{AreArrivals, arriving_of};
ghost use Rattle.audit.specs.Audits.{AreLawful, IfBad, IsClean, IsWhy};
ghost use Rattle.foundation.specs.Firsts.{IsFirstWithout};
ghost use Rattle.net_simulator.specs.Counts.{counts_at};

use super::findings::{AuditWhy, Finding};
use arrivals::Arrivals;
use control_flow::greens::Timeline;
use net_simulator::{Lines, LinkTotals, Totals, World, end_of_run, play};
use road_net::Network;
use std::alloc::{AllocError, Global};

/// Whether a sheet with lawful lines is clean. `Err`: out of memory.
pub(crate) fn compare(
    alloc: Global,
    net: &Network,
    arrivals: &Arrivals,
    lines: &[Timeline],
    links: &[LinkTotals],
    totals: Totals,
) -> Result<Finding, AllocError>
    requires links { length links.now ≡ length net.now.link_names }
    requires lawful { AreLawful net.now lines.now }
    requires arrivals { AreArrivals net.now arrivals.now }
    ensures clean { IfOk result (λ f. f ≡ Finding.Clean ↔ IsClean net.now (arriving_of arrivals.now)
        (record { lines = lines.now; links = links.now; totals = totals })) }
    ensures first { IfOk result (λ f. IfBad f (IsWhy net.now (arriving_of arrivals.now)
        (record { lines = lines.now; links = links.now; totals = totals }))) }
{
    let world = play(alloc, net, arrivals, &Lines { all: lines }, end_of_run(net))?;
    if let Some(link) = first_other(net, &world, links) {
        return Ok(Finding::Bad(AuditWhy::Link { link }));
    }
    if !has_counted(&world, &totals) {
        return Ok(Finding::Bad(AuditWhy::Total));
    }
    Ok(Finding::Clean)
}

/// Whether this is what the world has counted of the whole network.
fn has_counted(world: &World, totals: &Totals) -> bool
    ensures { IsTrue result ↔ totals.now ≡ world.now.totals }
{
    *totals == world.totals()
}

/// The first link of which something else is said than the world has counted.
fn first_other(net: &Network, world: &World, links: &[LinkTotals]) -> Option<u32>
    requires links { length links.now ≡ length net.now.link_names }
    requires counts { length world.now.counts ≡ length net.now.link_names }
    ensures none { IfNone result ((l : ℕ) → l < length net.now.link_names
        → counts_at links.now l ≡ counts_at world.now.counts l) }
    ensures some { IfSome result
        (IsFirstWithout (λ l. counts_at links.now l ≡ counts_at world.now.counts l) (length net.now.link_names)) }
{
    for link in 0..net.links() {
        if links[link as usize] != world.link_totals(link) {
            return Some(link);
        }
    }
    None
}
