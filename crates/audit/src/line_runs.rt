//! The run of a network under lines that are given.

ghost use Rattle.std.specs.Prelude.{◌≡◌, IfOk, length, map};
ghost use Rattle.std.specs.List.{range_with_len};
ghost use Rattle.arrivals.specs.Amounts.{AreArrivals, arriving_of};
ghost use Rattle.audit.specs.{Audits.AreLawful, Audits.IsClean, LineRuns.sheet_of, LineRuns.shown_sheet, SheetTexts.HasShape};
ghost use Rattle.net_simulator.specs.{Counts.IsBalanced, Counts.counts_at, Worlds.line_in};
ghost use Rattle.signal_safety.specs.Safe.{IsSafe};

use arrivals::Arrivals;
use control_flow::greens::Timeline;
use foundation::items::Items;
use foundation::threads::CrossesThreads;
use net_simulator::{Lines, LinkTotals, Totals, World, end_of_run, play};
use road_net::{Network, law_of_network};
use std::alloc::{AllocError, Global};

/// Lines, and what the world counts under them up to the end of the last round.
///
/// docs/RULES.md, "World".
#[derive(Drop)]
pub struct LineRun {
    /// The timeline of each node.
    pub timelines: Items<Timeline>,
    /// What was counted of each link.
    pub links: Items<LinkTotals>,
    /// What was counted in all.
    pub totals: Totals,
}

impl CrossesThreads for LineRun {}

/// The run of a network under these lines, which are lawful, one for each node: what the world counts under them from
/// second 0 up to the end of the last round. The network is safe under them; what entered has left or is on the links.
///
/// `Err`: out of memory.
///
/// docs/RULES.md, "World".
pub fn run_lines(
    alloc: Global,
    net: &Network,
    arrivals: &Arrivals,
    lines: Vec<Timeline>,
) -> Result<LineRun, AllocError>
    requires nodes { length lines.items ≡ length net.now.node_names }
    requires lawful { AreLawful net.now lines.items }
    requires arrivals { AreArrivals net.now arrivals.now }
    ensures value { IfOk result (λ run. sheet_of run ≡ shown_sheet net.now (arriving_of arrivals.now) lines.items) }
    ensures shape { IfOk result (λ run. HasShape net.now (sheet_of run)) }
    ensures clean { IfOk result (λ run. IsClean net.now (arriving_of arrivals.now) (sheet_of run)) }
    ensures safe { IfOk result (λ run. IsSafe net.now (line_in run.timelines)) }
    ensures whole { IfOk result (λ run. IsBalanced run.totals) }
{
    law_of_network(net);
    let given = Lines {
        all: lines.as_slice(),
    };
    let world = play(alloc, net, arrivals, &given, end_of_run(net))?;
    let links = list_totals(alloc, net, &world)?;
    Ok(LineRun {
        timelines: Items::from_vec(lines),
        links: Items::from_vec(links),
        totals: world.totals(),
    })
}

/// What a world has counted of each link of its network. `Err`: out of memory.
///
/// docs/RULES.md, "World".
pub fn list_totals(
    alloc: Global,
    net: &Network,
    world: &World,
) -> Result<Vec<LinkTotals>, AllocError>
    requires { length world.now.counts ≡ length net.now.link_names }
    ensures { IfOk result (λ links. links.items
        ≡ map (counts_at world.now.counts) (range_with_len 0 (length net.now.link_names))) }
{
    let mut links = Vec::with_capacity(alloc, net.links() as usize)?;
    for link in 0..net.links() {
        links.push(world.link_totals(link))?;
    }
    Ok(links)
}
