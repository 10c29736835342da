//! The grid of a number.
ghost use Rattle.std.specs.Prelude.{◌≡◌, ◌≤◌, IfOk, false, length};
ghost use Rattle.net_parts.specs.Limits.{limits};
ghost use Rattle.road_net.specs.Network.{IsNetworkOf};
ghost use Rattle.arrivals.specs.Amounts.{AreArrivals, AreArrivalsOf};
ghost use Rattle.scenario_gen.specs.Arrivals as words;
ghost use Rattle.scenario_gen.specs.{Drafts.grid_draft, Grids.AreRounds, Grids.HasGrid, Grids.IsGrid, Layout.IsSide};

use crate::drafting::draft;
use crate::drawing::rows;
use arrivals::{Arrivals, RowFault};
use net_build::build;
use road_net::{NetFault, Network};
use std::alloc::{AllocError, Global};

/// A square grid, made from a number: a network with `side` nodes a side, 2 to 8, for `rounds` rounds, 1 to 600, and what
/// enters it, which the words of a generator decide that the number starts. A number, a side and rounds give one grid. `Err`: out of
/// memory.
///
/// docs/RULES.md, "Grids".
pub fn grid(
    alloc: Global,
    number: u64,
    side: u32,
    rounds: u32,
) -> Result<(Network, Arrivals), AllocError>
    requires side { IsSide side }
    requires rounds { AreRounds rounds }
    ensures grid { IfOk result (λ made. IsGrid number side rounds made.0 made.1) }
    ensures arrivals { IfOk result (λ made. AreArrivals made.0 made.1) }
    ensures legal { HasGrid number side rounds }
{
    let network = network(alloc, side, rounds)?;
    let arrivals = arrivals(alloc, number, rounds, &network)?;
    Ok((network, arrivals))
}

/// The network of a grid.
fn network(alloc: Global, side: u32, rounds: u32) -> Result<Network, AllocError>
    requires side { IsSide side }
    requires rounds { AreRounds rounds }
    ensures { IfOk result (IsNetworkOf (grid_draft side rounds)) }
{
    let draft = draft(alloc, side, rounds)?;
    match build(alloc, draft) {
        Ok(network) => Ok(network),
        Err(fault) => Err(alloc_error(fault)),
    }
}

/// The only fault of a grid: out of memory.
fn alloc_error(fault: NetFault) -> AllocError
    requires { fault ≡ NetFault.NoMemory }
{
    match fault {
        NetFault::NoMemory => AllocError,
        _ => unreachable!(),
    }
}

/// What enters a network that is not great in `rounds` rounds, by the words of a number.
fn arrivals(alloc: Global, number: u64, rounds: u32, net: &Network) -> Result<Arrivals, AllocError>
    requires rounds { AreRounds rounds }
    requires few { length net.now.link_names ≤ (limits false).links }
    ensures of { IfOk result (AreArrivalsOf net.now (words.rows number rounds net.now)) }
    ensures arrivals { IfOk result (AreArrivals net.now) }
{
    let rows = rows(alloc, number, rounds, net)?;
    match Arrivals::new(alloc, net, rows) {
        Ok(arrivals) => Ok(arrivals),
        Err(fault) => Err(alloc_error_of_rows(fault)),
    }
}

/// The only fault of the rows of a grid: out of memory.
fn alloc_error_of_rows(fault: RowFault) -> AllocError
    requires { fault ≡ RowFault.NoMemory }
{
    match fault {
        RowFault::NoMemory => AllocError,
        _ => unreachable!(),
    }
}
