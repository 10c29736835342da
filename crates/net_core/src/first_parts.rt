//! What a run is made of at first.
ghost use Rattle.std.specs.Prelude.{◌≡◌, ℕ, ◌<◌, [], IfOk, length};
ghost use Rattle.arrivals.specs.Amounts.{Amounts};
ghost use Rattle.net_core.specs.States.{AreAtFirst, AreBlank};

use crate::parts::{Board, Parts};
use board_model::Forecast;
use net_simulator::World;
use road_net::{Network, law_of_network};
use runs::actors_of;
use std::alloc::{AllocError, Global};

/// The parts of a run before the first round.
pub(crate) fn parts_of(alloc: Global, net: &Network) -> Result<Parts, AllocError>
    ensures first { (arrivals : Amounts) → IfOk result (AreAtFirst net.now arrivals) }
    ensures below { IfOk result (λ parts. parts.round < net.now.run.rounds) }
{
    law_of_network(net);
    let actors = actors_of(alloc, net)?;
    let boards = boards_of(alloc, net)?;
    let world = World::new(alloc, net)?;
    Ok(Parts {
        round: 0,
        actors,
        boards,
        world,
    })
}

/// The boards of all links, on which nothing is published.
fn boards_of(alloc: Global, net: &Network) -> Result<Vec<Board>, AllocError>
    ensures { IfOk result (λ boards. AreBlank (length net.now.link_names) boards.items) }
{
    let mut boards = Vec::with_capacity(alloc, net.links() as usize)?;
    for link in 0..net.links() {
        boards.push(Board {
            version: 0,
            forecast: Forecast::empty(alloc),
        })?;
    }
    Ok(boards)
}
