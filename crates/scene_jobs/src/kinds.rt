//! The files of a network and of arrivals at it, and what they are read as.
use arrivals::{Arrivals, read_arrivals};
use commands::{Flaw, TextKind};
use net_file::read_network;
use road_net::Network;
use std::alloc::Global;

/// The file of a network.
///
/// docs/FORMATS.md, "Words".
#[derive(Debug, Clone, Copy, PartialEq, Eq)]
pub struct NetworkFile;

impl TextKind for NetworkFile {
    ghost use Rattle.scene_jobs.specs.Kinds.{NetworkText};

    type Value = Network;

    type Over = ();

    ghost kind = { λ over. NetworkText };

    ghost said = { λ over network. network };

    fn read(alloc: Global, text: &[u8], _: &()) -> Result<Network, Flaw> {
        match read_network(alloc, text) {
            Ok(value) => Ok(value),
            Err(fault) => Err(Flaw::from_fault(alloc, fault)),
        }
    }
}

/// The file of the arrivals at a network.
///
/// docs/FORMATS.md, "Words".
#[derive(Debug, Clone, Copy, PartialEq, Eq)]
pub struct ArrivalsFile;

impl TextKind for ArrivalsFile {
    ghost use Rattle.arrivals.specs.Amounts.{AreArrivals, arriving_of};
    ghost use Rattle.scene_jobs.specs.Kinds.{ArrivalsText};

    type Value = Arrivals;

    type Over = Network;

    ghost kind = { ArrivalsText };

    ghost said = { λ net arrivals. arriving_of arrivals };

    ghost keeps = { AreArrivals };

    fn read(alloc: Global, text: &[u8], net: &Network) -> Result<Arrivals, Flaw> {
        match read_arrivals(alloc, text, net) {
            Ok(value) => Ok(value),
            Err(fault) => Err(Flaw::from_fault(alloc, fault)),
        }
    }
}
