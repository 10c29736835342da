//! The command `upgrade NET`.
use net_file::write_network;
use road_net::Network;
use scene_jobs::NetworkWork;
use std::alloc::{AllocError, Global};

/// `upgrade NET`: the network in the file as a file of the least version that can say it, 2 or 3, which has every mark and weight. The
/// same network is read from it.
///
/// docs/FORMATS.md, "Words".
#[derive(Debug, Clone, Copy, PartialEq, Eq)]
pub struct UpgradeWork;

impl NetworkWork for UpgradeWork {
    ghost use Rattle.net_file.specs.Upgrade.{IsUpgraded};

    ghost writes = { λ work net bytes. IsUpgraded bytes net };

    fn write(&self, alloc: Global, net: &Network) -> Result<Vec<u8>, AllocError> {
        write_network(alloc, net)
    }
}
