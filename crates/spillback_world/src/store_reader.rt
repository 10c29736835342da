//! A store that is being read.
ghost use Rattle.std.specs.Prelude.{◌≡◌, ◌↔◌, IfOk, IsTrue, length};
ghost use Rattle.road_net.specs.Network.{IsNetwork};
ghost use Rattle.spillback_world.specs.StoreReaders.{Adds, storages_of};
ghost use Rattle.spillback_world.specs.StoreRows.{IsStorage};

use crate::store::Store;
use crate::store_faults::StoreFault;
use road_net::Network;
use std::alloc::{AllocError, Global};

/// The most that a link can hold, in thousandths of a vehicle.
const MOST_OF_LINK: u32 = net_parts::MOST_OF_ALL;

/// How much a link can hold.
#[derive(Debug, Clone, Copy, PartialEq, Eq)]
pub(crate) struct StoreRow {
    /// The number of the link.
    pub link: u32,
    /// What it can hold, in thousandths of a vehicle.
    pub storage: u32,
}

/// What the rows so far say that links can hold.
#[derive(Drop)]
pub(crate) struct StoreReader {
    /// The storage of each link, by number; none where no row has the link.
    pub storages: Vec<Option<u32>>,
}

impl StoreReader {
    ghost use Rattle.std.specs.Prelude.{◌≡◌, ◌<◌, IfOk, None, length, replicate};
    ghost use Rattle.road_net.specs.Network.{IsNetwork};
    ghost use Rattle.spillback_world.specs.StoreReaders.{Adds, AreStorages, storages_of};

    /// No row is read. `Err`: out of memory.
    pub(crate) fn new(alloc: Global, net: &Network) -> Result<StoreReader, AllocError>
        ensures none { IfOk result (λ reader. reader.storages.items ≡ replicate (length net.now.link_names) None) }
        ensures network { IsNetwork net.now }
    {
        let mut storages = Vec::new(alloc);
        storages.resize(net.links() as usize, None)?;
        Ok(StoreReader { storages })
    }

    /// Adds the row with this number.
    pub(crate) fn add(&mut self, row: StoreRow, number: u32) -> Result<(), StoreFault>
        requires { row.link < length self.old.storages.items }
        ensures { Adds row number self.old.storages.items self.new.storages.items result }
    {
        if !is_storage(row.storage) {
            return Err(StoreFault::Bound(number));
        }
        if self.storages[row.link as usize].is_some() {
            return Err(StoreFault::Twice(number));
        }
        self.storages[row.link as usize] = Some(row.storage);
        Ok(())
    }

    /// The store of the rows that were read: what a link holds that no row has is 2,000,000,000. `Err`: out of memory.
    pub(crate) fn end(&self, alloc: Global) -> Result<Store, AllocError>
        requires { AreStorages self.now.storages.items }
        ensures { IfOk result (λ store. store ≡ storages_of self.now.storages.items) }
    {
        let mut storages = Vec::new(alloc);
        for storage in self.storages.iter() {
            storages.push(storage.unwrap_or(MOST_OF_LINK))?;
        }
        Ok(Store::of_storages(storages))
    }
}

/// Whether a link can hold this.
fn is_storage(storage: u32) -> bool
    ensures { IsTrue result ↔ IsStorage storage }
{
    (1..=MOST_OF_LINK).contains(&storage)
}
