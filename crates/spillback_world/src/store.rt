//! How much each link can hold.
use foundation::threads::CrossesThreads;
use std::marker::Model;

/// How much each link of a network can hold, by number, in thousandths of a vehicle: each 1 to 2,000,000,000. It is seen
/// as the list of these.
///
/// docs/RULES.md, "Storage".
#[derive(Drop)]
pub struct Store {
    /// The storages, by link.
    storages: Vec<u32>,
}

impl Model for Store {
    ghost use Rattle.std.specs.Prelude.{ℕ, List, All};
    ghost use Rattle.spillback_world.specs.StoreRows.{IsStorage};

    ghost Value = { List ℕ };

    ghost view = { λ store. store.storages.items };

    ghost invariant = { λ store. All IsStorage store.storages.items };
}

impl CrossesThreads for Store {}

impl Store {
    ghost use Rattle.std.specs.Prelude.{◌≡◌, ◌<◌, All, length, slice_index};
    ghost use Rattle.spillback_world.specs.StoreRows.{IsStorage};

    /// The storages of links, by number.
    pub(crate) fn of_storages(storages: Vec<u32>) -> Store
        requires { All IsStorage storages.items }
        ensures { result ≡ storages.items }
    {
        Store { storages }
    }

    /// How much a link can hold, in thousandths of a vehicle.
    ///
    /// docs/RULES.md, "Storage".
    pub fn room(&self, link: u32) -> u32
        requires { link < length self.now }
        ensures value { result ≡ slice_index self.now link }
        ensures bounds { All IsStorage self.now }
    {
        self.storages[link as usize]
    }
}
