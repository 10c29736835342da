//! The file of a store.
ghost use Rattle.std.specs.Prelude.{◌≡◌, ◌≢◌, ℕ, List, IfErr, IfOk, length};
ghost use Rattle.spillback_world.specs.StoreTexts.{IsStoreText, IsTextFault};

use crate::store::Store;
use crate::store_faults::StoreFault;
use crate::store_fields::read_row;
use crate::store_reader::StoreReader;
use csv::ByteRecord;
use record_text::{RecordTaker, is_record, take_records};
use road_net::Network;
use std::alloc::Global;

/// The store of a file, whose links stand by their names in the network: how much each link of the network can hold. That
/// is 2,000,000,000 thousandths of a vehicle where no row has the link.
///
/// The fault is out of memory; or `Header`, where the file does not begin with the header; or that of the first row at
/// fault, within a row in the order `Row`, `Link`, `Bound`, `Twice`.
///
/// docs/FORMATS.md, "Store file".
pub fn read_store(alloc: Global, bytes: &[u8], net: &Network) -> Result<Store, StoreFault>
    ensures ok { IfOk result (IsStoreText net.now bytes.now) }
    ensures links { IfOk result (λ store. length store ≡ length net.now.link_names) }
    ensures refused { IfErr result (λ fault. fault ≢ StoreFault.NoMemory
        → (store : List ℕ) → ¬ IsStoreText net.now bytes.now store) }
    ensures first { IfErr result (IsTextFault net.now bytes.now) }
{
    let mut reader = StoreReader::new(alloc, net)?;
    if !take_records(alloc, bytes, net, &mut reader)? {
        return Err(StoreFault::Header);
    }
    let store = reader.end(alloc)?;
    Ok(store)
}

impl RecordTaker for StoreReader {
    ghost use Rattle.spillback_world.specs.StoreReaders.{IsFaultAt, HasRead};
    ghost use Rattle.spillback_world.specs.StoreRecords as records;

    type Fault = StoreFault;

    ghost header = { records.header };

    ghost has_taken = { HasRead };

    ghost at_fault = { IsFaultAt };

    fn is_header(row: &ByteRecord) -> bool {
        is_record(row, &[b"link", b"storage"])
    }

    fn take(
        &mut self,
        _alloc: Global,
        net: &Network,
        row: &ByteRecord,
        number: u32,
    ) -> Result<(), StoreFault> {
        let row = read_row(net, row, number)?;
        self.add(row, number)
    }
}
