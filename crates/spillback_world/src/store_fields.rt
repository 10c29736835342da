//! The row that a record tells.
ghost use Rattle.std.specs.Prelude.{◌≡◌, ◌≢◌, [], ◌∷◌, None, Some, MatchOption, length};
ghost use Rattle.csv.specs.Records.{fields_of};
ghost use Rattle.road_net.specs.Network.{IsNetwork};
ghost use Rattle.spillback_world.specs.StoreReaders.{Reads};
ghost use Rattle.spillback_world.specs.StoreRecords.{parse};

use crate::store_faults::StoreFault;
use crate::store_reader::StoreRow;
use csv::ByteRecord;
use record_text::{digits, field, link_named};
use road_net::Network;

/// The row that a record tells, by the number of its link.
#[tactic(auto, unfolding(crate::specs::StoreRecords::parse_in))]
pub(crate) fn read_row(net: &Network, row: &ByteRecord, number: u32) -> Result<StoreRow, StoreFault>
    requires { IsNetwork net.now }
    ensures { Reads net.now (fields_of row.now) number result }
{
    let Some((name, storage)) = record_fields(row) else {
        return Err(StoreFault::Row(number));
    };
    match link_named(net, name) {
        Some(link) => Ok(StoreRow { link, storage }),
        None => Err(StoreFault::Link(number)),
    }
}

/// The name of the link and the storage of a record.
#[tactic(auto, unfolding(crate::specs::StoreRecords::parse_fields))]
fn record_fields(row: &ByteRecord) -> Option<(&[u8], u32)>
    ensures { MatchOption result (parse (fields_of row.now) ≡ None)
        (λ t. parse (fields_of row.now) ≡ Some (record { name = t.0.now; storage = t.1 })) }
{
    let (name, storage) = two_fields(row)?;
    let storage = digits(storage)?;
    Some((name, storage))
}

/// The fields of a record that has two.
fn two_fields(row: &ByteRecord) -> Option<(&[u8], &[u8])>
    ensures { MatchOption result (length (fields_of row.now) ≢ 2)
        (λ f. fields_of row.now ≡ f.0.now ∷ f.1.now ∷ []) }
{
    if row.len() != 2 {
        return None;
    }
    Some((field(row, 0), field(row, 1)))
}
