//! The row that a record tells.
ghost use Rattle.std.specs.Prelude.{◌≡◌, ◌≢◌, [], ◌∷◌, None, Some, MatchOption, length};
ghost use Rattle.csv.specs.Records.{fields_of};
ghost use Rattle.road_net.specs.Network.{IsNetwork};
ghost use Rattle.arrivals.specs.{Records.parse, Stored.Reads};

use crate::rows::{ArrivalRow, RowFault};
use csv::ByteRecord;
use record_text::{digits, field, link_named};
use road_net::Network;

/// The row that a record tells, by the number of its link.
#[tactic(auto, unfolding(crate::specs::Records::parse_in))]
pub(crate) fn read_row(net: &Network, row: &ByteRecord, number: u32) -> Result<ArrivalRow, RowFault>
    requires { IsNetwork net.now }
    ensures { Reads net.now (fields_of row.now) number result }
{
    let Some((second, name, amount)) = record_fields(row) else {
        return Err(RowFault::Row(number));
    };
    match link_named(net, name) {
        Some(link) => Ok(ArrivalRow {
            second,
            link,
            amount,
        }),
        None => Err(RowFault::Link(number)),
    }
}

/// The second, the name of the link, and the amount of a record.
#[tactic(auto, unfolding(crate::specs::Records::parse_fields))]
fn record_fields(row: &ByteRecord) -> Option<(u32, &[u8], u32)>
    ensures { MatchOption result (parse (fields_of row.now) ≡ None)
        (λ t. parse (fields_of row.now) ≡ Some (record { second = t.0; name = t.1.now; amount = t.2 })) }
{
    let (second, name, amount) = three_fields(row)?;
    let second = digits(second)?;
    let amount = digits(amount)?;
    Some((second, name, amount))
}

/// The fields of a record that has three.
fn three_fields(row: &ByteRecord) -> Option<(&[u8], &[u8], &[u8])>
    ensures { MatchOption result (length (fields_of row.now) ≢ 3)
        (λ f. fields_of row.now ≡ f.0.now ∷ f.1.now ∷ f.2.now ∷ []) }
{
    if row.len() != 3 {
        return None;
    }
    Some((field(row, 0), field(row, 1), field(row, 2)))
}
