//! The row that a record tells.
ghost use Rattle.std.specs.Prelude.{◌≡◌, ◌≢◌, [], ◌∷◌, None, Some, MatchOption, length};
ghost use Rattle.csv.specs.Records.{fields_of};
ghost use Rattle.road_net.specs.Network.{IsNetwork};
ghost use Rattle.fixed_plans.specs.{Readers.Reads, Records.parse};

use crate::faults::FixedFault;
use crate::rows::FixedRow;
use csv::ByteRecord;
use record_text::{digits, field, node_named};
use road_net::Network;

/// The row that a record tells, by the number of its node.
#[tactic(auto, unfolding(crate::specs::Records::parse_in))]
pub(crate) fn read_row(net: &Network, row: &ByteRecord, number: u32) -> Result<FixedRow, FixedFault>
    requires { IsNetwork net.now }
    ensures { Reads net.now (fields_of row.now) number result }
{
    let Some((name, phase, green, offset)) = record_fields(row) else {
        return Err(FixedFault::Row(number));
    };
    match node_named(net, name) {
        Some(node) => Ok(FixedRow {
            node,
            phase,
            green,
            offset,
        }),
        None => Err(FixedFault::Node(number)),
    }
}

/// The name of the node, the phase, the green and the offset of a record.
#[tactic(auto, unfolding(crate::specs::Records::parse_fields))]
fn record_fields(row: &ByteRecord) -> Option<(&[u8], u32, u32, u32)>
    ensures { MatchOption result (parse (fields_of row.now) ≡ None)
        (λ t. parse (fields_of row.now) ≡ Some (record { name = t.0.now; phase = t.1; green = t.2; offset = t.3 })) }
{
    let (name, phase, green, offset) = four_fields(row)?;
    let phase = digits(phase)?;
    let green = digits(green)?;
    let offset = digits(offset)?;
    Some((name, phase, green, offset))
}

/// The fields of a record that has four.
fn four_fields(row: &ByteRecord) -> Option<(&[u8], &[u8], &[u8], &[u8])>
    ensures { MatchOption result (length (fields_of row.now) ≢ 4)
        (λ f. fields_of row.now ≡ f.0.now ∷ f.1.now ∷ f.2.now ∷ f.3.now ∷ []) }
{
    if row.len() != 4 {
        return None;
    }
    Some((field(row, 0), field(row, 1), field(row, 2), field(row, 3)))
}
