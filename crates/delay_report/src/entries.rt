//! What the records of a history tell.
ghost use Rattle.std.specs.Prelude.{◌≡◌, ℕ, List, Some, IfErr, IfOk};
ghost use Rattle.csv.specs.Records.{fields_of};
ghost use Rattle.road_net.specs.Network.{IsNetwork};
ghost use Rattle.delay_report.specs.Entries as entries;
ghost use Rattle.delay_report.specs.{Entries.steps_of, Readers.steps_if, Readers.IsEntryFault};

use crate::faults::HistoryFault;
use csv::ByteRecord;
use record_text::node_named;
use road_net::Network;
use world_records::seven_fields;

/// The node whose step a record tells, by its number; none where its kind is passed over.
#[tactic(auto, unfolding(crate::specs::Entries::steps_of))]
pub(crate) fn read_step(
    net: &Network,
    row: &ByteRecord,
    number: u32,
) -> Result<Option<u32>, HistoryFault>
    requires { IsNetwork net.now }
    ensures ok { IfOk result (λ node. steps_of net.now (fields_of row.now) ≡ Some (steps_if node)) }
    ensures first { IfErr result (λ fault. (history : List ℕ)
        → IsEntryFault net.now history (fields_of row.now) number fault) }
{
    let Some((kind, _, node, _, _, _, _)) = seven_fields(row) else {
        return Err(HistoryFault::Row(number));
    };
    if is_passed_over(kind) {
        return Ok(None);
    }
    if kind != b"step".as_slice() {
        return Err(HistoryFault::Row(number));
    }
    match node_named(net, node) {
        Some(node) => Ok(Some(node)),
        None => Err(HistoryFault::Node(number)),
    }
}

/// Whether a record of this kind is passed over.
fn is_passed_over(kind: &[u8]) -> bool
    ensures { result ≡ entries.is_passed_over kind.now }
{
    kind == b"plan".as_slice()
        || kind == b"green".as_slice()
        || kind == b"link".as_slice()
        || kind == b"total".as_slice()
}
