//! What the records of a report tell.
ghost use Rattle.std.specs.Prelude.{◌≡◌, ◌∷◌, None, Some, MatchOption, codes};
ghost use Rattle.csv.specs.Records.{fields_of};
ghost use Rattle.audit.specs.{SheetEntries.in_words, SheetRecords.parse_counts, SheetRecords.parse_green, SheetRecords.parse_sums, SheetRecords.parse};
ghost use Rattle.audit.specs.SheetRecords as records;

use crate::sheet_fields::{field_u8, field_u32, field_u64};
use control_flow::greens::Green;
use csv::ByteRecord;
use net_simulator::{LinkTotals, Totals};
use world_records::seven_fields;

/// What a record tells.
pub(crate) enum Entry<'a> {
    /// Nothing: its kind is passed over.
    Ignored,
    /// A green of the node of this name.
    Shows(&'a [u8], Green),
    /// What was counted of the link of this name.
    Counts(&'a [u8], LinkTotals),
    /// What was counted of the whole network.
    Sums(Totals),
}

/// What a record tells; none where it has not seven fields, or is of none of the five kinds, or a number is none.
#[tactic(auto, unfolding(crate::specs::SheetRecords::parse_fields))]
pub(crate) fn read_entry(row: &ByteRecord) -> Option<Entry>
    ensures { MatchOption result (parse (fields_of row.now) ≡ None)
        (λ entry. parse (fields_of row.now) ≡ Some (in_words entry)) }
{
    let (kind, _, node, x, y, z, w) = seven_fields(row)?;
    if kind == b"green".as_slice() {
        return read_green(node, x, y, z);
    }
    if kind == b"link".as_slice() {
        return read_counts(x, y, z, w);
    }
    if kind == b"total".as_slice() {
        return read_sums(x, y, z, w);
    }
    if is_passed_over(kind) {
        Some(Entry::Ignored)
    } else {
        None
    }
}

/// Whether a record of this kind is passed over.
fn is_passed_over(kind: &[u8]) -> bool
    ensures { result ≡ records.is_passed_over kind.now }
{
    kind == b"step".as_slice() || kind == b"plan".as_slice()
}

/// The green of a node's name, phase, begin and end.
#[tactic(auto, unfolding(crate::specs::SheetRecords::parse_green))]
fn read_green<'a>(node: &'a [u8], phase: &[u8], from: &[u8], to: &[u8]) -> Option<Entry<'a>>
    ensures { MatchOption result (parse_green node.now phase.now from.now to.now ≡ None)
        (λ entry. parse_green node.now phase.now from.now to.now ≡ Some (in_words entry)) }
{
    let phase = field_u8(phase)?;
    let from = field_u32(from)?;
    let to = field_u32(to)?;
    Some(Entry::Shows(node, Green { phase, from, to }))
}

/// The totals of a link's name and what was counted of it.
#[tactic(auto, unfolding(crate::specs::SheetRecords::parse_counts))]
fn read_counts<'a>(link: &'a [u8], entered: &[u8], left: &[u8], delay: &[u8]) -> Option<Entry<'a>>
    ensures { MatchOption result (parse_counts link.now entered.now left.now delay.now ≡ None)
        (λ entry. parse_counts link.now entered.now left.now delay.now ≡ Some (in_words entry)) }
{
    let entered = field_u64(entered)?;
    let left = field_u64(left)?;
    let delay = field_u64(delay)?;
    Some(Entry::Counts(
        link,
        LinkTotals {
            entered,
            left,
            delay,
        },
    ))
}

/// The totals of the whole network.
#[tactic(auto, unfolding(crate::specs::SheetRecords::parse_sums))]
fn read_sums<'a>(entered: &[u8], left: &[u8], on: &[u8], delay: &[u8]) -> Option<Entry<'a>>
    ensures { MatchOption result (parse_sums entered.now left.now on.now delay.now ≡ None)
        (λ entry. parse_sums entered.now left.now on.now delay.now ≡ Some (in_words entry)) }
{
    let entered = field_u64(entered)?;
    let left = field_u64(left)?;
    let on = field_u64(on)?;
    let delay = field_u64(delay)?;
    Some(Entry::Sums(Totals {
        entered,
        left,
        on,
        delay,
    }))
}
