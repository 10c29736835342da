//! What the fields of a record tell.
ghost use Rattle.std.specs.Prelude.{◌≡◌, ◌≢◌, [], ◌∷◌, MatchOption, None, Some, length};
ghost use Rattle.csv.specs.Records.{fields_of};
ghost use Rattle.round_states.specs.StateRecords.{byte_of, name_of, row_of, green_of, queue_of, parse_fields, parse};

use crate::entries::{Queue, StateRecord};
use board_model::Row;
use control_flow::greens::Green;
use csv::ByteRecord;
use record_text::{digits, field};

/// The name in a record, and what the record says; none where it says nothing.
pub(crate) fn read_said(row: &ByteRecord) -> Option<(&[u8], StateRecord)>
    ensures { MatchOption result (parse (fields_of row.now) ≡ None)
        (λ f. (parse (fields_of row.now) ≡ Some f.1) × (name_of (fields_of row.now) ≡ f.0.now)) }
{
    let (kind, name, x, y, z) = five_fields(row)?;
    let content = said_by(kind, x, y, z)?;
    Some((name, content))
}

/// What a record of this kind says.
#[tactic(auto, unfolding(crate::specs::StateRecords::parse_fields))]
fn said_by(kind: &[u8], x: &[u8], y: &[u8], z: &[u8]) -> Option<StateRecord>
    ensures { result ≡ parse_fields kind.now x.now y.now z.now }
{
    if kind == b"now".as_slice() {
        return Some(StateRecord::Now(digits(x)?));
    }
    if kind == b"green".as_slice() {
        return Some(StateRecord::Green(green(x, y, z)?));
    }
    if kind == b"queue".as_slice() {
        return Some(StateRecord::Queue(queue(x, y)?));
    }
    if kind == b"coming".as_slice() {
        return Some(StateRecord::Coming(row(x, y)?));
    }
    if kind == b"version".as_slice() {
        return Some(StateRecord::Version(digits(x)?));
    }
    if kind == b"row".as_slice() {
        return Some(StateRecord::Row(row(x, y)?));
    }
    if kind == b"plan".as_slice() {
        return Some(StateRecord::Plan);
    }
    None
}

/// The green of a phase, a begin and an end.
#[tactic(auto, unfolding(crate::specs::StateRecords::green_of))]
fn green(x: &[u8], y: &[u8], z: &[u8]) -> Option<Green>
    ensures { result ≡ green_of x.now y.now z.now }
{
    let phase = byte(x)?;
    let from = digits(y)?;
    let to = digits(z)?;
    Some(Green { phase, from, to })
}

/// The queue of an amount and of how long it has stood.
#[tactic(auto, unfolding(crate::specs::StateRecords::queue_of))]
fn queue(x: &[u8], y: &[u8]) -> Option<Queue>
    ensures { result ≡ queue_of x.now y.now }
{
    let amount = digits(x)?;
    let stood = digits(y)?;
    Some(Queue { amount, stood })
}

/// The row of a second and an amount.
#[tactic(auto, unfolding(crate::specs::StateRecords::row_of))]
fn row(x: &[u8], y: &[u8]) -> Option<Row>
    ensures { result ≡ row_of x.now y.now }
{
    let second = digits(x)?;
    let amount = digits(y)?;
    Some(Row { second, amount })
}

/// The number of a field of digits that is at most 255.
#[tactic(auto, unfolding(crate::specs::StateRecords::byte_of))]
fn byte(field: &[u8]) -> Option<u8>
    ensures { result ≡ byte_of field.now }
{
    let number = digits(field)?;
    if number < 256 {
        Some(number as u8)
    } else {
        None
    }
}

/// The fields of a record that has five.
fn five_fields(row: &ByteRecord) -> Option<(&[u8], &[u8], &[u8], &[u8], &[u8])>
    ensures { MatchOption result (length (fields_of row.now) ≢ 5)
        (λ f. fields_of row.now ≡ f.0.now ∷ f.1.now ∷ f.2.now ∷ f.3.now ∷ f.4.now ∷ []) }
{
    if row.len() != 5 {
        return None;
    }
    Some((
        field(row, 0),
        field(row, 1),
        field(row, 2),
        field(row, 3),
        field(row, 4),
    ))
}
