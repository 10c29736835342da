//! The header and the fields of records.
ghost use Rattle.std.specs.Prelude.{◌≡◌, ◌≢◌, ◌↔◌, [], ◌∷◌, IsTrue, MatchOption, OnOk, length};
ghost use Rattle.csv.specs.Records.{fields_of};
ghost use Rattle.world_records.specs.{Records.header, Written.Adds};

use crate::records::write_record;
use csv::{ByteRecord, Writer};
use record_text::{field, is_record};
use std::alloc::AllocError;

/// Writes the header. `Err`: out of memory.
///
/// docs/FORMATS.md, "Report".
pub fn write_header(out: &mut Writer<Vec<u8>>) -> Result<(), AllocError>
    ensures { OnOk result (Adds out.old out.new (header ∷ [])) }
{
    write_record(out, &[b"kind", b"round", b"node", b"x", b"y", b"z", b"w"])
}

/// Whether the record is the header.
///
/// docs/FORMATS.md, "History file".
pub fn is_header(row: &ByteRecord) -> bool
    ensures { IsTrue result ↔ (fields_of row.now ≡ header) }
{
    is_record(row, &[b"kind", b"round", b"node", b"x", b"y", b"z", b"w"])
}

/// The fields of a record that has seven; none where it has more or fewer.
///
/// docs/FORMATS.md, "History file".
pub fn seven_fields(row: &ByteRecord) -> Option<(&[u8], &[u8], &[u8], &[u8], &[u8], &[u8], &[u8])>
    ensures { MatchOption result (length (fields_of row.now) ≢ 7)
        (λ f. fields_of row.now ≡ f.0.now ∷ f.1.now ∷ f.2.now ∷ f.3.now ∷ f.4.now ∷ f.5.now ∷ f.6.now ∷ []) }
{
    if row.len() != 7 {
        return None;
    }
    Some((
        field(row, 0),
        field(row, 1),
        field(row, 2),
        field(row, 3),
        field(row, 4),
        field(row, 5),
        field(row, 6),
    ))
}
