//! The fields of a record, by place.
ghost use Rattle.std.specs.Prelude.{◌≡◌, ◌↔◌, ◌<◌, IsTrue, Some, length, map};
ghost use Rattle.csv.specs.Records.{field_at, fields_of};

use csv::ByteRecord;

/// Whether these are the fields of the record.
///
/// docs/FORMATS.md, "Records".
pub fn is_record(row: &ByteRecord, fields: &[&[u8]]) -> bool
    ensures { IsTrue result ↔ (fields_of row.now ≡ map (λ f. f.now) fields.now) }
{
    if row.len() != fields.len() {
        return false;
    }
    for place in 0..fields.len() {
        if field(row, place) != fields[place] {
            return false;
        }
    }
    true
}

/// The field at a place that a record has.
///
/// docs/FORMATS.md, "Records".
#[inline]
pub fn field(row: &ByteRecord, place: usize) -> &[u8]
    requires { place < length (fields_of row.now) }
    ensures { Some result.now ≡ field_at (fields_of row.now) place }
{
    let Some(field) = row.get(place) else {
        unreachable!()
    };
    field
}
