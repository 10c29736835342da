//! The records of a text, one after another.
ghost use Rattle.std.specs.Prelude.{◌≡◌, true, IfOk, OnErr};
ghost use Rattle.csv.specs.Reading.{has_failed};
ghost use Rattle.csv.specs.Records.{fields_of};
ghost use Rattle.record_text.specs.Records.{records_of};
ghost use Rattle.record_text.specs.Reading.{IsReading, left_of, Takes};

use csv::{ByteRecord, Reader, ReaderBuilder};
use std::alloc::{AllocError, Global};

/// A reader of the records of a text, all of which are left. It takes records of any length.
///
/// docs/FORMATS.md, "Records".
pub fn open<'a>(alloc: Global, bytes: &'a [u8]) -> Reader<&'a [u8]>
    ensures reading { IsReading result }
    ensures left { left_of result ≡ records_of bytes.now }
{
    ReaderBuilder::new()
        .has_headers(false)
        .flexible(true)
        .from_reader(alloc, bytes)
}

/// Reads the first record that is left, of whatever length, and answers whether there is one.
///
/// `Err`: out of memory. The reader has then stopped, and gives no more records.
///
/// docs/FORMATS.md, "Records".
pub fn next_record(reader: &mut Reader<&[u8]>, row: &mut ByteRecord) -> Result<bool, AllocError>
    requires { IsReading reader.old }
    ensures ok { IfOk result (λ found. Takes reader.old reader.new found (fields_of row.new)) }
    ensures stops { OnErr result (has_failed reader.new ≡ true) }
{
    reader.read_byte_record(row).ok().ok_or(AllocError)
}
