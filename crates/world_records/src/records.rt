//! Records, written one after another.
ghost use Rattle.std.specs.Prelude.{◌≡◌, [], ◌∷◌, ℕ, List, IfOk, OnOk, map};
ghost use Rattle.world_records.specs.Written.{Adds, HasWritten};

use csv::Writer;
use std::alloc::AllocError;

/// A writer that appends records to a text.
///
/// docs/FORMATS.md, "Report".
pub fn start(text: Vec<u8>) -> Writer<Vec<u8>>
    ensures { HasWritten result text.items }
{
    Writer::from_writer(text)
}

/// The text that was written. `Err`: out of memory.
///
/// docs/FORMATS.md, "Report".
pub fn finish(out: Writer<Vec<u8>>) -> Result<Vec<u8>, AllocError>
    ensures { IfOk result (λ bytes. (text : List ℕ) → HasWritten out text → bytes.items ≡ text) }
{
    out.into_inner().ok().ok_or(AllocError)
}

/// Writes a record of these fields. `Err`: out of memory.
///
/// docs/FORMATS.md, "Report".
pub fn write_record(out: &mut Writer<Vec<u8>>, fields: &[&[u8]]) -> Result<(), AllocError>
    ensures { OnOk result (Adds out.old out.new (map (λ f. f.now) fields.now ∷ [])) }
{
    out.write_fields(fields).ok().ok_or(AllocError)
}
