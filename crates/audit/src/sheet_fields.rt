//! The numbers that fields are the texts of.
ghost use Rattle.std.specs.Prelude.{◌≡◌};
ghost use Rattle.audit.specs.SheetRecords.{number_in};

use text_lines::{number_u32, number_u64, number_within};

/// The number of 64 bits that a field is the text of.
pub(crate) fn field_u64(field: &[u8]) -> Option<u64>
    ensures { result ≡ number_in 64 field.now }
{
    match str::from_utf8(field) {
        Ok(word) => number_u64(word),
        Err(_) => None,
    }
}

/// The number of 32 bits that a field is the text of.
pub(crate) fn field_u32(field: &[u8]) -> Option<u32>
    ensures { result ≡ number_in 32 field.now }
{
    match str::from_utf8(field) {
        Ok(word) => number_u32(word),
        Err(_) => None,
    }
}

/// The number of 8 bits that a field is the text of.
pub(crate) fn field_u8(field: &[u8]) -> Option<u8>
    ensures { result ≡ number_in 8 field.now }
{
    match str::from_utf8(field) {
        Ok(word) => byte_of(word),
        Err(_) => None,
    }
}

/// The number of 8 bits that a word is the text of.
fn byte_of(word: &str) -> Option<u8>
    ensures { result ≡ number_in 8 word.now }
{
    let number = number_within(word, 0, 255)?;
    Some(number as u8)
}
