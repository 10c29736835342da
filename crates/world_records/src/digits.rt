//! The digits of a number.
ghost use Rattle.std.specs.Prelude.{◌≡◌};
ghost use Rattle.std.specs.Fmt.{decimal};

use itoa::write_digits;
use std::marker::Model;

/// How many digits a number can have.
const CAPACITY: usize = 20;

/// The digits of a number. Contracts see them as bytes.
///
/// docs/FORMATS.md, "Numbers and lines".
#[derive(Drop)]
pub struct Digits {
    bytes: [u8; CAPACITY],
    start: usize,
}

impl Model for Digits {
    ghost use Rattle.std.specs.Prelude.{◌≤◌, ℕ, List, drop};

    ghost Value = { List ℕ };

    ghost view = { λ digits. drop digits.start digits.bytes };

    ghost invariant = { λ digits. digits.start ≤ 20 };
}

impl Digits {
    /// The digits, from the first to the last.
    ///
    /// docs/FORMATS.md, "Numbers and lines".
    #[inline]
    pub fn as_bytes(&self) -> &[u8]
        ensures { result.now ≡ self.now }
    {
        &self.bytes[self.start..]
    }
}

/// The digits of a number, as a field of a record.
///
/// docs/FORMATS.md, "Numbers and lines".
pub fn digits_of(n: u64) -> Digits
    ensures { result ≡ decimal n }
{
    let mut bytes = [0; CAPACITY];
    let start = write_digits(n, &mut bytes, CAPACITY);
    Digits { bytes, start }
}
