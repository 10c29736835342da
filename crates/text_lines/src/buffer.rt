//! A line that is filled from its end.

use itoa::write_digits;
use std::marker::Model;

/// How many bytes a line can hold.
const CAPACITY: usize = 160;

/// A line of at most 160 bytes that grows at its front. Contracts see its bytes.
///
/// docs/FORMATS.md, "Numbers and lines".
#[derive(Drop)]
pub struct Line {
    bytes: [u8; CAPACITY],
    start: usize,
}

impl Model for Line {
    ghost use Rattle.std.specs.Prelude.{◌≤◌, ℕ, List, drop};

    ghost Value = { List ℕ };

    ghost view = { λ line. drop line.start line.bytes };

    ghost invariant = { λ line. line.start ≤ 160 };
}

impl Line {
    ghost use Rattle.std.specs.Prelude.{◌≡◌, ◌+◌, ◌<◌, ◌≤◌, [], ◌∷◌, ◌++◌, length};
    ghost use Rattle.std.specs.Fmt.{decimal};

    /// An empty line.
    ///
    /// docs/FORMATS.md, "Numbers and lines".
    pub fn new() -> Line
        ensures { result ≡ [] }
    {
        Line {
            bytes: [0; CAPACITY],
            start: CAPACITY,
        }
    }

    /// Takes all bytes away.
    ///
    /// docs/FORMATS.md, "Numbers and lines".
    #[inline]
    pub fn clear(&mut self)
        ensures { self.new ≡ [] }
    {
        self.start = CAPACITY;
    }

    /// Puts one byte in front.
    ///
    /// docs/FORMATS.md, "Numbers and lines".
    #[inline]
    pub fn put_byte(&mut self, byte: u8)
        requires { length self.old < 160 }
        ensures { self.new ≡ byte ∷ self.old }
    {
        self.start -= 1;
        self.bytes[self.start] = byte;
    }

    /// Puts the digits of a number in front.
    ///
    /// docs/FORMATS.md, "Numbers and lines".
    #[inline]
    pub fn put_number(&mut self, number: u64)
        requires { length self.old + length (decimal number) ≤ 160 }
        ensures { self.new ≡ decimal number ++ self.old }
    {
        self.start = write_digits(number, &mut self.bytes, self.start);
    }

    /// Puts a space and the digits of a number in front.
    ///
    /// docs/FORMATS.md, "Numbers and lines".
    #[inline]
    pub fn put_spaced(&mut self, number: u64)
        requires { length self.old + length (decimal number) < 160 }
        ensures { self.new ≡ 32 ∷ (decimal number ++ self.old) }
    {
        self.put_number(number);
        self.put_byte(b' ');
    }

    /// Puts a word in front.
    ///
    /// docs/FORMATS.md, "Numbers and lines".
    #[inline]
    pub fn put_word(&mut self, word: &[u8])
        requires { length self.old + length word.now ≤ 160 }
        ensures { self.new ≡ word.now ++ self.old }
    {
        let end = self.start;
        self.start -= word.len();
        self.bytes[self.start..end].copy_from_slice(word);
    }

    /// The bytes, from the first to the last.
    ///
    /// docs/FORMATS.md, "Numbers and lines".
    #[inline]
    pub fn as_bytes(&self) -> &[u8]
        ensures { result.now ≡ self.now }
    {
        &self.bytes[self.start..]
    }
}
