//! Faults of texts, each of which tells its own code; and the words with numbers after them of which codes and other lines are made.
ghost use Rattle.std.specs.Prelude.{◌≡◌, ◌∷◌, ◌++◌, OnOk};
ghost use Rattle.std.specs.Fmt.{decimal};

use crate::lines::push_number;
use std::alloc::AllocError;

/// Why a text is read as nothing: a fault of the text, or that memory ran out.
///
/// docs/FORMATS.md, "Codes of a bad text".
pub trait Fault: Copy {
    ghost use Rattle.std.specs.Prelude.{◌≡◌, ◌++◌, ℕ, List, OnOk};

    /// The code of a fault of the text.
    ghost code: { Self → List ℕ };

    /// It is of the text, and not that memory ran out.
    ghost is_of_text: { Self → Type 0 } = { λ fault. Unit {0} };

    /// Appends its code to a line. `Err`: out of memory, here or as the fault says.
    ///
    /// docs/FORMATS.md, "Codes of a bad text".
    fn push_code(self, line: &mut Vec<u8>) -> Result<(), AllocError>
        ensures code { OnOk result (line.new.items ≡ line.old.items ++ code self) }
        ensures of_text { OnOk result (is_of_text self) };
}

/// Appends a word and a number to a text. `Err`: out of memory.
///
/// docs/FORMATS.md, "Numbers and lines".
pub fn push_one(text: &mut Vec<u8>, word: &[u8], number: u64) -> Result<(), AllocError>
    ensures { OnOk result (text.new.items ≡ text.old.items ++ (word.now ++ decimal number)) }
{
    text.extend_from_slice(word)?;
    push_number(text, number)
}

/// Appends a word and two numbers, with a space between them, to a text. `Err`: out of memory.
///
/// docs/FORMATS.md, "Numbers and lines".
pub fn push_two(text: &mut Vec<u8>, word: &[u8], first: u64, second: u64) -> Result<(), AllocError>
    ensures { OnOk result (text.new.items ≡ text.old.items ++ (word.now ++ decimal first ++ 32 ∷ decimal second)) }
{
    push_one(text, word, first)?;
    push_one(text, b" ", second)
}
