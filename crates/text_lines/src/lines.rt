//! Numbers as text: a line that is filled from its end, in which each number's digits are written where they stay.

ghost use Rattle.std.specs.Prelude.{◌≡◌, ◌+◌, ◌*◌, ◌^◌, ◌<◌, ◌≤◌, ◌∷◌, ◌++◌, All, OnOk, length, map};
ghost use Rattle.std.specs.Fmt.{decimal};
ghost use Rattle.std.specs.List.{flat_map};
ghost use Rattle.text_lines.specs.Lines.{line};
ghost use Rattle.text_lines.specs.Numbers.{after_space};

use crate::buffer::Line;
use std::alloc::AllocError;

/// Appends a number to a text. `Err`: out of memory.
///
/// docs/FORMATS.md, "Numbers and lines".
pub fn push_number(text: &mut Vec<u8>, number: u64) -> Result<(), AllocError>
    ensures { OnOk result (text.new.items ≡ text.old.items ++ decimal number) }
{
    let mut line = Line::new();
    line.put_number(number);
    text.extend_from_slice(line.as_bytes())
}

/// Appends numbers to a text, each after one space. `Err`: out of memory.
///
/// docs/FORMATS.md, "Numbers and lines".
pub fn push_numbers(text: &mut Vec<u8>, numbers: &[u8]) -> Result<(), AllocError>
    ensures text { OnOk result (text.new.items ≡ text.old.items ++ flat_map after_space numbers.now) }
    ensures bytes { All (λ n. n < 2 ^ 8) numbers.now }
{
    for number in numbers {
        text.extend_from_slice(b" ")?;
        push_number(text, u64::from(*number))?;
    }
    Ok(())
}

/// Appends the line of a word and numbers to a text. `Err`: out of memory.
///
/// docs/FORMATS.md, "Numbers and lines".
pub fn push_line(text: &mut Vec<u8>, word: &[u8], numbers: &[u64]) -> Result<(), AllocError>
    requires { length word.now + 21 * length numbers.now < 160 }
    ensures { OnOk result (text.new.items ≡ text.old.items ++ line (word.now ∷ map decimal numbers.now)) }
{
    let mut filled = Line::new();
    filled.put_byte(b'\n');
    put_numbers(&mut filled, numbers);
    filled.put_word(word);
    text.extend_from_slice(filled.as_bytes())
}

/// Puts numbers in front of a line, each after one space.
///
/// docs/FORMATS.md, "Numbers and lines".
pub fn put_numbers(filled: &mut Line, numbers: &[u64])
    requires { length filled.old + 21 * length numbers.now ≤ 160 }
    ensures text { filled.new ≡ flat_map after_space numbers.now ++ filled.old }
    ensures room { length filled.new ≤ length filled.old + 21 * length numbers.now }
{
    for place in (0..numbers.len()).rev() {
        filled.put_spaced(numbers[place]);
    }
}
