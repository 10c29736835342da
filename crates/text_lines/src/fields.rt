//! The units of which lines of text are made: literals, and numbers with a separator after them.
//!
//! Each is read from the front of the bytes, exactly: the answer says what stands there and what comes
//! after it, and there is none only where nothing of the kind stands there.

ghost use Rattle.std.specs.Prelude.{◌≡◌, ℕ, ◌+◌, ◌*◌, ◌-◌, ◌^◌, ◌<◌, ◌≤◌, List, ◌∷◌, ◌++◌, ◌⊎◌, length, take, slice_index, IfSome, IsSomeAnd};
ghost use Rattle.std.specs.Char.{IsAsciiDigit};
ghost use Rattle.std.specs.Option.{SomeIff, option_map, option_copied};
ghost use Rattle.std.specs.Fmt.{decimal};
ghost use Rattle.text_lines.specs.Fields.{literal_at, field_at, field_seen};

/// The bytes after `text`, or none where the bytes do not begin with it.
///
/// docs/FORMATS.md, "Numbers and lines".
pub fn literal<'a>(text: &str, bytes: &'a [u8]) -> Option<&'a [u8]>
    ensures some { IfSome result (λ rest. bytes.now ≡ text.now ++ rest.now) }
    ensures only { (rest : List ℕ) → bytes.now ≡ text.now ++ rest → IsSomeAnd result (λ x. x.now ≡ rest) }
    ensures shorter { IfSome result (λ rest. length rest.now + length text.now ≡ length bytes.now) }
    // The same as a function of the bytes.
    ensures exact { option_copied result ≡ literal_at text.now bytes.now }
{
    bytes.strip_prefix(text.as_bytes())
}

/// The number at the front, which is a `u8`, up to the separator, and the bytes after that.
///
/// A number has digits alone, and its first is 0 only where it is 0. The separator is no digit.
///
/// docs/FORMATS.md, "Numbers and lines".
pub fn field_u8(separator: u8, bytes: &[u8]) -> Option<(u8, &[u8])>
    requires { ¬ IsAsciiDigit separator }
    ensures some { IfSome result (λ x. bytes.now ≡ decimal x.0 ++ separator ∷ x.1.now) }
    ensures only { (n : ℕ) (rest : List ℕ) → n < 2 ^ 8 → bytes.now ≡ decimal n ++ separator ∷ rest
        → IsSomeAnd result (λ x. (x.0 ≡ n) × (x.1.now ≡ rest)) }
    ensures shorter { IfSome result (λ x. length x.1.now < length bytes.now) }
    // The same as a function of the bytes.
    ensures exact { option_map field_seen result ≡ field_at (2 ^ 8) separator bytes.now }
{
    let (number, rest) = field_up_to(u64::from(u8::MAX), separator, bytes)?;
    Some((number as u8, rest))
}

/// The number at the front, which is a `u32`, up to the separator, and the bytes after that.
///
/// A number has digits alone, and its first is 0 only where it is 0. The separator is no digit.
///
/// docs/FORMATS.md, "Numbers and lines".
pub fn field_u32(separator: u8, bytes: &[u8]) -> Option<(u32, &[u8])>
    requires { ¬ IsAsciiDigit separator }
    ensures some { IfSome result (λ x. bytes.now ≡ decimal x.0 ++ separator ∷ x.1.now) }
    ensures only { (n : ℕ) (rest : List ℕ) → n < 2 ^ 32 → bytes.now ≡ decimal n ++ separator ∷ rest
        → IsSomeAnd result (λ x. (x.0 ≡ n) × (x.1.now ≡ rest)) }
    ensures shorter { IfSome result (λ x. length x.1.now < length bytes.now) }
    // The same as a function of the bytes.
    ensures exact { option_map field_seen result ≡ field_at (2 ^ 32) separator bytes.now }
{
    let (number, rest) = field_up_to(u64::from(u32::MAX), separator, bytes)?;
    Some((number as u32, rest))
}

/// The number at the front, which is a `u64`, up to the separator, and the bytes after that.
///
/// A number has digits alone, and its first is 0 only where it is 0. The separator is no digit.
///
/// docs/FORMATS.md, "Numbers and lines".
pub fn field_u64(separator: u8, bytes: &[u8]) -> Option<(u64, &[u8])>
    requires { ¬ IsAsciiDigit separator }
    ensures some { IfSome result (λ x. bytes.now ≡ decimal x.0 ++ separator ∷ x.1.now) }
    ensures only { (n : ℕ) (rest : List ℕ) → n < 2 ^ 64 → bytes.now ≡ decimal n ++ separator ∷ rest
        → IsSomeAnd result (λ x. (x.0 ≡ n) × (x.1.now ≡ rest)) }
    ensures shorter { IfSome result (λ x. length x.1.now < length bytes.now) }
    // The same as a function of the bytes.
    ensures exact { option_map field_seen result ≡ field_at (2 ^ 64) separator bytes.now }
{
    field_up_to(u64::MAX, separator, bytes)
}

/// How many digits always make a number of 64 bits.
const SHORT: usize = 19;

/// The number at the front, if it is at most `most`, up to the separator, and the bytes after that.
fn field_up_to(most: u64, separator: u8, bytes: &[u8]) -> Option<(u64, &[u8])>
    requires { ¬ IsAsciiDigit separator }
    ensures some { IfSome result (λ x. (x.0 ≤ most) × (bytes.now ≡ decimal x.0 ++ separator ∷ x.1.now)) }
    ensures only { (n : ℕ) (rest : List ℕ) → n ≤ most → bytes.now ≡ decimal n ++ separator ∷ rest
        → IsSomeAnd result (λ x. (x.0 ≡ n) × (x.1.now ≡ rest)) }
    ensures shorter { IfSome result (λ x. length x.1.now < length bytes.now) }
{
    let first = *bytes.first()?;
    if !first.is_ascii_digit() {
        return None;
    }
    let number = u64::from(first - b'0');
    if number == 0 {
        return field_end(most, separator, bytes, 1, number);
    }
    short_field(most, separator, bytes, number)
}

/// Such a number that begins with this digit, which is not 0. Up to 19 digits can't pass 64 bits, so what they make is
/// compared once, where they end.
fn short_field(most: u64, separator: u8, bytes: &[u8], first: u64) -> Option<(u64, &[u8])>
    requires apart { ¬ IsAsciiDigit separator }
    requires digit { (0 < first) × (first < 10) }
    requires some { 0 < length bytes.now }
    requires front { take 1 bytes.now ≡ decimal first }
    ensures some { IfSome result (λ x. (x.0 ≤ most) × (bytes.now ≡ decimal x.0 ++ separator ∷ x.1.now)) }
    ensures only { (n : ℕ) (rest : List ℕ) → n ≤ most → bytes.now ≡ decimal n ++ separator ∷ rest
        → IsSomeAnd result (λ x. (x.0 ≡ n) × (x.1.now ≡ rest)) }
    ensures shorter { IfSome result (λ x. length x.1.now < length bytes.now) }
{
    let mut number = first;
    let end = bytes.len().min(SHORT);
    for index in 1..end {
        let byte = bytes[index];
        if !byte.is_ascii_digit() {
            return field_end(most, separator, bytes, index, number);
        }
        number = number * 10 + u64::from(byte - b'0');
    }
    long_field(most, separator, bytes, end, number)
}

/// The number whose digits are the bytes before a place, if it is at most `most` and the separator follows it, and the
/// bytes after that. No further digit stands at the place.
#[inline]
fn field_end(
    most: u64,
    separator: u8,
    bytes: &[u8],
    place: usize,
    number: u64,
) -> Option<(u64, &[u8])>
    requires apart { ¬ IsAsciiDigit separator }
    requires some { 0 < place }
    requires front { take place bytes.now ≡ decimal number }
    requires last { number ≡ 0 ⊎ (¬ IsAsciiDigit (slice_index bytes.now place)) }
    ensures some { IfSome result (λ x. (x.0 ≤ most) × (bytes.now ≡ decimal x.0 ++ separator ∷ x.1.now)) }
    ensures only { (n : ℕ) (rest : List ℕ) → n ≤ most → bytes.now ≡ decimal n ++ separator ∷ rest
        → IsSomeAnd result (λ x. (x.0 ≡ n) × (x.1.now ≡ rest)) }
    ensures shorter { IfSome result (λ x. length x.1.now < length bytes.now) }
{
    let byte = *bytes.get(place)?;
    if byte != separator {
        return None;
    }
    if number > most {
        return None;
    }
    Some((number, &bytes[place + 1..]))
}

/// The number whose first digits are the bytes before a place, if it is at most `most`, up to the separator, and the
/// bytes after that. It is no 0.
fn long_field(
    most: u64,
    separator: u8,
    bytes: &[u8],
    place: usize,
    number: u64,
) -> Option<(u64, &[u8])>
    requires apart { ¬ IsAsciiDigit separator }
    requires some { (0 < place) × (0 < number) }
    requires within { place ≤ length bytes.now }
    requires front { take place bytes.now ≡ decimal number }
    ensures some { IfSome result (λ x. (x.0 ≤ most) × (bytes.now ≡ decimal x.0 ++ separator ∷ x.1.now)) }
    ensures only { (n : ℕ) (rest : List ℕ) → n ≤ most → bytes.now ≡ decimal n ++ separator ∷ rest
        → IsSomeAnd result (λ x. (x.0 ≡ n) × (x.1.now ≡ rest)) }
    ensures shorter { IfSome result (λ x. length x.1.now < length bytes.now) }
{
    let mut longer = number;
    for index in place..bytes.len() {
        let byte = bytes[index];
        if !byte.is_ascii_digit() {
            return field_end(most, separator, bytes, index, longer);
        }
        longer = longer.checked_mul(10)?.checked_add(u64::from(byte - b'0'))?;
    }
    None
}

/// Bytes begin with at most one number before a separator.
///
/// docs/FORMATS.md, "Numbers and lines".
pub fn law_of_fields()
    ensures { (m n separator : ℕ) (x y : List ℕ) → m < 2 ^ 64 → n < 2 ^ 64 → ¬ IsAsciiDigit separator
        → decimal m ++ separator ∷ x ≡ decimal n ++ separator ∷ y → (m ≡ n) × (x ≡ y) }
{}
