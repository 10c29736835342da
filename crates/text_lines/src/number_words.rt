//! Whole words that are numbers: the canonical decimals, read exactly.
ghost use Rattle.std.specs.Prelude.{◌≡◌, ◌≢◌, ◌<◌, ◌≤◌, ◌^◌, ◌↔◌, ℕ, length, slice_index, IfSome, IfNone, IsTrue};
ghost use Rattle.std.specs.Fmt.{decimal};

/// The number that a word is the text of: `0`, or a digit 1 to 9 followed by digits, if it has 64 bits.
///
/// docs/FORMATS.md, "Numbers and lines".
pub fn number_u64(word: &str) -> Option<u64>
    ensures some { IfSome result (λ n. word.now ≡ decimal n) }
    ensures none { IfNone result ((n : ℕ) → n < 2 ^ 64 → word.now ≢ decimal n) }
{
    if !may_be_number(word.as_bytes()) {
        return None;
    }
    word.parse::<u64>().ok()
}

/// The number that a word is the text of, if it has 32 bits.
///
/// docs/FORMATS.md, "Numbers and lines".
pub fn number_u32(word: &str) -> Option<u32>
    ensures some { IfSome result (λ n. word.now ≡ decimal n) }
    ensures none { IfNone result ((n : ℕ) → n < 2 ^ 32 → word.now ≢ decimal n) }
{
    let number = number_u64(word)?;
    if number < 4_294_967_296 {
        Some(number as u32)
    } else {
        None
    }
}

/// The number from `least` to `most` that a word is the text of.
///
/// docs/FORMATS.md, "Numbers and lines".
pub fn number_within(word: &str, least: u32, most: u32) -> Option<u32>
    ensures some { IfSome result (λ n. (word.now ≡ decimal n) × (least ≤ n) × (n ≤ most)) }
    ensures none { IfNone result ((n : ℕ) → least ≤ n → n ≤ most → word.now ≢ decimal n) }
{
    let number = number_u32(word)?;
    if least <= number && number <= most {
        Some(number)
    } else {
        None
    }
}

/// Whether bytes have neither a sign in front nor a zero before further bytes.
fn may_be_number(bytes: &[u8]) -> bool
    ensures { IsTrue result ↔ ((slice_index bytes.now 0 ≢ 43) × (slice_index bytes.now 0 ≡ 48 → length bytes.now ≡ 1)) }
{
    match bytes.first() {
        Some(b'+') => false,
        Some(b'0') => bytes.len() == 1,
        _ => true,
    }
}
