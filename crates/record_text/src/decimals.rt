//! The numbers that fields of digits are.
ghost use Rattle.std.specs.Prelude.{◌≡◌, min, IsTrue};
ghost use Rattle.std.specs.List.{list_all};
ghost use Rattle.std.specs.Char.{is_ascii_digit};
ghost use Rattle.record_text.specs.Decimals.{are_digits, decimal_value, greatest, number_of_digits};

/// The number of a field of 1 to 10 decimal digits, which may begin with zeros; none of any other field. One past the
/// greatest u32 stands as that one, which is out of every bound.
///
/// docs/FORMATS.md, "Records".
pub fn digits(field: &[u8]) -> Option<u32>
    ensures { result ≡ number_of_digits field.now }
{
    if !are_digits(field) {
        return None;
    }
    Some(decimal_value(field))
}

/// Whether the field is 1 to 10 digits.
fn are_digits(field: &[u8]) -> bool
    ensures { result ≡ are_digits field.now }
{
    1 <= field.len() && field.len() <= 10 && all_digits(field)
}

/// Whether each byte of the field is a digit.
fn all_digits(field: &[u8]) -> bool
    ensures { result ≡ list_all is_ascii_digit field.now }
{
    field.iter().all(|byte| byte.is_ascii_digit())
}

/// The value of decimal digits, or the greatest u32 where that is less.
fn decimal_value(digits: &[u8]) -> u32
    requires { IsTrue (list_all is_ascii_digit digits.now) }
    ensures { result ≡ min (decimal_value digits.now) greatest }
{
    let mut number = 0u64;
    for digit in digits {
        number = (number * 10 + u64::from(*digit - b'0')).min(u64::from(u32::MAX));
    }
    number as u32
}
