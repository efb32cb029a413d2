// Numbers written in a base.
ghost use Rattle.std.specs.Prelude.{◌≡◌, ◌≤◌};
ghost use Rattle.word_lines.specs.Numerals.{number_in, digits_of_word};

// The number that the digits write; none where there is no byte, a byte is no digit of the base, or the number is 2^64 or more.
fn numeral(digits: &[u8], base: u32) -> Option<u64>
    requires low { 2 ≤ base }
    requires high { base ≤ 36 }
    ensures { result ≡ number_in base digits.now }
{
    if digits.is_empty() {
        return None;
    }
    let mut value = 0u64;
    for byte in digits {
        let digit = char::from(*byte).to_digit(base)?;
        let shifted = value.checked_mul(u64::from(base))?;
        value = shifted.checked_add(u64::from(digit))?;
    }
    Some(value)
}

pub fn decimal(field: &[u8]) -> Option<u64>
    ensures { result ≡ number_in 10 field.now }
{
    numeral(field, 10)
}

// The digits may stand after 0x or 0X.
pub fn hexadecimal(field: &[u8]) -> Option<u64>
    ensures { result ≡ number_in 16 (digits_of_word field.now) }
{
    match field {
        [b'0', b'x' | b'X', digits @ ..] => numeral(digits, 16),
        _ => numeral(field, 16),
    }
}
