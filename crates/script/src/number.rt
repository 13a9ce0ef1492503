//! Numbers in decimal: an optional minus sign and one or more digits.
ghost use Rattle.std.specs.Prelude.{◌≡◌, ◌≤◌, pos};
ghost use Rattle.script.specs.Number.{and_then, natural_of, number_of, up_to};

/// The magnitude of the least number.
const LARGEST: u64 = 1 << 63;

pub fn read_number(word: &[u8]) -> Option<i64>
    ensures { result ≡ number_of word.now }
{
    match word {
        [b'-', digits @ ..] => 0_i64.checked_sub_unsigned(magnitude(digits)?),
        _ => i64::try_from(magnitude(word)?).ok(),
    }
}

/// The value of one or more digits, unless it is larger than the magnitude of any number.
// Digit by digit, since `parse` takes a leading plus sign, which is no number here.
fn magnitude(digits: &[u8]) -> Option<u64>
    ensures { result ≡ and_then (natural_of digits.now) (up_to 9223372036854775808) }
{
    if digits.is_empty() {
        return None;
    }
    let mut value: u64 = 0;
    for digit in digits {
        if *digit < b'0' || *digit > b'9' {
            return None;
        }
        let unit = u64::from(*digit - b'0');
        if value > (LARGEST - unit) / 10 {
            return None;
        }
        value = 10 * value + unit;
    }
    Some(value)
}
