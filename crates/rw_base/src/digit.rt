//! Reads a whole number from the decimal digits of a text.
ghost use Rattle.std.specs.Prelude.{◌≡◌, ◌≤◌, ◌+◌, ◌*◌, IfSome, None, if◌then◌else◌, option_and_then};
ghost use Rattle.std.specs.List.{list_all};
ghost use Rattle.rw_base.specs.Byte.{is_digit};
ghost use Rattle.rw_base.specs.Digit.{number_after, read_digits, within_64_bits};

// A tenth of 2^64 - 1, rounded down.
const TENTH: u64 = 1_844_674_407_370_955_161;

/// Returns whether a byte is one of `0` to `9`.
pub fn is_digit(byte: u8) -> bool
    ensures { result ≡ is_digit byte }
{
    48 <= byte && byte <= 57
}

// The number with one digit more behind it, where it is at most 2^64 - 1.
#[inline(always)]
fn with_digit(number: u64, digit: u8) -> Option<u64>
    requires { digit ≤ 9 }
    ensures number { result ≡ within_64_bits (number * 10 + digit) }
    ensures small { IfSome result (λ longer. longer ≤ 18_446_744_073_709_551_615) }
{
    if number < TENTH || (number == TENTH && digit <= 5) {
        Some(number * 10 + u64::from(digit))
    } else {
        None
    }
}

// The number that the digits spell, where there are digits alone and it is at most 2^64 - 1.
fn number_of(text: &[u8]) -> Option<u64>
    ensures { result ≡ (if list_all is_digit text.now
        then within_64_bits (number_after 0 text.now) else None) }
{
    let mut number = 0u64;
    for byte in text {
        if !is_digit(*byte) {
            return None;
        }
        match with_digit(number, *byte - b'0') {
            Some(longer) => number = longer,
            None => return None,
        }
    }
    Some(number)
}

/// Returns the number that a text of 1 to `most` digits spells. `None` exactly where it is no such text, or the number is above
/// 2^64 - 1.
pub fn read_digits(text: &[u8], most: usize) -> Option<u64>
    ensures { result ≡ option_and_then within_64_bits (read_digits most text.now) }
{
    if 1 <= text.len() && text.len() <= most {
        number_of(text)
    } else {
        None
    }
}
