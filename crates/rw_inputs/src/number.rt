//! Reads whole numbers from digits, and finds a byte in a text.
ghost use Rattle.std.specs.Prelude.{◌≡◌, ◌<◌, ◌^◌, length};
ghost use Rattle.std.specs.Option.{ForSome};
ghost use Rattle.rw_inputs.specs.Number.{read_number, read_signed, byte_position};

use crate::limits::DIGITS_MAX;
use rw_base::read_digits;

/// Returns the number that a text of 1 to 18 digits spells. `None` exactly where it is no such text.
pub fn read_number(text: &[u8]) -> Option<u64>
    ensures number { result ≡ read_number text.now }
    ensures small { ForSome result (λ number. number < 10 ^ 18) }
{
    read_digits(text, DIGITS_MAX)
}

/// Returns the number that the text spells, below 0 after a `-`.
pub(crate) fn read_signed(text: &[u8]) -> Option<i64>
    ensures { result ≡ read_signed text.now }
{
    if let [b'-', digits @ ..] = text {
        match read_number(digits) {
            Some(number) => Some(-(number as i64)),
            None => None,
        }
    } else {
        match read_number(text) {
            Some(number) => Some(number as i64),
            None => None,
        }
    }
}

/// Returns the first place of the byte, counted from 0.
pub(crate) fn position_of(byte: u8, text: &[u8]) -> Option<usize>
    ensures place { result ≡ byte_position byte text.now }
    ensures within { ForSome result (λ place. place < length text.now) }
{
    for (place, other) in text.iter().enumerate() {
        if *other == byte {
            return Some(place);
        }
    }
    None
}
