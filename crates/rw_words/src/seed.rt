//! Reads the seed of a sample from a word.
ghost use Rattle.std.specs.Prelude.{◌≡◌};
ghost use Rattle.rw_words.specs.Seed.{seed_of_text};

use rw_base::read_digits;

/// The maximum number of digits of a seed.
pub(crate) const DIGITS_MAX: usize = 20;

/// Returns the seed that a text of 1 to 20 digits spells. `None` exactly where it is no such text, or the number is above 2^64 -
/// 1.
pub(crate) fn seed_of_text(text: &[u8]) -> Option<u64>
    ensures { result ≡ seed_of_text text.now }
{
    read_digits(text, DIGITS_MAX)
}
