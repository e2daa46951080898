//! Keeps a set of numbers as the bits of 64-bit words: number n is in the set where bit n, counted from 0, is set.
ghost use Rattle.std.specs.Prelude.{◌≡◌, ◌<◌, ◌*◌, ◌==◌, ◌&&◌, ◌||◌, ℕ, length, not};
ghost use Rattle.rw_base.specs.Bit.{has_bit};

/// Returns whether a number is in the set. Each word has the bits of 64 numbers, and the first word has those of 0 to 63.
#[inline(always)]
pub fn has_bit(words: &[u64], number: u16) -> bool
    requires { number < 64 * length words.now }
    ensures { result ≡ has_bit words.now number }
{
    (words[usize::from(number / 64)] >> (number % 64)) % 2 == 1
}

/// Adds a number to the set, and changes no other.
#[inline(always)]
pub fn set_bit(words: &mut [u64], number: u16)
    requires { number < 64 * length words.old }
    ensures many { length words.new ≡ length words.old }
    ensures added { (other : ℕ) → has_bit words.new other
        ≡ (other == number || has_bit words.old other) }
{
    let place = usize::from(number / 64);
    words[place] = words[place] | 1 << (number % 64);
}

/// Removes a number from the set, and changes no other.
#[inline(always)]
pub fn clear_bit(words: &mut [u64], number: u16)
    requires { number < 64 * length words.old }
    ensures many { length words.new ≡ length words.old }
    ensures taken { (other : ℕ) → has_bit words.new other
        ≡ (not (other == number) && has_bit words.old other) }
{
    let place = usize::from(number / 64);
    words[place] = words[place] & !(1 << (number % 64));
}
