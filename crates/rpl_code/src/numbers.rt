//! Reads numbers from words.
ghost use Rattle.std.specs.Prelude.{◌≡◌, ◌≢◌, ℕ, ◌<◌, ◌≤◌, ◌^◌, IfOk, MatchOption, IfSome, option_map, pos, neg_ℤ};
ghost use Rattle.std.specs.Str.{bytes_eq};
ghost use Rattle.std.specs.Fmt.{decimal};
ghost use Rattle.rpl_code.specs.Words.{number_in, count_in, length_in, quantity_in};
ghost use Rattle.rpl_code.specs.Answers.{Says};

use crate::line_fault::LineFault;
use itoa::Buffer;
use rw_base::QUANTITY_MAX;
use rw_base::limits::LIST_MAX;

// The greatest quantity.
const GREATEST: u64 = QUANTITY_MAX as u64;

// Whether the word is what is written of the number, which nothing else spells.
fn spells(word: &str, number: u64) -> bool
    ensures { result ≡ bytes_eq (decimal number) word.now }
{
    let mut buffer = Buffer::new();
    buffer.format(number) == word
}

// The number whose digits these are, with no leading zeros.
fn digits_in(word: &[u8]) -> Option<u64>
    ensures digits { MatchOption result ((number : ℕ) → number < 2 ^ 64 → word.now ≢ decimal number)
        (λ number. word.now ≡ decimal number) }
    ensures small { IfSome result (λ number. number < 2 ^ 64) }
{
    let Ok(digits) = str::from_utf8(word) else {
        return None;
    };
    let Ok(number) = digits.parse::<u64>() else {
        return None;
    };
    if spells(digits, number) {
        Some(number)
    } else {
        None
    }
}

// The number that a word spells, from the least to the most.
fn number_in(least: u64, most: u64, word: &[u8]) -> Result<u64, LineFault>
    ensures number { Says (number_in least most word.now) result }
    ensures most { IfOk result (λ number. number ≤ most) }
{
    let Some(number) = digits_in(word) else {
        return Err(LineFault::Bad);
    };
    if least <= number && number <= most {
        Ok(number)
    } else {
        Err(LineFault::Bad)
    }
}

/// Reads the number of a local, of a place or of a block.
pub(crate) fn count_in(word: &[u8]) -> Result<u32, LineFault>
    ensures { Says (count_in word.now) result }
{
    let number = number_in(0, u32::MAX as u64, word)?;
    Ok(number as u32)
}

/// Reads the maximum length of a list.
pub(crate) fn length_in(word: &[u8]) -> Result<u16, LineFault>
    ensures { Says (length_in word.now) result }
{
    let number = number_in(1, u64::from(LIST_MAX), word)?;
    Ok(number as u16)
}

/// Reads how many timesteps ahead a slot is put.
pub(crate) fn ahead_in(word: &[u8]) -> Result<u8, LineFault>
    ensures { Says (number_in 0 255 word.now) result }
{
    let number = number_in(0, u8::MAX as u64, word)?;
    Ok(number as u8)
}

// A quantity that has no `-`.
fn natural_in(word: &[u8]) -> Result<i64, LineFault>
    ensures { Says (option_map pos (number_in 0 GREATEST word.now)) result }
{
    let number = number_in(0, GREATEST, word)?;
    Ok(number as i64)
}

// A quantity below 0, of the digits behind its `-`.
fn negative_in(digits: &[u8]) -> Result<i64, LineFault>
    ensures { Says (option_map (λ n. neg_ℤ (pos n))
        (number_in 1 GREATEST digits.now)) result }
{
    let number = number_in(1, GREATEST, digits)?;
    Ok(-(number as i64))
}

/// Reads a quantity, with `-` before its digits where it is below 0.
pub(crate) fn quantity_in(word: &[u8]) -> Result<i64, LineFault>
    ensures { Says (quantity_in word.now) result }
{
    match word {
        [] => Err(LineFault::Bad),
        [first, digits @ ..] => if *first == b'-' {
            negative_in(digits)
        } else {
            natural_in(word)
        },
    }
}
