//! Writes numbers in decimal digits.
ghost use Rattle.std.specs.Prelude.{◌≡◌, ◌++◌, OnOk, string_bytes};
ghost use Rattle.std.specs.Fmt.{decimal, signed_decimal};

use itoa::Buffer;
use rw_base::NoMemory;

/// Appends a number.
#[inline(always)]
pub fn push_number(text: &mut String, number: i64) -> Result<(), NoMemory>
    ensures { OnOk result (string_bytes text.new ≡ string_bytes text.old ++ signed_decimal number) }
{
    let mut buffer = Buffer::new();
    text.push_str(buffer.format(number))?;
    Ok(())
}

/// Appends a count.
pub fn push_count(text: &mut String, count: u64) -> Result<(), NoMemory>
    ensures { OnOk result (string_bytes text.new ≡ string_bytes text.old ++ decimal count) }
{
    let mut buffer = Buffer::new();
    text.push_str(buffer.format(count))?;
    Ok(())
}
