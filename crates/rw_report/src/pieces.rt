//! Writes texts in an array, each in front of the one that is there, so that they are appended in one piece.
ghost use Rattle.std.specs.Prelude.{◌≡◌, ◌≤◌, ◌<◌, ◌+◌, ◌∷◌, ◌++◌, IsAscii, OnOk, string_bytes, drop};
ghost use Rattle.std.specs.Fmt.{decimal, signed_decimal};

use itoa::write_digits;
use rw_base::NoMemory;
use std::str::from_utf8_unchecked;

/// The bytes of the array that is lent to a call which writes the end of a line there before it is appended. What the array held
/// does not matter, nor what is left in it.
pub const ROOM: usize = 672;

/// Writes a byte so that it ends at `end`, and returns where it begins.
#[inline(always)]
pub(crate) fn write_byte(buffer: &mut [u8; ROOM], byte: u8, end: usize) -> usize
    requires room { (1 ≤ end) × (end ≤ 672) }
    ensures start { result + 1 ≡ end }
    ensures written { drop result buffer.new ≡ byte ∷ drop end buffer.old }
{
    let start = end - 1;
    buffer[start] = byte;
    start
}

/// Writes a number so that it ends at `end`, and returns where it begins.
#[inline(always)]
pub(crate) fn write_number(buffer: &mut [u8; ROOM], number: i64, end: usize) -> usize
    requires room { (20 ≤ end) × (end ≤ 672) }
    ensures start { (result ≤ end) × (end ≤ result + 20) }
    ensures written { drop result buffer.new ≡ signed_decimal number ++ drop end buffer.old }
    ensures ascii { IsAscii (signed_decimal number) }
{
    let start = write_digits(number.unsigned_abs(), buffer, end);
    if number >= 0 {
        return start;
    }
    buffer[start - 1] = b'-';
    start - 1
}

/// Writes a count so that it ends at `end`, and returns where it begins.
#[inline(always)]
pub(crate) fn write_count(buffer: &mut [u8; ROOM], count: u16, end: usize) -> usize
    requires room { (5 ≤ end) × (end ≤ 672) }
    ensures start { (result ≤ end) × (end ≤ result + 5) }
    ensures written { drop result buffer.new ≡ decimal count ++ drop end buffer.old }
    ensures ascii { IsAscii (decimal count) }
{
    write_digits(u64::from(count), buffer, end)
}

/// Appends what is written from a place on.
pub(crate) fn push_piece(
    text: &mut String,
    buffer: &[u8; ROOM],
    start: usize,
) -> Result<(), NoMemory>
    requires within { start ≤ 672 }
    requires ascii { IsAscii (drop start buffer.now) }
    ensures { OnOk result
        (string_bytes text.new ≡ string_bytes text.old ++ drop start buffer.now) }
{
    text.push_str(unsafe { from_utf8_unchecked(&buffer[start..]) })?;
    Ok(())
}
