//! Classifies bytes by what they can be part of, and counts those of a class at the front of a text.
ghost use Rattle.std.specs.Prelude.{◌≡◌, ◌≤◌, ◌+◌, length};
ghost use Rattle.rw_base.specs.Byte.{is_letter};
ghost use Rattle.rpl_parse.specs.Scan.{is_of, is_blank, run, head_is};

use rw_base::is_digit;

/// The classes of bytes, by what a byte may be part of.
#[derive(Clone, Copy)]
pub(crate) enum Class {
    /// A number.
    Digit,
    /// A word, after its first letter.
    WordByte,
    /// A comment.
    OfLine,
    /// A string.
    Quoted,
}

pub(crate) fn is_letter(b: u8) -> bool
    ensures { result ≡ is_letter b }
{
    (65 <= b && b <= 90) || (97 <= b && b <= 122) || b == 95
}

pub(crate) fn is_blank(b: u8) -> bool
    ensures { result ≡ is_blank b }
{
    b == 32 || b == 9 || b == 13 || b == 10
}

fn is_of(class: Class, b: u8) -> bool
    ensures { result ≡ is_of class b }
{
    match class {
        Class::Digit => is_digit(b),
        Class::WordByte => is_letter(b) || is_digit(b),
        Class::OfLine => b != 10,
        Class::Quoted => b != 34 && b != 10,
    }
}

/// Counts the bytes at the front that are of a class.
pub(crate) fn run(class: Class, bytes: &[u8]) -> usize
    ensures value { result ≡ run class bytes.now }
    ensures within { result ≤ length bytes.now }
{
    for at in 0..bytes.len() {
        if !is_of(class, bytes[at]) {
            return at;
        }
    }
    bytes.len()
}

/// Returns whether that byte is at the front.
pub(crate) fn head_is(byte: u8, bytes: &[u8]) -> bool
    ensures { result ≡ head_is byte bytes.now }
{
    match bytes {
        [first, ..] => *first == byte,
        [] => false,
    }
}
