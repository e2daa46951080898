//! Finds which piece is at the front of some bytes: a token, or what separates tokens.
ghost use Rattle.std.specs.Prelude.{◌≡◌, ◌≤◌, ◌<◌, ◌+◌, ◌∷◌, length, ℕ, take, MatchOption};
ghost use Rattle.rpl_parse.specs.Scan.{number_of, head_is, greatest, number_front, quoted_front, word_front, single, short_or_long, mark_front, front};
ghost use Rattle.rpl_parse.specs.Pieces.{piece_seen, fits_piece};

use crate::class::{Class, head_is, is_blank, is_letter, run};
use crate::reserved::reserved;
use crate::token::Mark;
use rw_base::{QUANTITY_MAX, is_digit};

/// The pieces at the front of some bytes, each with its number of bytes.
#[derive(Clone, Copy)]
pub(crate) enum Piece {
    /// What separates tokens.
    Gap(usize),
    /// A reserved word or a mark.
    Mark(Mark, usize),
    /// Another word.
    Name(usize),
    /// A number, and its number of digits.
    Number(u64, usize),
    /// A string, and how many bytes are between its quotes.
    Text(usize),
    /// No token.
    Bad,
}

// The greatest number.
const GREATEST: u64 = QUANTITY_MAX as u64;

/// Returns the number that digits spell, if that is not above Q.
fn number_of(digits: &[u8]) -> Option<u64>
    ensures { MatchOption result (greatest < number_of 0 digits.now) (λ v. (v
        ≡ number_of 0 digits.now) × (v ≤ greatest)) }
{
    let mut value: u64 = 0;
    for digit in digits {
        value = 10 * value + u64::from(digit.saturating_sub(48));
        if value > GREATEST {
            return None;
        }
    }
    Some(value)
}

fn number_front(n: usize, bytes: &[u8]) -> Piece
    requires { n ≤ length bytes.now }
    ensures value { piece_seen bytes.now result ≡ number_front n bytes.now }
    ensures within { 0 < n → fits_piece (length bytes.now) result }
{
    if n > 18 {
        return Piece::Bad;
    }
    match number_of(&bytes[..n]) {
        Some(value) => Piece::Number(value, n),
        None => Piece::Bad,
    }
}

fn word_front(n: usize, bytes: &[u8]) -> Piece
    requires { n ≤ length bytes.now }
    ensures value { piece_seen bytes.now result ≡ word_front n bytes.now }
    ensures within { 0 < n → fits_piece (length bytes.now) result }
{
    match reserved(&bytes[..n]) {
        Some(mark) => Piece::Mark(mark, n),
        None => Piece::Name(n),
    }
}

#[inline(always)]
fn single(b: u8) -> Option<Mark>
    ensures { result ≡ single b }
{
    match b {
        59 => Some(Mark::Semicolon),
        44 => Some(Mark::Comma),
        46 => Some(Mark::Dot),
        40 => Some(Mark::LeftParen),
        41 => Some(Mark::RightParen),
        123 => Some(Mark::LeftBrace),
        125 => Some(Mark::RightBrace),
        91 => Some(Mark::LeftBracket),
        93 => Some(Mark::RightBracket),
        43 => Some(Mark::Plus),
        45 => Some(Mark::Minus),
        42 => Some(Mark::Times),
        47 => Some(Mark::Divide),
        61 => Some(Mark::Equal),
        _ => None,
    }
}

#[inline(always)]
fn one_or_two(short: Mark, long: Mark, bytes: &[u8]) -> Piece
    ensures value { (b : ℕ) → piece_seen (b ∷ bytes.now) result ≡ short_or_long short long
        (head_is 61 bytes.now) }
    ensures within { fits_piece (length bytes.now + 1) result }
{
    if head_is(61, bytes) {
        Piece::Mark(long, 2)
    } else {
        Piece::Mark(short, 1)
    }
}

#[inline(always)]
fn mark_front(b: u8, bytes: &[u8]) -> Piece
    ensures value { piece_seen (b ∷ bytes.now) result ≡ mark_front b bytes.now }
    ensures within { fits_piece (length bytes.now + 1) result }
{
    if b == 58 {
        one_or_two(Mark::Colon, Mark::Assign, bytes)
    } else if b == 60 {
        if head_is(62, bytes) {
            Piece::Mark(Mark::Unequal, 2)
        } else {
            one_or_two(Mark::Less, Mark::LessEqual, bytes)
        }
    } else if b == 62 {
        one_or_two(Mark::Greater, Mark::GreaterEqual, bytes)
    } else {
        match single(b) {
            Some(mark) => Piece::Mark(mark, 1),
            None => Piece::Bad,
        }
    }
}

/// Returns the piece at the front.
#[inline(always)]
pub(crate) fn front(bytes: &[u8]) -> Piece
    ensures value { piece_seen bytes.now result ≡ front bytes.now }
    ensures within { fits_piece (length bytes.now) result }
{
    let [first, rest @ ..] = bytes else {
        return Piece::Bad;
    };
    let b = *first;
    if is_blank(b) {
        Piece::Gap(1)
    } else if b == 35 {
        Piece::Gap(run(Class::OfLine, rest) + 1)
    } else if is_letter(b) {
        word_front(run(Class::WordByte, rest) + 1, bytes)
    } else if is_digit(b) {
        number_front(run(Class::Digit, rest) + 1, bytes)
    } else if b == 34 {
        let n = run(Class::Quoted, rest);
        if head_is(34, &rest[n..]) {
            Piece::Text(n)
        } else {
            Piece::Bad
        }
    } else {
        mark_front(b, rest)
    }
}
