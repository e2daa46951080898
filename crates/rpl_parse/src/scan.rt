//! Cuts a text into tokens, a declaration at a time, and finds the line of the first bad token.
ghost use Rattle.std.specs.Prelude.{◌≡◌, ◌≤◌, ◌<◌, ◌+◌, ◌-◌, ◌^◌, ◌++◌, ◌∷◌, List, [], IfOk, IfErr, OnOk, length, drop, MatchOption};
ghost use Rattle.rw_base.specs.declared.limits.TheConstants.{TEXT_MAX};
ghost use Rattle.rpl_parse.specs.Cut.{IsPlaceIn, TakesUp, scanned_at};
ghost use Rattle.rpl_parse.specs.Scan.{all, bad_at, front, head_is, line_behind};
ghost use Rattle.rpl_parse.specs.Pieces.{IsFound};
ghost use Rattle.rpl_parse.specs.Tokens.{Lined};

use crate::class::head_is;
use crate::cut::is_end;
use crate::front::{Piece, front};
use crate::token::{Span, Token, TokenAt};

/// The reasons why a text has no tokens.
#[derive(Clone, Copy)]
pub(crate) enum ScanStop {
    /// The first bad token is in this line.
    BadToken(u32),
    /// There was no memory.
    NoMemory,
}

/// A place of a text from which it is read on, and its line.
#[derive(Clone, Copy)]
pub(crate) struct Place {
    /// The number of bytes before it.
    pub(crate) at: usize,
    /// The line, counted from 1.
    pub(crate) line: u32,
}

/// What is found at a place.
#[derive(Clone, Copy)]
enum Found {
    /// No token, but this many bytes that separate tokens.
    Gap(usize),
    /// A token of this many bytes.
    Token(Token, usize),
    /// No token.
    Bad,
}

fn span(start: usize, length: usize) -> Span
    requires { start + length < 2 ^ 32 }
    ensures start { result.start ≡ start }
    ensures end { result.end ≡ start + length }
{
    Span {
        start: start as u32,
        end: (start + length) as u32,
    }
}

/// Returns the bytes from a place on.
fn behind(at: usize, text: &[u8]) -> &[u8]
    requires { at ≤ length text.now }
    ensures { result.now ≡ drop at text.now }
{
    &text[at..]
}

/// Returns what is at a place of the text.
#[inline(always)]
fn found_at(text: &[u8], at: usize) -> Found
    requires room { length text.now ≤ TEXT_MAX }
    requires inside { at < length text.now }
    ensures { IsFound text.now at result (front (drop at text.now)) }
{
    match front(behind(at, text)) {
        Piece::Gap(n) => Found::Gap(n),
        Piece::Mark(mark, n) => Found::Token(Token::Mark(mark), n),
        Piece::Name(n) => Found::Token(Token::Name(span(at, n)), n),
        Piece::Number(value, n) => Found::Token(Token::Number(value as i64), n),
        Piece::Text(n) => Found::Token(Token::Text(span(at + 1, n)), n + 2),
        Piece::Bad => Found::Bad,
    }
}

/// Returns whether a space is at a place of the text: most of what separates tokens is one.
#[inline(always)]
fn is_space(text: &[u8], at: usize) -> bool
    requires { at < length text.now }
    ensures { result ≡ head_is 32 (drop at text.now) }
{
    head_is(32, behind(at, text))
}

/// Appends the tokens of the declaration at a place, each the longest, and returns the place after them. There are none where
/// nothing is left.
pub(crate) fn next_tokens(
    text: &[u8],
    from: Place,
    tokens: &mut Vec<TokenAt>,
) -> Result<Place, ScanStop>
    requires room { length text.now ≤ TEXT_MAX }
    requires inside { IsPlaceIn text.now from }
    requires none { tokens.old.items ≡ [] }
    ensures inside { IfOk result (IsPlaceIn text.now) }
    ensures on { IfOk result (λ behind. from.at + length tokens.new.items ≤ behind.at) }
    ensures taken { TakesUp text.now tokens.new.items result (scanned_at text.now from) }
{
    let mut at = from.at;
    let mut line = from.line;
    while at < text.len() {
        if is_space(text, at) {
            at += 1;
        } else {
            match found_at(text, at) {
                Found::Gap(n) => {
                    line = line_behind(line, at, text);
                    at += n;
                }
                Found::Token(token, n) => {
                    pushed(tokens, TokenAt { token, line })?;
                    at += n;
                    if is_end(text, token) {
                        return Ok(Place { at, line });
                    }
                }
                Found::Bad => return Err(ScanStop::BadToken(line)),
            }
        }
    }
    Ok(Place { at, line })
}

/// Returns the line of the first bad token from a place on.
pub(crate) fn bad_line(text: &[u8], from: Place) -> Option<u32>
    requires room { length text.now ≤ TEXT_MAX }
    requires inside { IsPlaceIn text.now from }
    ensures { MatchOption result
        ((ts : List Lined) × (scanned_at text.now from ≡ all ts))
        (λ line. scanned_at text.now from ≡ bad_at line) }
{
    let mut at = from.at;
    let mut line = from.line;
    while at < text.len() {
        match found_at(text, at) {
            Found::Gap(n) => {
                line = line_behind(line, at, text);
                at += n;
            }
            Found::Token(_, n) => at += n,
            Found::Bad => return Some(line),
        }
    }
    None
}

fn line_behind(line: u32, at: usize, text: &[u8]) -> u32
    requires line { line < 2 ^ 32 - 1 }
    requires inside { at < length text.now }
    ensures value { result ≡ line_behind line (drop at text.now) }
    ensures within { result ≤ line + 1 }
{
    if head_is(10, behind(at, text)) {
        line + 1
    } else {
        line
    }
}

fn pushed(tokens: &mut Vec<TokenAt>, token: TokenAt) -> Result<(), ScanStop>
    ensures ok { OnOk result (tokens.new.items ≡ tokens.old.items ++ token ∷ []) }
    ensures grown { OnOk result (length tokens.new.items ≡ length tokens.old.items + 1) }
    ensures err { IfErr result (λ f. f ≡ ScanStop.NoMemory) }
{
    match tokens.push(token) {
        Ok(()) => Ok(()),
        Err(_) => Err(ScanStop::NoMemory),
    }
}
