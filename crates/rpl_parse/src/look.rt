//! Looks at the front of some tokens. The text is there for the clauses, which speak of the bytes of its tokens.
ghost use Rattle.std.specs.Prelude.{◌≡◌, ◌-◌, IfOk, IfErr, option_map, take, drop};
ghost use Rattle.rpl_parse.specs.Reading.{behind, behind_name, name_before, now_before, has_operator, turn, turns_of, prefix_of, operator};
ghost use Rattle.rpl_parse.specs.Grammar.{looseness_of, mark_of_one};
ghost use Rattle.rpl_parse.specs.Tokens.{same, toks, bytes_in};

use crate::stop::Stop;
use crate::token::{Mark, Span, Token, TokenAt};
use rpl_tree::{OneWord, TwoWord};
use std::alloc::Global;

/// Returns the tokens after a mark.
pub(crate) fn behind<'a>(_text: &[u8], mark: Mark, tokens: &'a [TokenAt]) -> Option<&'a [TokenAt]>
    ensures { option_map (λ r. toks _text.now r.now) result ≡ behind mark
        (toks _text.now tokens.entry.now) }
{
    match tokens {
        [first, rest @ ..] => match first.token {
            Token::Mark(found) if is_same(mark, found) => Some(rest),
            _ => None,
        },
        [] => None,
    }
}

fn is_same(a: Mark, b: Mark) -> bool
    ensures { result ≡ same a b }
{
    a == b
}

/// Returns the name at the front, and the tokens after it.
pub(crate) fn behind_name<'a>(_text: &[u8], tokens: &'a [TokenAt]) -> Option<(Span, &'a [TokenAt])>
    ensures { option_map (λ r. record {
      called = bytes_in _text.now r.0;
      next = toks _text.now r.1.now;
    }) result ≡ behind_name (toks _text.now tokens.entry.now) }
{
    match tokens {
        [first, rest @ ..] => match first.token {
            Token::Name(name) => Some((name, rest)),
            _ => None,
        },
        [] => None,
    }
}

/// Returns the name at the front, and the tokens after the mark that follows it.
pub(crate) fn name_before<'a>(
    text: &[u8],
    mark: Mark,
    tokens: &'a [TokenAt],
) -> Option<(Span, &'a [TokenAt])>
    ensures { option_map (λ r. record {
      called = bytes_in text.now r.0;
      next = toks text.now r.1.now;
    }) result ≡ name_before mark (toks text.now tokens.entry.now) }
{
    let (name, rest) = behind_name(text, tokens)?;
    let rest = behind(text, mark, rest)?;
    Some((name, rest))
}

/// Returns the tokens after `t` and a mark.
pub(crate) fn now_before<'a>(
    text: &[u8],
    mark: Mark,
    tokens: &'a [TokenAt],
) -> Option<&'a [TokenAt]>
    ensures { option_map (λ r. toks text.now r.now) result ≡ now_before mark
        (toks text.now tokens.entry.now) }
{
    let rest = behind(text, Mark::Now, tokens)?;
    behind(text, mark, rest)
}

/// Returns whether an operator, of whatever level, is at the front.
pub(crate) fn has_operator(_text: &[u8], tokens: &[TokenAt]) -> bool
    ensures { result ≡ has_operator (toks _text.now tokens.now) }
{
    match tokens {
        [first, ..] => match first.token {
            Token::Mark(mark) => match operator(mark) {
                Some(_) => true,
                None => false,
            },
            _ => false,
        },
        [] => false,
    }
}

/// Returns the operator of a level at the front, and the tokens after it.
pub(crate) fn turn<'a>(
    _text: &[u8],
    k: u8,
    tokens: &'a [TokenAt],
) -> Option<(TwoWord, &'a [TokenAt])>
    ensures { option_map (λ r. record { op = r.0; more = toks _text.now r.1.now }) result ≡ turn k
        (toks _text.now tokens.entry.now) }
{
    match tokens {
        [first, rest @ ..] => match first.token {
            Token::Mark(mark) => match operator(mark) {
                Some(word) if looseness(word) == k => Some((word, rest)),
                _ => None,
            },
            _ => None,
        },
        [] => None,
    }
}

#[inline(always)]
fn operator(mark: Mark) -> Option<TwoWord>
    ensures { result ≡ operator mark }
{
    match mark {
        Mark::Or => Some(TwoWord::Or),
        Mark::And => Some(TwoWord::And),
        Mark::Equal => Some(TwoWord::Equal),
        Mark::Unequal => Some(TwoWord::Unequal),
        Mark::Less => Some(TwoWord::Less),
        Mark::LessEqual => Some(TwoWord::LessEqual),
        Mark::Greater => Some(TwoWord::Greater),
        Mark::GreaterEqual => Some(TwoWord::GreaterEqual),
        Mark::Plus => Some(TwoWord::Plus),
        Mark::Minus => Some(TwoWord::Minus),
        Mark::Times => Some(TwoWord::Times),
        Mark::Divide => Some(TwoWord::Divide),
        _ => None,
    }
}

fn looseness(word: TwoWord) -> u8
    ensures { result ≡ looseness_of word }
{
    match word {
        TwoWord::Or => 7,
        TwoWord::And => 6,
        TwoWord::Equal
        | TwoWord::Unequal
        | TwoWord::Less
        | TwoWord::LessEqual
        | TwoWord::Greater
        | TwoWord::GreaterEqual => 4,
        TwoWord::Plus | TwoWord::Minus => 3,
        TwoWord::Times | TwoWord::Divide => 2,
        TwoWord::Append | TwoWord::Item => 0,
    }
}

/// Returns how many operators of a level an expression of this depth may have.
pub(crate) fn turns(k: u8, depth: u8) -> u8
    ensures { result ≡ turns_of k depth }
{
    if k == 4 { 1 } else { depth }
}

/// Returns the word that is before an expression of a level.
pub(crate) fn prefix(k: u8) -> Option<OneWord>
    ensures { result ≡ prefix_of k }
{
    if k == 1 {
        Some(OneWord::Minus)
    } else if k == 5 {
        Some(OneWord::Not)
    } else {
        None
    }
}

/// Returns the mark of a word.
pub(crate) fn mark_of_one(word: OneWord) -> Mark
    ensures { result ≡ mark_of_one word }
{
    match word {
        OneWord::Not => Mark::Not,
        OneWord::Minus => Mark::Minus,
        OneWord::Known => Mark::Known,
        OneWord::Length => Mark::Length,
        OneWord::Month => Mark::Month,
        OneWord::Day => Mark::Day,
        OneWord::Year => Mark::Year,
    }
}

/// Copies the bytes between two places.
pub(crate) fn copied(alloc: Global, text: &[u8], span: Span) -> Result<Vec<u8>, Stop>
    ensures ok { IfOk result (λ v. v.items ≡ bytes_in text.now span) }
    ensures err { IfErr result (λ f. f ≡ Stop.NoMemory) }
{
    match Vec::from_slice(alloc, between(text, span.start as usize, span.end as usize)) {
        Ok(copy) => Ok(copy),
        Err(_) => Err(Stop::NoMemory),
    }
}

/// Returns the bytes between two places; those that are not there are left out.
fn between(text: &[u8], start: usize, end: usize) -> &[u8]
    ensures { result.now ≡ take (end - start) (drop start text.now) }
{
    if end <= text.len() && start <= end {
        &text[start..end]
    } else if start <= text.len() && start <= end {
        &text[start..]
    } else {
        &text[..0]
    }
}
