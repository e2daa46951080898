//! Reads kinds from words.
ghost use Rattle.std.specs.Prelude.{◌≡◌, codes, option_and_then, option_map};
ghost use Rattle.rpl_code.specs.Parting.{parted};
ghost use Rattle.rpl_code.specs.Words.{entry_at, plain_kinds, list_kinds, length_in, kind_in, each_kind, kinds_in};
ghost use Rattle.rpl_code.specs.Answers.{Says};

use crate::cut::cut;
use crate::line_fault::LineFault;
use crate::numbers::length_in;
use crate::{Kinds, ValueKind};
use std::alloc::Global;

fn plain_kind(letter: &[u8]) -> Result<ValueKind, LineFault>
    ensures { Says (entry_at plain_kinds letter.now) result }
{
    match letter {
        [b'N'] => Ok(ValueKind::N),
        [b'B'] => Ok(ValueKind::B),
        [b'D'] => Ok(ValueKind::D),
        [b'S'] => Ok(ValueKind::S),
        _ => Err(LineFault::Bad),
    }
}

fn list_kind(letter: &[u8], digits: &[u8]) -> Result<ValueKind, LineFault>
    ensures { Says (option_and_then (λ of_most. option_map of_most (length_in digits.now))
        (entry_at list_kinds letter.now)) result }
{
    match letter {
        [b'N'] => Ok(ValueKind::NList(length_in(digits)?)),
        [b'S'] => Ok(ValueKind::SList(length_in(digits)?)),
        _ => Err(LineFault::Bad),
    }
}

/// Reads a kind: a letter, and for a list its maximum length after a `*`.
pub(crate) fn kind_in(word: &[u8]) -> Result<ValueKind, LineFault>
    ensures { Says (kind_in word.now) result }
{
    match cut(word, b'*') {
        None => plain_kind(word),
        Some((letter, digits)) => list_kind(letter, digits),
    }
}

fn each_kind(alloc: Global, words: &[u8]) -> Result<Kinds, LineFault>
    ensures { Says (each_kind (parted 44 words.now)) result }
{
    let mut kinds = Vec::new(alloc);
    let mut left = words;
    while let Some((word, others)) = cut(left, b',') {
        kinds.push(kind_in(word)?)?;
        left = others;
    }
    kinds.push(kind_in(left)?)?;
    Ok(Kinds::of(kinds))
}

/// Reads kinds with commas between them, and `-` for none.
pub(crate) fn kinds_in(alloc: Global, word: &[u8]) -> Result<Kinds, LineFault>
    ensures { Says (kinds_in word.now) result }
{
    if word == b"-".as_slice() {
        Ok(Kinds::of(Vec::new(alloc)))
    } else {
        each_kind(alloc, word)
    }
}
