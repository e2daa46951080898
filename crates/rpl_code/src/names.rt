//! Reads names from words.
ghost use Rattle.rpl_code.specs.Words.{name_in, slot_spelt};
ghost use Rattle.rpl_code.specs.Answers.{Says};

use crate::cut::cut;
use crate::line_fault::LineFault;
use rw_model::{Name, is_plain};
use std::alloc::Global;

/// Reads the name of an object or of a function.
pub(crate) fn name_in(alloc: Global, word: &[u8]) -> Result<Name, LineFault>
    ensures { Says (name_in word.now) result }
{
    if !is_plain(word) {
        return Err(LineFault::Bad);
    }
    let Ok(text) = str::from_utf8(word) else {
        return Err(LineFault::Bad);
    };
    Ok(Name::of(String::from_str(alloc, text)?))
}

/// Reads the names of an object and of its slot, with a point between them.
pub(crate) fn slot_in(alloc: Global, word: &[u8]) -> Result<(Name, Name), LineFault>
    ensures { Says (slot_spelt word.now) result }
{
    let Some((object, slot)) = cut(word, b'.') else {
        return Err(LineFault::Bad);
    };
    Ok((name_in(alloc, object)?, name_in(alloc, slot)?))
}
