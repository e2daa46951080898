//! Decides what becomes of a put to a cell: it is written, kept or denied.
ghost use Rattle.std.specs.Prelude.{◌≡◌};
ghost use Rattle.rw_model.specs.Put.{is_same_object, is_value_kept, gives_way, end_of_put};

use crate::{Content, Writer};

/// The outcomes of a put.
#[derive(Clone, Copy, Debug, PartialEq, Eq)]
pub enum PutEnd {
    /// The cell holds the new content.
    Written,
    /// The cell holds the value already, and is as it was.
    Kept,
    /// The held content, which is this one, remains.
    Denied(Content),
}

// Whether both are the same object.
fn is_same_object(held: Writer, new: Writer) -> bool
    ensures { result ≡ is_same_object held new }
{
    match (held, new) {
        (Writer::Object(a), Writer::Object(b)) => a == b,
        _ => false,
    }
}

/// Returns what becomes of a put of a content to a cell, by what the cell holds; both values are in the base units of one slot.
/// `docs/DEFINITIONS.md` has the table under "Contents, and the put rules".
pub fn put_end(held: Option<Content>, new: Content) -> PutEnd
    ensures { result ≡ end_of_put held new }
{
    let Some(held) = held else {
        return PutEnd::Written;
    };
    if held.value == new.value && held.number <= new.number {
        return PutEnd::Kept;
    }
    let gives_way = if held.number == 0 {
        is_same_object(held.writer, new.writer)
    } else {
        new.number <= held.number
    };
    if gives_way {
        PutEnd::Written
    } else {
        PutEnd::Denied(held)
    }
}
