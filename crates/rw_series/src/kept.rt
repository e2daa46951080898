//! Holds what is kept of a cell, known or unknown.
ghost use Rattle.std.specs.Prelude.{◌≡◌, None};
ghost use Rattle.rw_series.specs.Kept.{content_of};

use rw_base::Qty;
use rw_model::{Content, Writer};

/// What is kept of a cell. Where nobody wrote it, it is unknown, and the value does not count.
#[derive(Clone, Copy)]
pub(crate) struct Kept {
    /// The value.
    pub(crate) value: Qty,
    /// Its priority.
    pub(crate) number: u16,
    /// The writer; `None` where the cell is unknown.
    writer: Option<Writer>,
}

/// Returns what an unknown cell keeps.
pub(crate) fn unknown() -> Kept
    ensures { content_of result ≡ None }
{
    match Qty::of(0) {
        Some(value) => Kept {
            value,
            number: 0,
            writer: None,
        },
        None => unreachable!(),
    }
}

/// Returns the content that is kept.
pub(crate) fn content_of(kept: &Kept) -> Option<Content>
    ensures { result ≡ content_of kept.now }
{
    match kept.writer {
        Some(writer) => Some(Content {
            value: kept.value,
            number: kept.number,
            writer,
        }),
        None => None,
    }
}

/// Returns how a content is kept.
pub(crate) fn kept_of(content: Option<Content>) -> Kept
    ensures { content_of result ≡ content }
{
    match content {
        Some(content) => Kept {
            value: content.value,
            number: content.number,
            writer: Some(content.writer),
        },
        None => unknown(),
    }
}
