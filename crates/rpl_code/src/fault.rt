//! Lists why a text is not read as code.
use thiserror::Error;

/// The reasons why a text is not read as code. `docs/FORMATS.md` says under "Code" what is allowed.
#[derive(Clone, Copy, Debug, PartialEq, Eq, Error)]
pub enum CodeFault {
    /// The line of this number, counted from 1, is the first that is not allowed where it is.
    #[error("line {0}")]
    BadLine(u32),
    /// Each line is allowed where it is, but the text ends before an `END` that is due, or its last line has no line feed.
    #[error("truncated")]
    Truncated,
    /// There was no memory. Nothing is said of the text.
    #[error("out of memory")]
    NoMemory,
}
