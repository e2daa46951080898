//! Lists why some tokens are not read.

/// The reasons why nothing is read.
#[derive(Clone, Copy)]
pub(crate) enum Stop {
    /// The tokens are not in the grammar.
    Bad,
    /// There was no memory.
    NoMemory,
}
