//! Holds the budget of a block.

/// The budget of a block: what its firings count, look, put and keep at most.
#[derive(Clone, Copy, Debug, PartialEq, Eq)]
pub struct Budget {
    /// The maximum that a firing counts.
    pub instructions: u64,
    /// The maximum number of looks.
    pub reads: u64,
    /// The maximum number of puts that it executes.
    pub puts: u64,
    /// The maximum number of words that it keeps at a time.
    pub words: u64,
}
