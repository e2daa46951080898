//! Holds the budgets of a rule or a function.

/// The budgets of a declaration. Each is exact up to its limit, and the limit and 1 where it is above it.
#[derive(Clone, Copy, Debug, PartialEq, Eq)]
pub struct TreeCost {
    /// The maximum that a firing counts, 0 to 1,000,001.
    pub instructions: u64,
    /// The maximum number of looks at cells, 0 to 20,001.
    pub reads: u64,
    /// The maximum number of puts, 0 to 2,001.
    pub puts: u64,
    /// The maximum number of words that a firing keeps at a time, 0 to 1,000,001.
    pub words: u64,
}
