//! Holds how a firing ended, and how much it counted.
use rw_firing::FireEnd;

/// Says how a firing ended, and how much it counted.
#[derive(Clone, Copy, Debug, PartialEq, Eq)]
pub struct RuleFired {
    /// How it ended.
    pub end: FireEnd,
    /// How many units of instructions it counted: at most 1,000,000.
    pub count: u64,
}
