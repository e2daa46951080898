//! Holds what a firing did.
use rw_firing::{FireEnd, Look, RulePut};

/// What a firing did.
#[derive(Clone, Copy, Debug)]
pub struct Fired<'a> {
    /// How it ended.
    pub end: FireEnd,
    /// The cells of the run at which it looked, in order, each as often as it did, with what they held: at most 20,000.
    pub looked: &'a [Look],
    /// What it asks for, in the order in which it was put: at most 2,000, and nothing where it didn't come to its end.
    pub puts: &'a [RulePut],
    /// How many units of instructions it counted: at most 1,000,000.
    pub count: u64,
}
