//! Holds the value and the priority of a term that is given.

/// What a term of a balance is given as.
#[derive(Clone, Copy, Debug, PartialEq, Eq)]
pub struct Given {
    /// Its value, in the base units of its slot's dimension.
    pub value: i64,
    /// Its priority: a smaller number is a higher one.
    pub number: u16,
}
