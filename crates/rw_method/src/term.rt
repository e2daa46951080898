//! Holds a term of a balance that can be solved for.
use crate::{Given, Share};

/// A term of a balance that can be solved for.
#[derive(Clone, Copy, Debug, PartialEq, Eq)]
pub struct Term {
    /// The place of its slot.
    pub place: u8,
    /// How the term counts.
    pub share: Share,
    /// The value and the priority that it is given; `None` where it is not given.
    pub given: Option<Given>,
}
