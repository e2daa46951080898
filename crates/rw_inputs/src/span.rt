//! Holds a range of timesteps.

/// A range of timesteps.
#[derive(Clone, Copy)]
pub(crate) struct Span {
    /// The first one.
    pub(crate) first: u16,
    /// The last one.
    pub(crate) last: u16,
}
