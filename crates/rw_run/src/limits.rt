//! Limits how large a timestep may be whose record is kept.

/// The maximum number of cells, and of lines, of a timestep whose record is kept.
pub const MOST_KEPT: usize = 6_000;
