//! Limits the batches and the rows of edits, and the digits of a number.

/// The maximum number of batches of edits.
pub(crate) const BATCHES_MAX: u64 = 64;

/// The maximum number of rows of edits, in all batches.
pub(crate) const EDITS_MAX: u32 = 10_000;

/// The maximum number of digits of a number.
pub(crate) const DIGITS_MAX: usize = 18;
