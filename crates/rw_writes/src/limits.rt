//! Limits how many puts a firing may have.
use rw_base::limits;

/// The maximum number of puts of a firing.
pub const PUTS_MAX: usize = limits::PUTS_MAX as usize;
