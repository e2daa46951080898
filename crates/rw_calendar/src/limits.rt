//! Limits the number of timesteps of a run.

/// The maximum number of timesteps of a run.
pub const STEPS_MAX: u16 = 4_096;
