//! Lists the lengths that a timestep can have.

/// The length of each timestep.
#[derive(Clone, Copy, Debug, PartialEq, Eq)]
pub enum StepLength {
    /// This many hours: 1, 6, 12 or 24.
    Hours(u8),
    /// A month of the calendar, from hour 0 of its first day.
    Month,
}
