//! Holds the start of a run as a model gives it, before it is known to be a moment.

/// The moment at which a run starts, as it was given: there may be no such moment.
#[derive(Clone, Copy, Debug, PartialEq, Eq)]
pub struct Start {
    /// The year, from 1 to 9999.
    pub year: i16,
    /// The month, from 1 to 12.
    pub month: i8,
    /// The day of the month, from 1.
    pub day: i8,
    /// The hour of the day, from 0 to 23.
    pub hour: i8,
}
