//! Holds a moment of the calendar, to the hour.

/// An hour of a day in the civil calendar.
#[derive(Clone, Copy, Debug, PartialEq, Eq)]
pub struct Moment {
    /// The year, from 1 to 9999.
    pub year: u16,
    /// The month, from 1 to 12.
    pub month: u8,
    /// The day of the month, from 1.
    pub day: u8,
    /// The hour of the day, from 0 to 23.
    pub hour: u8,
}
