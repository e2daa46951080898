//! Holds what a known cell holds: its value, its priority and its writer.
use crate::Writer;
use rw_base::Qty;

/// The content of a known cell.
#[derive(Clone, Copy, Debug, PartialEq, Eq)]
pub struct Content {
    /// The value, in the base units of its slot's dimension.
    pub value: Qty,
    /// Its priority: a smaller number is a higher one.
    pub number: u16,
    /// The writer of the value.
    pub writer: Writer,
}
