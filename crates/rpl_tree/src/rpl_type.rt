//! Lists the types of expressions.
use rw_base::Dim;

/// The types of expressions.
#[derive(Clone, Copy, Debug, PartialEq, Eq)]
pub enum RplType {
    /// A number of a dimension.
    Numeric(Dim),
    /// True or false.
    Boolean,
    /// A date, which is a timestep.
    Datetime,
    /// A slot whose values have a dimension.
    Slot(Dim),
    /// A list of at most this many numbers, 1 to 4096, of a dimension.
    NumericList(u16, Dim),
    /// A list of at most this many slots, 1 to 4096, of a dimension.
    SlotList(u16, Dim),
}
