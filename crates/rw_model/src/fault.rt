//! Lists why a builder refuses an object, a link, bounds or a whole basin.

/// The reasons why a builder refuses what it is told.
#[derive(Clone, Copy, Debug, PartialEq, Eq)]
pub enum BuildFault {
    /// The name is taken, or the slot has a bound already.
    DuplicateName,
    /// No slot has that number.
    UnknownSlot,
    /// The slot is in a link already.
    LinkedTwice,
    /// Two slots of the link are of one object.
    LinkWithinObject,
    /// The linked slots do not measure the same.
    LinkDimension,
    /// The linked slots have no value that all their bounds allow.
    LinkBounds,
    /// A name, a parameter or a number of things is out of range.
    BadParameter,
    /// More than this many: 500 objects, 4000 slots, or 1000000 cells.
    TooMany(u32),
    /// There was no memory. This comes only where none of the others does.
    NoMemory,
}
