//! Holds a cell at which a firing looked, with the value that it saw.
use rw_base::{Cell, Qty};

/// A cell at which a firing looked, with what it saw there.
#[derive(Clone, Copy, Debug, PartialEq, Eq)]
pub struct Look {
    /// The cell.
    pub cell: Cell,
    /// The value that the cell held; `None` where it was unknown.
    pub seen: Option<Qty>,
}
