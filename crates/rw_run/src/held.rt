//! Holds a cell with what it held.
use rw_base::Cell;
use rw_model::Content;

/// A cell, and what it held.
#[derive(Clone, Copy, Debug, PartialEq, Eq)]
pub struct Held {
    /// The cell.
    pub cell: Cell,
    /// What it held; `None` where it was unknown.
    pub content: Option<Content>,
}
