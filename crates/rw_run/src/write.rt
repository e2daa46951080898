//! Holds what is asked for in a cell.
use rw_base::{Cell, Qty, SlotNo, StepNo};
use rw_model::{Content, Writer};

/// A content that is asked for in a cell: what an event writes is a list of them.
#[derive(Clone, Copy, Debug, PartialEq, Eq)]
pub struct Write {
    /// The cell.
    pub cell: Cell,
    /// The content that the cell is to hold.
    pub content: Content,
}

impl Default for Write {
    fn default() -> Write {
        match Qty::of(0) {
            Some(value) => Write {
                cell: Cell {
                    slot: SlotNo(0),
                    step: StepNo(0),
                },
                content: Content {
                    value,
                    number: 0,
                    writer: Writer::Input,
                },
            },
            None => unreachable!(),
        }
    }
}
