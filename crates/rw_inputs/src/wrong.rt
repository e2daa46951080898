//! Names what is wrong with a row, and with which part of it.
use crate::InputKind;

/// The parts of a row.
#[derive(Clone, Copy)]
pub(crate) enum Part {
    /// The row as a whole.
    Row,
    /// The number of its batch.
    Batch,
    /// The slot.
    Slot,
    /// The timesteps.
    Step,
    /// The value.
    Value,
}

/// What is wrong with a row, and with which part of it.
#[derive(Clone, Copy)]
pub struct Wrong {
    /// What is wrong.
    pub kind: InputKind,
    /// The part that it is wrong with.
    pub part: Part,
}
