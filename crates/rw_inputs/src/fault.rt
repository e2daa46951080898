//! Lists what can be wrong with inputs or edits, and where.
use thiserror::Error;

/// The reasons why a row of inputs, or of edits, is refused.
#[derive(Clone, Copy, Debug, PartialEq, Eq)]
pub enum InputKind {
    /// The first row does not name the columns, or there is none.
    Header,
    /// The model has no such slot.
    UnknownSlot,
    /// A method gives the slot its values.
    NotSettable,
    /// There is no number where one is needed.
    NotANumber,
    /// The slot cannot have the value.
    OutOfBounds,
    /// The run has no such timesteps.
    StepOutside,
    /// An earlier row gives one of the cells a value.
    Twice,
    /// The row has more fields than the header, or fewer.
    Ragged,
    /// The batch is neither that of the row before it nor the one after that; or it is not 1 in the first row.
    BatchOrder,
    /// There are more batches than 64, or more rows of edits than 10,000.
    TooMany,
}

/// The reasons why a text is not read as inputs, or as edits.
#[derive(Clone, Copy, Debug, PartialEq, Eq, Error)]
pub enum InputFault {
    /// Something is wrong with a row. Rows are counted from 1, the header included, and columns from 1; column 0 is the whole
    /// row.
    #[error("row {row} column {column}: {kind:?}")]
    Refused {
        /// What is wrong.
        kind: InputKind,
        /// In which row.
        row: u32,
        /// In which column.
        column: u8,
    },
    /// There was no memory.
    #[error("out of memory")]
    NoMemory,
}
