//! Reads the inputs of a run: the values that are given to cells before it. `read_inputs` reads a text of rows, each with a slot,
//! a timestep or a range of timesteps, and a value, and returns what they give or the first refusal with its row and column;
//! `specs/Reading.antt` says what that is for the records that `csv` states for the text. `Inputs::value` returns what is kept at
//! a cell: slots that carry one value have one cell at a timestep, that of the least of them.
//!
//! Also reads edits of inputs: `read_edits` reads a text of rows, each in a batch, that set values or remove them, and returns
//! the batches or the first refusal (`specs/EditRows.antt`). `apply` makes inputs of inputs and a batch (`specs/Edits.antt`).
#![tactic(auto)]

mod batch;
mod change;
mod column;
mod edit;
mod edit_row;
mod edits;
mod fault;
mod inputs;
mod kept;
mod last_slot;
pub mod law;
mod limits;
mod number;
mod reading;
mod records;
mod row;
mod row_value;
mod span;
mod wrong;

pub use batch::Batch;
pub use change::apply;
pub use edit::Edit;
pub use edits::{read_edits, read_traces};
pub use fault::{InputFault, InputKind};
pub use inputs::Inputs;
pub use kept::{KeptQty, value_in};
pub use number::read_number;
pub use reading::read_inputs;
pub use row::slot_of_text;
