//! Keeps the values of a run, cell by cell. `Series` holds what each slot of a basin has at each timestep, and `put` accepts a
//! new content by the put rules: a cell is written together with every cell that a link joins to it, or nothing changes.
//! `restore` makes them hold a content whatever they hold. `at_step` lends the cells of one timestep to a caller that reads many
//! of them. `is_shared` decides whether two cells are joined in this way. Only `sized` and `copy` take memory.
#![tactic(auto)]

mod cells;
mod columns;
mod kept;
mod series;
mod shared;
mod step_cells;

pub use rw_model::{Content, PutEnd, Writer};
pub use series::Series;
pub use shared::is_shared;
pub use step_cells::StepCells;
