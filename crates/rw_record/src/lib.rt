//! Records what a timestep looks at and reaches, each cell once, with what that held before it. `Noted` is the list of an open
//! timestep, from which `take_back` puts back what its cells held. `KeptStep` is the list of a closed one, with its lines: where
//! each of its cells is held alike again (`is_kept_alike`), the timestep need not be run again. A `StepRecord` also has a plain
//! list of the cells.
#![tactic(auto)]

mod alike;
mod back;
mod cell_notes;
mod held_list;
mod kept_step;
pub mod law;
mod marks;
mod noted;
mod ordered;
mod record;

pub use alike::{is_alike, is_kept_alike};
pub use back::{put_back, put_back_kept, take_back};
pub use held_list::HeldList;
pub use kept_step::KeptStep;
pub use noted::Noted;
pub use record::{StepRecord, listed};
pub use rw_run::Held;
