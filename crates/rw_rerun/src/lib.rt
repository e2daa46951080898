//! Holds a session: a run of some inputs, and batches of edits after each of which it is the run of the inputs as they are then.
//! `Session::start` runs all timesteps. `apply` runs those that the batch changes, and reuses the others. Both give the run from
//! the first timestep on, and `reran` tells which timesteps were run.
#![tactic(auto)]

mod exchange;
pub mod law;
mod next;
mod orders;
mod pass;
mod passing;
mod reach;
mod session;
mod spare;
mod state;
mod touched;

pub use session::Session;
pub use state::State;
