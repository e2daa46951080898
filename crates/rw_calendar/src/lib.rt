//! Stamps timesteps: computes the moments at which each step of a run begins and ends, in the civil calendar. A run is stamped
//! exactly where its start is a date, steps of its length can begin there and it ends within year 9999.
#![tactic(auto)]

mod fault;
mod later;
pub mod law;
mod limits;
mod moment;
mod stamps;
mod start;
mod step_length;

pub use fault::CalFault;
pub use limits::STEPS_MAX;
pub use moment::Moment;
pub use stamps::Stamps;
pub use start::Start;
pub use step_length::StepLength;
