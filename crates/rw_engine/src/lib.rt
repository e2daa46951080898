//! Runs basins. An `Engine` represents a log of events: it shows what the cells hold after it, the lines of its trace, the last
//! closed timestep, and the fault if there is one. `for_run` places the inputs, `run_step` passes one timestep, and `run_all`
//! runs all of them and returns the result of the run. A `RunSetup` has what a run needs besides its inputs and the machine that
//! fires its rules: functions whose names end in `_of` take one, and the others make one. Each event is the one that the
//! definition says follows (`rw_run`); with `run_by_of` a rule picks who is dispatched. After want of memory an engine shows the
//! same log as before.
#![tactic(auto)]

mod counts;
mod engine;
pub mod law;
mod noting;
mod parts;
mod placing;
mod replaying;
mod running;
mod setup;
mod state;
mod step_end;
mod trace_lines;
mod turn;

pub use engine::Engine;
pub use running::{run_all, run_all_of, run_by_of};
pub use rw_record::{Held, HeldList, KeptStep, StepRecord};
pub use rw_run::{Run, RunEnd, RunFault, Trace, TraceEvent};
pub use setup::RunSetup;
pub use step_end::StepEnd;
