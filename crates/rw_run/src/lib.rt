//! Defines what a run is. The one state of the definition is a list of events, and every question is asked by looking back
//! through it: what a cell holds, which objects wait, what follows. `specs/Runs.antt` says which logs are runs. The laws say that
//! inputs have one run, what a cell holds and which objects wait after an event, in which order timesteps are opened, and that
//! the events of a timestep depend on nothing but the cells at which they look. The crate also has the types in which a run is
//! handed on: `Run`, with its `RunEnd` or `RunFault` and its `Trace`; `Write`, and `Held`.
#![tactic(auto)]

mod fault;
mod held;
pub mod law;
mod limits;
mod line;
mod run;
mod trace;
mod write;

pub use fault::RunFault;
pub use held::Held;
pub use limits::MOST_KEPT;
pub use run::{Run, RunEnd};
pub use trace::{Trace, TraceEvent};
pub use write::Write;
