//! Says what became of each put that an event of a run asked for: written, and over what, kept, denied, put again later in the
//! same firing, or after the last timestep. `specs/Asked.antt` says it over a log, and gives the trace with a line for each; the
//! laws say that without the lines of what wasn't written it is the trace.
#![tactic(auto)]

mod fate;
pub mod law;
mod tells;

pub use fate::{Fate, fate_alone, fate_of};
pub use tells::{push_dispatched, push_fired};
