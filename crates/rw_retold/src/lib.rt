//! Writes what became of each put of a run, from the trace of the run. `push_asked_trace` goes through the lines once, with the
//! cells as they were at each line. There it lets the rules of firings fire and the objects of dispatches solve again, and writes
//! below the line what they asked for, as `rw_asked` defines. It writes the puts of the trace to the cells. So a run keeps nothing
//! for it.
#![tactic(auto)]

mod checks;
mod retelling;
mod walk;

pub use retelling::push_asked_trace;
