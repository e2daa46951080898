//! Decides what becomes of the puts of a rule's firing. `Writes::judge` finds those of them that are written, by what the cells
//! hold before the first of them: all that are to timesteps of the run, but those that the firing puts again later, and those
//! that the put rules keep or deny. `mark` marks the rules that what an event writes reaches. Only making a `Writes` takes
//! memory.
#![tactic(auto)]

mod asked;
pub mod law;
mod limits;
mod marked;
mod passed;
mod writes;

pub use asked::asked_by;
pub use limits::PUTS_MAX;
pub use marked::mark;
pub use writes::Writes;
