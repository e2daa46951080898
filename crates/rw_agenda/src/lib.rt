//! Decides which rule of a policy fires next. An `Agenda` keeps, within a timestep, what each rule looked at when it last fired,
//! and `next` returns the first rule, in the order of the basin's agenda, that has not fired or that looked at a cell which holds
//! another value now. Only making an agenda takes memory.
#![tactic(auto)]

mod agenda;
mod cell_index;
mod last_looks;
pub mod law;
mod limits;
mod marks;
mod turns;
mod watch;

pub use agenda::Agenda;
pub use limits::RULES_MAX;
