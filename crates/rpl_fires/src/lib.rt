//! Declares what a run asks of whatever fires its rules: the trait `Fires`, and `Fired`, which holds what a firing did.
//! `rpl_machine` has one that does so. Crates of runs are proved beside it, by the clauses of the trait alone.
#![tactic(auto)]

mod fired;
mod fires;

pub use fired::Fired;
pub use fires::Fires;
