//! Computes the budgets of rulesets: the most that a firing of each declaration counts, looks and puts, and the most words that
//! it keeps at a time, as `rpl_tree` defines them (`specs/Budget.antt`). One pass goes over each declaration from the leaves on,
//! and each number stops at the first above its limit.
#![tactic(auto)]

mod acts;
mod cost;
mod functions;
mod in_turn;
mod kind;
mod known;
pub mod law;
mod load;
mod named;
mod pass;
mod ruleset;
mod work;

pub use cost::TreeCost;
pub use in_turn::InTurn;
pub use ruleset::budgets;
