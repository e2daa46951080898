//! Proves by laws alone what the promise of the top call means. What it speaks of is one thing, what each status says, what every
//! run of a ruleset keeps, that a migrated model has the runs that it had, and that the sample's files are accepted, whatever the
//! seed.
#![tactic(auto)]

pub mod law;
