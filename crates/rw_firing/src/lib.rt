//! Defines the types that a firing of a rule and its meaning share: what was seen at a cell, how a firing ends, and what it asks
//! for. `specs/Fire.antt` says what a firing does. Nothing here takes memory.
#![tactic(auto)]

mod fire;
mod look;

pub use fire::{FireEnd, RulePut};
pub use look::Look;
