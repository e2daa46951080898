//! Proves laws of runs: what holds of every timestep that was closed, and of what was put on the way, whatever the policy and the
//! inputs. They are over the definitions of a run alone.
#![tactic(auto)]

pub mod fact_law;
pub mod law;
