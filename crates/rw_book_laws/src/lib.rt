//! Proves laws of water balances, over every run.
#![tactic(auto)]

pub mod law;
