//! Proves by laws alone that a model's file that is migrated is read as the basin that it was, where rules may put 30 timesteps
//! ahead.
#![tactic(auto)]

pub mod law;
