//! Proves by laws alone that accepted code is accepted, and does the same, in a basin that lets rules put further ahead; so the
//! runs are the same.
#![tactic(auto)]

pub mod law;
