//! Proves by laws alone that the run of a basin does not go by how far ahead its rules may put, but by what they put.
#![tactic(auto)]

pub mod law;
