//! Solves the objects that water only runs through: gages, confluences, bifurcations and reaches. Each method returns what the
//! definition of a dispatch says of its kind. No call takes memory.
#![tactic(auto)]

mod answering;
mod bifurcation;
mod confluence;
mod gage;
mod reach;

pub use bifurcation::BifurcationMethod;
pub use confluence::ConfluenceMethod;
pub use gage::GageMethod;
pub use reach::ReachMethod;
