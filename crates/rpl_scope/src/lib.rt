//! Finds what names in scope stand for. A name is looked up in a time that grows as the logarithm of how many there are, and not
//! as their number.
#![tactic(auto)]

mod name;
mod scope;

pub use name::is_same_name;
pub use scope::Scope;
