//! Computes the functions that rules call by name: Min, Max, Abs, Clamp, RoundDown, Sign and MulDiv, by their numbers 1 to 7. A
//! `Predef` is a function of the program's own beside the fact that it computes its row of the table, and `Predefs` has one for
//! each row: a call of row k answers what the table says. No call takes memory.
#![tactic(auto)]

mod functions;
pub mod law;
mod predef;
mod predefs;

pub use functions::{absolute, clamped, greatest, least, mul_div, rounded_down, sign};
pub use predef::Predef;
pub use predefs::{Predefs, PredefsFault};
