//! Provides the arithmetic that every table rests on. Quantities are whole numbers within stated bounds, and no sum, difference
//! or product leaves them unnoticed: each call returns the exact result, or reports the exact result that is no quantity.
//! Quotients are rounded down. Dimensions say what a quantity measures, and unit words stand for a dimension and a factor. Digits
//! of a text spell a number, and sets of numbers are kept as bits of words. No call takes memory.
#![tactic(auto)]

mod bit;
mod digit;
mod dimension;
pub mod law;
pub mod limits;
mod memory;
mod number;
mod quantity;
mod steps;
mod unit;

pub use bit::{clear_bit, has_bit, set_bit};
pub use digit::{is_digit, read_digits};
pub use dimension::Dim;
pub use memory::NoMemory;
pub use number::{Cell, ObjectNo, RuleNo, SlotNo, StepNo};
pub use quantity::{ArithFault, QUANTITY_MAX, Qty};
pub use steps::{Blank, Ledger, Steps};
pub use unit::unit_of;
