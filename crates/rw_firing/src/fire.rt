//! Lists how a firing of a rule can end, and holds the values that it asks for.
use rw_base::{Qty, SlotNo};

/// The ways in which a firing of a rule can end.
#[derive(Clone, Copy, Debug, PartialEq, Eq)]
pub enum FireEnd {
    /// It reached its end, and asks for its puts.
    Done,
    /// It met an unknown value, and asks for nothing.
    Unknown,
    /// It divided by 0.
    ZeroDivisor,
    /// It computed this value, which is no quantity, or which its slot cannot have.
    OutOfRange(i128),
}

/// A value that a rule asks for in a slot.
#[derive(Clone, Copy, Debug, PartialEq, Eq)]
pub struct RulePut {
    /// The value, in the base units of the slot's dimension.
    pub value: Qty,
    /// The slot.
    pub slot: SlotNo,
    /// How many timesteps after the one in which the rule fires.
    pub ahead: u8,
}
