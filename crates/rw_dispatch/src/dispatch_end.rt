//! Lists how a dispatch can end, before anything is written.
use rw_base::SlotNo;

/// The ways in which a dispatch can end.
#[derive(Clone, Copy, Debug, PartialEq, Eq)]
pub enum DispatchEnd {
    /// Too little was known, and nothing was put.
    Idle,
    /// The object asked for values in its slots.
    Solved,
    /// Two values that should be one are not. Nothing is to be written.
    Conflict {
        /// The object's slot.
        slot: SlotNo,
        /// The value that is there, in the base units of the slot's dimension.
        held: i128,
        /// The value that the object solved, in the same units.
        solved: i128,
    },
    /// The object solved a value that its slot cannot have. Nothing is to be written.
    OutOfRange {
        /// The object's slot.
        slot: SlotNo,
        /// The value, in the base units of the slot's dimension.
        value: i128,
    },
}
