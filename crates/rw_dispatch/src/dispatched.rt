//! Lists what can become of a dispatch, with what was written.
use rw_base::SlotNo;
use rw_method::PutList;

/// The results of a dispatch.
#[derive(Debug, Drop)]
pub enum Dispatched {
    /// Too little was known, and nothing was put.
    Idle,
    /// The object asked for values in its slots.
    Solved {
        /// The puts that it asked for.
        asked: PutList,
        /// Those of them that were written, in the same order. The others ask for what is there already.
        written: PutList,
    },
    /// Two values that should be one are not. Nothing was written.
    Conflict {
        /// The object's slot.
        slot: SlotNo,
        /// The value that is there, in the base units of the slot's dimension.
        held: i128,
        /// The value that the object solved, in the same units.
        solved: i128,
    },
    /// The object solved a value that its slot cannot have. Nothing was written.
    OutOfRange {
        /// The object's slot.
        slot: SlotNo,
        /// The value, in the base units of the slot's dimension.
        value: i128,
    },
}
