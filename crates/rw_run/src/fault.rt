//! Lists why a run ends before its last timestep.
use rw_base::{ObjectNo, RuleNo, SlotNo, StepNo};

/// The reasons why a run ended before its last timestep.
#[derive(Clone, Copy, Debug, PartialEq, Eq)]
pub enum RunFault {
    /// Two values that should be one are not: what an object's slot holds, and what its other slots give for it.
    Conflict {
        /// The object that was dispatched.
        object: ObjectNo,
        /// Its slot.
        slot: SlotNo,
        /// The timestep.
        step: StepNo,
        /// The value that is there, in the base units of the slot's dimension.
        held: i128,
        /// The value that the object solved, in the same units.
        solved: i128,
    },
    /// A rule divided by 0.
    ZeroDivisor {
        /// The rule.
        rule: RuleNo,
        /// The timestep.
        step: StepNo,
    },
    /// An object solved a value that its slot cannot have.
    ObjectOutOfRange {
        /// The object that was dispatched.
        object: ObjectNo,
        /// Its slot.
        slot: SlotNo,
        /// The timestep.
        step: StepNo,
        /// The value, in the base units of the slot's dimension.
        value: i128,
    },
    /// A rule computed a value that is no quantity, or that its slot cannot have.
    RuleOutOfRange {
        /// The rule.
        rule: RuleNo,
        /// The timestep.
        step: StepNo,
        /// The value, in the base units of the slot's dimension, or of what was computed.
        value: i128,
    },
    /// An object was dispatched as often as it may be in a timestep, and would have been dispatched again.
    ObjectLimit {
        /// The object.
        object: ObjectNo,
        /// The timestep.
        step: StepNo,
        /// The number of its dispatches.
        count: u8,
    },
    /// A rule fired as often as it may in a timestep, and would have fired again.
    RuleLimit {
        /// The rule.
        rule: RuleNo,
        /// The timestep.
        step: StepNo,
        /// The number of its firings.
        count: u8,
    },
}
