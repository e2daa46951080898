//! Lists what can follow from the terms of a balance.

/// The results of a balance.
#[derive(Clone, Copy, Debug, PartialEq, Eq)]
pub enum Balanced {
    /// Too little is known.
    Idle,
    /// All terms are given, and the balance is true.
    Holds,
    /// This term gets the value that makes the balance true.
    Solves {
        /// The place of its slot.
        place: u8,
        /// The value, in the base units of its slot's dimension.
        value: i128,
        /// Its priority.
        number: u16,
    },
    /// The balance is false, and no term gives way.
    Conflicts {
        /// The place of the last term's slot.
        place: u8,
        /// The value that is given there, in the base units of its slot's dimension.
        held: i128,
        /// The value that makes the balance true, in the same units.
        solved: i128,
    },
}
