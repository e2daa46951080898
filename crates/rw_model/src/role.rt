//! Lists who can give a slot its values.

/// The roles of slots: who gives a slot its values.
#[derive(Clone, Copy, Debug, PartialEq, Eq)]
pub enum Role {
    /// An input, a rule, or the object's own equation.
    Solvable,
    /// An input or a rule. The object's equation only reads it.
    Fixed,
    /// The object's equation alone: it is not settable.
    Derived,
    /// An input or a rule, and no equation has it at every timestep.
    Neither,
}
