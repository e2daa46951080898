//! Lists why a ruleset is refused.

/// The reasons why a ruleset is refused. Where several are due at one node, the one that comes first in `docs/LANGUAGE.md` is
/// given.
#[derive(Clone, Copy, Debug, PartialEq, Eq)]
pub enum TypeKind {
    /// No variable, function or object has the name.
    UnknownName,
    /// The model has no such slot.
    UnknownSlot,
    /// The word is none of the units.
    UnknownUnit,
    /// A slot is set that a method derives.
    NotSettable,
    /// A value is of another type than the form asks for.
    WrongType,
    /// A value measures something else than the form asks for, or an exponent is outside -6 to 6.
    WrongUnit,
    /// There are more or fewer arguments than the function takes.
    WrongCount,
    /// A function is called that is not declared before.
    NotEarlier,
    /// A function has the name of a predefined or earlier one, or two parameters have one name.
    DuplicateName,
    /// A slot is set at another timestep than `t`.
    TargetStep,
    /// A list may be longer than 4096 items, or than what is asked for there.
    ListTooLong,
    /// A number in base units is above the greatest quantity.
    LiteralRange,
    /// The object is no reservoir with a table.
    NoTable,
    /// A budget is above its limit.
    TooCostly,
}
