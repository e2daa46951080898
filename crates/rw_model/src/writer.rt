//! Lists who can write the value of a cell.
use rw_base::{ObjectNo, RuleNo};

/// The writers of values.
#[derive(Clone, Copy, Debug, PartialEq, Eq)]
pub enum Writer {
    /// An input gave the value.
    Input,
    /// This rule set it.
    Rule(RuleNo),
    /// This object solved it.
    Object(ObjectNo),
}
