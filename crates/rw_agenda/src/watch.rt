//! Holds an entry of the index of cells: a rule that looked at a cell.

/// A watch: a rule looked at a cell, so that a put there marks it. It has the rule, by its place among the rules, the timestep of
/// the cell, and the number of the watch before this one of the same place of the index, which is past where there is none.
#[derive(Clone, Copy)]
pub(crate) struct Watch {
    pub(crate) before: u32,
    pub(crate) rule: u16,
    pub(crate) step: u16,
}
