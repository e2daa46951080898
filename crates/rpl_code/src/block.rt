//! Holds a block of code: a rule or a function.
use crate::{Kinds, Lines, ValueKind};

/// The kinds of blocks.
#[derive(Debug, Drop)]
pub enum BlockHead {
    /// A rule.
    Rule,
    /// A function, with the kinds of its result and of its parameters.
    Function {
        /// The kind of its result.
        result: ValueKind,
        /// The kinds of its parameters. They are its first locals.
        parameters: Kinds,
    },
}

/// A block of code: a rule or a function.
#[derive(Debug, Drop)]
pub struct Block {
    /// Whether it is a rule or a function.
    pub head: BlockHead,
    /// The kinds of its locals, without the parameters.
    pub locals: Kinds,
    /// Its instructions.
    pub lines: Lines,
}
