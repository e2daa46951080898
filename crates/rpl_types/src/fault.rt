//! Holds why a ruleset is not accepted, and where.
use crate::TypeKind;
use thiserror::Error;

/// The reasons why a ruleset is not accepted.
#[derive(Clone, Copy, Debug, PartialEq, Eq, Error)]
pub enum TypeFault {
    /// The first refusal, in the order of the text.
    #[error("declaration {declaration} node {node}")]
    Refused {
        /// What is wrong.
        kind: TypeKind,
        /// In which declaration, counted from 1, rules and functions together.
        declaration: u32,
        /// At which of its nodes, counted from 1, each before its parts; 0 is the declaration as a whole.
        node: u32,
    },
    /// There was no memory. Nothing is said of the ruleset.
    #[error("out of memory")]
    NoMemory,
}
