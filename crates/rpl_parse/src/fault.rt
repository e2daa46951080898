//! Lists why a text is no ruleset.
use thiserror::Error;

/// The reasons why a text is no ruleset.
#[derive(Clone, Copy, Debug, PartialEq, Eq, Error)]
pub enum ParseFault {
    /// The first bad token is in this line. Lines are counted from 1.
    #[error("line {0}: bad token")]
    BadToken(u32),
    /// This declaration is the first that is not in the grammar, or is nested more than 100 deep.
    #[error("declaration {declaration} line {line}: bad declaration")]
    BadDeclaration {
        /// Its number, counted from 1, rules and functions together.
        declaration: u32,
        /// The line in which it begins.
        line: u32,
    },
    /// The declaration of this number is the 201st rule or the 201st function.
    #[error("declaration {0}: too many")]
    TooMany(u32),
    /// There was no memory.
    #[error("out of memory")]
    NoMemory,
}
