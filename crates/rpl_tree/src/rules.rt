//! Holds the rules and functions of a ruleset as they are written.
use crate::{Expr, Statement};

/// A ruleset: its rules and functions, in the order of the text.
#[derive(Debug, Drop)]
pub struct ParsedRules {
    /// The declarations, which are numbered from 1.
    pub declarations: Vec<Declaration>,
}

/// A rule or a function.
#[derive(Debug, Drop)]
pub enum Declaration {
    /// `RULE "name": body ENDRULE`.
    Rule {
        /// The string, without its quotes.
        name: Vec<u8>,
        /// The statements, in the order in which they are executed.
        body: Vec<Statement>,
    },
    /// `FUNCTION name(params) : result IS body ENDFUNCTION`.
    Function {
        /// The name by which it is called.
        name: Vec<u8>,
        /// The parameters, in order.
        params: Vec<Param>,
        /// The type of its result.
        result: TypeText,
        /// The expression that gives its result.
        body: Expr,
    },
}

/// A parameter of a function.
#[derive(Debug, Drop)]
pub struct Param {
    /// Its name in the body of the function.
    pub name: Vec<u8>,
    /// The type of its arguments.
    pub kind: TypeText,
}

/// A type, as it is written.
#[derive(Debug, Drop)]
pub enum TypeText {
    /// `NUMERIC "unit"`.
    Numeric(Vec<u8>),
    /// `BOOLEAN`.
    Boolean,
    /// `DATETIME`.
    Datetime,
    /// `SLOT "unit"`.
    Slot(Vec<u8>),
    /// `LIST m OF NUMERIC "unit"`.
    NumericList(i64, Vec<u8>),
    /// `LIST m OF SLOT "unit"`.
    SlotList(i64, Vec<u8>),
}

/// A slot, as it is written: `Object.Slot`.
#[derive(Debug, Drop)]
pub struct SlotText {
    /// The name of the object.
    pub object: Vec<u8>,
    /// The name of its slot.
    pub slot: Vec<u8>,
}

/// The variables of a FOR, as they are written.
#[derive(Debug, Drop)]
pub struct LoopText {
    /// The variable that stands for each element in turn.
    pub name: Vec<u8>,
    /// The accumulator, which each turn sets to the value of its body.
    pub total: Vec<u8>,
}
