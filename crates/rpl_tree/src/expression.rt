//! Holds an expression of a ruleset as it is written.
use crate::{ConvertWord, LoopText, OneWord, SlotText, TwoWord};

/// An expression.
#[cycle(expression)]
#[derive(Debug, Drop)]
pub enum Expr {
    /// `12` or `12 "unit"`.
    Number {
        /// The number that is written.
        value: i64,
        /// The unit word, if there is one.
        unit: Option<Vec<u8>>,
    },
    /// `TRUE` or `FALSE`.
    Truth(bool),
    /// `t`, the timestep in which the rule fires.
    Now,
    /// `Object.Slot`.
    Slot(SlotText),
    /// A variable or a parameter.
    Name(Vec<u8>),
    /// `name(args)`.
    Call {
        /// A predefined function, or one of the ruleset.
        name: Vec<u8>,
        /// The arguments, in order.
        args: Vec<Expr>,
    },
    /// `(x)`.
    Brackets(Box<Expr>),
    /// `{x, y}`.
    List(Vec<Expr>),
    /// `IF condition THEN yes ELSE no ENDIF`.
    If {
        /// The test that decides between the two.
        condition: Box<Expr>,
        /// The value where it is true.
        yes: Box<Expr>,
        /// The value where it is false.
        no: Box<Expr>,
    },
    /// `LET name := value IN body ENDLET`.
    Let {
        /// The variable.
        name: Vec<u8>,
        /// What the variable stands for in the body.
        value: Box<Expr>,
        /// The value of the whole.
        body: Box<Expr>,
    },
    /// `FOR name IN list WITH total := first DO body ENDFOR`.
    For {
        /// The variables. They are apart, so that a node of any other form takes less memory.
        names: Box<LoopText>,
        /// The list.
        list: Box<Expr>,
        /// The accumulator's first value.
        first: Box<Expr>,
        /// The body.
        body: Box<Expr>,
    },
    /// `MAP name IN list DO body ENDMAP`.
    Map {
        /// The variable that stands for each element in turn.
        name: Vec<u8>,
        /// The list.
        list: Box<Expr>,
        /// What takes the place of the element.
        body: Box<Expr>,
    },
    /// A word and one expression, as `NOT x`.
    One {
        /// The word.
        word: OneWord,
        /// The expression.
        arg: Box<Expr>,
    },
    /// A word and two expressions, as `x + y` or `ITEM(x, y)`.
    Two {
        /// The word.
        word: TwoWord,
        /// The two expressions, in one piece of memory.
        parts: Box<Pair>,
    },
    /// `StorageToElevation(object, x)` or `ElevationToStorage(object, x)`.
    Convert {
        /// Which of the two conversions.
        word: ConvertWord,
        /// The reservoir whose table is read.
        object: Vec<u8>,
        /// The storage or elevation.
        arg: Box<Expr>,
    },
    /// `slot[step]`: the value of a slot at a date.
    At(Box<Pair>),
}

/// Two expressions, one behind the other.
#[cycle(expression)]
#[derive(Debug, Drop)]
pub struct Pair {
    /// The first.
    pub first: Expr,
    /// The second.
    pub second: Expr,
}
