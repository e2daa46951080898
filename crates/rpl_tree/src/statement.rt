//! Holds a statement of a rule as it is written.
use crate::{Expr, SlotText};

/// A statement of a rule.
#[derive(Debug, Drop)]
pub enum Statement {
    /// `target[t + ahead] := value;`.
    Assign {
        /// The slot that is set.
        target: SlotText,
        /// How many timesteps ahead; 0 where only `[t]` is written.
        ahead: i64,
        /// The value that it is set to.
        value: Expr,
    },
    /// `IF condition THEN yes ELSE no ENDIF`.
    If {
        /// The test that decides between the two.
        condition: Expr,
        /// The statements where it is true.
        yes: Vec<Statement>,
        /// The statements where it is false; empty without an ELSE.
        no: Vec<Statement>,
    },
    /// `WITH name := value DO body ENDWITH`.
    With {
        /// The variable.
        name: Vec<u8>,
        /// What the variable stands for in the body.
        value: Expr,
        /// The statements of the body.
        body: Vec<Statement>,
    },
}
