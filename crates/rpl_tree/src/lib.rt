//! Defines the trees of rules, as they are read from a ruleset's text, and what they mean. The types keep each declaration,
//! statement and expression as it was written; names, units and strings are their bytes. What a rule means is a definition over
//! plain trees (`specs/Mean.antt`): at which cells a firing looks, how it ends, what it asks for and how much it counts. Another
//! one defines what a firing may count at most (`specs/Budget.antt`). The laws say that a firing depends on nothing but its
//! looks, and have a worked rule for each form; `worked` builds two rulesets from the types. The crates above judge rules by what
//! these definitions say of kinds and costs, and the code of rules by what they mean; no call evaluates a tree.
#![tactic(auto)]

mod expression;
pub mod law;
mod rpl_type;
mod rules;
mod statement;
mod words;
pub mod worked;

pub use expression::{Expr, Pair};
pub use rpl_type::RplType;
pub use rules::{Declaration, LoopText, Param, ParsedRules, SlotText, TypeText};
pub use statement::Statement;
pub use words::{ConvertWord, OneWord, TwoWord};
