//! Parses rulesets. `parse` reads a text as the tree that the grammar relates to it, and reports the first bad token, or the
//! first declaration that is not in the grammar or is one too many. `specs/Scan.antt` defines the tokens of a text.
//! `specs/Grammar.antt` and `specs/Statements.antt` define which tokens spell which tree, by a case for each form, and a number
//! for how tightly forms hold together (`looseness`). `specs/Declarations.antt` defines what is due for a whole text. The laws
//! say that a text is read in one way. The code goes through the text once, looks at one token ahead, and calls itself no deeper
//! than a declaration may be nested.
#![tactic(auto)]

mod build;
mod class;
mod cut;
mod declaration;
mod expression;
mod fault;
mod front;
pub mod law;
mod look;
mod made;
mod reserved;
mod ruleset;
mod scan;
mod statement;
mod stop;
mod token;
mod types;

pub use fault::ParseFault;
pub use ruleset::parse;
