//! Compiles rulesets to code. `specs/Translate.antt` defines that code: a block of each declaration, in order. `code_of` returns
//! it for a ruleset that was accepted, and `compile` returns it verified. The compiler goes over each tree once, line by line,
//! and writes the places of jumps once they are known (`specs/Written.antt`). The laws are worked rules, line by line (`law`),
//! that the code of an accepted ruleset is accepted (`accepted`), and that the code of each rule does what the rule means
//! (`meaning`; worked rules in `firings`).
#![tactic(auto)]

pub mod accepted;
mod ahead;
mod compiling;
mod expression;
pub mod firings;
mod kind;
mod known;
pub mod law;
pub mod meaning;
mod operator;
mod ruleset;
mod statement;
mod writing;

pub use compiling::{code_of, code_text, compile, compile_away};
