//! Does what the words ask for, with any machine: reads the files that they name, and writes the text of the command: the
//! sections of runs with and without rules, the budgets of a policy, the code of a ruleset, how a cell got its value, a line on
//! the run of the sample of a seed, the water balance, the runs of traces and their summary, or a model in format 2. With status
//! 0 or 1 it has written exactly the text that the definitions give for these files: one section for the inputs and one after
//! each batch of edits, each that of a run from the first timestep on, also where timesteps are reused. In runs by a policy each
//! firing is one of verified code, within its budget. Of a model in format 2 the table is said, and not the bytes. Every other
//! status has its cause, and one line that names it. `rw_promise` says what follows from this.
#![tactic(auto)]

mod alone;
mod asked;
mod balance;
mod cell;
mod check;
mod coded;
mod command;
mod compile;
mod extras;
mod fault_words;
mod files;
mod judging;
mod many;
mod migrate;
mod perform;
mod policy;
mod refusal;
mod reused;
mod run;
mod sample;
mod sections;
mod simulate;
mod tell;
mod top;
mod why;

pub use extras::Extras;
pub use refusal::{File, Refusal};
pub use rw_base::{Blank, Ledger, Steps};
pub use top::{end_without_memory, perform_words};
