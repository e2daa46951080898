//! Reads the words of the command line. They are read with `clap`, as a command with one level of subcommands, and what they ask
//! for is a function of the words, `command_of` (`specs/Command.antt`). `read_words` returns that command, or `None` where they
//! ask for nothing; want of memory is its one error.
#![tactic(auto)]

mod command;
mod job;
mod law;
mod order;
mod program;
mod seed;

pub use command::{CellWords, Command, read_words};
pub use job::Job;
pub use law::{empty_words, one_path_each, plain_words, sample_words, worked_words};
pub use order::Order;
