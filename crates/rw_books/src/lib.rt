//! Writes the water balance of a run: of each object that holds water what it held before a run, what flowed in and out in the
//! timesteps that were closed, and what it holds at the end. `balance` returns it as a text, exactly as `specs/` defines it, and
//! want of memory is its one error.
#![tactic(auto)]

mod book;
pub mod law;
mod lines;
mod turnover;

pub use book::Book;
pub use lines::balance;
pub use turnover::Turnover;
