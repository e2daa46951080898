//! Computes statistics of many runs of one basin. A `Tally` keeps what the cells held at the end of each run that settled. Its
//! `summary` has, for each cell, in how many of these runs it is known, and the minimum, the median and the maximum of its
//! values. The median of a list of values is the least one for which at least half of the list is at most it; it is selected, and
//! no list is sorted.
#![tactic(auto)]

pub mod law;
mod statistics;
mod summary;
mod tally;
mod text;

pub use tally::Tally;
