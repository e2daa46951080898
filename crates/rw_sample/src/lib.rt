//! Makes the sample of a seed: a cascade of twenty reservoirs with a reach between each two, a rule for each of them, and a year
//! of inflows that the seed gives. `sample_model`, `sample_rules` and `sample_inputs` return the texts of its files, and
//! `sample_line` returns the line that is written of its run. Each returns exactly what `specs/` defines, and want of memory is
//! its one error.
#![tactic(auto)]

mod counted;
mod inputs;
pub mod law;
mod line;
mod model;
mod rules;
mod storage;

pub use inputs::sample_inputs;
pub use line::sample_line;
pub use model::sample_model;
pub use rules::sample_rules;
