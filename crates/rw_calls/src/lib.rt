//! Runs basins by machines of its own: the calls of `rw_engine` and `rw_rerun` for a caller who has no machine to lend. Their
//! contracts are those of the calls that take one.
#![tactic(auto)]

mod engine;
mod running;
mod session;

pub use engine::Engine;
pub use running::run_all;
pub use session::Session;
