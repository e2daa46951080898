//! Proves that the order of dispatches does not matter in a free basin, and runs a basin in any order. Without rules, and in a
//! basin of which the order is free (`order_free`), every order of dispatches settles where one does, with the same values in the
//! same cells. The laws are over the definitions of a run alone; the order in which a run dispatches is one of these, and so is
//! that of any rule that picks one of those that wait. `run_any` runs in the order of such a rule.
#![tactic(auto)]

mod free;
pub mod law;
mod running;

pub use free::order_free;
pub use running::run_any;
pub use rw_dispatch::{Newest, Oldest, Pick};
