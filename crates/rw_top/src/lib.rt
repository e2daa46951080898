//! Does what the words ask for, by the machine of `rpl_machine`. The contract is that of `rw_commands`, whose definitions it cites:
//! `rw_promise` says what that comes to.
#![tactic(auto)]

mod top;

pub use rw_base::{Blank, Ledger, Steps};
pub use rw_commands::end_without_memory;
pub use top::basin_main;
