//! Decides when the code of a policy is accepted for a basin, and defines what a firing of it may cost and what it does. `verify`
//! returns the code with the budget of each block, or its first refusal, as the definitions give them. Accepted code is safe
//! (`verified_code_is_safe`): whatever the cells hold and at whatever timestep, its rules are never stuck, end, and keep to their
//! budgets. The other laws say what the definitions give on worked codes.
#![tactic(auto)]

mod block;
mod block_fault;
mod budget;
mod join;
mod judge;
mod kinds;
pub mod law;
mod list_loop;
mod names;
mod notes;
mod place_fault;
mod resolved;
mod resolver;
mod stacks;
mod table;
mod takes;
mod verified;
mod verifier;
mod verify_fault;
mod verify_kind;
mod walk;

pub use budget::Budget;
pub use list_loop::Loop;
pub use resolved::Resolved;
pub use verified::{Verified, verify};
pub use verify_fault::VerifyFault;
pub use verify_kind::VerifyKind;
