//! Fires rules of verified code. A `Machine` does the code instruction by instruction, on words of 64 bits that do not tell their kind:
//! only the verifier knows whether a word is a number, a truth value, a timestep or a slot. `fire` does what the definition of a
//! machine over values gives (`fire_of_code` of `rpl_verify`), is never stuck, and takes no memory; `prepare` takes all of it.
#![tactic(auto)]

mod around;
mod blocks;
mod call;
mod calls;
mod compute;
mod direct;
mod fire;
mod locals;
mod looks;
mod loops;
mod machine;
mod moves;
mod onward;
mod parts;
mod puts;
mod single;
mod stack;
mod state;
mod step;
mod turn;
mod turns;
mod way;

pub use machine::Machine;
