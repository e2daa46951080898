//! Defines how an object solves what it does not know. One definition, `specs/Solve.antt`, says for every kind of object what a
//! dispatch of it returns, from what its slots hold. `Method` is the interface of the code that computes that, and a `Catalogue`
//! has one method for each kind: each returns what the definition says. `solve_balance` is the one solver of balances that the
//! methods share. No call takes memory. Laws say what dispatches leave in an object's slots.
#![tactic(auto)]

mod asking;
mod balanced;
mod basis;
mod brought;
mod catalogue;
mod contents;
mod fault;
mod given;
pub mod law;
mod level;
mod method;
mod past;
pub mod places;
pub mod power_law;
mod put;
mod put_list;
mod puts;
mod releasing;
mod share;
mod side;
pub mod slot_law;
mod solved;
mod solving;
mod term;
mod view;

pub use asking::{ask, ask_solved};
pub use balanced::Balanced;
pub use basis::Basis;
pub use brought::per_mille;
pub use catalogue::{Catalogue, CatalogueFault};
pub use contents::stores;
pub use fault::{fault_of_level, fault_of_past};
pub use given::Given;
pub use level::ask_level;
pub use method::Method;
pub use past::past_in;
pub use put::Put;
pub use put_list::PutList;
pub use puts::{add_put, begin_asking, begin_puts, ended, held_after, known_after, put_solved};
pub use releasing::{ask_released, released};
pub use share::{Release, Seepage, Share};
pub use side::side_flows;
pub use solved::Solved;
pub use solving::{greatest_beside, solve_balance};
pub use term::Term;
pub use view::View;
