//! Defines the parts of a model of a river basin. `Kind` lists the kinds of objects, and `Kind::slot` returns the rows of the one
//! table of slots in `specs/Slots.antt`: which slots a kind has, in which places, with their dimensions, roles and bounds.
//! `is_name` and `is_kind` decide which names and parameters a model may have, and `is_plain` how any name is spelt. `put_end`
//! decides what becomes of a put to a cell. `BasinBuilder` accepts objects, links and the bounds of slots, refuses those that a
//! basin cannot have, by their first fault, and finds slots by name. A finished `Basin` is valid and holds what was added, in
//! order; reading it takes no memory.
#![tactic(auto)]

mod basin;
mod before;
mod bounds;
mod builder;
mod content;
mod control;
mod data_slots;
mod fault;
mod groups;
mod history;
mod judge;
mod kind;
pub mod law;
pub mod limits;
mod links;
mod lookups;
mod name;
mod numbers;
mod objects;
mod own_bounds;
mod place;
mod put;
mod role;
mod slot;
mod slots;
mod writer;

pub use basin::Basin;
pub use builder::BasinBuilder;
pub use content::Content;
pub use control::{AgendaOrder, RunControl};
pub use data_slots::{DataSlot, DataSlots};
pub use fault::BuildFault;
pub use history::History;
pub use kind::{Kind, Supply, is_kind};
pub use name::{Name, is_name, is_plain};
pub use put::{PutEnd, put_end};
pub use role::Role;
pub use slot::Slot;
pub use writer::Writer;
