//! Reads a model from the bytes of its file. `read_model` returns the basin that `specs/Model.antt` gives for the bytes, or the
//! first thing that it finds wrong, with the path of its key. That file also says which keys there are, in which order they are
//! judged, and their ranges and defaults, for a finished table. The result is exact in both directions, want of memory apart; a
//! basin is valid, and no refusal carries a want of memory inside.
#![tactic(auto)]

mod bound_table;
mod data;
mod depth;
mod fault;
mod history;
mod key;
pub mod law;
mod link_table;
mod listed;
mod migration;
mod model;
mod name;
mod object_kind;
mod object_table;
mod options;
mod path;
mod rating;
mod run;
mod run_control;
mod slot_text;
mod start_text;
mod told;
mod value;
mod word;

pub use fault::ModelFault;
pub use migration::migrate;
pub use model::read_model;
