//! Holds the elevation-volume table of a reservoir. `Rating::of` judges rows and makes a table of them, or reports their first
//! fault. `vol` returns the volume at an elevation, rounded down between two rows; `elev` returns the greatest whole elevation
//! whose volume is at most the one asked for. Both return exactly what the definitions in `specs/Curve.antt` say.
#![tactic(auto)]

mod fault;
mod interval;
pub mod law;
mod lookup;
mod rating;
mod search;

pub use fault::{ELEVATION_MAX, TableFault};
pub use rating::Rating;
