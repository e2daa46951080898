//! Writes the texts of a run. `section` returns how the run of a batch ended, and a table of what every slot held at each
//! timestep that was closed; and, where that is asked for, which timesteps were run again, who wrote each value, and what
//! happened. A `Sheet` writes such texts of a basin's runs one after another, and of the table only those lines anew of which a
//! value changed. `why` returns how one cell came to what it holds. Each returns exactly the text that `specs/` defines, for any
//! run that closed no more timesteps than the basin has, and want of memory is its one error. Each cell and each line of a trace
//! is read once. Names, numbers and a heading are also written alone, for texts of other crates.
#![tactic(auto)]

mod cell;
mod flags;
mod handed;
mod heading;
mod kept;
pub mod law;
mod lines;
mod names;
mod numbers;
mod pieces;
mod sheet;
mod table;
mod teller;
mod texts;
mod told;
mod value;
mod whole;

pub use cell::why;
pub use flags::push_content_by;
pub use handed::{Unwritten, write_section};
pub use heading::push_heading;
pub use lines::{line_at, push_line, push_put};
pub use names::{object_words, push_slot};
pub use numbers::{push_count, push_number};
pub use pieces::ROOM;
pub use sheet::Sheet;
pub use teller::Teller;
pub use texts::{section, section_text, trace_section};
pub use value::KeptValue;
pub use whole::Telling;
