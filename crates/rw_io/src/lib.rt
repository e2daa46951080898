//! Connects the program with the outside: a shelf of files that are read by path, and a sink that text is written to. Whatever
//! the outside does, a whole file is read or a whole text is written, or a count of faults has risen and says whose fault it was.
#![tactic(auto)]

mod again;
mod file_shelf;
mod gathered;
pub mod law;
mod mem_shelf;
mod mem_sink;
mod pieces;
mod plan;
mod shelf;
mod sink;
mod std_sink;
mod sure_shelf;
mod sure_sink;
mod whole_file;
mod whole_text;

pub use file_shelf::FileShelf;
pub use gathered::Gathered;
pub use mem_shelf::MemShelf;
pub use mem_sink::MemSink;
pub use pieces::{Pieces, write_pieces};
pub use shelf::{Shelf, ShelfFault};
pub use sink::{Sink, SinkFault};
pub use std_sink::StdSink;
pub use sure_shelf::SureShelf;
pub use sure_sink::SureSink;
pub use whole_file::{FILE_MAX, PIECE_MAX, ReadEnd, read_all};
pub use whole_text::{WriteFault, write_all};
