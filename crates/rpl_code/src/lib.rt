//! Defines the code of a policy: what a block of instructions is, and the text that spells it. `specs/Spelling.antt` says for
//! every code which text that is, and `specs/Reading.antt` what any text is read as, or at which line it is refused. `write_code`
//! returns the text of a code, and `read_code` returns the code that a text is read as. This crate does not say what a code
//! computes.
#![tactic(auto)]

mod block;
mod code;
mod cut;
mod fault;
mod instruction;
mod kind;
mod kind_words;
mod kinds;
pub mod law;
mod line;
mod line_fault;
mod lines;
mod names;
mod numbers;
mod operand_kinds;
mod progress;
mod reading;
mod said;
mod spelling;
mod writing;

pub use block::{Block, BlockHead};
pub use code::Code;
pub use fault::CodeFault;
pub use instruction::Instruction;
pub use kind::ValueKind;
pub use kinds::Kinds;
pub use lines::Lines;
pub use operand_kinds::{OperandKinds, SharedKinds};
pub use reading::read_code;
pub use writing::{begin_code, push_block, write_code};
