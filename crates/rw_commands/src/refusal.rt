//! Lists why the text of a command is not written, or not wholly, and the status of each reason.
ghost use Rattle.std.specs.Prelude.{◌≡◌};

use rpl_code::CodeFault;
use rpl_parse::ParseFault;
use rpl_types::TypeKind;
use rpl_verify::VerifyKind;
use rw_inputs::InputKind;
use rw_io::ReadEnd;
use rw_model_toml::ModelFault;

/// A file that a command names, in the order in which they are read.
#[derive(Clone, Copy, Debug, PartialEq, Eq)]
pub enum File {
    Model,
    Policy,
    Inputs,
    Edits,
    Traces,
}

/// Why the text of a command isn't written, or not wholly.
#[derive(Debug, Drop)]
pub enum Refusal {
    /// The words are no command.
    Words,
    /// A fault of that file was counted.
    CannotRead(File),
    /// A fault of the output was counted.
    CannotWrite,
    /// There was no memory.
    NoMemory,
    /// The model is refused.
    Model(ModelFault),
    /// The policy is no ruleset.
    Grammar(ParseFault),
    /// A ruleset is refused: what is wrong, in which declaration and node.
    Types(TypeKind, u32, u32),
    /// The policy is no code.
    Code(CodeFault),
    /// Code is refused: what is wrong, in which block and at which place.
    Block(VerifyKind, u32, u32),
    /// The inputs are refused: what is wrong, in which row and column.
    Inputs(InputKind, u32, u8),
    /// The edits are refused: what is wrong, in which row and column.
    Edits(InputKind, u32, u8),
    /// The traces are refused: what is wrong, in which row and column.
    Traces(InputKind, u32, u8),
    /// The basin has no cell that the words name.
    NoCell,
    /// More bytes were taken of that file than a file may hold.
    TooLong(File),
}

impl Refusal {
    ghost use Rattle.rw_commands.specs.Refusal.{refusal_after, status_of};

    /// The status with which a program ends, 2 to 10: `docs/FORMATS.md` has them under "Statuses and lines on the error
    /// stream".
    pub fn status(&self) -> u8
        ensures { result ≡ status_of self.now }
    {
        match self {
            Refusal::Words => 2,
            Refusal::CannotRead(_) => 3,
            Refusal::CannotWrite => 4,
            Refusal::NoMemory => 5,
            Refusal::Model(_) => 6,
            Refusal::Grammar(_) => 7,
            Refusal::Types(_, _, _) => 7,
            Refusal::Code(_) => 9,
            Refusal::Block(_, _, _) => 9,
            Refusal::Inputs(_, _, _) => 8,
            Refusal::Edits(_, _, _) => 8,
            Refusal::Traces(_, _, _) => 8,
            Refusal::NoCell => 8,
            Refusal::TooLong(_) => 10,
        }
    }

    /// The refusal where that file isn't read whole.
    pub(crate) fn after(end: ReadEnd, file: File) -> Refusal
        ensures { result ≡ refusal_after end file }
    {
        match end {
            ReadEnd::ReadFault => Refusal::CannotRead(file),
            ReadEnd::TooLong => Refusal::TooLong(file),
            ReadEnd::NoMemory => Refusal::NoMemory,
        }
    }
}
