//! Lists what a line of a code's text can say.
use crate::{BlockHead, Instruction, Kinds};

/// What a line of a code's text says.
#[derive(Drop)]
pub(crate) enum Said {
    /// The text is code.
    Heading,
    /// A block begins.
    Opening(BlockHead),
    /// The kinds of the block's locals.
    Locals(Kinds),
    /// An instruction of the block.
    Instruction(Instruction),
    /// The block ends.
    Ending,
}
