//! Holds how far the lines of a text were read.
use crate::{Block, BlockHead};

/// How far the lines of a text were read.
#[derive(Drop)]
pub(crate) enum Progress {
    /// None was read.
    Top,
    /// To the end of a block, or of the heading.
    Between,
    /// To the first line of a block.
    Headed(BlockHead),
    /// Into a block, which has what was read of it.
    Inside(Block),
}
