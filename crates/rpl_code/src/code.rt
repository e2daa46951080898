//! Holds the code of a policy as a list of blocks.
ghost use Rattle.std.specs.Prelude.{◌≡◌};
ghost use Rattle.rpl_code.specs.Bounds.{IsCode};

use crate::Block;
use std::marker::Model;

/// The code of a policy, which contracts see as the list of its blocks. Each part of it can be spelt.
#[derive(Debug, Drop)]
pub struct Code {
    blocks: Vec<Block>,
}

impl Model for Code {
    ghost use Rattle.std.specs.Prelude.{List};
    ghost use Rattle.rpl_code.specs.declared.block.Block.{Block};
    ghost use Rattle.rpl_code.specs.Bounds.{IsCode};

    ghost Value = { List Block };

    ghost view = { λ code. code.blocks.items };

    ghost invariant = { λ code. IsCode code.blocks.items };
}

impl Code {
    /// Returns the code of these blocks, in their order. It takes no memory.
    pub fn of(blocks: Vec<Block>) -> Code
        requires { IsCode blocks.items }
        ensures { result ≡ blocks.items }
    {
        Code { blocks }
    }

    /// Returns the blocks, in their order. Each part of them can be spelt.
    pub fn blocks(&self) -> &[Block]
        ensures blocks { result.now ≡ self.now }
        ensures bounds { IsCode self.now }
    {
        self.blocks.as_slice()
    }
}
