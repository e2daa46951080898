//! Holds the instructions of a block.
ghost use Rattle.std.specs.Prelude.{◌≡◌, ◌++◌, [], ◌∷◌, OnOk};

use crate::Instruction;
use rw_base::NoMemory;
use std::marker::Model;

/// The instructions of a block, which contracts see as a list. Places count from 0.
#[derive(Debug, Drop)]
pub struct Lines {
    items: Vec<Instruction>,
}

impl Model for Lines {
    ghost use Rattle.std.specs.Prelude.{List};
    ghost use Rattle.rpl_code.specs.declared.instruction.Instruction.{Instruction};

    ghost Value = { List Instruction };

    ghost view = { λ lines. lines.items.items };
}

impl Lines {
    /// Returns these instructions, in their order.
    pub fn of(items: Vec<Instruction>) -> Lines
        ensures { result ≡ items.items }
    {
        Lines { items }
    }

    /// Returns the instructions, in their order.
    pub fn as_slice(&self) -> &[Instruction]
        ensures { result.now ≡ self.now }
    {
        self.items.as_slice()
    }

    /// Appends one instruction. The one error is want of memory.
    pub(crate) fn push(&mut self, instruction: Instruction) -> Result<(), NoMemory>
        ensures { OnOk result (self.new ≡ self.old ++ instruction ∷ []) }
    {
        self.items.push(instruction)?;
        Ok(())
    }
}
