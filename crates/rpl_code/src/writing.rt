//! Writes the text of code, line by line.
ghost use Rattle.std.specs.Prelude.{◌≡◌, ◌++◌, ◌∷◌, [], OnOk, IfOk, codes, string_bytes, map, flat_map};
ghost use Rattle.rpl_code.specs.Bounds.{IsCode};
ghost use Rattle.rpl_code.specs.Spelling.{instruction_line, head_line, locals_line, block_lines, lines_ended, spelt};

use crate::spelling::{push_kind, push_kinds_word, push_operands, word_of};
use crate::{Block, BlockHead, Code, Instruction, Kinds};
use rw_base::NoMemory;
use std::alloc::Global;

fn push_instruction(text: &mut String, instruction: &Instruction) -> Result<(), NoMemory>
    ensures { OnOk result (string_bytes text.new ≡ string_bytes text.old
        ++ lines_ended (instruction_line instruction.now ∷ [])) }
{
    text.push_str(word_of(instruction))?;
    push_operands(text, instruction)?;
    text.push_str("\n")?;
    Ok(())
}

fn push_instructions(text: &mut String, lines: &[Instruction]) -> Result<(), NoMemory>
    ensures { OnOk result (string_bytes text.new ≡ string_bytes text.old
        ++ lines_ended (map instruction_line lines.now)) }
{
    for instruction in lines {
        push_instruction(text, instruction)?;
    }
    Ok(())
}

fn push_head(text: &mut String, head: &BlockHead) -> Result<(), NoMemory>
    ensures { OnOk result (string_bytes text.new ≡ string_bytes text.old ++ head_line head.now) }
{
    match head {
        BlockHead::Rule => {
            text.push_str("RULE")?;
            Ok(())
        }
        BlockHead::Function { result, parameters } => {
            text.push_str("FUNCTION ")?;
            push_kind(text, *result)?;
            push_kinds_word(text, parameters)
        }
    }
}

fn push_locals(text: &mut String, locals: &Kinds) -> Result<(), NoMemory>
    ensures { OnOk result (string_bytes text.new ≡ string_bytes text.old
        ++ locals_line locals.now) }
{
    text.push_str("LOCALS")?;
    push_kinds_word(text, locals)
}

/// Appends the lines of a block: its head, its locals, its instructions and its end.
pub fn push_block(text: &mut String, block: &Block) -> Result<(), NoMemory>
    ensures { OnOk result (string_bytes text.new ≡ string_bytes text.old
        ++ lines_ended (block_lines block.now)) }
{
    push_head(text, &block.head)?;
    text.push_str("\n")?;
    push_locals(text, &block.locals)?;
    text.push_str("\n")?;
    push_instructions(text, block.lines.as_slice())?;
    text.push_str("END\n")?;
    Ok(())
}

fn push_blocks(text: &mut String, blocks: &[Block]) -> Result<(), NoMemory>
    ensures { OnOk result (string_bytes text.new ≡ string_bytes text.old
        ++ lines_ended (flat_map block_lines blocks.now)) }
{
    for block in blocks {
        push_block(text, block)?;
    }
    Ok(())
}

/// Returns the line before all blocks.
pub fn begin_code(alloc: Global) -> Result<String, NoMemory>
    ensures { IfOk result (λ text. string_bytes text ≡ lines_ended (codes "CODE 1" ∷ [])) }
{
    Ok(String::from_str(alloc, "CODE 1\n")?)
}

/// Returns the text of a code, as `docs/FORMATS.md` says under "Code": a line for each head, for the locals, for each instruction
/// and for each end, and `CODE 1` before all. The one error is want of memory.
pub fn write_code(alloc: Global, code: &Code) -> Result<Vec<u8>, NoMemory>
    ensures { IfOk result (λ text. text.items ≡ spelt code.now) }
{
    let mut text = begin_code(alloc)?;
    push_blocks(&mut text, code.blocks())?;
    Ok(text.into_bytes())
}
