//! Reads code from its text.
ghost use Rattle.std.specs.Prelude.{◌≡◌, ◌≤◌, ◌&&◌, [], List, None, false, Result, Err, length, IfOk, IfErr};
ghost use Rattle.rw_base.specs.declared.limits.TheConstants.{TEXT_MAX};
ghost use Rattle.std.specs.Str.{bytes_eq};
ghost use Rattle.rw_base.specs.Answers.{Answers, IsWhy};
ghost use Rattle.rpl_code.specs.declared.block.Block.{Block};
ghost use Rattle.rpl_code.specs.declared.fault.CodeFault.TheVariants as CodeFault;
ghost use Rattle.rpl_code.specs.declared.line_fault.LineFault.TheVariants as LineFault;
ghost use Rattle.rpl_code.specs.declared.progress.Progress.TheVariants as Progress;
ghost use Rattle.rpl_code.specs.Reading.{CodeRefusal, bad_line, inside, may_say, may_end, said_at, read};
ghost use Rattle.rpl_code.specs.Progress.{stage_of, Takes, TakesLine};
ghost use Rattle.rpl_code.specs.Answers.{code_refusal_of};

use crate::cut::cut;
use crate::line::said_in;
use crate::line_fault::LineFault;
use crate::progress::Progress;
use crate::said::Said;
use crate::{Block, Code, CodeFault, Lines};
use std::alloc::Global;

// Goes on inside a block.
fn take_inside(code: &mut Vec<Block>, mut block: Block, said: Said) -> Result<Progress, LineFault>
    ensures taken { IfOk result (Takes code.old.items (Progress.Inside block) said code.new.items) }
    ensures bad { IfErr result (λ fault. fault ≡ LineFault.Bad → may_say inside said ≡ false) }
{
    match said {
        Said::Instruction(instruction) => {
            block.lines.push(instruction)?;
            Ok(Progress::Inside(block))
        }
        Said::Ending => {
            code.push(block)?;
            Ok(Progress::Between)
        }
        _ => Err(LineFault::Bad),
    }
}

// Goes on by what a line says, if it may be said there.
fn take(
    alloc: Global,
    code: &mut Vec<Block>,
    progress: Progress,
    said: Said,
) -> Result<Progress, LineFault>
    ensures taken { IfOk result (Takes code.old.items progress said code.new.items) }
    ensures bad { IfErr result (λ fault. fault ≡ LineFault.Bad
        → may_say (stage_of progress) said ≡ false) }
{
    match progress {
        Progress::Top => match said {
            Said::Heading => Ok(Progress::Between),
            _ => Err(LineFault::Bad),
        },
        Progress::Between => match said {
            Said::Opening(head) => Ok(Progress::Headed(head)),
            _ => Err(LineFault::Bad),
        },
        Progress::Headed(head) => match said {
            Said::Locals(locals) => Ok(Progress::Inside(Block {
                head,
                locals,
                lines: Lines::of(Vec::new(alloc)),
            })),
            _ => Err(LineFault::Bad),
        },
        Progress::Inside(block) => take_inside(code, block, said),
    }
}

// Reads a line.
fn take_line(
    alloc: Global,
    code: &mut Vec<Block>,
    progress: Progress,
    line: &[u8],
) -> Result<Progress, LineFault>
    ensures taken { IfOk result (TakesLine code.old.items progress line.now code.new.items) }
    ensures bad { IfErr result (λ fault. fault ≡ LineFault.Bad
        → said_at (stage_of progress) line.now ≡ None) }
{
    let said = said_in(alloc, line)?;
    take(alloc, code, progress, said)
}

// What a fault of the line of this number says of the text.
fn fault_at(number: u32, fault: LineFault) -> CodeFault
    ensures { (reading : Result (List Block) CodeRefusal)
        → (fault ≡ LineFault.Bad → reading ≡ Err (bad_line number))
        → IsWhy CodeFault.NoMemory code_refusal_of reading result }
{
    match fault {
        LineFault::Bad => CodeFault::BadLine(number),
        LineFault::NoMemory => CodeFault::NoMemory,
    }
}

// Whether the text may end behind its last line feed, and ends there.
fn is_whole(progress: &Progress, left: &[u8]) -> bool
    ensures { result ≡ (may_end (stage_of progress.now) && bytes_eq left.now []) }
{
    matches!(progress, Progress::Between) && left.is_empty()
}

/// Reads a code from its text, of 16,777,216 bytes at most, as `docs/FORMATS.md` says under "Code". The time that it takes grows
/// as the text's length does.
///
/// `BadLine` names the first line, counted from 1, that ends with a line feed and is not allowed where it is. `Truncated` comes
/// where there is no such line, but the text ends before an `END` that is due, or its last line has no line feed. `NoMemory` says
/// nothing of the text.
pub fn read_code(alloc: Global, text: &[u8]) -> Result<Code, CodeFault>
    requires { length text.now ≤ TEXT_MAX }
    ensures { Answers CodeFault.NoMemory code_refusal_of (λ code. code) result (read text.now) }
{
    let mut code = Vec::new(alloc);
    let mut progress = Progress::Top;
    let mut number = 1u32;
    let mut left = text;
    while let Some((line, rest)) = cut(left, b'\n') {
        progress = match take_line(alloc, &mut code, progress, line) {
            Ok(next) => next,
            Err(fault) => return Err(fault_at(number, fault)),
        };
        number += 1;
        left = rest;
    }
    if is_whole(&progress, left) {
        Ok(Code::of(code))
    } else {
        Err(CodeFault::Truncated)
    }
}
