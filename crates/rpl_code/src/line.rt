//! Reads what a line says.
ghost use Rattle.std.specs.Prelude.{◌≡◌, ◌∷◌, codes, option_and_then};
ghost use Rattle.std.specs.Str.{bytes_eq};
ghost use Rattle.rpl_code.specs.declared.said.Said.TheVariants as Said;
ghost use Rattle.rpl_code.specs.Parting.{parted};
ghost use Rattle.rpl_code.specs.Words.{if_so, entry_at, truth_in};
ghost use Rattle.rpl_code.specs.Reading.{alone, with_one, with_two, function_line, put_line, said_by};
ghost use Rattle.rpl_code.specs.Answers.{Says};

use crate::cut::cut;
use crate::kind_words::{kind_in, kinds_in};
use crate::line_fault::LineFault;
use crate::names::{name_in, slot_in};
use crate::numbers::{ahead_in, count_in, length_in, quantity_in};
use crate::said::Said;
use crate::{BlockHead, Instruction, OperandKinds};
use std::alloc::Global;

fn truth_in(word: &[u8]) -> Result<bool, LineFault>
    ensures { Says (truth_in word.now) result }
{
    if word == b"true".as_slice() {
        Ok(true)
    } else if word == b"false".as_slice() {
        Ok(false)
    } else {
        Err(LineFault::Bad)
    }
}

// What the word says alone.
fn said_alone(word: &str) -> Result<Said, LineFault>
    ensures { Says (entry_at alone word.now) result }
{
    let instruction = match word {
        "RULE" => return Ok(Said::Opening(BlockHead::Rule)),
        "END" => return Ok(Said::Ending),
        "now" => Instruction::Now,
        "add" => Instruction::Add,
        "sub" => Instruction::Sub,
        "mul" => Instruction::Mul,
        "div" => Instruction::Div,
        "neg" => Instruction::Neg,
        "shift" => Instruction::Shift,
        "back" => Instruction::Back,
        "between" => Instruction::Between,
        "eq" => Instruction::Eq,
        "lt" => Instruction::Lt,
        "le" => Instruction::Le,
        "deq" => Instruction::Deq,
        "dlt" => Instruction::Dlt,
        "dle" => Instruction::Dle,
        "not" => Instruction::Not,
        "read" => Instruction::Read,
        "known" => Instruction::Known,
        "month" => Instruction::Month,
        "day" => Instruction::Day,
        "year" => Instruction::Year,
        "append" => Instruction::Append,
        "item" => Instruction::Item,
        "length" => Instruction::Length,
        "next" => Instruction::Next,
        "yield" => Instruction::Yield,
        _ => return Err(LineFault::Bad),
    };
    Ok(Said::Instruction(instruction))
}

// Whether the word behind `CODE` is that of this form of code.
fn heading(word: &[u8]) -> Result<Said, LineFault>
    ensures { Says (if_so (bytes_eq word.now (codes "1")) Said.Heading) result }
{
    if word == b"1".as_slice() {
        Ok(Said::Heading)
    } else {
        Err(LineFault::Bad)
    }
}

// What the word says with another behind it.
fn said_with_one(alloc: Global, word: &str, one: &[u8]) -> Result<Said, LineFault>
    ensures { Says (option_and_then (λ says. says one.now) (entry_at with_one word.now)) result }
{
    let instruction = match word {
        "CODE" => return heading(one),
        "LOCALS" => return Ok(Said::Locals(kinds_in(alloc, one)?)),
        "num" => Instruction::Num(quantity_in(one)?),
        "bool" => Instruction::Bool(truth_in(one)?),
        "slot" => {
            let (object, slot) = slot_in(alloc, one)?;
            Instruction::Slot { object, slot }
        }
        "load" => Instruction::Load(count_in(one)?),
        "store" => Instruction::Store(count_in(one)?),
        "toelevation" => Instruction::ToElevation(name_in(alloc, one)?),
        "tostorage" => Instruction::ToStorage(name_in(alloc, one)?),
        "call" => Instruction::Call(name_in(alloc, one)?),
        "invoke" => Instruction::Invoke(count_in(one)?),
        "list" => Instruction::List(length_in(one)?),
        "widen" => Instruction::Widen(length_in(one)?),
        "jump" => Instruction::Jump(count_in(one)?),
        "branch" => Instruction::Branch(count_in(one)?),
        "target" => Instruction::Target(OperandKinds::of(kinds_in(alloc, one)?)),
        "foreach" => Instruction::Foreach(count_in(one)?),
        "map" => Instruction::Map(count_in(one)?),
        _ => return Err(LineFault::Bad),
    };
    Ok(Said::Instruction(instruction))
}

fn function_of(alloc: Global, kind: &[u8], parameters: &[u8]) -> Result<Said, LineFault>
    ensures { Says (function_line kind.now parameters.now) result }
{
    let kind = kind_in(kind)?;
    let parameters = kinds_in(alloc, parameters)?;
    Ok(Said::Opening(BlockHead::Function {
        result: kind,
        parameters,
    }))
}

fn put_of(alloc: Global, slot: &[u8], ahead: &[u8]) -> Result<Said, LineFault>
    ensures { Says (put_line slot.now ahead.now) result }
{
    let (object, slot) = slot_in(alloc, slot)?;
    let ahead = ahead_in(ahead)?;
    Ok(Said::Instruction(Instruction::Put {
        object,
        slot,
        ahead,
    }))
}

// What the word says with two others behind it.
fn said_with_two(alloc: Global, word: &str, one: &[u8], two: &[u8]) -> Result<Said, LineFault>
    ensures { Says (option_and_then (λ says. says one.now two.now) (entry_at with_two word.now))
        result }
{
    match word {
        "FUNCTION" => function_of(alloc, one, two),
        "put" => put_of(alloc, one, two),
        _ => Err(LineFault::Bad),
    }
}

// What the word says with the others behind it.
fn said_with(alloc: Global, word: &str, others: &[u8]) -> Result<Said, LineFault>
    ensures { Says (said_by (word.now ∷ parted 32 others.now)) result }
{
    match cut(others, b' ') {
        None => said_with_one(alloc, word, others),
        Some((one, two)) => match cut(two, b' ') {
            None => said_with_two(alloc, word, one, two),
            Some(_) => Err(LineFault::Bad),
        },
    }
}

/// Reads what a line says.
pub(crate) fn said_in(alloc: Global, line: &[u8]) -> Result<Said, LineFault>
    ensures { Says (said_by (parted 32 line.now)) result }
{
    match cut(line, b' ') {
        None => match str::from_utf8(line) {
            Ok(word) => said_alone(word),
            Err(_) => Err(LineFault::Bad),
        },
        Some((word, others)) => match str::from_utf8(word) {
            Ok(word) => said_with(alloc, word, others),
            Err(_) => Err(LineFault::Bad),
        },
    }
}
