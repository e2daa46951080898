//! Writes the words of a line.
ghost use Rattle.std.specs.Prelude.{◌≡◌, ◌++◌, ◌∷◌, [], OnOk, string_bytes, map, option_map};
ghost use Rattle.std.specs.Fmt.{decimal, signed_decimal};
ghost use Rattle.rpl_code.specs.Spelling.{each_after, kind_text, kinds_text, slot_text, truth_text, word_alone, word_before, word_of, operands_of};

use crate::{Instruction, Kinds, OperandKinds, ValueKind};
use itoa::Buffer;
use rw_base::NoMemory;
use rw_model::Name;

// Appends a blank and a word.
fn push_word(text: &mut String, word: &str) -> Result<(), NoMemory>
    ensures { OnOk result (string_bytes text.new ≡ string_bytes text.old
        ++ each_after 32 (word.now ∷ [])) }
{
    text.push_str(" ")?;
    text.push_str(word)?;
    Ok(())
}

fn push_number(text: &mut String, number: u32) -> Result<(), NoMemory>
    ensures { OnOk result (string_bytes text.new ≡ string_bytes text.old
        ++ each_after 32 (decimal number ∷ [])) }
{
    let mut buffer = Buffer::new();
    push_word(text, buffer.format(number))
}

fn push_quantity(text: &mut String, value: i64) -> Result<(), NoMemory>
    ensures { OnOk result (string_bytes text.new ≡ string_bytes text.old
        ++ each_after 32 (signed_decimal value ∷ [])) }
{
    let mut buffer = Buffer::new();
    push_word(text, buffer.format(value))
}

fn push_truth(text: &mut String, truth: bool) -> Result<(), NoMemory>
    ensures { OnOk result (string_bytes text.new ≡ string_bytes text.old
        ++ each_after 32 (truth_text truth ∷ [])) }
{
    push_word(text, if truth { "true" } else { "false" })
}

fn push_name(text: &mut String, name: &Name) -> Result<(), NoMemory>
    ensures { OnOk result (string_bytes text.new ≡ string_bytes text.old
        ++ each_after 32 (name.now ∷ [])) }
{
    push_word(text, name.as_str())
}

fn push_slot(text: &mut String, object: &Name, slot: &Name) -> Result<(), NoMemory>
    ensures { OnOk result (string_bytes text.new ≡ string_bytes text.old
        ++ each_after 32 (slot_text object.now slot.now ∷ [])) }
{
    push_word(text, object.as_str())?;
    text.push_str(".")?;
    text.push_str(slot.as_str())?;
    Ok(())
}

fn push_put(text: &mut String, object: &Name, slot: &Name, ahead: u8) -> Result<(), NoMemory>
    ensures { OnOk result (string_bytes text.new
        ≡ string_bytes text.old
        ++ each_after 32 (slot_text object.now slot.now ∷ decimal ahead ∷ [])) }
{
    push_slot(text, object, slot)?;
    push_number(text, u32::from(ahead))
}

/// Appends a kind.
pub(crate) fn push_kind(text: &mut String, kind: ValueKind) -> Result<(), NoMemory>
    ensures { OnOk result (string_bytes text.new ≡ string_bytes text.old ++ kind_text kind) }
{
    match kind {
        ValueKind::N => push_str(text, "N"),
        ValueKind::B => push_str(text, "B"),
        ValueKind::D => push_str(text, "D"),
        ValueKind::S => push_str(text, "S"),
        ValueKind::NList(most) => push_list(text, "N*", most),
        ValueKind::SList(most) => push_list(text, "S*", most),
    }
}

fn push_str(text: &mut String, word: &str) -> Result<(), NoMemory>
    ensures { OnOk result (string_bytes text.new ≡ string_bytes text.old ++ word.now) }
{
    text.push_str(word)?;
    Ok(())
}

fn push_list(text: &mut String, letter: &str, most: u16) -> Result<(), NoMemory>
    ensures { OnOk result (string_bytes text.new ≡ string_bytes text.old
        ++ (letter.now ++ decimal most)) }
{
    let mut buffer = Buffer::new();
    text.push_str(letter)?;
    text.push_str(buffer.format(most))?;
    Ok(())
}

fn push_further_kinds(text: &mut String, kinds: &[ValueKind]) -> Result<(), NoMemory>
    ensures { OnOk result (string_bytes text.new ≡ string_bytes text.old
        ++ each_after 44 (map kind_text kinds.now)) }
{
    for kind in kinds {
        text.push_str(",")?;
        push_kind(text, *kind)?;
    }
    Ok(())
}

fn push_kinds(text: &mut String, kinds: &[ValueKind]) -> Result<(), NoMemory>
    ensures { OnOk result (string_bytes text.new ≡ string_bytes text.old ++ kinds_text kinds.now) }
{
    match kinds {
        [] => push_str(text, "-"),
        [first, others @ ..] => {
            push_kind(text, *first)?;
            push_further_kinds(text, others)
        }
    }
}

/// Appends a blank and the kinds, as one word.
pub(crate) fn push_kinds_word(text: &mut String, kinds: &Kinds) -> Result<(), NoMemory>
    ensures { OnOk result (string_bytes text.new ≡ string_bytes text.old
        ++ each_after 32 (kinds_text kinds.now ∷ [])) }
{
    text.push_str(" ")?;
    push_kinds(text, kinds.as_slice())
}

// Appends the kinds of operands.
fn push_operand_kinds(text: &mut String, kinds: &OperandKinds) -> Result<(), NoMemory>
    ensures { OnOk result (string_bytes text.new ≡ string_bytes text.old ++ kinds_text kinds.now) }
{
    match kinds.as_slice() {
        Some(kinds) => push_kinds(text, kinds),
        None => {
            let kinds = kinds.to_vec()?;
            push_kinds(text, kinds.as_slice())
        }
    }
}

// Appends a blank and the kinds of operands, as one word.
fn push_operands_word(text: &mut String, kinds: &OperandKinds) -> Result<(), NoMemory>
    ensures { OnOk result (string_bytes text.new ≡ string_bytes text.old
        ++ each_after 32 (kinds_text kinds.now ∷ [])) }
{
    text.push_str(" ")?;
    push_operand_kinds(text, kinds)
}

// The word of an instruction that stands alone.
fn word_alone(instruction: &Instruction) -> Option<&'static str>
    ensures { option_map (λ word. word.now) result ≡ word_alone instruction.now }
{
    let word = match instruction {
        Instruction::Now => "now",
        Instruction::Add => "add",
        Instruction::Sub => "sub",
        Instruction::Mul => "mul",
        Instruction::Div => "div",
        Instruction::Neg => "neg",
        Instruction::Shift => "shift",
        Instruction::Back => "back",
        Instruction::Between => "between",
        Instruction::Eq => "eq",
        Instruction::Lt => "lt",
        Instruction::Le => "le",
        Instruction::Deq => "deq",
        Instruction::Dlt => "dlt",
        Instruction::Dle => "dle",
        Instruction::Not => "not",
        Instruction::Read => "read",
        Instruction::Known => "known",
        Instruction::Month => "month",
        Instruction::Day => "day",
        Instruction::Year => "year",
        Instruction::Append => "append",
        Instruction::Item => "item",
        Instruction::Length => "length",
        Instruction::Next => "next",
        Instruction::Yield => "yield",
        _ => return None,
    };
    Some(word)
}

// The first word of an instruction that has others behind it.
fn word_before(instruction: &Instruction) -> &'static str
    ensures { result.now ≡ word_before instruction.now }
{
    match instruction {
        Instruction::Num(_) => "num",
        Instruction::Bool(_) => "bool",
        Instruction::Slot { .. } => "slot",
        Instruction::Load(_) => "load",
        Instruction::Store(_) => "store",
        Instruction::ToElevation(_) => "toelevation",
        Instruction::ToStorage(_) => "tostorage",
        Instruction::Call(_) => "call",
        Instruction::Invoke(_) => "invoke",
        Instruction::List(_) => "list",
        Instruction::Widen(_) => "widen",
        Instruction::Jump(_) => "jump",
        Instruction::Branch(_) => "branch",
        Instruction::Target(_) => "target",
        Instruction::Foreach(_) => "foreach",
        Instruction::Map(_) => "map",
        Instruction::Put { .. } => "put",
        _ => "",
    }
}

/// Returns the word with which an instruction begins.
pub(crate) fn word_of(instruction: &Instruction) -> &'static str
    ensures { result.now ≡ word_of instruction.now }
{
    match word_alone(instruction) {
        Some(word) => word,
        None => word_before(instruction),
    }
}

/// Appends the words after the first, each after a blank.
pub(crate) fn push_operands(text: &mut String, instruction: &Instruction) -> Result<(), NoMemory>
    ensures { OnOk result (string_bytes text.new ≡ string_bytes text.old
        ++ each_after 32 (operands_of instruction.now)) }
{
    match instruction {
        Instruction::Num(value) => push_quantity(text, *value),
        Instruction::Bool(truth) => push_truth(text, *truth),
        Instruction::Slot { object, slot } => push_slot(text, object, slot),
        Instruction::Load(number)
        | Instruction::Store(number)
        | Instruction::Invoke(number)
        | Instruction::Jump(number)
        | Instruction::Branch(number)
        | Instruction::Foreach(number)
        | Instruction::Map(number) => push_number(text, *number),
        Instruction::ToElevation(name) | Instruction::ToStorage(name) | Instruction::Call(name) =>
            push_name(text, name),
        Instruction::List(most) | Instruction::Widen(most) => push_number(text, u32::from(*most)),
        Instruction::Target(kinds) => push_operands_word(text, kinds),
        Instruction::Put {
            object,
            slot,
            ahead,
        } => push_put(text, object, slot, *ahead),
        _ => Ok(()),
    }
}
