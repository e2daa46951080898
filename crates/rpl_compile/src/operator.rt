//! Writes the lines of operators and words, of literals and names.
ghost use Rattle.std.specs.Prelude.{◌≡◌, ◌*ℤ◌, IfOk, OnOk, option_map, unsigned_abs};
ghost use Rattle.rpl_code.specs.declared.instruction.Instruction.TheVariants as I;
ghost use Rattle.rw_base.specs.Unit.{units, unit_in};
ghost use Rattle.rpl_tree.specs.Operators.{is_quantity};
ghost use Rattle.rpl_compile.specs.Operations as Operations;
ghost use Rattle.rpl_compile.specs.Seen.{kind_seen, written_of};
ghost use Rattle.rpl_compile.specs.Written as Written;

use crate::writing::{Writing, line};
use rpl_code::{Instruction, ValueKind};
use rpl_tree::{ConvertWord, OneWord, TwoWord};
use rw_base::{NoMemory, QUANTITY_MAX, unit_of};
use rw_model::Name;
use std::alloc::Global;
use std::str;

// ---- names and numbers

#[tactic(auto, using(crate::proofs::Texts::spelt_text, crate::proofs::Texts::spelt_none))]
/// Returns a name. What is no text is none that is asked for.
pub(crate) fn name_of(alloc: Global, word: &[u8]) -> Result<Name, NoMemory>
    ensures { IfOk result (λ name. name ≡ Written.spelt_name word.now) }
{
    match str::from_utf8(word) {
        Ok(text) => Ok(Name::of(String::from_str(alloc, text)?)),
        Err(_) => Ok(Name::of(String::new(alloc))),
    }
}

fn is_quantity(number: i64) -> bool
    ensures { result ≡ is_quantity number }
{
    -QUANTITY_MAX <= number && number <= QUANTITY_MAX
}

fn within(number: i64) -> i64
    ensures { result ≡ Written.within number }
{
    if is_quantity(number) { number } else { 0 }
}

/// Returns a quantity in base units. Any other number is none that is asked for.
fn in_units(number: i64, factor: i64) -> i64
    ensures { result ≡ Written.within (number *ℤ factor) }
{
    match number.checked_mul(factor) {
        Some(exact) => within(exact),
        None => 0,
    }
}

#[tactic(auto, using(rpl_types::proofs::Texts::no_unit))]
fn factor_named(word: &[u8]) -> i64
    ensures { result ≡ Operations.factor_of (unit_in units word.now) }
{
    let Ok(text) = str::from_utf8(word) else {
        return 1;
    };
    match unit_of(text) {
        Some((_, factor)) => factor,
        None => 1,
    }
}

/// Returns a number that is written, with the unit if there is one.
pub(crate) fn number_of(number: i64, unit: &Option<Vec<u8>>) -> i64
    ensures { result ≡ Written.number_in_units number (option_map (λ word. word.items) unit.now) }
{
    match unit {
        Some(word) => in_units(number, factor_named(word)),
        None => within(number),
    }
}

// ---- words

/// Returns the instruction of a word before an expression, but KNOWN.
pub(crate) fn one_line(word: OneWord) -> Instruction
    ensures { result ≡ Operations.one_line word }
{
    match word {
        OneWord::Not => Instruction::Not,
        OneWord::Minus => Instruction::Neg,
        OneWord::Known => Instruction::Known,
        OneWord::Length => Instruction::Length,
        OneWord::Month => Instruction::Month,
        OneWord::Day => Instruction::Day,
        OneWord::Year => Instruction::Year,
    }
}

pub(crate) fn convert_line(word: ConvertWord, object: Name) -> Instruction
    ensures { result ≡ Operations.convert_line word object }
{
    match word {
        ConvertWord::StorageToElevation => Instruction::ToElevation(object),
        ConvertWord::ElevationToStorage => Instruction::ToStorage(object),
    }
}

fn equal_line(kind: ValueKind) -> Instruction
    ensures { result ≡ Operations.test_line (kind_seen kind) I.Eq I.Deq }
{
    match kind {
        ValueKind::D => Instruction::Deq,
        _ => Instruction::Eq,
    }
}

fn less_line(kind: ValueKind) -> Instruction
    ensures { result ≡ Operations.test_line (kind_seen kind) I.Lt I.Dlt }
{
    match kind {
        ValueKind::D => Instruction::Dlt,
        _ => Instruction::Lt,
    }
}

fn less_equal_line(kind: ValueKind) -> Instruction
    ensures { result ≡ Operations.test_line (kind_seen kind) I.Le I.Dle }
{
    match kind {
        ValueKind::D => Instruction::Dle,
        _ => Instruction::Le,
    }
}

fn sum_line(kind: ValueKind) -> Instruction
    ensures { result ≡ Operations.sum_line (kind_seen kind) }
{
    match kind {
        ValueKind::D => Instruction::Shift,
        _ => Instruction::Add,
    }
}

fn difference_line(a: ValueKind, b: ValueKind) -> Instruction
    ensures { result ≡ Operations.difference_line (kind_seen a) (kind_seen b) }
{
    match (a, b) {
        (ValueKind::D, ValueKind::D) => Instruction::Between,
        (ValueKind::D, _) => Instruction::Back,
        _ => Instruction::Sub,
    }
}

// NOT of a test.
fn opposite(w: &mut Writing, test: Instruction) -> Result<(), NoMemory>
    ensures { OnOk result (written_of w.new
        ≡ Written.with_line I.Not (Written.with_line test (written_of w.old))) }
{
    line(w, test)?;
    line(w, Instruction::Not)
}

/// Writes a word between two expressions of these kinds, which are there. OR and AND are branches.
#[inline(always)]
pub(crate) fn two_lines(
    w: &mut Writing,
    word: TwoWord,
    a: ValueKind,
    b: ValueKind,
) -> Result<(), NoMemory>
    ensures { OnOk result (written_of w.new
        ≡ Written.written_with_two word (kind_seen a) (kind_seen b) (written_of w.old)) }
{
    match word {
        TwoWord::Or | TwoWord::And => Ok(()),
        TwoWord::Equal => line(w, equal_line(a)),
        TwoWord::Unequal => opposite(w, equal_line(a)),
        TwoWord::Less => line(w, less_line(a)),
        TwoWord::LessEqual => line(w, less_equal_line(a)),
        TwoWord::Greater => opposite(w, less_equal_line(a)),
        TwoWord::GreaterEqual => opposite(w, less_line(a)),
        TwoWord::Plus => line(w, sum_line(a)),
        TwoWord::Minus => line(w, difference_line(a, b)),
        TwoWord::Times => line(w, Instruction::Mul),
        TwoWord::Divide => line(w, Instruction::Div),
        TwoWord::Append => line(w, Instruction::Append),
        TwoWord::Item => line(w, Instruction::Item),
    }
}

/// Returns how many timesteps ahead. A number that a byte cannot hold is none that is asked for.
pub(crate) fn ahead_of(ahead: i64) -> u8
    ensures { result ≡ Written.byte (unsigned_abs ahead) }
{
    let steps = ahead.unsigned_abs();
    if steps < 256 { steps as u8 } else { 0 }
}
