//! Writes how a run ended: the first line of a section, and the words of a fault.
ghost use Rattle.std.specs.Prelude.{◌≡◌, ◌++◌, OnOk, string_bytes, codes};
ghost use Rattle.std.specs.Fmt.{decimal};
ghost use Rattle.rw_run.specs.declared.fault.RunFault.TheVariants as RunFault;
ghost use Rattle.rw_report.specs.Section.{end_words, fault_words, heading, place_words};

use crate::names::{object_words, push_slot};
use crate::numbers::push_count;
use rw_base::{NoMemory, ObjectNo, RuleNo, SlotNo, StepNo};
use rw_model::Basin;
use rw_run::{RunEnd, RunFault};
use std::fmt::Write;

// Appends what an object met, and where.
fn push_place(
    text: &mut String,
    basin: &Basin,
    what: &str,
    object: ObjectNo,
    slot: SlotNo,
    step: StepNo,
) -> Result<(), NoMemory>
    ensures { OnOk result
        (string_bytes text.new
        ≡ string_bytes text.old ++ place_words basin.now what.now object.0 slot.0 step.0) }
{
    let (object, step) = (object_words(basin, object), step.0);
    write!(text, "{what} object {object} slot ")?;
    push_slot(text, basin, slot)?;
    write!(text, " step {step}")?;
    Ok(())
}

fn push_conflict(
    text: &mut String,
    basin: &Basin,
    object: ObjectNo,
    slot: SlotNo,
    step: StepNo,
    held: i128,
    solved: i128,
) -> Result<(), NoMemory>
    ensures { OnOk result (string_bytes text.new
        ≡ string_bytes text.old
        ++ fault_words basin.now (RunFault.Conflict object slot step held solved)) }
{
    push_place(text, basin, "conflict", object, slot, step)?;
    write!(text, " held {held} solved {solved}")?;
    Ok(())
}

fn push_zero_divisor(
    text: &mut String,
    basin: &Basin,
    rule: RuleNo,
    step: StepNo,
) -> Result<(), NoMemory>
    ensures { OnOk result
        (string_bytes text.new
        ≡ string_bytes text.old ++ fault_words basin.now (RunFault.ZeroDivisor rule step)) }
{
    let (rule, step) = (rule.0, step.0);
    write!(text, "division by zero rule {rule} step {step}")?;
    Ok(())
}

fn push_object_value(
    text: &mut String,
    basin: &Basin,
    object: ObjectNo,
    slot: SlotNo,
    step: StepNo,
    value: i128,
) -> Result<(), NoMemory>
    ensures { OnOk result (string_bytes text.new
        ≡ string_bytes text.old
        ++ fault_words basin.now (RunFault.ObjectOutOfRange object slot step value)) }
{
    push_place(text, basin, "out of range", object, slot, step)?;
    write!(text, " value {value}")?;
    Ok(())
}

fn push_rule_value(
    text: &mut String,
    basin: &Basin,
    rule: RuleNo,
    step: StepNo,
    value: i128,
) -> Result<(), NoMemory>
    ensures { OnOk result (string_bytes text.new
        ≡ string_bytes text.old
        ++ fault_words basin.now (RunFault.RuleOutOfRange rule step value)) }
{
    let (rule, step) = (rule.0, step.0);
    write!(text, "out of range rule {rule} step {step} value {value}")?;
    Ok(())
}

fn push_object_limit(
    text: &mut String,
    basin: &Basin,
    object: ObjectNo,
    step: StepNo,
    count: u8,
) -> Result<(), NoMemory>
    ensures { OnOk result (string_bytes text.new
        ≡ string_bytes text.old ++ fault_words basin.now (RunFault.ObjectLimit object step count)) }
{
    let (object, step) = (object_words(basin, object), step.0);
    write!(text, "limit object {object} step {step} after {count}")?;
    Ok(())
}

fn push_rule_limit(
    text: &mut String,
    basin: &Basin,
    rule: RuleNo,
    step: StepNo,
    count: u8,
) -> Result<(), NoMemory>
    ensures { OnOk result (string_bytes text.new
        ≡ string_bytes text.old ++ fault_words basin.now (RunFault.RuleLimit rule step count)) }
{
    let (rule, step) = (rule.0, step.0);
    write!(text, "limit rule {rule} step {step} after {count}")?;
    Ok(())
}

/// Appends the words of a fault.
pub(crate) fn push_fault(text: &mut String, basin: &Basin, fault: RunFault) -> Result<(), NoMemory>
    ensures { OnOk result
        (string_bytes text.new ≡ string_bytes text.old ++ fault_words basin.now fault) }
{
    match fault {
        RunFault::Conflict {
            object,
            slot,
            step,
            held,
            solved,
        } => push_conflict(text, basin, object, slot, step, held, solved),
        RunFault::ZeroDivisor { rule, step } => push_zero_divisor(text, basin, rule, step),
        RunFault::ObjectOutOfRange {
            object,
            slot,
            step,
            value,
        } => push_object_value(text, basin, object, slot, step, value),
        RunFault::RuleOutOfRange { rule, step, value } => {
            push_rule_value(text, basin, rule, step, value)
        }
        RunFault::ObjectLimit {
            object,
            step,
            count,
        } => push_object_limit(text, basin, object, step, count),
        RunFault::RuleLimit { rule, step, count } => {
            push_rule_limit(text, basin, rule, step, count)
        }
    }
}

// Appends how the run ended.
fn push_end(text: &mut String, basin: &Basin, end: &RunEnd) -> Result<(), NoMemory>
    ensures { OnOk result
        (string_bytes text.new ≡ string_bytes text.old ++ end_words basin.now end.now) }
{
    match end {
        RunEnd::Settled => text.push_str("settled")?,
        RunEnd::Fault(fault) => {
            text.push_str("fault ")?;
            push_fault(text, basin, *fault)?;
        }
    }
    Ok(())
}

/// Appends the first line, which begins with this word and number.
pub(crate) fn push_headed(
    text: &mut String,
    basin: &Basin,
    word: &str,
    number: u32,
    end: &RunEnd,
) -> Result<(), NoMemory>
    ensures { OnOk result (string_bytes text.new ≡ string_bytes text.old
        ++ (word.now ++ (decimal number
        ++ (codes " " ++ (end_words basin.now end.now ++ codes "\n"))))) }
{
    text.push_str(word)?;
    push_count(text, u64::from(number))?;
    text.push_str(" ")?;
    push_end(text, basin, end)?;
    text.push_str("\n")?;
    Ok(())
}

/// Appends the first line of the section of a batch.
pub fn push_heading(
    text: &mut String,
    basin: &Basin,
    batch: u32,
    end: &RunEnd,
) -> Result<(), NoMemory>
    ensures { OnOk result
        (string_bytes text.new ≡ string_bytes text.old ++ heading basin.now batch end.now) }
{
    push_headed(text, basin, "# batch ", batch, end)
}
