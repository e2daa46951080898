//! Writes how a cell came to what it holds: the text of `why`.
ghost use Rattle.std.specs.Prelude.{◌≡◌, ◌++◌, IfOk, OnOk, string_bytes, codes, if◌then◌else◌, []};
ghost use Rattle.std.specs.Fmt.{decimal, signed_decimal};
ghost use Rattle.rw_model.specs.Draft.{IsSlot};
ghost use Rattle.rw_series.specs.Series.{held, is_shared};
ghost use Rattle.rw_inputs.specs.Inputs.{kept_slot};
ghost use Rattle.rw_run.specs.Trace.{lines_in};
ghost use Rattle.rw_report.specs.Flags.{content_words};
ghost use Rattle.rw_report.specs.Outcome.{outcome_of};
ghost use Rattle.rw_report.specs.Why.{given_to, holds_words, open_after, put_told, put_words, puts_told, source_words, why_of, writer_words};

use crate::flags::push_content;
use crate::lines::{line_at, push_rule};
use crate::names::push_object;
use crate::numbers::{push_count, push_number};
use rw_base::{Cell, NoMemory, Qty, SlotNo, StepNo};
use rw_inputs::Inputs;
use rw_model::{Basin, Content, Writer};
use rw_run::{Run, Trace, TraceEvent};
use rw_series::is_shared;
use std::alloc::Global;

fn push_writer(text: &mut String, basin: &Basin, writer: Writer) -> Result<(), NoMemory>
    ensures { OnOk result (string_bytes text.new
        ≡ string_bytes text.old ++ writer_words basin.now writer) }
{
    match writer {
        Writer::Input => text.push_str("input")?,
        Writer::Rule(rule) => push_rule(text, "rule ", rule)?,
        Writer::Object(object) => push_object(text, basin, "object ", object)?,
    }
    Ok(())
}

// Appends the timestep in which a put was written, and who wrote it.
fn push_writing(
    text: &mut String,
    basin: &Basin,
    step: StepNo,
    writer: Writer,
) -> Result<(), NoMemory>
    ensures { OnOk result (string_bytes text.new ≡ string_bytes text.old
        ++ (codes "step " ++ (decimal step.0 ++ (codes " " ++ writer_words basin.now writer)))) }
{
    text.push_str("step ")?;
    push_count(text, u64::from(step.0))?;
    text.push_str(" ")?;
    push_writer(text, basin, writer)
}

// Appends the line of a put that was written in a timestep.
fn push_put(
    text: &mut String,
    basin: &Basin,
    step: StepNo,
    content: Content,
) -> Result<(), NoMemory>
    ensures { OnOk result (string_bytes text.new
        ≡ string_bytes text.old ++ put_words basin.now step.0 content) }
{
    push_writing(text, basin, step, content.writer)?;
    text.push_str(" ")?;
    push_content(text, content)?;
    text.push_str("\n")?;
    Ok(())
}

// Appends the line of a put to another cell, where that shares its value with this one.
fn push_shared(
    text: &mut String,
    basin: &Basin,
    c: Cell,
    step: StepNo,
    other: Cell,
    content: Content,
) -> Result<(), NoMemory>
    requires slot { IsSlot basin.now.objects c.slot.0 }
    ensures { OnOk result (string_bytes text.new ≡ string_bytes text.old
        ++ (if is_shared basin.now c other then put_words basin.now step.0 content else [])) }
{
    if is_shared(basin, c, other) {
        push_put(text, basin, step, content)
    } else {
        Ok(())
    }
}

// Appends what a line of the trace tells of the cell.
fn push_told(
    text: &mut String,
    basin: &Basin,
    c: Cell,
    step: StepNo,
    line: &TraceEvent,
) -> Result<(), NoMemory>
    requires slot { IsSlot basin.now.objects c.slot.0 }
    ensures { OnOk result (string_bytes text.new
        ≡ string_bytes text.old ++ put_told basin.now c step.0 line.now) }
{
    match line {
        TraceEvent::Written {
            slot,
            step: at,
            content,
        } => {
            let other = Cell {
                slot: *slot,
                step: *at,
            };
            push_shared(text, basin, c, step, other, *content)
        }
        _ => Ok(()),
    }
}

// The timestep that is open behind a line of the trace.
fn open_after(step: StepNo, line: &TraceEvent) -> StepNo
    ensures { result.0 ≡ open_after step.0 line.now }
{
    match line {
        TraceEvent::Opened(opened) => *opened,
        _ => step,
    }
}

// Appends all that the trace tells of the cell.
fn push_puts(text: &mut String, basin: &Basin, c: Cell, trace: &Trace) -> Result<(), NoMemory>
    requires slot { IsSlot basin.now.objects c.slot.0 }
    ensures { OnOk result (string_bytes text.new
        ≡ string_bytes text.old ++ puts_told basin.now c 0 (lines_in trace.now)) }
{
    let mut step = StepNo(0);
    for place in 0..trace.len() {
        let line = line_at(trace, place);
        push_told(text, basin, c, step, &line)?;
        step = open_after(step, &line);
    }
    Ok(())
}

// The least of the slots that carry one value with the slot.
fn kept_slot(basin: &Basin, slot: SlotNo) -> SlotNo
    requires { IsSlot basin.now.objects slot.0 }
    ensures { result.0 ≡ kept_slot basin.now slot.0 }
{
    match basin.group(slot).first() {
        Some(least) => *least,
        None => slot,
    }
}

// What the inputs give to a cell.
fn given_to(basin: &Basin, inputs: &Inputs, c: Cell) -> Option<Qty>
    requires slot { IsSlot basin.now.objects c.slot.0 }
    ensures { result ≡ given_to basin.now inputs.now c }
{
    inputs.value(Cell {
        slot: kept_slot(basin, c.slot),
        step: c.step,
    })
}

fn push_source(
    text: &mut String,
    basin: &Basin,
    c: Cell,
    trace: &Trace,
    given: Option<Qty>,
) -> Result<(), NoMemory>
    requires slot { IsSlot basin.now.objects c.slot.0 }
    ensures { OnOk result (string_bytes text.new
        ≡ string_bytes text.old ++ source_words basin.now c (lines_in trace.now) given) }
{
    match given {
        Some(value) => push_given(text, value),
        None => push_puts(text, basin, c, trace),
    }
}

fn push_given(text: &mut String, value: Qty) -> Result<(), NoMemory>
    ensures { OnOk result (string_bytes text.new
        ≡ string_bytes text.old ++ (codes "given " ++ (signed_decimal value ++ codes "\n"))) }
{
    text.push_str("given ")?;
    push_number(text, value.get())?;
    text.push_str("\n")?;
    Ok(())
}

fn push_known(text: &mut String, content: Content) -> Result<(), NoMemory>
    ensures { OnOk result (string_bytes text.new
        ≡ string_bytes text.old ++ (codes "holds " ++ (content_words content ++ codes "\n"))) }
{
    text.push_str("holds ")?;
    push_content(text, content)?;
    text.push_str("\n")?;
    Ok(())
}

// Appends what a cell holds.
fn push_holds(text: &mut String, content: Option<Content>) -> Result<(), NoMemory>
    ensures { OnOk result (string_bytes text.new ≡ string_bytes text.old ++ holds_words content) }
{
    match content {
        Some(content) => push_known(text, content)?,
        None => text.push_str("holds unknown\n")?,
    }
    Ok(())
}

/// Returns how a cell came to what it holds in the run of these inputs: a line `given` where they give its value, else a line for
/// each put that was written to it or to a cell that shares its value with it, in order, with the timestep and who wrote it; and
/// a last line on what it holds at the end. Values are in the base units of the slot's dimension. A trace that was not kept has
/// no put. The one error is want of memory. `docs/FORMATS.md` has the lines under "Why".
pub fn why(
    alloc: Global,
    basin: &Basin,
    run: &Run,
    inputs: &Inputs,
    c: Cell,
) -> Result<Vec<u8>, NoMemory>
    requires slot { IsSlot basin.now.objects c.slot.0 }
    ensures text { IfOk result (λ text. text.items
        ≡ why_of basin.now inputs.now (outcome_of run.now) c) }
{
    let mut text = String::new(alloc);
    push_source(&mut text, basin, c, &run.trace, given_to(basin, inputs, c))?;
    push_holds(&mut text, run.series.get(c))?;
    Ok(text.into_bytes())
}
