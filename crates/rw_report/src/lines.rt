//! Writes the lines of a trace.
ghost use Rattle.std.specs.Prelude.{◌≡◌, ◌≤◌, ◌<◌, ◌+◌, ◌++◌, IsAscii, OnOk, Some, slice_get, string_bytes, codes, drop, length};
ghost use Rattle.std.specs.Fmt.{decimal};
ghost use Rattle.rw_run.specs.declared.trace.TraceEvent.TheVariants as TraceEvent;
ghost use Rattle.rw_run.specs.Trace.{lines_in};
ghost use Rattle.rw_report.specs.Section.{object_words, slot_words};
ghost use Rattle.rw_report.specs.Flags.{content_words};
ghost use Rattle.rw_report.specs.Lines.{ending_words, line_words, lines_words, trace_words, written_words};
ghost use Rattle.rw_report.specs.Pieces.{AreLineTexts, AreTexts, dispatch_line, object_line, slot_behind, slot_front};

use crate::flags::{push_content, write_content};
use crate::heading::push_fault;
use crate::names::{push_object, push_slot};
use crate::numbers::push_count;
use crate::pieces::{ROOM, push_piece, write_byte, write_count};
use crate::told::{LineTexts, line_texts, push_object_line, push_slot_behind, text_of};
use rw_base::{NoMemory, ObjectNo, RuleNo, SlotNo, StepNo};
use rw_model::{Basin, Content};
use rw_run::{RunFault, Trace, TraceEvent, Write};
use std::alloc::Global;

/// Returns the line of a trace in a place, counted from 0.
#[inline(always)]
pub fn line_at(trace: &Trace, place: usize) -> TraceEvent
    requires within { place < length (lines_in trace.now) }
    ensures { slice_get (lines_in trace.now) place ≡ Some result }
{
    match trace.line(place) {
        Some(line) => line,
        None => TraceEvent::Opened(StepNo(0)),
    }
}

// Appends a word and a number.
fn push_step(text: &mut String, word: &str, step: StepNo) -> Result<(), NoMemory>
    ensures { OnOk result (string_bytes text.new
        ≡ string_bytes text.old ++ (word.now ++ decimal step.0)) }
{
    text.push_str(word)?;
    push_count(text, u64::from(step.0))
}

/// Appends the word `rule` or another, and the number of a rule.
pub(crate) fn push_rule(text: &mut String, word: &str, rule: RuleNo) -> Result<(), NoMemory>
    ensures { OnOk result (string_bytes text.new
        ≡ string_bytes text.old ++ (word.now ++ decimal rule.0)) }
{
    text.push_str(word)?;
    push_count(text, u64::from(rule.0))
}

fn ending_words(done: bool) -> &'static str
    ensures { result.now ≡ ending_words done }
{
    if done { " done " } else { " unknown " }
}

fn push_firing(text: &mut String, rule: RuleNo, done: bool, count: u64) -> Result<(), NoMemory>
    ensures { OnOk result (string_bytes text.new ≡ string_bytes text.old
        ++ ((codes "fire " ++ decimal rule.0) ++ (ending_words done ++ decimal count))) }
{
    push_rule(text, "fire ", rule)?;
    text.push_str(ending_words(done))?;
    push_count(text, count)
}

// Appends a slot and a timestep.
fn push_cell(text: &mut String, basin: &Basin, slot: SlotNo, step: StepNo) -> Result<(), NoMemory>
    ensures { OnOk result (string_bytes text.new ≡ string_bytes text.old
        ++ (codes "  " ++ (slot_words basin.now slot.0 ++ (codes " " ++ decimal step.0)))) }
{
    text.push_str("  ")?;
    push_slot(text, basin, slot)?;
    push_step(text, " ", step)
}

fn push_written(
    text: &mut String,
    basin: &Basin,
    slot: SlotNo,
    step: StepNo,
    content: Content,
) -> Result<(), NoMemory>
    ensures { OnOk result (string_bytes text.new
        ≡ string_bytes text.old ++ written_words basin.now slot.0 step.0 content) }
{
    push_cell(text, basin, slot, step)?;
    text.push_str(" ")?;
    push_content(text, content)
}

fn push_end(text: &mut String, basin: &Basin, fault: RunFault) -> Result<(), NoMemory>
    ensures { OnOk result (string_bytes text.new
        ≡ string_bytes text.old ++ line_words basin.now (TraceEvent.Fault fault)) }
{
    text.push_str("fault ")?;
    push_fault(text, basin, fault)
}

/// Appends a line of a trace, without its end.
pub fn push_line(text: &mut String, basin: &Basin, line: TraceEvent) -> Result<(), NoMemory>
    ensures { OnOk result (string_bytes text.new
        ≡ string_bytes text.old ++ line_words basin.now line) }
{
    match line {
        TraceEvent::Opened(step) => push_step(text, "open ", step),
        TraceEvent::Idle(object) => push_object(text, basin, "idle ", object),
        TraceEvent::Solve(object) => push_object(text, basin, "solve ", object),
        TraceEvent::Fire { rule, done, count } => push_firing(text, rule, done, count),
        TraceEvent::Written {
            slot,
            step,
            content,
        } => push_written(text, basin, slot, step, content),
        TraceEvent::Closed(step) => push_step(text, "close ", step),
        TraceEvent::Fault(fault) => push_end(text, basin, fault),
    }
}

fn push_ended(text: &mut String, basin: &Basin, line: TraceEvent) -> Result<(), NoMemory>
    ensures { OnOk result (string_bytes text.new
        ≡ string_bytes text.old ++ (line_words basin.now line ++ codes "\n")) }
{
    push_line(text, basin, line)?;
    text.push_str("\n")?;
    Ok(())
}

// Appends the line of a word and an object, of which there may be a text.
fn push_listed(
    text: &mut String,
    basin: &Basin,
    texts: &[String],
    word: &str,
    object: ObjectNo,
) -> Result<(), NoMemory>
    requires { AreTexts (object_line basin.now word.now) texts.now }
    ensures { OnOk result (string_bytes text.new
        ≡ string_bytes text.old ++ object_line basin.now word.now object.0) }
{
    match text_of(texts, object.0) {
        Some(line) => {
            text.push_str(line)?;
            Ok(())
        }
        None => push_object_line(text, basin, word, object),
    }
}

/// Appends a slot between a text and a space; the text of the slot may be made already.
#[inline(always)]
pub(crate) fn push_front(
    text: &mut String,
    basin: &Basin,
    texts: &[String],
    front: &str,
    slot: SlotNo,
) -> Result<(), NoMemory>
    requires { AreTexts (slot_behind basin.now front.now) texts.now }
    ensures { OnOk result (string_bytes text.new
        ≡ string_bytes text.old ++ slot_behind basin.now front.now slot.0) }
{
    match text_of(texts, slot.0) {
        Some(slot_text) => {
            text.push_str(slot_text)?;
            Ok(())
        }
        None => push_slot_behind(text, basin, front, slot),
    }
}

// Writes how the line of a put ends, and answers where that begins.
#[inline(always)]
fn write_put(buffer: &mut [u8; ROOM], step: StepNo, content: Content) -> usize
    ensures start { result ≤ 672 }
    ensures ascii { IsAscii (drop result buffer.new) }
    ensures written { drop result buffer.new
        ≡ decimal step.0 ++ (codes " " ++ (content_words content ++ codes "\n")) }
{
    let end = write_byte(buffer, b'\n', ROOM);
    let held = write_content(buffer, content, end);
    let between = write_byte(buffer, b' ', held);
    write_count(buffer, step.0, between)
}

/// Appends how the line of a put ends, from its timestep on, written in the buffer first.
pub fn push_put(
    text: &mut String,
    buffer: &mut [u8; ROOM],
    step: StepNo,
    content: Content,
) -> Result<(), NoMemory>
    ensures { OnOk result (string_bytes text.new ≡ string_bytes text.old
        ++ (decimal step.0 ++ (codes " " ++ (content_words content ++ codes "\n")))) }
{
    let start = write_put(buffer, step, content);
    push_piece(text, buffer, start)?;
    Ok(())
}

/// Appends the line of a put.
#[inline(always)]
pub(crate) fn push_write(
    text: &mut String,
    buffer: &mut [u8; ROOM],
    basin: &Basin,
    texts: &[String],
    write: Write,
) -> Result<(), NoMemory>
    requires { AreTexts (slot_front basin.now) texts.now }
    ensures { OnOk result (string_bytes text.new ≡ string_bytes text.old
        ++ (written_words basin.now write.cell.slot.0 write.cell.step.0 write.content
        ++ codes "\n")) }
{
    push_front(text, basin, texts, "  ", write.cell.slot)?;
    push_put(text, buffer, write.cell.step, write.content)?;
    Ok(())
}

// Appends the line of a firing.
fn push_firing_line(text: &mut String, rule: RuleNo, done: bool, count: u64) -> Result<(), NoMemory>
    ensures { OnOk result (string_bytes text.new ≡ string_bytes text.old
        ++ (((codes "fire " ++ decimal rule.0) ++ (ending_words done ++ decimal count))
        ++ codes "\n")) }
{
    push_firing(text, rule, done, count)?;
    text.push_str("\n")?;
    Ok(())
}

// Appends the line of a dispatch, of one that put something or of another, by its text where there is one.
#[inline(always)]
fn push_dispatch(
    text: &mut String,
    basin: &Basin,
    texts: &LineTexts,
    object: ObjectNo,
    put: bool,
) -> Result<(), NoMemory>
    requires { AreLineTexts basin.now texts.now }
    ensures { OnOk result (string_bytes text.new ≡ string_bytes text.old
        ++ (line_words basin.now (dispatch_line object put) ++ codes "\n")) }
{
    if put {
        push_listed(text, basin, texts.solve.as_slice(), "solve ", object)
    } else {
        push_listed(text, basin, texts.idle.as_slice(), "idle ", object)
    }
}

/// Appends a line of a trace, by its text where one is made already.
#[inline(always)]
pub(crate) fn push_told(
    text: &mut String,
    basin: &Basin,
    texts: &LineTexts,
    line: TraceEvent,
) -> Result<(), NoMemory>
    requires { AreLineTexts basin.now texts.now }
    ensures { OnOk result (string_bytes text.new
        ≡ string_bytes text.old ++ (line_words basin.now line ++ codes "\n")) }
{
    match line {
        TraceEvent::Idle(object) => push_dispatch(text, basin, texts, object, false),
        TraceEvent::Solve(object) => push_dispatch(text, basin, texts, object, true),
        TraceEvent::Fire { rule, done, count } => push_firing_line(text, rule, done, count),
        _ => push_ended(text, basin, line),
    }
}

// Appends the line in a place, which isn't that of a put. Of the line of a dispatch no more is read than whose it is.
#[inline(always)]
fn push_unwritten(
    text: &mut String,
    basin: &Basin,
    texts: &LineTexts,
    trace: &Trace,
    place: usize,
) -> Result<(), NoMemory>
    requires within { place < length (lines_in trace.now) }
    requires texts { AreLineTexts basin.now texts.now }
    ensures { OnOk result (string_bytes text.new
        ++ lines_words basin.now (drop (place + 1) (lines_in trace.now))
        ≡ string_bytes text.old ++ lines_words basin.now (drop place (lines_in trace.now))) }
{
    match trace.dispatched(place) {
        Some((object, put)) => push_dispatch(text, basin, texts, object, put),
        None => push_told(text, basin, texts, line_at(trace, place)),
    }
}

// Appends the line in a place. Most lines are of puts, and of such a line no more than the put is read.
#[inline(always)]
fn push_at(
    text: &mut String,
    buffer: &mut [u8; ROOM],
    basin: &Basin,
    texts: &LineTexts,
    trace: &Trace,
    place: usize,
) -> Result<(), NoMemory>
    requires within { place < length (lines_in trace.now) }
    requires texts { AreLineTexts basin.now texts.now }
    ensures { OnOk result (string_bytes text.new
        ++ lines_words basin.now (drop (place + 1) (lines_in trace.now))
        ≡ string_bytes text.old ++ lines_words basin.now (drop place (lines_in trace.now))) }
{
    match trace.written(place) {
        Some(write) => push_write(text, buffer, basin, texts.written.as_slice(), write),
        None => push_unwritten(text, basin, texts, trace, place),
    }
}

fn push_lines(
    text: &mut String,
    basin: &Basin,
    texts: &LineTexts,
    trace: &Trace,
) -> Result<(), NoMemory>
    requires { AreLineTexts basin.now texts.now }
    ensures { OnOk result (string_bytes text.new
        ≡ string_bytes text.old ++ lines_words basin.now (lines_in trace.now)) }
{
    let mut buffer = [0; ROOM];
    for place in 0..trace.len() {
        push_at(text, &mut buffer, basin, texts, trace, place)?;
    }
    Ok(())
}

/// Appends the lines of a trace.
pub(crate) fn push_trace(
    alloc: Global,
    text: &mut String,
    basin: &Basin,
    trace: &Trace,
) -> Result<(), NoMemory>
    ensures { OnOk result (string_bytes text.new
        ≡ string_bytes text.old ++ trace_words basin.now (lines_in trace.now)) }
{
    let texts = line_texts(alloc, basin)?;
    text.push_str("# trace\n")?;
    push_lines(text, basin, &texts, trace)
}
