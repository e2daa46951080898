//! Writes the lines on what became of puts.
ghost use Rattle.std.specs.Prelude.{◌≡◌, ◌<◌, ◌+◌, ◌++◌, OnOk, codes, drop, length, string_bytes};
ghost use Rattle.std.specs.Fmt.{decimal};
ghost use Rattle.rw_model.specs.Draft.{IsSlot};
ghost use Rattle.rw_series.specs.Series.{held};
ghost use Rattle.rw_asked.specs.Asked.{AreToSlots, fate_of, fates_alone, fates_of, lines_of_asks, put_lines};
ghost use Rattle.rw_asked.specs.Words.{asked_lines_words, word_line};
ghost use Rattle.rw_run.specs.RunOf.{line_of};
ghost use Rattle.rw_report.specs.Flags.{content_words};
ghost use Rattle.rw_report.specs.Lines.{line_words};
ghost use Rattle.rw_report.specs.Section.{slot_words};

use crate::fate::{Fate, fate_alone, fate_of};
use rw_base::{Cell, NoMemory, SlotNo, StepNo};
use rw_model::Content;
use rw_report::{ROOM, Teller, push_content_by, push_count, push_put};
use rw_run::Write;
use rw_series::Series;

// Appends how a line begins: a word, and a slot between two spaces.
fn push_front(
    text: &mut String,
    teller: &Teller<'_>,
    word: &str,
    slot: SlotNo,
) -> Result<(), NoMemory>
    ensures { OnOk result (string_bytes text.new ≡ string_bytes text.old
        ++ (codes "  " ++ (word.now
        ++ (codes " " ++ (slot_words teller.now slot.0 ++ codes " "))))) }
{
    text.push_str("  ")?;
    text.push_str(word)?;
    teller.push_slot(text, slot)
}

// Appends the line of a word, a cell and a content.
fn push_word_line(
    text: &mut String,
    buffer: &mut [u8; ROOM],
    teller: &Teller<'_>,
    word: &str,
    cell: Cell,
    content: Content,
) -> Result<(), NoMemory>
    ensures { OnOk result (string_bytes text.new ≡ string_bytes text.old
        ++ (word_line teller.now word.now cell content ++ codes "\n")) }
{
    push_front(text, teller, word, cell.slot)?;
    push_put(text, buffer, cell.step, content)?;
    Ok(())
}

// Appends a timestep and a content.
fn push_asked(
    text: &mut String,
    buffer: &mut [u8; ROOM],
    step: StepNo,
    content: Content,
) -> Result<(), NoMemory>
    ensures { OnOk result (string_bytes text.new ≡ string_bytes text.old
        ++ (decimal step.0 ++ (codes " " ++ content_words content))) }
{
    push_count(text, u64::from(step.0))?;
    text.push_str(" ")?;
    push_content_by(text, buffer, content)
}

// Appends what a cell held, and ends the line.
fn push_held(text: &mut String, buffer: &mut [u8; ROOM], held: Content) -> Result<(), NoMemory>
    ensures { OnOk result (string_bytes text.new
        ≡ string_bytes text.old ++ (codes " held " ++ (content_words held ++ codes "\n"))) }
{
    text.push_str(" held ")?;
    push_content_by(text, buffer, held)?;
    text.push_str("\n")?;
    Ok(())
}

// Appends the line of a put in whose place this was held.
fn push_stopped(
    text: &mut String,
    buffer: &mut [u8; ROOM],
    teller: &Teller<'_>,
    word: &str,
    put: &Write,
    held: Content,
) -> Result<(), NoMemory>
    ensures { OnOk result (string_bytes text.new ≡ string_bytes text.old
        ++ ((word_line teller.now word.now put.now.cell put.now.content
        ++ (codes " held " ++ content_words held)) ++ codes "\n")) }
{
    push_front(text, teller, word, put.cell.slot)?;
    push_asked(text, buffer, put.cell.step, put.content)?;
    push_held(text, buffer, held)?;
    Ok(())
}

// Appends the line of a put that was written over another value, and what it took the place of.
fn push_over(
    text: &mut String,
    buffer: &mut [u8; ROOM],
    teller: &Teller<'_>,
    put: &Write,
    held: Content,
) -> Result<(), NoMemory>
    ensures { OnOk result (string_bytes text.new ≡ string_bytes text.old
        ++ ((line_words teller.now (line_of put.now) ++ codes "\n")
        ++ (word_line teller.now (codes "over") put.now.cell held ++ codes "\n"))) }
{
    teller.push_write(text, buffer, *put)?;
    push_word_line(text, buffer, teller, "over", put.cell, held)
}

// Appends the lines of a put of which this became.
#[inline(always)]
fn push_put_lines(
    text: &mut String,
    buffer: &mut [u8; ROOM],
    teller: &Teller<'_>,
    put: &Write,
    fate: &Fate,
) -> Result<(), NoMemory>
    ensures { OnOk result (string_bytes text.new ≡ string_bytes text.old
        ++ asked_lines_words teller.now (put_lines put.now fate.now)) }
{
    match fate {
        Fate::Written => teller.push_write(text, buffer, *put),
        Fate::Over(held) => push_over(text, buffer, teller, put, *held),
        Fate::Kept(held) => push_stopped(text, buffer, teller, "kept", put, *held),
        Fate::Denied(held) => push_stopped(text, buffer, teller, "denied", put, *held),
        Fate::Again => push_word_line(text, buffer, teller, "again", put.cell, put.content),
        Fate::Late => push_word_line(text, buffer, teller, "late", put.cell, put.content),
    }
}

/// Appends the lines of the puts of a dispatch, by what the cells hold before it. The end of each is written in the buffer first.
/// The one error is want of memory.
pub fn push_dispatched(
    text: &mut String,
    buffer: &mut [u8; ROOM],
    teller: &Teller<'_>,
    series: &Series,
    puts: &[Write],
) -> Result<(), NoMemory>
    ensures { OnOk result (string_bytes text.new ≡ string_bytes text.old
        ++ asked_lines_words teller.now (lines_of_asks (fates_alone (held series.now) puts.now))) }
{
    for place in 0..puts.len() {
        let put = &puts[place];
        let fate = fate_alone(series, put);
        push_put_lines(text, buffer, teller, put, &fate)?;
    }
    Ok(())
}

// Those behind a place.
fn behind(puts: &[Write], place: usize) -> &[Write]
    requires { place < length puts.now }
    ensures { result.now ≡ drop (place + 1) puts.now }
{
    &puts[place + 1..]
}

// What becomes of a put of a firing, in the basin of the lines.
#[inline(always)]
fn fate_told(teller: &Teller<'_>, series: &Series, put: &Write, later: &[Write]) -> Fate
    requires { IsSlot teller.now.objects put.now.cell.slot.0 }
    ensures { result ≡ fate_of teller.now (held series.now) put.now later.now }
{
    fate_of(teller.basin(), series, put, later)
}

/// Appends the lines of the puts of a firing, which are to slots of the basin, by what the cells hold before it. The end of each is
/// written in the buffer first. The one error is want of memory.
pub fn push_fired(
    text: &mut String,
    buffer: &mut [u8; ROOM],
    teller: &Teller<'_>,
    series: &Series,
    puts: &[Write],
) -> Result<(), NoMemory>
    requires { AreToSlots teller.now puts.now }
    ensures { OnOk result (string_bytes text.new ≡ string_bytes text.old
        ++ asked_lines_words teller.now
        (lines_of_asks (fates_of teller.now (held series.now) puts.now))) }
{
    for place in 0..puts.len() {
        let put = &puts[place];
        let fate = fate_told(teller, series, put, behind(puts, place));
        push_put_lines(text, buffer, teller, put, &fate)?;
    }
    Ok(())
}
