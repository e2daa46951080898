//! Writes flags: who wrote each value, and its priority.
ghost use Rattle.std.specs.Prelude.{◌≡◌, ◌≤◌, ◌<◌, ◌+◌, ◌∷◌, ◌++◌, [], ℕ, List, IsAscii, OnOk, string_bytes, codes, drop};
ghost use Rattle.rw_series.specs.Series.{held};
ghost use Rattle.rw_run.specs.Dispatch.{cell_at};
ghost use Rattle.rw_report.specs.Section.{for_each, for_slots, slot_words};
ghost use Rattle.rw_report.specs.Flags.{content_words, flag_columns, flag_row, flag_table, flag_words, held_flag, letter_of};
ghost use Rattle.rw_report.specs.Pieces.{flag_at};

use crate::numbers::push_count;
use crate::pieces::{ROOM, push_piece, write_byte, write_count, write_number};
use crate::table::{last_of_block, push_names};
use rw_base::{NoMemory, SlotNo, StepNo};
use rw_model::{Basin, Content, Writer};
use rw_series::{Series, StepCells};

fn letter_of(writer: Writer) -> u8
    ensures letter { result ∷ [] ≡ letter_of writer }
    ensures ascii { result < 128 }
{
    match writer {
        Writer::Input => b'I',
        Writer::Rule(_) => b'R',
        Writer::Object(_) => b'O',
    }
}

// Writes the flag of a content so that it ends where it is said, and answers where it begins.
#[inline(always)]
fn write_flag(buffer: &mut [u8; ROOM], content: Content, end: usize) -> usize
    requires room { (6 ≤ end) × (end ≤ 672) }
    ensures start { (result ≤ end) × (end ≤ result + 6) }
    ensures written { drop result buffer.new ≡ flag_words content ++ drop end buffer.old }
    ensures ascii { IsAscii (flag_words content) }
{
    let start = write_count(buffer, content.number, end);
    write_byte(buffer, letter_of(content.writer), start)
}

/// Writes the value and the flag of a content so that they end at `end`, and returns where they begin.
#[inline(always)]
pub(crate) fn write_content(buffer: &mut [u8; ROOM], content: Content, end: usize) -> usize
    requires room { (27 ≤ end) × (end ≤ 672) }
    ensures start { (result ≤ end) × (end ≤ result + 27) }
    ensures written { drop result buffer.new ≡ content_words content ++ drop end buffer.old }
    ensures ascii { IsAscii (content_words content) }
{
    let value = content.value.get();
    let flag = write_flag(buffer, content, end);
    let between = write_byte(buffer, b' ', flag);
    write_number(buffer, value, between)
}

/// Appends the value and the flag of a content, written in the buffer first.
pub fn push_content_by(
    text: &mut String,
    buffer: &mut [u8; ROOM],
    content: Content,
) -> Result<(), NoMemory>
    ensures { OnOk result (string_bytes text.new ≡ string_bytes text.old ++ content_words content) }
{
    let start = write_content(buffer, content, ROOM);
    push_piece(text, buffer, start)?;
    Ok(())
}

/// Appends the value and the flag of a content, with a buffer of its own.
pub(crate) fn push_content(text: &mut String, content: Content) -> Result<(), NoMemory>
    ensures { OnOk result (string_bytes text.new ≡ string_bytes text.old ++ content_words content) }
{
    let mut buffer = [0; ROOM];
    push_content_by(text, &mut buffer, content)
}

// Writes the flag of what a cell holds, which is nothing where it is unknown.
#[inline(always)]
fn write_held(buffer: &mut [u8; ROOM], content: Option<Content>, end: usize) -> usize
    requires room { (6 ≤ end) × (end ≤ 672) }
    ensures start { (result ≤ end) × (end ≤ result + 6) }
    ensures written { drop result buffer.new ≡ held_flag content ++ drop end buffer.old }
    ensures ascii { IsAscii (held_flag content) }
{
    match content {
        Some(content) => write_flag(buffer, content, end),
        None => end,
    }
}

// Writes a comma before it.
#[inline(always)]
fn write_next(buffer: &mut [u8; ROOM], content: Option<Content>, end: usize) -> usize
    requires room { (7 ≤ end) × (end ≤ 672) }
    ensures start { (result ≤ end) × (end ≤ result + 7) }
    ensures written { drop result buffer.new
        ≡ (codes "," ++ held_flag content) ++ drop end buffer.old }
    ensures ascii { IsAscii (codes "," ++ held_flag content) }
{
    let start = write_held(buffer, content, end);
    write_byte(buffer, b',', start)
}

// Writes the flags of the slots behind the first ones and up to a last one, from the last to the first, and answers where
// they begin.
#[inline(always)]
fn write_block(buffer: &mut [u8; ROOM], cells: &StepCells, first: u16, last: u16) -> usize
    requires order { first ≤ last }
    requires few { last ≤ first + 32 }
    ensures start { result ≤ 672 }
    ensures ascii { IsAscii (drop result buffer.new) }
    ensures written { for_each (flag_at (held cells.now)) first ++ drop result buffer.new
        ≡ for_each (flag_at (held cells.now)) last }
{
    let mut at = ROOM;
    for done in 0..last - first {
        at = write_next(buffer, cells.get(SlotNo(last - done)), at);
    }
    at
}

// Appends them.
fn push_block(
    text: &mut String,
    buffer: &mut [u8; ROOM],
    cells: &StepCells,
    first: u16,
    last: u16,
) -> Result<(), NoMemory>
    requires order { first ≤ last }
    requires few { last ≤ first + 32 }
    ensures { (front : List ℕ)
        → string_bytes text.old ≡ front ++ for_each (flag_at (held cells.now)) first
        → OnOk result (string_bytes text.new
        ≡ front ++ for_each (flag_at (held cells.now)) last) }
{
    let at = write_block(buffer, cells, first, last);
    push_piece(text, buffer, at)?;
    Ok(())
}

// Appends a comma and the flag of each of these cells.
fn push_cells(text: &mut String, cells: &StepCells, count: u16) -> Result<(), NoMemory>
    ensures { OnOk result (string_bytes text.new
        ≡ string_bytes text.old ++ for_each (flag_at (held cells.now)) count) }
{
    let mut buffer = [0; ROOM];
    let mut first = 0;
    while first < count {
        let last = last_of_block(first, count);
        push_block(text, &mut buffer, cells, first, last)?;
        first = last;
    }
    Ok(())
}

// Appends a comma and the flag of each slot at a timestep.
fn push_slots(
    text: &mut String,
    basin: &Basin,
    series: &Series,
    step: StepNo,
) -> Result<(), NoMemory>
    ensures { OnOk result (string_bytes text.new ≡ string_bytes text.old
        ++ for_slots basin.now
        (λ slot. codes "," ++ held_flag (held series.now (cell_at slot step.0)))) }
{
    push_cells(text, &series.at_step(step), basin.slot_count())
}

// Appends the line of a timestep.
fn push_row(text: &mut String, basin: &Basin, series: &Series, step: u16) -> Result<(), NoMemory>
    ensures { OnOk result (string_bytes text.new
        ≡ string_bytes text.old ++ flag_row basin.now (held series.now) step) }
{
    push_count(text, u64::from(step))?;
    push_slots(text, basin, series, StepNo(step))?;
    text.push_str("\n")?;
    Ok(())
}

// Appends the lines of the first timesteps, so many of them.
fn push_rows(text: &mut String, basin: &Basin, series: &Series, closed: u16) -> Result<(), NoMemory>
    ensures { OnOk result (string_bytes text.new
        ≡ string_bytes text.old ++ for_each (flag_row basin.now (held series.now)) closed) }
{
    for before in 0..closed {
        push_row(text, basin, series, before + 1)?;
    }
    Ok(())
}

fn push_columns(text: &mut String, basin: &Basin) -> Result<(), NoMemory>
    ensures { OnOk result (string_bytes text.new
        ≡ string_bytes text.old ++ flag_columns basin.now) }
{
    text.push_str("step")?;
    push_names(text, basin)?;
    text.push_str("\n")?;
    Ok(())
}

/// Appends the flags of the first `closed` timesteps.
pub(crate) fn push_flags(
    text: &mut String,
    basin: &Basin,
    series: &Series,
    closed: u16,
) -> Result<(), NoMemory>
    ensures { OnOk result (string_bytes text.new
        ≡ string_bytes text.old ++ flag_table basin.now (held series.now) closed) }
{
    text.push_str("# flags\n")?;
    push_columns(text, basin)?;
    push_rows(text, basin, series, closed)
}
