//! Writes the table of a section: the line of names, and a line for each closed timestep.
ghost use Rattle.std.specs.Prelude.{◌≡◌, ◌≤◌, ◌<◌, ◌+◌, ◌++◌, ℕ, List, IsAscii, OnOk, string_bytes, codes, drop, option_map, length};
ghost use Rattle.std.specs.Fmt.{decimal, signed_decimal};
ghost use Rattle.rw_calendar.specs.Stamps.{end_of_step, stamp_text};
ghost use Rattle.rw_model.specs.declared.content.Content.{Content};
ghost use Rattle.rw_series.specs.Series.{held};
ghost use Rattle.rw_report.specs.Section.{columns, for_each, for_slots, row, rows, slot_words, value_words, values_in};
ghost use Rattle.rw_report.specs.Pieces.{words_at};

use crate::names::push_slot;
use crate::numbers::push_count;
use crate::pieces::{ROOM, push_piece, write_number};
use rw_base::{NoMemory, SlotNo, StepNo};
use rw_model::{Basin, Content};
use rw_series::{Series, StepCells};
use std::alloc::Global;

// Appends a comma and the name of a slot.
fn push_name(text: &mut String, basin: &Basin, slot: SlotNo) -> Result<(), NoMemory>
    ensures { OnOk result
        (string_bytes text.new
        ≡ string_bytes text.old ++ (codes "," ++ slot_words basin.now slot.0)) }
{
    text.push_str(",")?;
    push_slot(text, basin, slot)
}

/// Appends a comma and the name of each slot.
pub(crate) fn push_names(text: &mut String, basin: &Basin) -> Result<(), NoMemory>
    ensures { OnOk result
        (string_bytes text.new
        ≡ string_bytes text.old
        ++ for_slots basin.now (λ slot. codes "," ++ slot_words basin.now slot)) }
{
    for before in 0..basin.slot_count() {
        push_name(text, basin, SlotNo(before + 1))?;
    }
    Ok(())
}

/// Appends the line of names.
pub(crate) fn push_columns(text: &mut String, basin: &Basin) -> Result<(), NoMemory>
    ensures { OnOk result (string_bytes text.new ≡ string_bytes text.old ++ columns basin.now) }
{
    text.push_str("step,stamp")?;
    push_names(text, basin)?;
    text.push_str("\n")?;
    Ok(())
}

// Of so many slots the values are written in one piece, each a comma and the text of a number of 64 bits.
const BLOCK: u16 = 32;

// Writes the value that a cell holds, which is nothing where it is unknown.
#[inline(always)]
fn write_content(buffer: &mut [u8; ROOM], content: Option<Content>, end: usize) -> usize
    requires room { (20 ≤ end) × (end ≤ 672) }
    ensures start { (result ≤ end) × (end ≤ result + 20) }
    ensures written { drop result buffer.new
        ≡ value_words (option_map (λ (content : Content). content.value) content)
        ++ drop end buffer.old }
    ensures ascii { IsAscii
        (value_words (option_map (λ (content : Content). content.value) content)) }
{
    match content {
        Some(content) => write_number(buffer, content.value.get(), end),
        None => end,
    }
}

// Writes a comma before it.
#[inline(always)]
fn write_value(buffer: &mut [u8; ROOM], content: Option<Content>, end: usize) -> usize
    requires room { (21 ≤ end) × (end ≤ 672) }
    ensures start { (result ≤ end) × (end ≤ result + 21) }
    ensures written { drop result buffer.new
        ≡ (codes "," ++ value_words (option_map (λ (content : Content). content.value) content))
        ++ drop end buffer.old }
    ensures ascii { IsAscii
        (codes "," ++ value_words (option_map (λ (content : Content). content.value) content)) }
{
    let start = write_content(buffer, content, end) - 1;
    buffer[start] = b',';
    start
}

// Writes the values of the slots behind the first ones and up to a last one, from the last to the first, and answers where
// they begin.
#[inline(always)]
pub(crate) fn write_block(
    buffer: &mut [u8; ROOM],
    cells: &StepCells,
    first: u16,
    last: u16,
) -> usize
    requires order { first ≤ last }
    requires few { last ≤ first + 32 }
    ensures start { result ≤ 672 }
    ensures ascii { IsAscii (drop result buffer.new) }
    ensures written { for_each (words_at (held cells.now)) first ++ drop result buffer.new
        ≡ for_each (words_at (held cells.now)) last }
{
    let mut at = ROOM;
    for done in 0..last - first {
        at = write_value(buffer, cells.get(SlotNo(last - done)), at);
    }
    at
}

// Appends them.
fn push_block(
    text: &mut String,
    buffer: &mut [u8; ROOM],
    cells: &StepCells,
    first: u16,
    last: u16,
) -> Result<(), NoMemory>
    requires order { first ≤ last }
    requires few { last ≤ first + 32 }
    ensures { (front : List ℕ)
        → string_bytes text.old ≡ front ++ for_each (words_at (held cells.now)) first
        → OnOk result (string_bytes text.new
        ≡ front ++ for_each (words_at (held cells.now)) last) }
{
    let at = write_block(buffer, cells, first, last);
    push_piece(text, buffer, at)?;
    Ok(())
}

/// Returns the last of the slots that are written in one piece after the first ones.
pub(crate) fn last_of_block(first: u16, count: u16) -> u16
    requires { first < count }
    ensures more { first < result }
    ensures few { result ≤ first + 32 }
    ensures within { result ≤ count }
{
    if count - first < BLOCK {
        count
    } else {
        first + BLOCK
    }
}

// Appends the value that each of these cells holds.
fn push_cells(text: &mut String, cells: &StepCells, count: u16) -> Result<(), NoMemory>
    ensures { OnOk result (string_bytes text.new
        ≡ string_bytes text.old ++ for_each (words_at (held cells.now)) count) }
{
    let mut buffer = [0; ROOM];
    let mut first = 0;
    while first < count {
        let last = last_of_block(first, count);
        push_block(text, &mut buffer, cells, first, last)?;
        first = last;
    }
    Ok(())
}

// Appends a comma and the value of each slot at a timestep.
fn push_values(
    text: &mut String,
    basin: &Basin,
    series: &Series,
    step: StepNo,
) -> Result<(), NoMemory>
    ensures { OnOk result (string_bytes text.new ≡ string_bytes text.old
        ++ for_slots basin.now
        (λ slot. codes "," ++ value_words (values_in (held series.now) slot step.0))) }
{
    push_cells(text, &series.at_step(step), basin.slot_count())
}

// Appends the number of a timestep, a comma and a stamp.
fn push_stamped(text: &mut String, step: u16, stamp: &str) -> Result<(), NoMemory>
    ensures { OnOk result (string_bytes text.new
        ≡ string_bytes text.old ++ (decimal step ++ (codes "," ++ stamp.now))) }
{
    push_count(text, u64::from(step))?;
    text.push_str(",")?;
    text.push_str(stamp)?;
    Ok(())
}

// Appends the number of a timestep, a comma and its stamp.
pub(crate) fn push_stamp(
    alloc: Global,
    text: &mut String,
    basin: &Basin,
    step: u16,
) -> Result<(), NoMemory>
    requires first { 1 ≤ step }
    requires last { step ≤ basin.now.control.stamps.count }
    ensures { OnOk result (string_bytes text.new ≡ string_bytes text.old
        ++ (decimal step
        ++ (codes "," ++ stamp_text (end_of_step basin.now.control.stamps step)))) }
{
    let stamp = basin.control().stamps.text(alloc, step)?;
    push_stamped(text, step, stamp.as_str())?;
    Ok(())
}

/// Appends the line of a timestep.
pub(crate) fn push_row(
    alloc: Global,
    text: &mut String,
    basin: &Basin,
    series: &Series,
    step: u16,
) -> Result<(), NoMemory>
    requires first { 1 ≤ step }
    requires last { step ≤ basin.now.control.stamps.count }
    ensures { OnOk result
        (string_bytes text.new
        ≡ string_bytes text.old ++ row basin.now (values_in (held series.now)) step) }
{
    push_stamp(alloc, text, basin, step)?;
    push_values(text, basin, series, StepNo(step))?;
    text.push_str("\n")?;
    Ok(())
}

/// Appends the lines of the first `closed` timesteps to a text that has the first `first` ones already.
pub(crate) fn push_rows(
    alloc: Global,
    text: &mut String,
    basin: &Basin,
    series: &Series,
    first: u16,
    closed: u16,
) -> Result<(), NoMemory>
    requires first { first ≤ closed }
    requires closed { closed ≤ basin.now.control.stamps.count }
    ensures { (front back : List ℕ) → front ++ string_bytes text.old
        ≡ back ++ rows basin.now (values_in (held series.now)) first
        → OnOk result (front ++ string_bytes text.new
        ≡ back ++ rows basin.now (values_in (held series.now)) closed) }
{
    for before in first..closed {
        push_row(alloc, text, basin, series, before + 1)?;
    }
    Ok(())
}
