//! Keeps the lines of a table, each with the values that it shows, and writes only those anew of which a value changed.
ghost use Rattle.std.specs.Prelude.{◌≡◌, ◌≤◌, ◌<◌, ◌+◌, ◌-◌, ◌++◌, ℕ, List, OnOk, string_bytes, length, true, vec_len};
ghost use Rattle.std.specs.List.{All};
ghost use Rattle.rw_model.specs.Objects.{all_slots};
ghost use Rattle.rw_run.specs.Log.{Cells};
ghost use Rattle.rw_series.specs.Series.{held};
ghost use Rattle.rw_report.specs.Kept.{AreKeptLines, IsTold, TellFirst, TellsKeptLine, first_texts};
ghost use Rattle.rw_report.specs.Section.{row, rows, values_in};
ghost use Rattle.rw_report.specs.Sheet.{values_listed};

use crate::table::push_row;
use crate::value::KeptValue;
use rw_base::{NoMemory, SlotNo, StepNo};
use rw_model::Basin;
use rw_series::Series;
use std::alloc::Global;

/// A line of a table, with the values that it shows.
#[derive(Drop)]
pub(crate) struct KeptLine {
    /// The timestep of the line, which is 0 while it is made.
    pub(crate) step: u16,
    /// The values of all slots at that timestep.
    pub(crate) values: Vec<KeptValue>,
    /// Its text.
    pub(crate) text: String,
}

/// How many of the first lines stay as they are, and how many are kept.
#[derive(Clone, Copy, Drop)]
pub(crate) struct Extent {
    /// The first lines, which show what they showed.
    pub(crate) first: u16,
    /// The lines that are kept, these among them.
    pub(crate) kept: u16,
}

// A line that tells of no timestep yet.
fn blank(alloc: Global) -> KeptLine
    ensures { result.step ≡ 0 }
{
    KeptLine {
        step: 0,
        values: Vec::new(alloc),
        text: String::new(alloc),
    }
}

// Whether the slots have these values at a timestep.
fn are_alike(values: &[KeptValue], basin: &Basin, series: &Series, step: StepNo) -> bool
    requires { length values.now ≡ length (all_slots basin.now.objects) }
    ensures { result ≡ true
        → values.now ≡ values_listed (λ slot. values_in (held series.now) slot step.0)
        (length (all_slots basin.now.objects)) }
{
    let cells = series.at_step(step);
    let count = basin.slot_count();
    if cells.slot_count() < usize::from(count) {
        return false;
    }
    for before in 0..count {
        if !values[usize::from(before)].is_in(cells.content(SlotNo(before + 1))) {
            return false;
        }
    }
    true
}

// Puts what the slots have at a timestep in the place of the values.
fn list(
    values: &mut Vec<KeptValue>,
    basin: &Basin,
    series: &Series,
    step: StepNo,
) -> Result<(), NoMemory>
    ensures { OnOk result (values.new.items
        ≡ values_listed (λ slot. values_in (held series.now) slot step.0)
        (length (all_slots basin.now.objects))) }
{
    let cells = series.at_step(step);
    values.clear();
    for before in 0..basin.slot_count() {
        values.push(KeptValue::of(cells.get(SlotNo(before + 1))))?;
    }
    Ok(())
}

// Whether the line is that of the timestep.
fn is_current(line: &KeptLine, basin: &Basin, series: &Series, step: u16) -> bool
    requires told { IsTold basin.now line.now }
    requires first { 1 ≤ step }
    ensures row { result ≡ true → string_bytes line.now.text
        ≡ row basin.now (values_in (held series.now)) step }
    ensures tells { result ≡ true → TellsKeptLine basin.now (held series.now) step line.now }
{
    if line.step != step || line.values.len() != usize::from(basin.slot_count()) {
        return false;
    }
    are_alike(line.values.as_slice(), basin, series, StepNo(step))
}

// Makes the line that of the timestep, whatever it was.
fn tell_anew(
    alloc: Global,
    line: &mut KeptLine,
    basin: &Basin,
    series: &Series,
    step: u16,
) -> Result<(), NoMemory>
    requires first { 1 ≤ step }
    requires last { step ≤ basin.now.control.stamps.count }
    ensures told { IsTold basin.now line.new }
    ensures row { OnOk result (string_bytes line.new.text
        ≡ row basin.now (values_in (held series.now)) step) }
    ensures tells { OnOk result (TellsKeptLine basin.now (held series.now) step line.new) }
{
    line.step = 0;
    line.text.clear();
    list(&mut line.values, basin, series, StepNo(step))?;
    push_row(alloc, &mut line.text, basin, series, step)?;
    line.step = step;
    Ok(())
}

// Makes the line that of the timestep, which takes no time where it is.
fn tell_line(
    alloc: Global,
    line: &mut KeptLine,
    basin: &Basin,
    series: &Series,
    step: u16,
) -> Result<(), NoMemory>
    requires before { IsTold basin.now line.old }
    requires first { 1 ≤ step }
    requires last { step ≤ basin.now.control.stamps.count }
    ensures told { IsTold basin.now line.new }
    ensures row { OnOk result (string_bytes line.new.text
        ≡ row basin.now (values_in (held series.now)) step) }
    ensures tells { OnOk result (TellsKeptLine basin.now (held series.now) step line.new) }
{
    if is_current(line, basin, series, step) {
        Ok(())
    } else {
        tell_anew(alloc, line, basin, series, step)
    }
}

// Sees to it that there is a line more than so many, where there are so many.
fn make_room(
    alloc: Global,
    basin: &Basin,
    lines: &mut Vec<KeptLine>,
    before: u16,
) -> Result<(), NoMemory>
    requires lines { All (IsTold basin.now) lines.old.items }
    requires next { before ≤ vec_len lines.old }
    ensures told { All (IsTold basin.now) lines.new.items }
    ensures room { OnOk result (before < vec_len lines.new) }
    ensures tells { (cells : Cells) → OnOk result (TellFirst basin.now cells before lines.old.items
        → TellFirst basin.now cells before lines.new.items) }
{
    if usize::from(before) < lines.len() {
        return Ok(());
    }
    lines.push(blank(alloc))?;
    Ok(())
}

// Appends the line of a timestep.
fn push_line(
    alloc: Global,
    text: &mut Vec<u8>,
    lines: &mut Vec<KeptLine>,
    basin: &Basin,
    series: &Series,
    step: u16,
) -> Result<(), NoMemory>
    requires lines { All (IsTold basin.now) lines.old.items }
    requires room { step ≤ vec_len lines.old }
    requires first { 1 ≤ step }
    requires last { step ≤ basin.now.control.stamps.count }
    ensures told { All (IsTold basin.now) lines.new.items }
    ensures room { vec_len lines.new ≡ vec_len lines.old }
    ensures row { OnOk result (text.new.items
        ≡ text.old.items ++ row basin.now (values_in (held series.now)) step) }
    ensures tells { OnOk result (TellFirst basin.now (held series.now) (step - 1) lines.old.items
        → TellFirst basin.now (held series.now) step lines.new.items) }
{
    let place = usize::from(step - 1);
    tell_line(alloc, &mut lines[place], basin, series, step)?;
    text.extend_from_slice(lines[place].text.as_bytes())?;
    Ok(())
}

/// Counts the first lines that show what is held, of `most` at most, where the first ones are known to.
pub(crate) fn count_current(
    lines: &[KeptLine],
    basin: &Basin,
    series: &Series,
    first: u16,
    most: u16,
) -> u16
    requires told { All (IsTold basin.now) lines.now }
    requires there { most ≤ length lines.now }
    requires first { first ≤ most }
    requires same { TellFirst basin.now (held series.now) first lines.now }
    ensures most { result ≤ most }
    ensures same { TellFirst basin.now (held series.now) result lines.now }
{
    for before in first..most {
        if !is_current(&lines[usize::from(before)], basin, series, before + 1) {
            return before;
        }
    }
    most
}

// Leaves out the text of the last line.
fn cut_last(text: &mut Vec<u8>, line: &KeptLine)
    requires { length (string_bytes line.now.text) ≤ length text.old.items }
    ensures { (front : List ℕ) → text.old.items ≡ front ++ string_bytes line.now.text
        → text.new.items ≡ front }
{
    let rest = text.len() - line.text.as_bytes().len();
    text.truncate(rest);
}

/// Keeps, of the texts of lines, those of the first ones.
pub(crate) fn cut(text: &mut Vec<u8>, lines: &[KeptLine], first: u16, told: u16)
    requires told { told ≤ length lines.now }
    requires text { text.old.items ≡ first_texts told lines.now }
    requires first { first ≤ told }
    ensures { text.new.items ≡ first_texts first lines.now }
{
    let mut left = told;
    while first < left {
        left -= 1;
        cut_last(text, &lines[usize::from(left)]);
    }
}

/// Appends the lines after the first ones, of these timesteps, and keeps them. Those alone are written anew of which a value is
/// not as it was.
pub(crate) fn push_kept(
    alloc: Global,
    text: &mut Vec<u8>,
    lines: &mut Vec<KeptLine>,
    basin: &Basin,
    series: &Series,
    extent: Extent,
) -> Result<(), NoMemory>
    requires kept { extent.kept ≤ basin.now.control.stamps.count }
    requires lines { AreKeptLines basin.now (held series.now) extent.first lines.old.items }
    requires text { text.old.items ≡ first_texts extent.first lines.old.items }
    requires first { extent.first ≤ extent.kept }
    ensures told { All (IsTold basin.now) lines.new.items }
    ensures lines { OnOk result
        (AreKeptLines basin.now (held series.now) extent.kept lines.new.items) }
    ensures rows { OnOk result (text.new.items
        ≡ rows basin.now (values_in (held series.now)) extent.kept) }
{
    for before in extent.first..extent.kept {
        make_room(alloc, basin, lines, before)?;
        push_line(alloc, text, lines, basin, series, before + 1)?;
    }
    Ok(())
}
