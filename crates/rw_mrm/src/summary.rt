//! Writes the summary of a tally.
ghost use Rattle.std.specs.Prelude.{◌≡◌, ◌<◌, ◌≤◌, ◌*◌, ◌++◌, OnOk, Some, string_bytes};
ghost use Rattle.rw_report.specs.Section.{for_each};
ghost use Rattle.rw_mrm.specs.Summary as specs;
ghost use Rattle.rw_mrm.specs.Summary.{values_in_tally};

use crate::statistics::{greatest, least, median};
use crate::tally::Tally;
use crate::text::{push_counted, push_value};
use rw_base::{NoMemory, SlotNo};
use rw_model::Basin;
use rw_report::{push_count, push_slot};
use std::alloc::Global;

// Adds a value, if it is there.
fn take(found: &mut Vec<i64>, value: Option<i64>) -> Result<(), NoMemory>
    ensures { OnOk result
        (found.new.items ≡ found.old.items ++ specs.known_one (Some value)) }
{
    match value {
        Some(number) => {
            found.push(number)?;
            Ok(())
        }
        None => Ok(()),
    }
}

// Puts the values that stand in a place of the tables in the place of those found.
fn gather(found: &mut Vec<i64>, tally: &Tally, place: usize) -> Result<(), NoMemory>
    requires { place < tally.now.slots * tally.now.steps }
    ensures { OnOk result (found.new.items
        ≡ specs.known_in tally.now.values (tally.now.slots * tally.now.steps) place
        tally.now.settled) }
{
    found.clear();
    for before in 0..tally.settled() {
        take(found, tally.value(before, place))?;
    }
    Ok(())
}

// Where a cell stands in a table.
fn place_in_table(steps: u16, slot: u16, step: u16) -> usize
    requires slot { 1 ≤ slot }
    requires step { 1 ≤ step }
    ensures { result ≡ specs.place_in_table steps slot step }
{
    usize::from(slot - 1) * usize::from(steps) + usize::from(step - 1)
}

// Appends how many values there are, the least, the median and the greatest.
fn push_statistics(text: &mut String, values: &mut [i64]) -> Result<(), NoMemory>
    ensures { OnOk result
        (string_bytes text.new ≡ string_bytes text.old ++ specs.statistics values.old) }
{
    let (low, high) = (least(values), greatest(values));
    push_count(text, values.len() as u64)?;
    push_value(text, low)?;
    push_value(text, median(values))?;
    push_value(text, high)?;
    text.push_str("\n")?;
    Ok(())
}

// Appends the line of a cell that has these values.
fn push_line(
    text: &mut String,
    basin: &Basin,
    slot: u16,
    step: u16,
    values: &mut [i64],
) -> Result<(), NoMemory>
    ensures { OnOk result (string_bytes text.new
        ≡ string_bytes text.old ++ specs.cell_line basin.now slot step values.old) }
{
    push_slot(text, basin, SlotNo(slot))?;
    push_counted(text, ",", u64::from(step))?;
    text.push_str(",")?;
    push_statistics(text, values)
}

// Appends the line of a cell.
fn push_cell(
    text: &mut String,
    found: &mut Vec<i64>,
    basin: &Basin,
    tally: &Tally,
    slot: u16,
    step: u16,
) -> Result<(), NoMemory>
    requires slot { (1 ≤ slot) × (slot ≤ tally.now.slots) }
    requires step { (1 ≤ step) × (step ≤ tally.now.steps) }
    ensures { OnOk result (string_bytes text.new ≡ string_bytes text.old
        ++ specs.cell_line basin.now slot step (values_in_tally tally.now slot step)) }
{
    gather(found, tally, place_in_table(tally.steps(), slot, step))?;
    push_line(text, basin, slot, step, found.as_mut_slice())
}

// Appends the lines of the cells of a slot.
fn push_steps(
    text: &mut String,
    found: &mut Vec<i64>,
    basin: &Basin,
    tally: &Tally,
    slot: u16,
) -> Result<(), NoMemory>
    requires slot { (1 ≤ slot) × (slot ≤ tally.now.slots) }
    ensures { OnOk result (string_bytes text.new ≡ string_bytes text.old
        ++ for_each (λ step. specs.cell_line basin.now slot step
        (values_in_tally tally.now slot step)) tally.now.steps) }
{
    for before in 0..tally.steps() {
        push_cell(text, found, basin, tally, slot, before + 1)?;
    }
    Ok(())
}

// Appends the lines of all cells.
fn push_slots(
    text: &mut String,
    found: &mut Vec<i64>,
    basin: &Basin,
    tally: &Tally,
) -> Result<(), NoMemory>
    ensures { OnOk result (string_bytes text.new ≡ string_bytes text.old
        ++ specs.cell_lines basin.now tally.now.slots tally.now.steps (values_in_tally tally.now)) }
{
    for before in 0..tally.slots() {
        push_steps(text, found, basin, tally, before + 1)?;
    }
    Ok(())
}

// Appends how many of how many runs settled.
fn push_heading(text: &mut String, settled: u8, runs: u8) -> Result<(), NoMemory>
    ensures { OnOk result
        (string_bytes text.new ≡ string_bytes text.old ++ specs.summary_heading settled runs) }
{
    push_counted(text, "# summary ", u64::from(settled))?;
    push_counted(text, " of ", u64::from(runs))?;
    text.push_str("\n")?;
    Ok(())
}

// Appends the names of the columns.
fn push_columns(text: &mut String) -> Result<(), NoMemory>
    ensures { OnOk result (string_bytes text.new ≡ string_bytes text.old ++ specs.summary_columns) }
{
    text.push_str("slot,step,known,min,median,max\n")?;
    Ok(())
}

/// Appends the summary.
pub(crate) fn push_summary(
    alloc: Global,
    text: &mut String,
    basin: &Basin,
    tally: &Tally,
) -> Result<(), NoMemory>
    ensures { OnOk result (string_bytes text.new
        ≡ string_bytes text.old ++ specs.summary_by basin.now tally.now) }
{
    push_heading(text, tally.settled(), tally.runs())?;
    push_columns(text)?;
    let mut found = Vec::new(alloc);
    push_slots(text, &mut found, basin, tally)
}
