//! Numbers the columns in which values are kept: linked slots have one column.
ghost use Rattle.rw_model.specs.declared.limits.TheConstants.{SLOTS_MAX};
ghost use Rattle.std.specs.Prelude.{◌≡◌, ◌+◌, ◌<◌, ◌≤◌, true, All, IfOk, MatchOption, length};
ghost use Rattle.rw_model.specs.Draft.{IsSlot};
ghost use Rattle.rw_model.specs.Kept.{numbers_of};
ghost use Rattle.rw_model.specs.Links.{is_among};
ghost use Rattle.rw_model.specs.Objects.{all_slots};
ghost use Rattle.rw_series.specs.Columns.{column_of, AreColumns, IsColumnFor};

use rw_base::{NoMemory, SlotNo};
use rw_model::Basin;
use std::alloc::Global;

/// The columns of all slots, and how many there are.
#[derive(Drop)]
pub(crate) struct Columns {
    pub(crate) columns: Vec<u16>,
    pub(crate) width: u16,
}

/// Returns the column of a slot, and 0 where there is no such slot.
pub(crate) fn column_of(columns: &[u16], slot: u16) -> u16
    ensures { result ≡ column_of columns.now slot }
{
    if 1 <= slot {
        match columns.get(usize::from(slot - 1)) {
            Some(column) => *column,
            None => 0,
        }
    } else {
        0
    }
}

/// Returns the column of a slot that is there.
pub(crate) fn known_column(columns: &[u16], slot: u16) -> u16
    requires first { 1 ≤ slot }
    requires last { slot ≤ length columns.now }
    ensures { result ≡ column_of columns.now slot }
{
    columns[usize::from(slot) - 1]
}

// The first of the slots that is one of the first so many.
fn earlier(group: &[SlotNo], before: u16) -> Option<u16>
    ensures { MatchOption result (All (λ (slot : SlotNo). before < slot.0) group.now)
        (λ slot. (is_among slot (numbers_of group.now) ≡ true) × (slot ≤ before)) }
{
    for slot in group {
        if slot.0 <= before {
            return Some(slot.0);
        }
    }
    None
}

// The column of the next slot.
fn column_for(basin: &Basin, columns: &[u16], width: u16, before: u16) -> u16
    requires next { IsSlot basin.now.objects (before + 1) }
    requires few { before < SLOTS_MAX }
    requires columns { AreColumns basin.now before width columns.now }
    ensures { IsColumnFor basin.now before width columns.now result }
{
    match earlier(basin.group(SlotNo(before + 1)), before) {
        Some(slot) => column_of(columns, slot),
        None => width + 1,
    }
}

/// Returns the columns of the slots of a basin.
pub(crate) fn columns_of(alloc: Global, basin: &Basin) -> Result<Columns, NoMemory>
    ensures { IfOk result (λ made. AreColumns basin.now
        (length (all_slots basin.now.objects)) made.width made.columns.items) }
{
    let mut columns = Vec::new(alloc);
    let mut width = 0;
    for before in 0..basin.slot_count() {
        let column = column_for(basin, columns.as_slice(), width, before);
        columns.push(column)?;
        width = width.max(column);
    }
    Ok(Columns { columns, width })
}
