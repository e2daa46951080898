//! Finds the timesteps that a batch of edits changes.
ghost use Rattle.std.specs.Prelude.{◌≡◌, ◌≤◌, ◌+◌, ◌^◌, ◌++◌, ◌∷◌, [], ◌↔◌, All, IfOk, IfSome, OnOk, length, map, true};
ghost use Rattle.std.specs.List.{filter, flat_map, list_any, range_with_len};
ghost use Rattle.rw_inputs.specs.Edits.{IsBatch, IsEdit};
ghost use Rattle.rw_inputs.specs.Inputs.{IsInputsOf, kept_slot};
ghost use Rattle.rw_model.specs.Draft.{IsSlot};
ghost use Rattle.rw_run.specs.Dispatch.{cell_at};
ghost use Rattle.rw_run.specs.Next.{is_same_value};
ghost use Rattle.rw_run.specs.Step.{is_same_cell};
ghost use Rattle.rw_record.specs.Noted.{is_noted};
ghost use Rattle.rw_record.specs.Record.{AreRisingCells, IsBelow};
ghost use Rattle.rw_rerun.specs.Edited.{AreEdited, cells_changed, gives_another};
ghost use Rattle.rw_rerun.specs.Touched.{AreRisingIn, CountsBelow, CountsUntouched, is_reached, is_untouched, spans};

use rw_base::{Cell, NoMemory, Qty, SlotNo, StepNo};
use rw_engine::{HeldList, KeptStep};
use rw_inputs::{Batch, Edit, Inputs};
use rw_model::Basin;
use std::alloc::Global;

// The least of the slots that carry one value with the slot.
fn least_of(basin: &Basin, slot: SlotNo) -> SlotNo
    requires { IsSlot basin.now.objects slot.0 }
    ensures { result.0 ≡ kept_slot basin.now slot.0 }
{
    match basin.group(slot).first() {
        Some(least) => *least,
        None => slot,
    }
}

// Whether both are the same value, or both none.
fn is_same_value(one: Option<Qty>, other: &Option<Qty>) -> bool
    ensures { result ≡ is_same_value one other.now }
{
    match one {
        None => other.is_none(),
        Some(one) => match other {
            None => false,
            Some(other) => one.get() == other.get(),
        },
    }
}

// Adds a cell, unless the inputs give it this value already.
fn add_cell(
    cells: &mut Vec<Cell>,
    inputs: &Inputs,
    cell: Cell,
    value: &Option<Qty>,
) -> Result<(), NoMemory>
    ensures { OnOk result (cells.new.items
        ≡ cells.old.items ++ filter (gives_another inputs.now value.now) (cell ∷ [])) }
{
    if !is_same_value(inputs.value(cell), value) {
        cells.push(cell)?;
    }
    Ok(())
}

// Adds those cells of a slot at so many timesteps, from this one on, to which the inputs don't give this value.
fn add_cells(
    cells: &mut Vec<Cell>,
    inputs: &Inputs,
    slot: SlotNo,
    first: u16,
    count: u16,
    value: &Option<Qty>,
) -> Result<(), NoMemory>
    requires few { first + count ≤ 2 ^ 16 }
    ensures { OnOk result (cells.new.items ≡ cells.old.items
        ++ filter (gives_another inputs.now value.now) (map (cell_at slot.0) (range_with_len first count))) }
{
    for behind in 0..count {
        let step = StepNo(first + behind);
        add_cell(cells, inputs, Cell { slot, step }, value)?;
    }
    Ok(())
}

// Adds the cells that an edit changes.
fn add_edit(
    cells: &mut Vec<Cell>,
    basin: &Basin,
    inputs: &Inputs,
    edit: &Edit,
) -> Result<(), NoMemory>
    requires { IsEdit basin.now edit.now }
    ensures { OnOk result (cells.new.items
        ≡ cells.old.items ++ cells_changed basin.now inputs.now edit.now) }
{
    let slot = least_of(basin, SlotNo(edit.slot));
    let count = edit.last - edit.first + 1;
    add_cells(cells, inputs, slot, edit.first, count, &edit.value)
}

// Adds the cells that edits change.
fn add_edits(
    cells: &mut Vec<Cell>,
    basin: &Basin,
    inputs: &Inputs,
    edits: &[Edit],
) -> Result<(), NoMemory>
    requires { All (IsEdit basin.now) edits.now }
    ensures { OnOk result (cells.new.items
        ≡ cells.old.items ++ flat_map (cells_changed basin.now inputs.now) edits.now) }
{
    for edit in edits {
        add_edit(cells, basin, inputs, edit)?;
    }
    Ok(())
}

/// The cells to which the edits of a batch give another value than the inputs do.
pub(crate) fn edited(
    alloc: Global,
    basin: &Basin,
    inputs: &Inputs,
    batch: &Batch,
) -> Result<Vec<Cell>, NoMemory>
    requires inputs { IsInputsOf basin.now inputs.now }
    requires batch { IsBatch basin.now batch.now }
    ensures { IfOk result (λ cells. AreEdited basin.now batch.now inputs.now cells.items) }
{
    let mut cells = Vec::new(alloc);
    add_edits(&mut cells, basin, inputs, batch.edits())?;
    Ok(cells)
}

// Whether a cell is of a lower slot than another, or of the same slot at an earlier timestep.
fn is_below(cell: Cell, other: Cell) -> bool
    ensures { (result ≡ true) ↔ IsBelow cell other }
{
    cell.slot.0 < other.slot.0 || (cell.slot.0 == other.slot.0 && cell.step.0 < other.step.0)
}

// How many of the rising cells are below this one.
fn below(looked: &HeldList, cell: Cell) -> usize
    requires { AreRisingCells looked.now }
    ensures { CountsBelow looked.now cell result }
{
    let mut first = 0;
    let mut last = looked.len();
    while first < last {
        let middle = first + (last - first) / 2;
        if is_below(looked.get(middle).cell, cell) {
            first = middle + 1;
        } else {
            last = middle;
        }
    }
    first
}

// Whether both are one cell.
fn is_same(cell: Cell, other: Cell) -> bool
    ensures { result ≡ is_same_cell cell other }
{
    other.slot.0 == cell.slot.0 && other.step.0 == cell.step.0
}

// Whether a cell is one of these, which rise.
fn is_among(looked: &HeldList, cell: Cell) -> bool
    requires { AreRisingCells looked.now }
    ensures { result ≡ is_noted looked.now cell }
{
    let place = below(looked, cell);
    if place < looked.len() {
        return is_same(cell, looked.get(place).cell);
    }
    false
}

// Whether a cell of one of these slots is one of these.
fn is_one_among(looked: &HeldList, slots: &[SlotNo], step: StepNo) -> bool
    requires { AreRisingCells looked.now }
    ensures { result
        ≡ list_any (λ (slot : SlotNo). is_noted looked.now (cell_at slot.0 step.0)) slots.now }
{
    for slot in slots {
        if is_among(looked, Cell { slot: *slot, step }) {
            return true;
        }
    }
    false
}

// Whether a timestep is between those at which a record holds cells.
fn spans(kept: &KeptStep, step: StepNo) -> bool
    ensures { result ≡ spans kept.now.looked step.0 }
{
    kept.first().0 <= step.0 && step.0 <= kept.last().0
}

// Whether a record holds a cell that shares its value with this one.
fn is_reached(basin: &Basin, kept: &KeptStep, cell: Cell) -> bool
    requires rising { AreRisingCells kept.now.looked }
    requires slot { IsSlot basin.now.objects cell.slot.0 }
    ensures { result ≡ is_reached basin.now kept.now.looked cell }
{
    // Most records hold no cell at its timestep.
    if !spans(kept, cell.step) {
        return false;
    }
    is_one_among(kept.looked(), basin.group(cell.slot), cell.step)
}

// Whether it holds one of these cells, or one that shares its value with one of them.
fn is_touched(basin: &Basin, kept: &KeptStep, cells: &[Cell]) -> bool
    requires rising { AreRisingCells kept.now.looked }
    requires known { All (λ (cell : Cell). IsSlot basin.now.objects cell.slot.0) cells.now }
    ensures { result ≡ list_any (is_reached basin.now kept.now.looked) cells.now }
{
    for cell in cells {
        if is_reached(basin, kept, *cell) {
            return true;
        }
    }
    false
}

// Whether a timestep is kept, and looked at none of these cells, nor reached one.
fn is_untouched(basin: &Basin, entry: &Option<KeptStep>, cells: &[Cell]) -> bool
    requires rising { IfSome entry.now (λ kept. AreRisingCells kept.looked) }
    requires known { All (λ (cell : Cell). IsSlot basin.now.objects cell.slot.0) cells.now }
    ensures { result ≡ is_untouched basin.now cells.now entry.now }
{
    match entry {
        None => false,
        Some(kept) => !is_touched(basin, kept, cells),
    }
}

/// How many first timesteps are kept and look at none of these cells, nor reach one.
pub(crate) fn untouched(basin: &Basin, kept: &[Option<KeptStep>], cells: &[Cell]) -> u16
    requires many { length kept.now ≡ basin.now.control.stamps.count }
    requires rising { AreRisingIn kept.now }
    requires known { All (λ (cell : Cell). IsSlot basin.now.objects cell.slot.0) cells.now }
    ensures { CountsUntouched basin.now cells.now kept.now result }
{
    let count = basin.control().stamps.count();
    for before in 0..count {
        if !is_untouched(basin, &kept[usize::from(before)], cells) {
            return before;
        }
    }
    count
}

// Of so many cells it is asked which timesteps they touch.
const FEW: usize = 200;

/// How many first timesteps a batch leaves as they are, by its cells: none where these are many, since each is looked for in each
/// timestep.
pub(crate) fn left(basin: &Basin, kept: &[Option<KeptStep>], cells: &[Cell]) -> u16
    requires many { length kept.now ≡ basin.now.control.stamps.count }
    requires rising { AreRisingIn kept.now }
    requires known { All (λ (cell : Cell). IsSlot basin.now.objects cell.slot.0) cells.now }
    ensures { CountsUntouched basin.now cells.now kept.now result }
{
    if cells.len() > FEW {
        return 0;
    }
    untouched(basin, kept, cells)
}
