//! Holds the values that are given to cells before a run.
ghost use Rattle.std.specs.Prelude.{◌≡◌, ◌⊎◌, [], ℕ, true, false, Ok, IfOk, OnErr, OnOk, length};
ghost use Rattle.rw_inputs.specs.Inputs.{slot_column, value_at, kept_slot, IsInputsOf, Keeps};
ghost use Rattle.rw_model.specs.Draft.{IsSlot};
ghost use Rattle.rw_inputs.specs.Sound.{IsRowValue};
ghost use Rattle.rw_inputs.specs.Edits.{IsEdit, after_edit};
ghost use Rattle.rw_inputs.specs.Taking.{TakesRowValue, IsTwice};

use crate::column::Column;
use crate::edit::Edit;
use crate::kept::{KeptQty, value_in};
use crate::row_value::RowValue;
use rw_base::{Cell, NoMemory, Qty, SlotNo};
use rw_model::Basin;
use std::alloc::Global;
use std::marker::Model;

/// The values that are given to cells before a run, seen as a list of columns that `value_at` reads. Only a slot that a row named
/// takes memory for its timesteps.
#[derive(Drop)]
pub struct Inputs {
    columns: Vec<Column>,
}

impl Model for Inputs {
    ghost use Rattle.rw_inputs.specs.Inputs as specs;

    ghost Value = { specs.Inputs };

    ghost view = { λ i. record { columns = i.columns.items } };
}

/// Returns the least of the slots that carry one value with the slot.
pub(crate) fn kept_slot(basin: &Basin, slot: u16) -> u16
    requires { IsSlot basin.now.objects slot }
    ensures least { result ≡ kept_slot basin.now slot }
    ensures known { IsSlot basin.now.objects result }
{
    match basin.group(SlotNo(slot)).first() {
        Some(least) => least.0,
        None => slot,
    }
}

// So many columns in which nothing is kept.
fn no_columns(alloc: Global, count: usize) -> Result<Vec<Column>, NoMemory>
    ensures count { IfOk result (λ columns. length columns.items ≡ count) }
    ensures empty { IfOk result (λ columns. (slot : ℕ) → slot_column columns.items slot ≡ []) }
{
    let mut columns = Vec::with_capacity(alloc, count)?;
    for _ in 0..count {
        columns.push(Column::none(alloc))?;
    }
    Ok(columns)
}

// The same columns again.
fn copies(alloc: Global, columns: &[Column]) -> Result<Vec<Column>, NoMemory>
    ensures { IfOk result (λ copies. copies.items ≡ columns.now) }
{
    let mut copies = Vec::with_capacity(alloc, columns.len())?;
    for column in columns {
        copies.push(column.copy(alloc)?)?;
    }
    Ok(copies)
}

impl Inputs {
    /// Returns inputs that give no value to any cell of the basin.
    pub(crate) fn none(alloc: Global, basin: &Basin) -> Result<Inputs, NoMemory>
        ensures { IfOk result (Keeps basin.now []) }
    {
        let columns = no_columns(alloc, usize::from(basin.slot_count()) + 1)?;
        Ok(Inputs { columns })
    }

    /// Returns a copy of the inputs.
    pub(crate) fn copy(&self, alloc: Global) -> Result<Inputs, NoMemory>
        ensures { IfOk result (λ copy. copy ≡ self.now) }
    {
        let columns = copies(alloc, self.columns.as_slice())?;
        Ok(Inputs { columns })
    }

    /// Returns the value that is kept at a cell itself, in the base units of its slot's dimension: m3, mm, m3/step, mm/step or
    /// kWh. `None` exactly where none is. Slots that carry one value have theirs at the least of them.
    pub fn value(&self, c: Cell) -> Option<Qty>
        ensures { result ≡ value_at self.now c.slot.0 c.step.0 }
    {
        value_in(self.column(c.slot), c.step.0)
    }

    /// Returns what is kept of a slot, at each timestep, as `value_in` reads it. It is empty where no value was ever kept.
    pub fn column(&self, slot: SlotNo) -> &[KeptQty]
        ensures { result.now ≡ slot_column self.now.columns slot.0 }
    {
        match self.columns.get(usize::from(slot.0)) {
            Some(column) => column.values(),
            None => &[],
        }
    }

    /// Keeps what a row gives. Returns `false` exactly where an earlier row gave a value to one of its cells; then, and after
    /// want of memory, the inputs are as they were.
    pub(crate) fn take(&mut self, basin: &Basin, row_value: &RowValue) -> Result<bool, NoMemory>
        requires made { IsInputsOf basin.now self.old }
        requires row_value { IsRowValue basin.now row_value.now }
        ensures made { IsInputsOf basin.now self.new }
        ensures taken { result ≡ Ok true → TakesRowValue basin.now row_value.now self.old self.new }
        ensures twice { result ≡ Ok false → IsTwice basin.now row_value.now self.old }
        ensures unchanged { (result ≡ Ok true) ⊎ (self.new ≡ self.old) }
    {
        let slot = kept_slot(basin, row_value.slot);
        let steps = basin.control().stamps.count();
        self.columns[usize::from(slot)].take(steps, row_value)
    }

    /// Sets what an edit says. After want of memory the inputs keep what they kept.
    pub(crate) fn set(&mut self, basin: &Basin, edit: &Edit) -> Result<(), NoMemory>
        requires made { IsInputsOf basin.now self.old }
        requires edit { IsEdit basin.now edit.now }
        ensures made { IsInputsOf basin.now self.new }
        ensures values { OnOk result (value_at self.new
            ≡ after_edit edit.now (value_at self.old)) }
        ensures unchanged { OnErr result (self.new ≡ self.old) }
    {
        let steps = basin.control().stamps.count();
        self.columns[usize::from(edit.slot)].set(steps, edit)
    }
}
