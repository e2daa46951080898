//! Holds what the cells of a basin hold, and changes them by the put rules.
ghost use Rattle.std.specs.Prelude.{◌≡◌, ◌≢◌, ◌↔◌, ◌≤◌, IfOk, true};
ghost use Rattle.rw_base.specs.declared.number.Cell.{Cell};
ghost use Rattle.rw_base.specs.declared.number.SlotNo.{SlotNo as Slot};
ghost use Rattle.rw_model.specs.declared.put.PutEnd.TheVariants as PutEnd;
ghost use Rattle.std.specs.Prelude.{None, Some};
ghost use Rattle.rw_model.specs.Put.{end_of_put};
ghost use Rattle.rw_series.specs.Series.{held, IsCell, IsSeriesOf, Sets};

use crate::cells::{keep_at, kept_at};
use crate::columns::{column_of, columns_of, known_column};
use crate::kept::{Kept, unknown};
use crate::step_cells::{StepCells, cells_at_step};
use rw_base::{Cell, NoMemory, StepNo};
use rw_model::{Basin, Content, PutEnd, put_end};
use std::alloc::Global;
use std::marker::Model;

/// What the cells of a basin hold, seen as a list of contents that `held` reads.
#[derive(Drop)]
pub struct Series {
    slots: u16,
    steps: u16,
    columns: Vec<u16>,
    width: u16,
    cells: Vec<Kept>,
}

impl Model for Series {
    ghost use Rattle.std.specs.Prelude.{length, map};
    ghost use Rattle.rw_series.specs.Kept.{content_of};
    ghost use Rattle.rw_series.specs.Series as specs;

    ghost Value = { specs.Series };

    ghost view = { λ s. record {
      slots = s.slots;
      steps = s.steps;
      columns = s.columns.items;
      width = s.width;
      cells = map content_of s.cells.items;
    } };

    ghost invariant = { λ s.
        specs.KeepsCells s.steps s.width s.columns.items (length s.cells.items) };
}

// What becomes of a put of the content to a cell that holds this.
fn end_of(held: Option<Content>, new: &Content) -> PutEnd
    ensures { result ≡ end_of_put held new.now }
{
    put_end(held, *new)
}

// Whether the put is written.
fn is_written(end: &PutEnd) -> bool
    ensures { (result ≡ true) ↔ (end.now ≡ PutEnd.Written) }
{
    *end == PutEnd::Written
}

impl Series {
    /// Returns a series for the slots and timesteps of a basin, counted from 1, in which every cell is unknown. The one error is
    /// want of memory.
    pub fn sized(alloc: Global, basin: &Basin) -> Result<Series, NoMemory>
        ensures made { IfOk result (IsSeriesOf basin.now) }
        ensures unknown { IfOk result (λ series. (cell : Cell) → held series cell ≡ None) }
    {
        let slots = basin.slot_count();
        let steps = basin.control().stamps.count();
        let made = columns_of(alloc, basin)?;
        let mut cells = Vec::new(alloc);
        cells.resize(usize::from(made.width) * usize::from(steps), unknown())?;
        Ok(Series {
            slots,
            steps,
            columns: made.columns,
            width: made.width,
            cells,
        })
    }

    /// Returns what a cell holds, its value in the base units of its slot's dimension. `None` exactly where it is unknown, or
    /// where the series has no such cell.
    pub fn get(&self, c: Cell) -> Option<Content>
        ensures { result ≡ held self.now c }
    {
        kept_at(
            self.cells.as_slice(),
            self.width,
            self.steps,
            column_of(self.columns.as_slice(), c.slot.0),
            c.step.0,
        )
    }

    /// Returns the cells of one timestep, counted from 1. There are none where the series has no such timestep.
    pub fn at_step(&self, step: StepNo) -> StepCells<'_>
        ensures cells { (slot : Slot)
            → held result (record { slot = slot; step = record { 0 = 1 } })
            ≡ held self.now (record { slot = slot; step = step }) }
        ensures columns { 1 ≤ step.0 → step.0 ≤ self.now.steps
            → result.columns ≡ self.now.columns }
    {
        cells_at_step(
            self.columns.as_slice(),
            self.width,
            self.steps,
            self.cells.as_slice(),
            step.0,
        )
    }

    /// Puts a content to a cell, with its value in the base units of the slot's dimension, and returns what became of that by the
    /// put rules and by what the cell holds (`docs/DEFINITIONS.md`, "Contents, and the put rules"). Where it is `Written`, the
    /// cell holds the content, and so does each cell of a slot that a link joins to its slot, at the same timestep. Where it is
    /// `Kept` or `Denied`, nothing changes.
    pub fn put(&mut self, basin: &Basin, c: Cell, new: Content) -> PutEnd
        requires made { IsSeriesOf basin.now self.old }
        requires cell { IsCell basin.now c }
        ensures end { result ≡ end_of_put (held self.old c) new }
        ensures written { result ≡ PutEnd.Written → Sets basin.now c (Some new) self.old self.new }
        ensures unchanged { result ≢ PutEnd.Written → self.new ≡ self.old }
        ensures made { IsSeriesOf basin.now self.new }
    {
        let end = end_of(self.get(c), &new);
        if is_written(&end) {
            self.restore(basin, c, Some(new));
        }
        end
    }

    /// Makes a cell hold a content, with its value in the base units of the slot's dimension, or be unknown, whatever it holds,
    /// and so each cell of a slot that a link joins to its slot, at the same timestep.
    pub fn restore(&mut self, basin: &Basin, c: Cell, held: Option<Content>)
        requires made { IsSeriesOf basin.now self.old }
        requires cell { IsCell basin.now c }
        ensures cells { Sets basin.now c held self.old self.new }
        ensures made { IsSeriesOf basin.now self.new }
    {
        let _slots = basin.slot_count();
        let column = known_column(self.columns.as_slice(), c.slot.0);
        keep_at(
            &mut self.cells,
            self.width,
            self.steps,
            column,
            c.step.0,
            held,
        );
    }

    /// Returns a copy of the series. The one error is want of memory.
    pub fn copy(&self, alloc: Global) -> Result<Series, NoMemory>
        ensures { IfOk result (λ copy. copy ≡ self.now) }
    {
        Ok(Series {
            slots: self.slots,
            steps: self.steps,
            columns: self.columns.as_slice().to_vec(alloc)?,
            width: self.width,
            cells: self.cells.as_slice().to_vec(alloc)?,
        })
    }
}
