//! Lends the cells of one timestep to a caller that reads many of them.
ghost use Rattle.std.specs.Prelude.{◌≡◌, ◌≤◌, ◌*◌, ◌-◌, ◌&&◌, nat_le, drop, length, map, take};
ghost use Rattle.rw_base.specs.declared.number.SlotNo.{SlotNo as Slot};
ghost use Rattle.rw_series.specs.Cells.{kept_at};
ghost use Rattle.rw_series.specs.Columns.{column_of};
ghost use Rattle.rw_series.specs.Kept.{content_of};
ghost use Rattle.rw_series.specs.Series.{KeepsCells, held};

use crate::cells::kept_at;
use crate::columns::{column_of, known_column};
use crate::kept::{Kept, content_of};
use rw_base::SlotNo;
use rw_model::Content;
use std::marker::Model;

/// The cells of a series at one timestep, seen as a series of that timestep alone.
#[derive(Drop)]
pub struct StepCells<'a> {
    columns: &'a [u16],
    width: u16,
    cells: &'a [Kept],
}

impl<'a> Model for StepCells<'a> {
    ghost use Rattle.std.specs.Prelude.{length, map};
    ghost use Rattle.rw_series.specs.Kept.{content_of};
    ghost use Rattle.rw_series.specs.Series as specs;

    ghost Value = { specs.Series };

    ghost view = { λ s. record {
      slots = length s.columns.now;
      steps = 1;
      columns = s.columns.now;
      width = s.width;
      cells = map content_of s.cells.now;
    } };

    ghost invariant = { λ s. specs.KeepsCells 1 s.width s.columns.now (length s.cells.now) };
}

impl<'a> StepCells<'a> {
    /// Returns what the cell of a slot holds, its value in the base units of the slot's dimension. `None` exactly where it is
    /// unknown, or where there is no such cell.
    #[inline(always)]
    pub fn get(&self, slot: SlotNo) -> Option<Content>
        ensures { result ≡ held self.now (record { slot = slot; step = record { 0 = 1 } }) }
    {
        kept_at(
            self.cells,
            self.width,
            1,
            column_of(self.columns, slot.0),
            1,
        )
    }

    /// Returns the number of slots that have cells.
    #[inline(always)]
    pub fn slot_count(&self) -> usize
        ensures { result ≡ length self.now.columns }
    {
        self.columns.len()
    }

    /// Returns what the cell of a slot holds, which has to be there, its value in the base units of the slot's dimension. `None`
    /// exactly where it is unknown.
    #[inline(always)]
    pub fn content(&self, slot: SlotNo) -> Option<Content>
        requires first { 1 ≤ slot.0 }
        requires last { slot.0 ≤ length self.now.columns }
        ensures { result ≡ held self.now (record { slot = slot; step = record { 0 = 1 } }) }
    {
        let column = known_column(self.columns, slot.0);
        content_of(&self.cells[usize::from(column) - 1])
    }
}

// Whether there is such a timestep.
fn has_step(steps: u16, step: u16) -> bool
    ensures { result ≡ (nat_le 1 step && nat_le step steps) }
{
    1 <= step && step <= steps
}

// What is kept of the cells of one timestep.
fn row_of(cells: &[Kept], width: u16, step: u16) -> &[Kept]
    requires first { 1 ≤ step }
    requires last { step * width ≤ length cells.now }
    ensures row { result.now ≡ take width (drop ((step - 1) * width) cells.entry.now) }
    ensures whole { length result.now ≡ width * 1 }
{
    let first = usize::from(step - 1) * usize::from(width);
    &cells[first..first + usize::from(width)]
}

/// Returns the cells of one timestep. There are none where there is no such timestep.
pub(crate) fn cells_at_step<'a>(
    columns: &'a [u16],
    width: u16,
    steps: u16,
    cells: &'a [Kept],
    step: u16,
) -> StepCells<'a>
    requires { KeepsCells steps width columns.now (length cells.now) }
    ensures cells { (slot : Slot) → held result (record { slot = slot; step = record { 0 = 1 } })
        ≡ kept_at width steps (map content_of cells.entry.now)
        (column_of columns.entry.now slot.0) step }
    ensures columns { 1 ≤ step → step ≤ steps → result.columns ≡ columns.entry.now }
{
    if has_step(steps, step) {
        let cells = row_of(cells, width, step);
        StepCells {
            columns,
            width,
            cells,
        }
    } else {
        StepCells {
            columns: &[],
            width: 0,
            cells: &[],
        }
    }
}
