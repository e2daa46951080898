//! Puts back what cells held when they were noted.
ghost use Rattle.std.specs.Prelude.{◌≡◌, IsFalse, IsTrue};
ghost use Rattle.rw_base.specs.declared.number.Cell.{Cell};
ghost use Rattle.rw_series.specs.Series.{Series, IsSeriesOf, Sets, held};
ghost use Rattle.rw_run.specs.Log.{Cells};
ghost use Rattle.rw_record.specs.Back.{AreCellsOf, is_cell};
ghost use Rattle.rw_record.specs.Noted.{noted_in};
ghost use Rattle.rw_record.specs.Notes.{CanTakeBack};

use crate::{HeldList, Noted};
use rw_base::Cell;
use rw_model::Basin;
use rw_run::Held;
use rw_series::Series;

// Whether there is such a slot, and such a timestep in the run.
fn is_cell(basin: &Basin, cell: Cell) -> bool
    ensures { result ≡ is_cell basin.now cell }
{
    let steps = basin.control().stamps.count();
    (1 <= cell.slot.0 && cell.slot.0 <= basin.slot_count())
        && (1 <= cell.step.0 && cell.step.0 <= steps)
}

/// Puts back what the noted cells held when they were noted. Where no other cell has changed since then, all cells hold again
/// what they held before.
pub fn take_back(basin: &Basin, series: &mut Series, noted: &Noted)
    requires made { IsSeriesOf basin.now series.old }
    ensures made { IsSeriesOf basin.now series.new }
    ensures back { (before : Series) → IsSeriesOf basin.now before
        → CanTakeBack (held before) (held series.old) (noted_in noted.now)
        → (cell : Cell) → held series.new cell ≡ held before cell }
{
    put_back(basin, series, noted.as_slice());
}

/// Puts back what these cells held, as `take_back` does.
pub fn put_back(basin: &Basin, series: &mut Series, items: &[Held])
    requires made { IsSeriesOf basin.now series.old }
    ensures made { IsSeriesOf basin.now series.new }
    ensures back { (before : Cells) → AreCellsOf basin.now before
        → CanTakeBack before (held series.old) items.now
        → (cell : Cell) → held series.new cell ≡ before cell }
{
    for one in items {
        put_one(basin, series, one);
    }
}

/// Puts back what the cells of a kept list held, as `take_back` does.
pub fn put_back_kept(basin: &Basin, series: &mut Series, items: &HeldList)
    requires made { IsSeriesOf basin.now series.old }
    ensures made { IsSeriesOf basin.now series.new }
    ensures back { (before : Cells) → AreCellsOf basin.now before
        → CanTakeBack before (held series.old) items.now
        → (cell : Cell) → held series.new cell ≡ before cell }
{
    for place in 0..items.len() {
        put_one(basin, series, &items.get(place));
    }
}

// Puts back what a cell held, if it is one of the basin. Any other holds nothing.
fn put_one(basin: &Basin, series: &mut Series, one: &Held)
    requires made { IsSeriesOf basin.now series.old }
    ensures made { IsSeriesOf basin.now series.new }
    ensures put { IsTrue (is_cell basin.now one.now.cell)
        → Sets basin.now one.now.cell one.now.content series.old series.new }
    ensures passed { IsFalse (is_cell basin.now one.now.cell) → series.new ≡ series.old }
{
    if is_cell(basin, one.cell) {
        match &one.content {
            Some(known) => series.restore(basin, one.cell, Some(*known)),
            None => series.restore(basin, one.cell, None),
        }
    }
}
