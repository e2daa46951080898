//! Turns the puts of an object into writes to cells, and makes writes.
ghost use Rattle.std.specs.Prelude.{◌≡◌, ◌<◌, ◌∷◌, [], ℕ, length, map};
ghost use Rattle.std.specs.Option.{option_or};
ghost use Rattle.rw_base.specs.declared.number.Cell.{Cell};
ghost use Rattle.rw_series.specs.Series.{held};
ghost use Rattle.rw_run.specs.Log.{last_put};
ghost use Rattle.rw_run.specs.Dispatch.{asked_by, places, slot_or_none};
ghost use Rattle.rw_model.specs.Draft.{Draft};
ghost use Rattle.rw_model.specs.Objects.{slot_in_place};
ghost use Rattle.rw_dispatch.specs.Stage.{IsHeldIn};
ghost use Rattle.rw_dispatch.specs.Writes.{AreWrites, CanWrite};

use rw_base::{Cell, ObjectNo, SlotNo, StepNo};
use rw_method::Put;
use rw_model::{Basin, Content, Writer};
use rw_run::Write;
use rw_series::Series;

// The slot in a place, of an object whose slots these are.
fn slot_of(row: &[Option<u16>], place: u8) -> SlotNo
    requires few { place < 12 }
    requires all { length row.now ≡ 12 }
    ensures { (basin : Draft) (object : ℕ)
        → row.now ≡ map (slot_in_place basin.objects object) places
        → result.0 ≡ slot_or_none basin object place }
{
    match row[usize::from(place)] {
        Some(number) => SlotNo(number),
        None => SlotNo(0),
    }
}

/// Returns what a put asks for, of an object whose slots these are.
pub(crate) fn asked_by(row: &[Option<u16>], object: ObjectNo, step: StepNo, put: &Put) -> Write
    requires few { put.now.place < 12 }
    requires all { length row.now ≡ 12 }
    ensures { (basin : Draft)
        → row.now ≡ map (slot_in_place basin.objects object.0) places
        → result ≡ asked_by basin object.0 step.0 put.now }
{
    Write {
        cell: Cell {
            slot: slot_of(row, put.place),
            step,
        },
        content: Content {
            value: put.value,
            number: put.number,
            writer: Writer::Object(object),
        },
    }
}

// Makes one.
fn make_one(basin: &Basin, series: &mut Series, write: &Write)
    requires can { CanWrite basin.now write.now }
    requires made { IsHeldIn basin.now series.old }
    ensures made { IsHeldIn basin.now series.new }
    ensures cells { (cell : Cell) → held series.new cell
        ≡ option_or (last_put basin.now (write.now ∷ []) cell) (held series.old cell) }
{
    series.restore(basin, write.cell, Some(write.content));
}

/// Makes what an event writes, one after another.
pub fn make(basin: &Basin, series: &mut Series, writes: &[Write])
    requires can { AreWrites basin.now writes.now }
    requires made { IsHeldIn basin.now series.old }
    ensures made { IsHeldIn basin.now series.new }
    ensures cells { (cell : Cell) → held series.new cell
        ≡ option_or (last_put basin.now writes.now cell) (held series.old cell) }
{
    for write in writes {
        make_one(basin, series, write);
    }
}
