//! Notes what an event looked at, and what the puts reach that it asked for.
ghost use Rattle.std.specs.Prelude.{◌≡◌, ◌++◌, [], IsSome, unwrap_or};
ghost use Rattle.std.specs.List.{filter_map};
ghost use Rattle.rw_model.specs.Turn.{IsTurn};
ghost use Rattle.rw_series.specs.Series.{held};
ghost use Rattle.rw_agenda.specs.Agenda.{IsListed, looked_by};
ghost use Rattle.rw_dispatch.specs.Writes.{AreWrites};
ghost use Rattle.rw_run.specs.Dispatch.{cell_in, if_cell, looked_cells, places};
ghost use Rattle.rw_run.specs.Frame.{cells_looked};
ghost use Rattle.rw_run.specs.Step.{cells_reached};
ghost use Rattle.rw_engine.specs.Noting.{NotesAll};

use rw_base::{Cell, NoMemory, ObjectNo, RuleNo, StepNo};
use rw_dispatch::past_cell;
use rw_firing::Look;
use rw_model::Basin;
use rw_record::Noted;
use rw_rules::Rules;
use rw_run::Write;
use rw_series::Series;

// Notes a cell, if there is one.
#[inline(always)]
fn note_cell(noted: &mut Noted, series: &Series, cell: Option<Cell>) -> Result<(), NoMemory>
    ensures { NotesAll (held series.now) (if_cell cell) noted.old noted.new result }
{
    match cell {
        Some(cell) => noted.note(series, cell),
        None => Ok(()),
    }
}

// Notes the cells of an object's slots, in order of place.
fn note_slots(
    noted: &mut Noted,
    basin: &Basin,
    series: &Series,
    object: ObjectNo,
    step: StepNo,
) -> Result<(), NoMemory>
    requires { IsTurn basin.now object.0 step.0 }
    ensures { NotesAll (held series.now)
        (filter_map (cell_in basin.now object.0 step.0) places) noted.old noted.new result }
{
    noted.note_row(series, basin.row(object), step)
}

// Notes at what the dispatch of an object looked, and what the puts reach that it asked for.
#[inline(never)]
fn note_all(
    noted: &mut Noted,
    basin: &Basin,
    series: &Series,
    object: ObjectNo,
    step: StepNo,
    asked: &[Write],
) -> Result<(), NoMemory>
    requires turn { IsTurn basin.now object.0 step.0 }
    requires can { AreWrites basin.now asked.now }
    ensures { NotesAll (held series.now) (looked_cells basin.now object.0 step.0
        ++ cells_reached basin.now asked.now) noted.old noted.new result }
{
    note_slots(noted, basin, series, object, step)?;
    note_cell(noted, series, past_cell(basin, object, step))?;
    noted.note_reached(basin, series, asked)
}

/// Notes at what the dispatch of an object looked, and what the puts reach that it asked for, where something is kept.
#[inline(always)]
pub(crate) fn note_dispatch(
    noted: &mut Noted,
    basin: &Basin,
    series: &Series,
    object: ObjectNo,
    step: StepNo,
    asked: &[Write],
) -> Result<(), NoMemory>
    requires turn { IsTurn basin.now object.0 step.0 }
    requires can { IsSome noted.old → AreWrites basin.now asked.now }
    ensures { NotesAll (held series.now) (looked_cells basin.now object.0 step.0
        ++ cells_reached basin.now asked.now) noted.old noted.new result }
{
    if noted.is_kept() {
        note_all(noted, basin, series, object, step, asked)
    } else {
        Ok(())
    }
}

// Notes the cells of looks, and what puts reach.
#[inline(never)]
fn note_seen(
    noted: &mut Noted,
    basin: &Basin,
    series: &Series,
    looked: &[Look],
    asked: &[Write],
) -> Result<(), NoMemory>
    requires { AreWrites basin.now asked.now }
    ensures { NotesAll (held series.now) (cells_looked looked.now
        ++ cells_reached basin.now asked.now) noted.old noted.new result }
{
    noted.note_looks(series, looked)?;
    noted.note_reached(basin, series, asked)
}

/// Notes at what a rule looked when it last fired, and what the puts reach that it asked for, where something is kept.
#[inline(always)]
pub(crate) fn note_firing(
    noted: &mut Noted,
    basin: &Basin,
    series: &Series,
    rules: &Rules,
    rule: RuleNo,
) -> Result<(), NoMemory>
    requires known { IsListed rules.now.agenda rule.0 }
    requires can { AreWrites basin.now rules.now.asked }
    ensures { NotesAll (held series.now) (cells_looked
        (unwrap_or (looked_by rules.now.agenda rule.0) [])
        ++ cells_reached basin.now rules.now.asked) noted.old noted.new result }
{
    if noted.is_kept() {
        note_seen(noted, basin, series, rules.looked(rule), rules.asked())
    } else {
        Ok(())
    }
}
