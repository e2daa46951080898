//! Passes a timestep again, by its record.
ghost use Rattle.std.specs.Prelude.{◌≡◌, [], IfErr, IfOk, IfSome, is_some};
ghost use Rattle.std.specs.List.{cons_option};
ghost use Rattle.std.specs.Option.{option_or};
ghost use Rattle.rw_base.specs.declared.number.Cell.{Cell as Place};
ghost use Rattle.rw_series.specs.Series.{held};
ghost use Rattle.rw_dispatch.specs.Stage.{IsHeldIn};
ghost use Rattle.rw_dispatch.specs.Writes.{AreWrites};
ghost use Rattle.rw_run.specs.Log.{last_put};
ghost use Rattle.rw_run.specs.Trace.{lines_in, told};
ghost use Rattle.rw_record.specs.Noted.{cells_noted, with_noted};
ghost use Rattle.rw_engine.specs.Noting.{NotesAll};
ghost use Rattle.rw_engine.specs.Records.{CanWriteLines, puts_in};

use rw_base::NoMemory;
use rw_dispatch::make;
use rw_model::Basin;
use rw_record::{HeldList, KeptStep, Noted};
use rw_run::{Trace, Write};
use rw_series::Series;

// Notes these cells, with what they hold now.
fn note_again(noted: &mut Noted, series: &Series, looked: &HeldList) -> Result<(), NoMemory>
    ensures { NotesAll (held series.now) (cells_noted looked.now) noted.old noted.new result }
{
    for place in 0..looked.len() {
        noted.note(series, looked.get(place).cell)?;
    }
    Ok(())
}

/// Notes the cells of a record and its lines, and tells these: all that takes memory where its timestep is passed again.
pub(crate) fn retell(
    noted: &mut Noted,
    lines: &mut Trace,
    trace: &mut Trace,
    series: &Series,
    kept: &KeptStep,
) -> Result<(), NoMemory>
    requires { IfSome lines.old (λ these. these ≡ []) }
    ensures kept { is_some noted.new ≡ is_some noted.old }
    ensures keeps_lines { is_some lines.new ≡ is_some lines.old }
    ensures keeps_trace { is_some trace.new ≡ is_some trace.old }
    ensures noted { IfOk result (λ _. noted.new
        ≡ with_noted (held series.now) (cells_noted kept.now.looked) noted.old) }
    ensures lines { IfOk result (λ _. IfSome lines.new (λ these. these ≡ kept.now.lines)) }
    ensures told { IfOk result (λ _. trace.new ≡ told trace.old kept.now.lines) }
    ensures unchanged { IfErr result (λ _. trace.new ≡ trace.old) }
{
    note_again(noted, series, kept.looked())?;
    lines.append(kept.lines(), 0)?;
    trace.append(kept.lines(), 0)
}

// Writes it.
fn write_put(basin: &Basin, series: &mut Series, put: Option<Write>)
    requires can { AreWrites basin.now (cons_option put []) }
    requires made { IsHeldIn basin.now series.old }
    ensures made { IsHeldIn basin.now series.new }
    ensures cells { (cell : Place) → held series.new cell
        ≡ option_or (last_put basin.now (cons_option put []) cell) (held series.old cell) }
{
    match put {
        Some(write) => make(basin, series, &[write]),
        None => {}
    }
}

/// Writes what these lines say to be written, one after another.
pub(crate) fn write_again(basin: &Basin, series: &mut Series, lines: &Trace)
    requires can { CanWriteLines basin.now (lines_in lines.now) }
    requires made { IsHeldIn basin.now series.old }
    ensures made { IsHeldIn basin.now series.new }
    ensures cells { (cell : Place) → held series.new cell
        ≡ option_or (last_put basin.now (puts_in (lines_in lines.now)) cell)
        (held series.old cell) }
{
    for place in 0..lines.len() {
        write_put(basin, series, lines.written(place));
    }
}
