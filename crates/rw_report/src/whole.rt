//! Writes a whole section from its parts: heading, table, flags and trace.
ghost use Rattle.std.specs.Prelude.{◌≡◌, ◌≤◌, ◌++◌, ℕ, List, OnOk, option_map, string_bytes, codes};
ghost use Rattle.std.specs.Fmt.{decimal};
ghost use Rattle.rw_series.specs.Series.{held};
ghost use Rattle.rw_run.specs.Trace.{lines_in};
ghost use Rattle.rw_report.specs.Section.{columns, heading, rows, values_in};
ghost use Rattle.rw_report.specs.Flags.{flag_table};
ghost use Rattle.rw_report.specs.Lines.{trace_words};
ghost use Rattle.rw_report.specs.Outcome.{outcome_of};
ghost use Rattle.rw_report.specs.Whole.{if_asked, reran_words, run_table, section_tail, section_top, some_words, steps_words, whole_of};

use crate::flags::push_flags;
use crate::heading::push_heading;
use crate::lines::push_trace;
use crate::numbers::push_count;
use crate::table::{push_columns, push_rows};
use rw_base::{NoMemory, StepNo};
use rw_model::Basin;
use rw_run::Run;
use std::alloc::Global;

/// What the section of a batch says of a run besides how it ended and its table.
#[derive(Clone, Copy, Drop)]
pub struct Telling<'a> {
    /// The number of the batch.
    pub batch: u32,
    /// The timesteps that were run again, where the section has a line on them.
    pub reran: Option<&'a [StepNo]>,
    /// Whether the section has a table of who wrote each value and its priority.
    pub flags: bool,
    /// Whether the section has what happened, line by line.
    pub trace: bool,
}

// Appends a space and the number of a timestep.
fn push_step(text: &mut String, step: StepNo) -> Result<(), NoMemory>
    ensures { OnOk result (string_bytes text.new
        ≡ string_bytes text.old ++ (codes " " ++ decimal step.0)) }
{
    text.push_str(" ")?;
    push_count(text, u64::from(step.0))
}

fn push_steps(text: &mut String, steps: &[StepNo]) -> Result<(), NoMemory>
    ensures { OnOk result (string_bytes text.new ≡ string_bytes text.old ++ steps_words steps.now) }
{
    for place in 0..steps.len() {
        push_step(text, steps[place])?;
    }
    Ok(())
}

fn push_some(text: &mut String, steps: &[StepNo]) -> Result<(), NoMemory>
    ensures { OnOk result (string_bytes text.new ≡ string_bytes text.old ++ some_words steps.now) }
{
    if steps.is_empty() {
        text.push_str(" none")?;
        Ok(())
    } else {
        push_steps(text, steps)
    }
}

fn push_again(text: &mut String, steps: &[StepNo]) -> Result<(), NoMemory>
    ensures { OnOk result (string_bytes text.new
        ≡ string_bytes text.old ++ (codes "# reran" ++ (some_words steps.now ++ codes "\n"))) }
{
    text.push_str("# reran")?;
    push_some(text, steps)?;
    text.push_str("\n")?;
    Ok(())
}

// Appends which timesteps were run again, where that is told.
fn push_reran(text: &mut String, reran: Option<&[StepNo]>) -> Result<(), NoMemory>
    ensures { OnOk result (string_bytes text.new
        ≡ string_bytes text.old ++ reran_words (option_map (λ steps. steps.now) reran.entry)) }
{
    match reran {
        Some(steps) => push_again(text, steps),
        None => Ok(()),
    }
}

// Appends the first line, and which timesteps were run again.
fn push_top(
    text: &mut String,
    basin: &Basin,
    run: &Run,
    telling: &Telling<'_>,
) -> Result<(), NoMemory>
    ensures { OnOk result (string_bytes text.new ≡ string_bytes text.old
        ++ (heading basin.now telling.now.batch run.now.end
        ++ reran_words (option_map (λ steps. steps.now) telling.now.reran))) }
{
    push_heading(text, basin, telling.batch, &run.end)?;
    push_reran(text, telling.reran)
}

pub(crate) fn push_flags_if(
    text: &mut String,
    basin: &Basin,
    run: &Run,
    flags: bool,
) -> Result<(), NoMemory>
    ensures { OnOk result (string_bytes text.new ≡ string_bytes text.old
        ++ if_asked flags (flag_table basin.now (held run.now.series) run.now.closed)) }
{
    if flags {
        push_flags(text, basin, &run.series, run.closed)
    } else {
        Ok(())
    }
}

pub(crate) fn push_trace_if(
    alloc: Global,
    text: &mut String,
    basin: &Basin,
    run: &Run,
    trace: bool,
) -> Result<(), NoMemory>
    ensures { OnOk result (string_bytes text.new ≡ string_bytes text.old
        ++ if_asked trace (trace_words basin.now (lines_in run.now.trace))) }
{
    if trace {
        push_trace(alloc, text, basin, &run.trace)
    } else {
        Ok(())
    }
}

/// Appends what comes before the first line of the table.
pub(crate) fn push_head(
    text: &mut String,
    basin: &Basin,
    run: &Run,
    telling: &Telling<'_>,
) -> Result<(), NoMemory>
    ensures { OnOk result (string_bytes text.new ≡ string_bytes text.old
        ++ (section_top basin.now telling.now.batch (outcome_of run.now)
        (option_map (λ steps. steps.now) telling.now.reran) ++ columns basin.now)) }
{
    push_top(text, basin, run, telling)?;
    push_columns(text, basin)
}

/// Appends the lines of the table after the first `first` ones, and what comes after the last one.
pub(crate) fn push_rest(
    alloc: Global,
    text: &mut String,
    basin: &Basin,
    run: &Run,
    telling: &Telling<'_>,
    first: u16,
) -> Result<(), NoMemory>
    requires closed { run.now.closed ≤ basin.now.control.stamps.count }
    requires first { first ≤ run.now.closed }
    ensures { (front back : List ℕ) → front ++ string_bytes text.old
        ≡ back ++ rows basin.now (values_in (held run.now.series)) first
        → OnOk result (front ++ string_bytes text.new
        ≡ (back ++ rows basin.now (values_in (held run.now.series)) run.now.closed)
        ++ section_tail basin.now (outcome_of run.now) telling.now.flags telling.now.trace) }
{
    push_rows(alloc, text, basin, &run.series, first, run.closed)?;
    push_flags_if(text, basin, run, telling.flags)?;
    push_trace_if(alloc, text, basin, run, telling.trace)?;
    Ok(())
}

/// Appends the text of a section.
pub(crate) fn push_section(
    alloc: Global,
    text: &mut String,
    basin: &Basin,
    run: &Run,
    telling: &Telling<'_>,
) -> Result<(), NoMemory>
    requires closed { run.now.closed ≤ basin.now.control.stamps.count }
    ensures { OnOk result (string_bytes text.new ≡ string_bytes text.old
        ++ whole_of basin.now telling.now.batch (outcome_of run.now)
        (option_map (λ steps. steps.now) telling.now.reran) telling.now.flags telling.now.trace) }
{
    push_head(text, basin, run, telling)?;
    push_rest(alloc, text, basin, run, telling, 0)?;
    Ok(())
}

/// Appends the table of a run.
pub(crate) fn push_table(
    alloc: Global,
    text: &mut String,
    basin: &Basin,
    run: &Run,
) -> Result<(), NoMemory>
    requires closed { run.now.closed ≤ basin.now.control.stamps.count }
    ensures { OnOk result (string_bytes text.new
        ≡ string_bytes text.old ++ run_table basin.now (outcome_of run.now)) }
{
    push_columns(text, basin)?;
    push_rows(alloc, text, basin, &run.series, 0, run.closed)?;
    Ok(())
}
