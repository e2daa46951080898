//! Returns the section of a run as a text.
ghost use Rattle.std.specs.Prelude.{◌≡◌, ◌≤◌, IfOk, option_map, string_bytes};
ghost use Rattle.rw_report.specs.Outcome.{outcome_of};
ghost use Rattle.rw_report.specs.Whole.{trace_of_run, whole_of};

use crate::heading::push_headed;
use crate::whole::{Telling, push_section, push_table};
use rw_base::{NoMemory, StepNo};
use rw_model::Basin;
use rw_run::Run;
use std::alloc::Global;

/// Returns the text of the section of the batch of this number: a line on how its run ended; where timesteps are given that were
/// run again, a line on them; a line of column names, and a line for each closed timestep with its number, the moment at which it
/// ends and the values of all slots, in the base units of their dimensions and in the order of their numbers; with `flags` a
/// table of who wrote each value and its priority; with `trace` what happened, line by line. What is not asked for is not made,
/// and a trace that was not kept has no line. Every line ends in a line feed, and an unknown value is nothing. An object or a
/// slot that a fault names and the basin does not have is written as nothing. The one error is want of memory. `docs/FORMATS.md`
/// has it under "Table" and "Reruns, flags and trace".
pub fn section(
    alloc: Global,
    basin: &Basin,
    batch: u32,
    run: &Run,
    reran: Option<&[StepNo]>,
    flags: bool,
    trace: bool,
) -> Result<Vec<u8>, NoMemory>
    requires closed { run.now.closed ≤ basin.now.control.stamps.count }
    ensures text { IfOk result (λ text. text.items
        ≡ whole_of basin.now batch (outcome_of run.now)
        (option_map (λ steps. steps.now) reran.entry) flags trace) }
{
    let telling = Telling {
        batch,
        reran,
        flags,
        trace,
    };
    let text = section_text(alloc, basin, run, &telling)?;
    Ok(text.into_bytes())
}

/// Returns that text, so that more can be appended.
pub fn section_text(
    alloc: Global,
    basin: &Basin,
    run: &Run,
    telling: &Telling<'_>,
) -> Result<String, NoMemory>
    requires closed { run.now.closed ≤ basin.now.control.stamps.count }
    ensures text { IfOk result (λ text. string_bytes text
        ≡ whole_of basin.now telling.now.batch (outcome_of run.now)
        (option_map (λ steps. steps.now) telling.now.reran) telling.now.flags telling.now.trace) }
{
    let mut text = String::new(alloc);
    push_section(alloc, &mut text, basin, run, telling)?;
    Ok(text)
}

/// Returns the text of the section of the trace of this number: a line on how its run ended, and the table, as `section` writes
/// them. The one error is want of memory.
pub fn trace_section(
    alloc: Global,
    basin: &Basin,
    trace: u32,
    run: &Run,
) -> Result<Vec<u8>, NoMemory>
    requires closed { run.now.closed ≤ basin.now.control.stamps.count }
    ensures text { IfOk result
        (λ text. text.items ≡ trace_of_run basin.now trace (outcome_of run.now)) }
{
    let mut text = String::new(alloc);
    push_headed(&mut text, basin, "# trace ", trace, &run.end)?;
    push_table(alloc, &mut text, basin, run)?;
    Ok(text.into_bytes())
}
