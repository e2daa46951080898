//! Writes the line on the run of the sample.
ghost use Rattle.std.specs.Prelude.{◌≡◌, ◌++◌, IfOk, OnOk, string_bytes};
ghost use Rattle.rw_report.specs.Outcome.{outcome_of};
ghost use Rattle.rw_sample.specs.Line.{end_word, line_with, sample_line};

use crate::counted::{Counted, count_in};
use crate::storage::storage_in;
use rw_base::{NoMemory, StepNo};
use rw_model::Basin;
use rw_run::{Run, RunEnd};
use std::alloc::Global;
use std::fmt::Write;

fn end_word(end: &RunEnd) -> &'static str
    ensures { result.now ≡ end_word end.now }
{
    match end {
        RunEnd::Settled => "settled",
        RunEnd::Fault(_) => "fault",
    }
}

fn push_line(
    text: &mut String,
    seed: u64,
    word: &str,
    dispatches: u64,
    firings: u64,
    storage: i128,
) -> Result<(), NoMemory>
    ensures { OnOk result (string_bytes text.new
        ≡ string_bytes text.old ++ line_with seed word.now dispatches firings storage) }
{
    writeln!(
        text,
        "sample {seed} {word} steps 365 dispatches {dispatches} firings {firings} storage {storage}"
    )?;
    Ok(())
}

/// Returns the line on the run of the sample of a seed: how it ended, how many timesteps there are, how many dispatches and
/// firings its trace has, and the sum of the storages that are known at the last timestep, in m3. In a trace that was not kept
/// nothing is counted. The one error is want of memory.
pub fn sample_line(alloc: Global, basin: &Basin, seed: u64, run: &Run) -> Result<Vec<u8>, NoMemory>
    ensures text { IfOk result (λ text. text.items
        ≡ sample_line basin.now seed (outcome_of run.now)) }
{
    let word = end_word(&run.end);
    let dispatches = count_in(Counted::Dispatches, &run.trace);
    let firings = count_in(Counted::Firings, &run.trace);
    let storage = storage_in(basin, &run.series, StepNo(365));
    let mut text = String::new(alloc);
    push_line(&mut text, seed, word, dispatches, firings, storage)?;
    Ok(text.into_bytes())
}
