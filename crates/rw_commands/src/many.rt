//! Runs scenarios by code, writes the section of each as soon as it is made, and then their summary.
ghost use Rattle.std.specs.Prelude.{◌≡◌, ◌≤◌, ◌<◌, ◌+◌, length, map, if◌then◌else◌, IfOk, MatchResult, Ok};
ghost use Rattle.std.specs.List.{All};
ghost use Rattle.rw_inputs.specs.Edits.{IsBatch};
ghost use Rattle.rw_inputs.specs.Inputs.{IsInputsOf};
ghost use Rattle.rw_io.specs.Outside.{change};
ghost use Rattle.rw_method.specs.Catalogue.{AreInOrder};
ghost use Rattle.rw_mrm.specs.Summary.{summary_by};
ghost use Rattle.rw_mrm.specs.Tally.{is_settled, no_runs};
ghost use Rattle.rpl_verify.specs.Verified.{verified};
ghost use Rattle.rw_commands.specs.Many.{AppendsMany, AreFirstPieces};
ghost use Rattle.rw_commands.specs.Policy.{PolicyFile as Rules};
ghost use Rattle.rw_commands.specs.RunText.{IsCodeOf};
ghost use Rattle.rw_commands.specs.Scenarios.{AppendsText, ComesAfter, StopsAtScenario, StopsAtText, WritesScenario, WritesScenarios};
ghost use Rattle.rw_commands.specs.Sections.{StopsAmongPieces};

use crate::Refusal;
use rpl_fires::Fires;
use rw_base::{Ledger, NoMemory, Steps};
use rw_engine::{Run, RunEnd, RunSetup, run_all_of};
use rw_inputs::{Batch, Inputs, apply};
use rw_io::{Sink, WriteFault, write_all};
use rw_model::Basin;
use rw_mrm::Tally;
use rw_mrm::law::{summary_of_runs, tallies};
use rw_report::trace_section;
use std::alloc::Global;

// The run of a scenario: from the inputs after its batch alone.
fn run_scenario<L: Ledger, M: Fires>(
    alloc: Global,
    machine: &mut M,
    setup: &RunSetup<'_>,
    inputs: &Inputs,
    batch: &Batch,
    steps: &mut Steps<L>,
) -> Result<Run, NoMemory>
    requires order { AreInOrder
        (map (λ b. code (b.vtable, b.value)) setup.now.methods.now.methods.items) }
    requires fits { verified setup.now.basin.now setup.now.policy.now.blocks
        ≡ Ok setup.now.policy.now }
    requires inputs { IsInputsOf setup.now.basin.now inputs.now }
    requires batch { IsBatch setup.now.basin.now batch.now }
    ensures run { (policy : Rules) → IsCodeOf setup.now.basin.now policy setup.now.policy.now
        → IfOk result (ComesAfter setup.now.basin.now policy inputs.now batch.now) }
    ensures closed { IfOk result (λ run. run.closed ≤ setup.now.basin.now.control.stamps.count) }
{
    let edited = apply(alloc, setup.basin, inputs, batch)?;
    let run = run_all_of(alloc, machine, setup, &edited, false, steps)?;
    Ok(run)
}

// Writes its section, of this number.
fn write_scenario<K: Sink, L: Ledger, M: Fires>(
    alloc: Global,
    machine: &mut M,
    setup: &RunSetup<'_>,
    inputs: &Inputs,
    number: u32,
    batch: &Batch,
    steps: &mut Steps<L>,
    out: &mut K,
) -> Result<Run, Refusal>
    requires order { AreInOrder
        (map (λ b. code (b.vtable, b.value)) setup.now.methods.now.methods.items) }
    requires fits { verified setup.now.basin.now setup.now.policy.now.blocks
        ≡ Ok setup.now.policy.now }
    requires inputs { IsInputsOf setup.now.basin.now inputs.now }
    requires batch { IsBatch setup.now.basin.now batch.now }
    ensures { (policy : Rules) → IsCodeOf setup.now.basin.now policy setup.now.policy.now
        → MatchResult result
        (WritesScenario setup.now.basin.now policy inputs.now batch.now number
        (change (K.seen out.old) (K.seen out.new)))
        (StopsAtScenario setup.now.basin.now policy inputs.now batch.now number
        (change (K.seen out.old) (K.seen out.new))) }
{
    let run = match run_scenario(alloc, machine, setup, inputs, batch, steps) {
        Ok(run) => run,
        Err(NoMemory) => return Err(Refusal::NoMemory),
    };
    let text = match trace_section(alloc, setup.basin, number, &run) {
        Ok(text) => text,
        Err(NoMemory) => return Err(Refusal::NoMemory),
    };
    match write_all(out, &text) {
        Ok(()) => Ok(run),
        Err(WriteFault) => Err(Refusal::CannotWrite),
    }
}

// How many scenarios there are.
fn count_of(batches: &[Batch]) -> u8
    requires { length batches.now ≤ 64 }
    ensures { result ≡ length batches.now }
{
    batches.len() as u8
}

// The status of runs with one more, which ended so.
fn status_with(status: u8, end: &RunEnd) -> u8
    ensures { result ≡ (if is_settled end.now then status else 1) }
{
    match end {
        RunEnd::Settled => status,
        RunEnd::Fault(_) => 1,
    }
}

// Writes the sections of all scenarios, adds their runs to a tally of none, and answers their status.
fn write_scenarios<K: Sink, L: Ledger, M: Fires>(
    alloc: Global,
    machine: &mut M,
    setup: &RunSetup<'_>,
    inputs: &Inputs,
    batches: &[Batch],
    steps: &mut Steps<L>,
    tally: &mut Tally,
    out: &mut K,
) -> Result<u8, Refusal>
    requires order { AreInOrder
        (map (λ b. code (b.vtable, b.value)) setup.now.methods.now.methods.items) }
    requires fits { verified setup.now.basin.now setup.now.policy.now.blocks
        ≡ Ok setup.now.policy.now }
    requires inputs { IsInputsOf setup.now.basin.now inputs.now }
    requires batches { All (IsBatch setup.now.basin.now) batches.now }
    requires few { length batches.now ≤ 64 }
    requires empty { tally.old ≡ no_runs setup.now.basin.now (length batches.now) }
    ensures { (policy : Rules) → IsCodeOf setup.now.basin.now policy setup.now.policy.now
        → MatchResult result
        (WritesScenarios setup.now.basin.now policy inputs.now batches.now (length batches.now)
        (change (K.seen out.old) (K.seen out.new)) tally.new)
        (StopsAmongPieces (AreFirstPieces setup.now.basin.now policy inputs.now batches.now)
        (length batches.now) (change (K.seen out.old) (K.seen out.new))) }
{
    tallies();
    let mut status = 0;
    for place in 0..count_of(batches) {
        let (number, batch) = (u32::from(place) + 1, &batches[usize::from(place)]);
        let run = match write_scenario(alloc, machine, setup, inputs, number, batch, steps, out) {
            Ok(run) => run,
            Err(refusal) => return Err(refusal),
        };
        tally.add(setup.basin, &run);
        status = status_with(status, &run.end);
    }
    Ok(status)
}

// Writes the summary of the runs that were added to a tally.
fn write_summary<K: Sink>(
    alloc: Global,
    basin: &Basin,
    tally: &Tally,
    out: &mut K,
) -> Result<(), Refusal>
    ensures { MatchResult result
        (λ done. AppendsText (summary_by basin.now tally.now)
        (change (K.seen out.old) (K.seen out.new)))
        (StopsAtText (summary_by basin.now tally.now)
        (change (K.seen out.old) (K.seen out.new))) }
{
    let text = match tally.summary(alloc, basin) {
        Ok(text) => text,
        Err(NoMemory) => return Err(Refusal::NoMemory),
    };
    match write_all(out, &text) {
        Ok(()) => Ok(()),
        Err(WriteFault) => Err(Refusal::CannotWrite),
    }
}

/// Writes the section of each scenario, and then the summary of all, and answers the status: 0 where all runs settled, else 1.
pub(crate) fn write_many<K: Sink, L: Ledger, M: Fires>(
    alloc: Global,
    machine: &mut M,
    setup: &RunSetup<'_>,
    inputs: &Inputs,
    batches: &[Batch],
    steps: &mut Steps<L>,
    out: &mut K,
) -> Result<u8, Refusal>
    requires order { AreInOrder
        (map (λ b. code (b.vtable, b.value)) setup.now.methods.now.methods.items) }
    requires fits { verified setup.now.basin.now setup.now.policy.now.blocks
        ≡ Ok setup.now.policy.now }
    requires inputs { IsInputsOf setup.now.basin.now inputs.now }
    requires batches { All (IsBatch setup.now.basin.now) batches.now }
    requires few { length batches.now ≤ 64 }
    ensures { (policy : Rules) → IsCodeOf setup.now.basin.now policy setup.now.policy.now
        → MatchResult result
        (AppendsMany setup.now.basin.now policy inputs.now batches.now
        (change (K.seen out.old) (K.seen out.new)))
        (StopsAmongPieces (AreFirstPieces setup.now.basin.now policy inputs.now batches.now)
        (length batches.now) (change (K.seen out.old) (K.seen out.new))) }
{
    summary_of_runs();
    let mut tally = match Tally::for_basin(alloc, setup.basin, count_of(batches)) {
        Ok(tally) => tally,
        Err(NoMemory) => return Err(Refusal::NoMemory),
    };
    let status = match write_scenarios(
        alloc, machine, setup, inputs, batches, steps, &mut tally, out,
    ) {
        Ok(status) => status,
        Err(refusal) => return Err(refusal),
    };
    match write_summary(alloc, setup.basin, &tally, out) {
        Ok(()) => Ok(status),
        Err(refusal) => Err(refusal),
    }
}
