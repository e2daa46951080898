//! Does the job of a command: reads its files, and writes the text that it asks for.
ghost use Rattle.std.specs.Prelude.{◌≡◌, ◌≢◌, ◌≤◌, ℕ, Err, List, [], length, map, option_map, unwrap_or, IfErr, IfOk, IsTrue, MatchResult, Ok};
ghost use Rattle.std.specs.List.{All};
ghost use Rattle.rw_inputs.specs.Edits.{IsBatch};
ghost use Rattle.rw_inputs.specs.Inputs.{IsInputsOf};
ghost use Rattle.rw_io.specs.Outside.{change};
ghost use Rattle.rw_method.specs.Catalogue.{AreInOrder};
ghost use Rattle.rpl_verify.specs.Verified.{verified};
ghost use Rattle.rw_commands.specs.Command.{command_said};
ghost use Rattle.rw_commands.specs.Policy.{PolicyFile};
ghost use Rattle.rw_commands.specs.Ready.{AreReady};
ghost use Rattle.rw_commands.specs.Refusal.{Cause};
ghost use Rattle.rw_commands.specs.RunText.{CountsSections, IsCodeOf, IsRulesText};
ghost use Rattle.rw_commands.specs.Sections.{AppendsAll, StopsAmong, first_given};
ghost use Rattle.rw_commands.specs.Reading.{FilesRead};
ghost use Rattle.rw_commands.specs.Seen.{files_seen};
ghost use Rattle.rw_words.specs.declared.job.Job.TheVariants as J;
ghost use Rattle.rw_commands.specs.Written.{Appends, CountsOfFiles, CountsReused, IsOne, Stops, WritesAll, status_of_end};

use crate::Refusal;
use crate::balance::balance_by_code;
use crate::check::budgets;
use crate::coded::code_of;
use crate::command::Command;
use crate::compile::code_text;
use crate::extras::Extras;
use crate::files::{Files, read_files};
use crate::many::write_many;
use crate::migrate::migrated_text;
use crate::reused::write_reused;
use crate::sample::sample_by_code;
use crate::sections::write_sections;
use crate::simulate::write_without_rules;
use crate::why::why_by_code;
use rpl_fires::Fires;
use rpl_predef::Predefs;
use rpl_verify::Verified;
use rw_base::{Ledger, NoMemory, Steps};
use rw_engine::{RunEnd, RunSetup};
use rw_inputs::{Batch, Inputs};
use rw_io::{Shelf, Sink, WriteFault, write_all};
use rw_method::Catalogue;
use rw_words::Job;
use std::alloc::Global;
use std::mem::forget;

// The status of a run that was written.
fn status_of_run(end: &RunEnd) -> u8
    ensures { result ≡ status_of_end end.now }
{
    match end {
        RunEnd::Settled => 0,
        RunEnd::Fault(_) => 1,
    }
}

// Writes the section of the run of the files without rules.
fn simulate<K: Sink, L: Ledger, M: Fires>(
    alloc: Global,
    files: &Files,
    methods: &Catalogue,
    predefs: &Predefs,
    machine: &mut M,
    extras: Extras,
    steps: &mut Steps<L>,
    out: &mut K,
) -> Result<u8, Refusal>
    requires order { AreInOrder (map (λ b. code (b.vtable, b.value)) methods.now.methods.items) }
    requires ready { AreReady J.Simulate files.now }
    ensures { MatchResult result
        (Appends J.Simulate extras (files_seen files.now)
        (change (K.seen out.old) (K.seen out.new)))
        (Stops J.Simulate extras (files_seen files.now)
        (change (K.seen out.old) (K.seen out.new))) }
{
    let Some(inputs) = &files.inputs else {
        unreachable!();
    };
    let none = Verified::none(alloc);
    let setup = RunSetup {
        basin: &files.basin,
        methods,
        policy: &none,
        predefs,
    };
    match write_without_rules(alloc, machine, &setup, extras, inputs, steps, out) {
        Ok(end) => Ok(status_of_run(&end)),
        Err(refusal) => Err(refusal),
    }
}

// The budgets of the policy of the files, and the status with which they are written.
fn check(alloc: Global, files: &Files) -> Result<(Vec<u8>, u8), NoMemory>
    requires ready { AreReady J.Check files.now }
    ensures { (extras : Extras) → IfOk result
        (λ pair. IsOne J.Check extras (files_seen files.now) pair.1 pair.0.items) }
{
    let Some(policy) = &files.policy else {
        unreachable!();
    };
    Ok((budgets(alloc, policy)?.into_bytes(), 0))
}

// The code of the policy of the files, and the status with which it is written.
fn compile(alloc: Global, files: &Files) -> Result<(Vec<u8>, u8), NoMemory>
    requires ready { AreReady J.Compile files.now }
    ensures { (extras : Extras) → IfOk result
        (λ pair. IsOne J.Compile extras (files_seen files.now) pair.1 pair.0.items) }
{
    let Some(policy) = &files.policy else {
        unreachable!();
    };
    Ok((code_text(alloc, policy, &files.basin)?, 0))
}

// How the cell of the files came to what it holds in the run by their policy, and the status with which that is written. They are
// left without their policy.
fn tell_why<L: Ledger, M: Fires>(
    alloc: Global,
    files: &mut Files,
    methods: &Catalogue,
    predefs: &Predefs,
    machine: &mut M,
    steps: &mut Steps<L>,
) -> Result<(Vec<u8>, u8), NoMemory>
    requires order { AreInOrder (map (λ b. code (b.vtable, b.value)) methods.now.methods.items) }
    requires ready { AreReady J.Why files.old }
    ensures { (extras : Extras) → IfOk result
        (λ pair. IsOne J.Why extras (files_seen files.old) pair.1 pair.0.items) }
{
    let Some(policy) = files.policy.take() else {
        unreachable!();
    };
    let by = code_of(alloc, policy, &files.basin)?;
    let Some(inputs) = &files.inputs else {
        unreachable!();
    };
    let Some(cell) = files.cell else {
        unreachable!();
    };
    let setup = RunSetup {
        basin: &files.basin,
        methods,
        policy: &by,
        predefs,
    };
    let (text, end) = why_by_code(alloc, machine, &setup, inputs, cell, steps)?;
    Ok((text, status_of_run(&end)))
}

// The books of the run of the files by their policy, and the status with which they are written. The files are left without their policy.
fn balance<L: Ledger, M: Fires>(
    alloc: Global,
    files: &mut Files,
    methods: &Catalogue,
    predefs: &Predefs,
    machine: &mut M,
    steps: &mut Steps<L>,
) -> Result<(Vec<u8>, u8), NoMemory>
    requires order { AreInOrder (map (λ b. code (b.vtable, b.value)) methods.now.methods.items) }
    requires ready { AreReady J.Balance files.old }
    ensures { (extras : Extras) → IfOk result
        (λ pair. IsOne J.Balance extras (files_seen files.old) pair.1 pair.0.items) }
{
    let Some(policy) = files.policy.take() else {
        unreachable!();
    };
    let by = code_of(alloc, policy, &files.basin)?;
    let Some(inputs) = &files.inputs else {
        unreachable!();
    };
    let setup = RunSetup {
        basin: &files.basin,
        methods,
        policy: &by,
        predefs,
    };
    let (text, end) = balance_by_code(alloc, machine, &setup, inputs, steps)?;
    Ok((text, status_of_run(&end)))
}

// The model of the files in format 2, and the status with which it is written.
fn migrate(alloc: Global, files: &Files) -> Result<(Vec<u8>, u8), NoMemory>
    requires ready { AreReady J.Migrate files.now }
    ensures { (extras : Extras) → IfOk result
        (λ pair. IsOne J.Migrate extras (files_seen files.now) pair.1 pair.0.items) }
{
    let Some(text) = &files.text else {
        unreachable!();
    };
    Ok((migrated_text(alloc, text)?, 0))
}

// The line on the run of the sample of a seed, whose files these are, and the status with which it is written. They are left without
// their policy.
fn sample<L: Ledger, M: Fires>(
    alloc: Global,
    files: &mut Files,
    seed: u64,
    methods: &Catalogue,
    predefs: &Predefs,
    machine: &mut M,
    steps: &mut Steps<L>,
) -> Result<(Vec<u8>, u8), NoMemory>
    requires order { AreInOrder (map (λ b. code (b.vtable, b.value)) methods.now.methods.items) }
    requires ready { AreReady (J.Sample seed) files.old }
    ensures { (extras : Extras) → IfOk result
        (λ pair. IsOne (J.Sample seed) extras (files_seen files.old) pair.1 pair.0.items) }
{
    let Some(policy) = files.policy.take() else {
        unreachable!();
    };
    let by = code_of(alloc, policy, &files.basin)?;
    let Some(inputs) = &files.inputs else {
        unreachable!();
    };
    let setup = RunSetup {
        basin: &files.basin,
        methods,
        policy: &by,
        predefs,
    };
    let text = sample_by_code(alloc, machine, &setup, inputs, seed, steps)?;
    Ok((text, 0))
}

// Writes a text that was made, unless memory was wanting for it.
fn write_made<K: Sink>(made: Result<(Vec<u8>, u8), NoMemory>, out: &mut K) -> Result<u8, Refusal>
    ensures { (job : Job) (extras : Extras) (files : FilesRead)
        → IfOk made (λ pair. IsOne job extras files pair.1 pair.0.items)
        → MatchResult result
        (Appends job extras files (change (K.seen out.old) (K.seen out.new)))
        (Stops job extras files (change (K.seen out.old) (K.seen out.new))) }
{
    let (text, status) = match made {
        Ok(pair) => pair,
        Err(NoMemory) => return Err(Refusal::NoMemory),
    };
    match write_all(out, &text) {
        Ok(()) => Ok(status),
        Err(WriteFault) => Err(Refusal::CannotWrite),
    }
}

// The batches of a file, where there is one.
fn batches_of(read: &Option<Vec<Batch>>) -> &[Batch]
    ensures { result.now ≡ unwrap_or (option_map (λ batches. batches.items) read.now) [] }
{
    match read {
        Some(batches) => batches,
        None => &[],
    }
}

// Writes the sections of the runs by code from inputs and after batches of edits, and takes timesteps over where that is asked for.
fn write_runs<K: Sink, L: Ledger, M: Fires>(
    alloc: Global,
    machine: &mut M,
    setup: &RunSetup<'_>,
    extras: Extras,
    inputs: Inputs,
    batches: &[Batch],
    steps: &mut Steps<L>,
    out: &mut K,
) -> Result<RunEnd, Refusal>
    requires order { AreInOrder
        (map (λ b. code (b.vtable, b.value)) setup.now.methods.now.methods.items) }
    requires fits { verified setup.now.basin.now setup.now.policy.now.blocks
        ≡ Ok setup.now.policy.now }
    requires inputs { IsInputsOf setup.now.basin.now inputs }
    requires batches { All (IsBatch setup.now.basin.now) batches.now }
    requires few { length batches.now ≤ 64 }
    ensures text { (policy : PolicyFile) → IsCodeOf setup.now.basin.now policy setup.now.policy.now
        → MatchResult result
        (AppendsAll (IsRulesText setup.now.basin.now policy extras)
        0 (first_given inputs) batches.now (change (K.seen out.old) (K.seen out.new)))
        (StopsAmong (IsRulesText setup.now.basin.now policy extras)
        0 (first_given inputs) batches.now (change (K.seen out.old) (K.seen out.new))) }
    ensures counted { (policy : PolicyFile)
        → IsCodeOf setup.now.basin.now policy setup.now.policy.now → IsTrue extras.reuse
        → IfOk result
        (λ end. CountsSections setup.now.basin.now policy inputs batches.now
        (change steps.old steps.new)) }
{
    if extras.reuse {
        write_reused(alloc, machine, setup, extras, inputs, batches, steps, out)
    } else {
        write_sections(alloc, machine, setup, extras, inputs, batches, steps, out)
    }
}

// The status of runs that were written, where they were.
fn status_after(ended: Result<RunEnd, Refusal>) -> Result<u8, Refusal>
    ensures { MatchResult ended (λ end. result ≡ Ok (status_of_end end)) (λ why. result ≡ Err why) }
{
    match ended {
        Ok(end) => Ok(status_of_run(&end)),
        Err(refusal) => Err(refusal),
    }
}

// Writes the sections of the runs of the files by their policy. They are left without their policy and their inputs. Its code isn't
// freed: the process ends behind it, as behind the files.
fn run<K: Sink, L: Ledger, M: Fires>(
    alloc: Global,
    files: &mut Files,
    methods: &Catalogue,
    predefs: &Predefs,
    machine: &mut M,
    extras: Extras,
    steps: &mut Steps<L>,
    out: &mut K,
) -> Result<u8, Refusal>
    requires order { AreInOrder (map (λ b. code (b.vtable, b.value)) methods.now.methods.items) }
    requires ready { AreReady J.Run files.old }
    ensures text { MatchResult result
        (Appends J.Run extras (files_seen files.old) (change (K.seen out.old) (K.seen out.new)))
        (Stops J.Run extras (files_seen files.old) (change (K.seen out.old) (K.seen out.new))) }
    ensures counted { IsTrue extras.reuse → IfOk result
        (λ status. CountsOfFiles (files_seen files.old) (change steps.old steps.new)) }
{
    let Some(policy) = files.policy.take() else {
        unreachable!();
    };
    let by = match code_of(alloc, policy, &files.basin) {
        Ok(by) => by,
        Err(NoMemory) => return Err(Refusal::NoMemory),
    };
    let Some(inputs) = files.inputs.take() else {
        unreachable!();
    };
    let batches = batches_of(&files.edits);
    let setup = RunSetup {
        basin: &files.basin,
        methods,
        policy: &by,
        predefs,
    };
    let written = write_runs(alloc, machine, &setup, extras, inputs, batches, steps, out);
    forget(by);
    status_after(written)
}

// Writes the sections of the runs of the files' scenarios by their policy, and the summary. They are left without their policy.
fn many<K: Sink, L: Ledger, M: Fires>(
    alloc: Global,
    files: &mut Files,
    methods: &Catalogue,
    predefs: &Predefs,
    machine: &mut M,
    steps: &mut Steps<L>,
    out: &mut K,
) -> Result<u8, Refusal>
    requires order { AreInOrder (map (λ b. code (b.vtable, b.value)) methods.now.methods.items) }
    requires ready { AreReady J.Mrm files.old }
    ensures { (extras : Extras) → MatchResult result
        (Appends J.Mrm extras (files_seen files.old) (change (K.seen out.old) (K.seen out.new)))
        (Stops J.Mrm extras (files_seen files.old) (change (K.seen out.old) (K.seen out.new))) }
{
    let Some(policy) = files.policy.take() else {
        unreachable!();
    };
    let by = match code_of(alloc, policy, &files.basin) {
        Ok(by) => by,
        Err(NoMemory) => return Err(Refusal::NoMemory),
    };
    let Some(inputs) = &files.inputs else {
        unreachable!();
    };
    let scenarios = batches_of(&files.scenarios);
    let setup = RunSetup {
        basin: &files.basin,
        methods,
        policy: &by,
        predefs,
    };
    let written = write_many(alloc, machine, &setup, inputs, scenarios, steps, out);
    forget(by);
    written
}

// The one text of a job that makes it whole, and the status with which it is written.
fn text_of_job<L: Ledger, M: Fires>(
    alloc: Global,
    job: Job,
    files: &mut Files,
    methods: &Catalogue,
    predefs: &Predefs,
    machine: &mut M,
    extras: Extras,
    steps: &mut Steps<L>,
) -> Result<(Vec<u8>, u8), NoMemory>
    requires order { AreInOrder (map (λ b. code (b.vtable, b.value)) methods.now.methods.items) }
    requires ready { AreReady job files.old }
    requires one { job ≢ J.Mrm }
    requires lent { job ≢ J.Run }
    requires whole { job ≢ J.Simulate }
    ensures { IfOk result (λ pair. IsOne job extras (files_seen files.old) pair.1 pair.0.items) }
{
    match job {
        Job::Check => check(alloc, files),
        Job::Compile => compile(alloc, files),
        Job::Why => tell_why(alloc, files, methods, predefs, machine, steps),
        Job::Sample(seed) => sample(alloc, files, seed, methods, predefs, machine, steps),
        Job::Balance => balance(alloc, files, methods, predefs, machine, steps),
        Job::Migrate => migrate(alloc, files),
        Job::Mrm => unreachable!(),
        Job::Run => unreachable!(),
        Job::Simulate => unreachable!(),
    }
}

// Writes the text of a job by what its files say, and answers the status of that.
fn write_of<K: Sink, L: Ledger, M: Fires>(
    alloc: Global,
    job: Job,
    files: &mut Files,
    methods: &Catalogue,
    predefs: &Predefs,
    machine: &mut M,
    extras: Extras,
    steps: &mut Steps<L>,
    out: &mut K,
) -> Result<u8, Refusal>
    requires order { AreInOrder (map (λ b. code (b.vtable, b.value)) methods.now.methods.items) }
    requires ready { AreReady job files.old }
    ensures text { MatchResult result
        (Appends job extras (files_seen files.old) (change (K.seen out.old) (K.seen out.new)))
        (Stops job extras (files_seen files.old) (change (K.seen out.old) (K.seen out.new))) }
    ensures counted { job ≡ J.Run → IsTrue extras.reuse → IfOk result
        (λ status. CountsOfFiles (files_seen files.old) (change steps.old steps.new)) }
{
    match job {
        Job::Mrm => many(alloc, files, methods, predefs, machine, steps, out),
        Job::Run => run(alloc, files, methods, predefs, machine, extras, steps, out),
        Job::Simulate => simulate(alloc, files, methods, predefs, machine, extras, steps, out),
        _ => {
            let made = text_of_job(alloc, job, files, methods, predefs, machine, extras, steps);
            write_made(made, out)
        }
    }
}

// The same of files that end with it. They are not freed: the process ends behind it and gives back all memory at once, where a
// tree freed node by node takes a fifth of the time that a large ruleset is checked in.
fn write_job<K: Sink, L: Ledger, M: Fires>(
    alloc: Global,
    job: Job,
    mut files: Files,
    methods: &Catalogue,
    predefs: &Predefs,
    machine: &mut M,
    extras: Extras,
    steps: &mut Steps<L>,
    out: &mut K,
) -> Result<u8, Refusal>
    requires order { AreInOrder (map (λ b. code (b.vtable, b.value)) methods.now.methods.items) }
    requires ready { AreReady job files }
    ensures text { MatchResult result
        (Appends job extras (files_seen files) (change (K.seen out.old) (K.seen out.new)))
        (Stops job extras (files_seen files) (change (K.seen out.old) (K.seen out.new))) }
    ensures counted { job ≡ J.Run → IsTrue extras.reuse → IfOk result
        (λ status. CountsOfFiles (files_seen files) (change steps.old steps.new)) }
{
    let written = write_of(
        alloc, job, &mut files, methods, predefs, machine, extras, steps, out,
    );
    forget(files);
    written
}

/// Writes the text that the command asks for, and answers the status of that.
pub(crate) fn perform<S: Shelf, K: Sink, L: Ledger, M: Fires>(
    alloc: Global,
    command: &Command<'_>,
    shelf: &mut S,
    out: &mut K,
    methods: &Catalogue,
    predefs: &Predefs,
    machine: &mut M,
    steps: &mut Steps<L>,
) -> Result<u8, Refusal>
    requires order { AreInOrder (map (λ b. code (b.vtable, b.value)) methods.now.methods.items) }
    ensures wrote { IfOk result (WritesAll (command_said command.now) (S.seen shelf.old).holds
        (change (K.seen out.old) (K.seen out.new))) }
    ensures cause { IfErr result (Cause (command_said command.now)
        (change (S.seen shelf.old) (S.seen shelf.new)) (change (K.seen out.old) (K.seen out.new))) }
    ensures counted { IfOk result (λ status. CountsReused (command_said command.now)
        (S.seen shelf.old).holds (change steps.old steps.new)) }
    ensures held { (p : List ℕ) → (S.seen shelf.new).holds p ≡ (S.seen shelf.old).holds p }
{
    let files = match read_files(alloc, command, shelf) {
        Ok(files) => files,
        Err(refusal) => return Err(refusal),
    };
    let (job, extras) = (command.words.job, command.extras());
    match write_job(
        alloc, job, files, methods, predefs, machine, extras, steps, out,
    ) {
        Ok(status) => Ok(status),
        Err(refusal) => Err(refusal),
    }
}
