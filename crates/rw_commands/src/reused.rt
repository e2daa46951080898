//! Writes the sections of a run by a policy that reuses timesteps after a batch of edits.
ghost use Rattle.std.specs.Prelude.{◌≡◌, ◌≤◌, ◌+◌, length, map, option_map, IfOk, MatchResult, Ok, is_some, true};
ghost use Rattle.std.specs.List.{All};
ghost use Rattle.rpl_verify.specs.Verified.{verified};
ghost use Rattle.rw_inputs.specs.Edits.{IsBatch};
ghost use Rattle.rw_inputs.specs.Inputs.{IsInputsOf};
ghost use Rattle.rw_io.specs.Outside.{change};
ghost use Rattle.rw_method.specs.Catalogue.{AreInOrder};
ghost use Rattle.rw_report.specs.Sheet.{AreToldOf};
ghost use Rattle.rw_rerun.specs.Session.{IsSessionOf};
ghost use Rattle.rw_series.specs.Series.{held};
ghost use Rattle.rw_commands.specs.Policy.{PolicyFile as Rules};
ghost use Rattle.rw_commands.specs.Reused.{CanTell, IsNextSection, WritesFrom, told_of};
ghost use Rattle.rw_commands.specs.RunText.{CountsSections, IsCodeOf, IsRulesText};
ghost use Rattle.rw_commands.specs.Sections.{AppendsAll, AppendsOne, GivenInputs, StopsAmong, StopsAtOne, first_given};

use crate::Refusal;
use crate::extras::Extras;
use crate::sections::first_of;
use rpl_fires::Fires;
use rw_base::{Ledger, NoMemory, StepNo, Steps};
use rw_engine::{RunEnd, RunSetup};
use rw_inputs::{Batch, Inputs};
use rw_io::{Sink, WriteFault, write_pieces};
use rw_report::law::texts_of_runs;
use rw_report::{Sheet, Telling};
use rw_rerun::Session;
use std::alloc::Global;
use std::mem::drop;

// The timesteps that are told in the section of this number.
fn told<'s>(session: &'s Session<'_>, number: u32) -> Option<&'s [StepNo]>
    ensures { option_map (λ steps. steps.now) result
        ≡ told_of number session.entry.now.state.reran }
{
    if number == 0 {
        None
    } else {
        Some(session.reran())
    }
}

// Tells the section of a session's run, and answers how that ended.
fn tell_run(
    session: &Session<'_>,
    extras: Extras,
    number: u32,
    sheet: &mut Sheet<'_>,
) -> Result<RunEnd, NoMemory>
    requires can { CanTell session.now.setup.basin.now session.now.setup.policy.now extras
        session.now.state sheet.old }
    ensures text { (policy : Rules) (given : GivenInputs)
        → IsCodeOf session.now.setup.basin.now policy session.now.setup.policy.now
        → IsNextSection session.now.setup.basin.now policy number given session.now.state
        → IfOk result (λ end. IsRulesText session.now.setup.basin.now policy extras
        number given end sheet.new.text) }
    ensures sheet { sheet.new.basin ≡ sheet.old.basin }
    ensures values { IfOk result (λ end. AreToldOf session.now.setup.basin.now
        (held session.now.state.engine.series) sheet.new.values) }
{
    texts_of_runs();
    let run = session.run();
    let reran = told(session, number);
    let telling = Telling {
        batch: number,
        reran,
        flags: extras.flags,
        trace: extras.trace,
    };
    let same = session.same();
    sheet.tell(run, &telling, same)?;
    Ok(run.end)
}

// Writes the section of a session's run, and answers how that ended.
fn write_run<K: Sink>(
    session: &Session<'_>,
    extras: Extras,
    number: u32,
    sheet: &mut Sheet<'_>,
    out: &mut K,
) -> Result<RunEnd, Refusal>
    requires can { CanTell session.now.setup.basin.now session.now.setup.policy.now extras
        session.now.state sheet.old }
    ensures out { (policy : Rules) (given : GivenInputs)
        → IsCodeOf session.now.setup.basin.now policy session.now.setup.policy.now
        → IsNextSection session.now.setup.basin.now policy number given session.now.state
        → MatchResult result
        (AppendsOne (IsRulesText session.now.setup.basin.now policy extras)
        number given (change (K.seen out.old) (K.seen out.new)))
        (StopsAtOne (IsRulesText session.now.setup.basin.now policy extras)
        number given (change (K.seen out.old) (K.seen out.new))) }
    ensures sheet { sheet.new.basin ≡ sheet.old.basin }
    ensures values { IfOk result (λ end. AreToldOf session.now.setup.basin.now
        (held session.now.state.engine.series) sheet.new.values) }
{
    let end = match tell_run(session, extras, number, sheet) {
        Ok(end) => end,
        Err(NoMemory) => return Err(Refusal::NoMemory),
    };
    match write_pieces(out, &sheet.text()) {
        Ok(()) => Ok(end),
        Err(WriteFault) => Err(Refusal::CannotWrite),
    }
}

// Writes the section of a session's run, and one after each batch that is left.
fn write_from<K: Sink, L: Ledger, M: Fires>(
    machine: &mut M,
    session: &mut Session<'_>,
    extras: Extras,
    number: u32,
    batches: &[Batch],
    steps: &mut Steps<L>,
    sheet: &mut Sheet<'_>,
    out: &mut K,
) -> Result<RunEnd, Refusal>
    requires can { CanTell session.old.setup.basin.now session.old.setup.policy.now extras
        session.old.state sheet.old }
    requires order { AreInOrder
        (map (λ b. code (b.vtable, b.value)) session.old.setup.methods.now.methods.items) }
    requires batches { All (IsBatch session.old.setup.basin.now) batches.now }
    requires few { number + length batches.now ≤ 64 }
    ensures { (policy : Rules) (given : GivenInputs)
        → IsCodeOf session.old.setup.basin.now policy session.old.setup.policy.now
        → IsNextSection session.old.setup.basin.now policy number given session.old.state
        → WritesFrom session.old.setup.basin.now policy extras number given batches.now
        (length session.old.state.reran) (change (K.seen out.old) (K.seen out.new))
        (change steps.old steps.new) result }
{
    let end = match write_run(session, extras, number, sheet, out) {
        Ok(end) => end,
        Err(refusal) => return Err(refusal),
    };
    match first_of(batches) {
        None => Ok(end),
        Some((batch, rest)) => match session.apply(machine, batch, steps) {
            Ok(()) => write_from(
                machine,
                session,
                extras,
                number + 1,
                rest,
                steps,
                sheet,
                out,
            ),
            Err(NoMemory) => Err(Refusal::NoMemory),
        },
    }
}

// The same from a session's first run on, on a sheet of its own.
fn write_on_sheet<K: Sink, L: Ledger, M: Fires>(
    alloc: Global,
    machine: &mut M,
    session: &mut Session<'_>,
    extras: Extras,
    batches: &[Batch],
    steps: &mut Steps<L>,
    out: &mut K,
) -> Result<RunEnd, Refusal>
    requires made { IsSessionOf session.old.setup.basin.now session.old.setup.policy.now
        session.old.state }
    requires traced { is_some session.old.state.engine.trace ≡ extras.trace }
    requires reuse { extras.reuse ≡ true }
    requires order { AreInOrder
        (map (λ b. code (b.vtable, b.value)) session.old.setup.methods.now.methods.items) }
    requires batches { All (IsBatch session.old.setup.basin.now) batches.now }
    requires few { length batches.now ≤ 64 }
    ensures { (policy : Rules) (given : GivenInputs)
        → IsCodeOf session.old.setup.basin.now policy session.old.setup.policy.now
        → IsNextSection session.old.setup.basin.now policy 0 given session.old.state
        → WritesFrom session.old.setup.basin.now policy extras 0 given batches.now
        (length session.old.state.reran) (change (K.seen out.old) (K.seen out.new))
        (change steps.old steps.new) result }
{
    let mut sheet = Sheet::new(alloc, session.setup.basin, !batches.is_empty());
    write_from(machine, session, extras, 0, batches, steps, &mut sheet, out)
}

// The same of a session that ends with it.
fn write_session<K: Sink, L: Ledger, M: Fires>(
    alloc: Global,
    machine: &mut M,
    mut session: Session<'_>,
    extras: Extras,
    batches: &[Batch],
    steps: &mut Steps<L>,
    out: &mut K,
) -> Result<RunEnd, Refusal>
    requires made { IsSessionOf session.setup.basin.now session.setup.policy.now session.state }
    requires traced { is_some session.state.engine.trace ≡ extras.trace }
    requires reuse { extras.reuse ≡ true }
    requires order { AreInOrder
        (map (λ b. code (b.vtable, b.value)) session.setup.methods.now.methods.items) }
    requires batches { All (IsBatch session.setup.basin.now) batches.now }
    requires few { length batches.now ≤ 64 }
    ensures { (policy : Rules) (given : GivenInputs)
        → IsCodeOf session.entry.setup.basin.now policy session.entry.setup.policy.now
        → IsNextSection session.entry.setup.basin.now policy 0 given session.entry.state
        → WritesFrom session.entry.setup.basin.now policy extras 0 given batches.now
        (length session.entry.state.reran) (change (K.seen out.old) (K.seen out.new))
        (change steps.old steps.new) result }
{
    let ended = write_on_sheet(alloc, machine, &mut session, extras, batches, steps, out);
    drop(session);
    ended
}

/// Writes a section for inputs and one after each batch of edits, after which the timesteps alone are run again that a batch
/// touches, and answers how the run of the last one ended.
pub(crate) fn write_reused<K: Sink, L: Ledger, M: Fires>(
    alloc: Global,
    machine: &mut M,
    setup: &RunSetup<'_>,
    extras: Extras,
    inputs: Inputs,
    batches: &[Batch],
    steps: &mut Steps<L>,
    out: &mut K,
) -> Result<RunEnd, Refusal>
    requires fits { verified setup.now.basin.now setup.now.policy.now.blocks
        ≡ Ok setup.now.policy.now }
    requires order { AreInOrder
        (map (λ b. code (b.vtable, b.value)) setup.now.methods.now.methods.items) }
    requires inputs { IsInputsOf setup.now.basin.now inputs }
    requires batches { All (IsBatch setup.now.basin.now) batches.now }
    requires few { length batches.now ≤ 64 }
    requires reuse { extras.reuse ≡ true }
    ensures text { (policy : Rules) → IsCodeOf setup.now.basin.now policy setup.now.policy.now
        → MatchResult result
        (AppendsAll (IsRulesText setup.now.basin.now policy extras)
        0 (first_given inputs) batches.now (change (K.seen out.old) (K.seen out.new)))
        (StopsAmong (IsRulesText setup.now.basin.now policy extras)
        0 (first_given inputs) batches.now (change (K.seen out.old) (K.seen out.new))) }
    ensures counted { (policy : Rules) → IsCodeOf setup.now.basin.now policy setup.now.policy.now
        → IfOk result (λ end. CountsSections setup.now.basin.now policy inputs batches.now
        (change steps.old steps.new)) }
{
    let own = RunSetup {
        basin: setup.basin,
        methods: setup.methods,
        policy: setup.policy,
        predefs: setup.predefs,
    };
    match Session::start_of(alloc, machine, own, inputs, extras.trace, steps) {
        Ok(session) => write_session(alloc, machine, session, extras, batches, steps, out),
        Err(NoMemory) => Err(Refusal::NoMemory),
    }
}
