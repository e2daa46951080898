//! Writes the sections of a run by code, each as soon as it is made.
ghost use Rattle.std.specs.Prelude.{◌≡◌, ◌≤◌, ◌+◌, [], ◌∷◌, false, true, length, map, IfOk, IsTrue, MatchOption, MatchResult, Ok, Option};
ghost use Rattle.std.specs.List.{All};
ghost use Rattle.rw_inputs.specs.Edits.{IsBatch, after_batch};
ghost use Rattle.rw_inputs.specs.Inputs.{Inputs as Rows, IsInputsOf, value_at};
ghost use Rattle.rw_io.specs.Outside.{change};
ghost use Rattle.rw_method.specs.Catalogue.{AreInOrder};
ghost use Rattle.rpl_verify.specs.Verified.{verified};
ghost use Rattle.rw_commands.specs.Policy.{PolicyFile as Rules};
ghost use Rattle.rw_commands.specs.RunText.{IsCodeOf, IsRulesText, tells_asks};
ghost use Rattle.rw_commands.specs.Sections.{AppendsAll, AppendsOne, StopsAmong, StopsAtOne, first_given};

use crate::Refusal;
use crate::alone::write_by_code;
use crate::asked::{asked_by_code, tells_asks};
use crate::extras::Extras;
use crate::run::tell_by_code;
use rpl_fires::Fires;
use rw_base::{Ledger, NoMemory, Steps};
use rw_engine::{RunEnd, RunSetup};
use rw_inputs::{Batch, Inputs, apply};
use rw_io::{Sink, WriteFault, write_all, write_pieces};
use rw_model::Basin;
use rw_report::Sheet;
use std::alloc::Global;

// Writes the section of the run from inputs, with what became of each put, and answers how the run ended.
fn write_asked<K: Sink, L: Ledger, M: Fires>(
    alloc: Global,
    machine: &mut M,
    setup: &RunSetup<'_>,
    extras: Extras,
    number: u32,
    inputs: &Inputs,
    steps: &mut Steps<L>,
    out: &mut K,
) -> Result<RunEnd, Refusal>
    requires order { AreInOrder
        (map (λ b. code (b.vtable, b.value)) setup.now.methods.now.methods.items) }
    requires fits { verified setup.now.basin.now setup.now.policy.now.blocks
        ≡ Ok setup.now.policy.now }
    requires inputs { IsInputsOf setup.now.basin.now inputs.now }
    requires asked { tells_asks extras ≡ true }
    ensures { (policy : Rules) (before : Option Rows)
        → IsCodeOf setup.now.basin.now policy setup.now.policy.now → MatchResult result
        (AppendsOne (IsRulesText setup.now.basin.now policy extras)
        number (record { before = before; inputs = inputs.now })
        (change (K.seen out.old) (K.seen out.new)))
        (StopsAtOne (IsRulesText setup.now.basin.now policy extras)
        number (record { before = before; inputs = inputs.now })
        (change (K.seen out.old) (K.seen out.new))) }
{
    let told = match asked_by_code(alloc, machine, setup, extras, number, inputs, steps) {
        Ok(told) => told,
        Err(NoMemory) => return Err(Refusal::NoMemory),
    };
    match write_all(out, &told.0) {
        Ok(()) => Ok(told.1),
        Err(WriteFault) => Err(Refusal::CannotWrite),
    }
}

// Writes the section of the run from inputs, and answers how the run ended.
fn write_told<K: Sink, L: Ledger, M: Fires>(
    alloc: Global,
    machine: &mut M,
    setup: &RunSetup<'_>,
    extras: Extras,
    number: u32,
    inputs: &Inputs,
    steps: &mut Steps<L>,
    sheet: &mut Sheet<'_>,
    out: &mut K,
) -> Result<RunEnd, Refusal>
    requires order { AreInOrder
        (map (λ b. code (b.vtable, b.value)) setup.now.methods.now.methods.items) }
    requires fits { verified setup.now.basin.now setup.now.policy.now.blocks
        ≡ Ok setup.now.policy.now }
    requires inputs { IsInputsOf setup.now.basin.now inputs.now }
    requires plain { extras.reuse ≡ false }
    requires silent { tells_asks extras ≡ false }
    requires sheet { sheet.old.basin ≡ setup.now.basin.now }
    ensures out { (policy : Rules) (before : Option Rows)
        → IsCodeOf setup.now.basin.now policy setup.now.policy.now → MatchResult result
        (AppendsOne (IsRulesText setup.now.basin.now policy extras)
        number (record { before = before; inputs = inputs.now })
        (change (K.seen out.old) (K.seen out.new)))
        (StopsAtOne (IsRulesText setup.now.basin.now policy extras)
        number (record { before = before; inputs = inputs.now })
        (change (K.seen out.old) (K.seen out.new))) }
    ensures sheet { sheet.new.basin ≡ sheet.old.basin }
{
    let end = match tell_by_code(alloc, machine, setup, extras, number, inputs, steps, sheet) {
        Ok(end) => end,
        Err(NoMemory) => return Err(Refusal::NoMemory),
    };
    match write_pieces(out, &sheet.text()) {
        Ok(()) => Ok(end),
        Err(WriteFault) => Err(Refusal::CannotWrite),
    }
}

// The same, whether what became of each put is told or not.
fn write_section<K: Sink, L: Ledger, M: Fires>(
    alloc: Global,
    machine: &mut M,
    setup: &RunSetup<'_>,
    extras: Extras,
    number: u32,
    inputs: &Inputs,
    steps: &mut Steps<L>,
    sheet: &mut Sheet<'_>,
    out: &mut K,
) -> Result<RunEnd, Refusal>
    requires order { AreInOrder
        (map (λ b. code (b.vtable, b.value)) setup.now.methods.now.methods.items) }
    requires fits { verified setup.now.basin.now setup.now.policy.now.blocks
        ≡ Ok setup.now.policy.now }
    requires inputs { IsInputsOf setup.now.basin.now inputs.now }
    requires plain { extras.reuse ≡ false }
    requires sheet { sheet.old.basin ≡ setup.now.basin.now }
    ensures out { (policy : Rules) (before : Option Rows)
        → IsCodeOf setup.now.basin.now policy setup.now.policy.now → MatchResult result
        (AppendsOne (IsRulesText setup.now.basin.now policy extras)
        number (record { before = before; inputs = inputs.now })
        (change (K.seen out.old) (K.seen out.new)))
        (StopsAtOne (IsRulesText setup.now.basin.now policy extras)
        number (record { before = before; inputs = inputs.now })
        (change (K.seen out.old) (K.seen out.new))) }
    ensures sheet { sheet.new.basin ≡ sheet.old.basin }
{
    if tells_asks(extras) {
        write_asked(alloc, machine, setup, extras, number, inputs, steps, out)
    } else {
        write_told(
            alloc, machine, setup, extras, number, inputs, steps, sheet, out,
        )
    }
}

// The inputs after a batch, which take the place of those before it.
fn changed(alloc: Global, basin: &Basin, inputs: Inputs, batch: &Batch) -> Result<Inputs, NoMemory>
    requires inputs { IsInputsOf basin.now inputs }
    requires batch { IsBatch basin.now batch.now }
    ensures values { IfOk result (λ edited. value_at edited
        ≡ after_batch batch.now (value_at inputs)) }
    ensures made { IfOk result (IsInputsOf basin.now) }
{
    apply(alloc, basin, &inputs, batch)
}

// The first batch, and those behind it.
pub(crate) fn first_of(batches: &[Batch]) -> Option<(&Batch, &[Batch])>
    ensures { MatchOption result (batches.entry.now ≡ [])
        (λ pair. batches.entry.now ≡ pair.0.now ∷ pair.1.now) }
{
    match batches {
        [] => None,
        [batch, rest @ ..] => Some((batch, rest)),
    }
}

// The sections that are left to write: the number and the inputs of the next one, and the batches behind it.
struct Left<'a> {
    number: u32,
    inputs: Inputs,
    batches: &'a [Batch],
}

// Writes a section for inputs, and one after each batch that is left.
fn write_from<K: Sink, L: Ledger, M: Fires>(
    alloc: Global,
    machine: &mut M,
    setup: &RunSetup<'_>,
    extras: Extras,
    left: Left<'_>,
    steps: &mut Steps<L>,
    sheet: &mut Sheet<'_>,
    out: &mut K,
) -> Result<RunEnd, Refusal>
    requires order { AreInOrder
        (map (λ b. code (b.vtable, b.value)) setup.now.methods.now.methods.items) }
    requires fits { verified setup.now.basin.now setup.now.policy.now.blocks
        ≡ Ok setup.now.policy.now }
    requires inputs { IsInputsOf setup.now.basin.now left.inputs }
    requires batches { All (IsBatch setup.now.basin.now) left.batches.now }
    requires few { left.number + length left.batches.now ≤ 64 }
    requires plain { extras.reuse ≡ false }
    requires sheet { sheet.old.basin ≡ setup.now.basin.now }
    ensures { (policy : Rules) (before : Option Rows)
        → IsCodeOf setup.now.basin.now policy setup.now.policy.now → MatchResult result
        (AppendsAll (IsRulesText setup.now.basin.now policy extras)
        left.entry.number (record { before = before; inputs = left.entry.inputs })
        left.entry.batches.now (change (K.seen out.old) (K.seen out.new)))
        (StopsAmong (IsRulesText setup.now.basin.now policy extras)
        left.entry.number (record { before = before; inputs = left.entry.inputs })
        left.entry.batches.now (change (K.seen out.old) (K.seen out.new))) }
{
    let Left {
        number,
        inputs,
        batches,
    } = left;
    let end = match write_section(
        alloc, machine, setup, extras, number, &inputs, steps, sheet, out,
    ) {
        Ok(end) => end,
        Err(refusal) => return Err(refusal),
    };
    match first_of(batches) {
        None => Ok(end),
        Some((batch, rest)) => match changed(alloc, setup.basin, inputs, batch) {
            Ok(edited) => {
                let left = Left {
                    number: number + 1,
                    inputs: edited,
                    batches: rest,
                };
                write_from(alloc, machine, setup, extras, left, steps, sheet, out)
            }
            Err(NoMemory) => Err(Refusal::NoMemory),
        },
    }
}

// Whether there is one section, which can be handed over in pieces.
fn is_alone(extras: Extras, batches: &[Batch]) -> bool
    ensures { IsTrue result → (tells_asks extras ≡ false) × (batches.now ≡ []) }
{
    !tells_asks(extras) && batches.is_empty()
}

// Writes the one section, in pieces.
fn write_alone<K: Sink, L: Ledger, M: Fires>(
    alloc: Global,
    machine: &mut M,
    setup: &RunSetup<'_>,
    extras: Extras,
    inputs: Inputs,
    steps: &mut Steps<L>,
    out: &mut K,
) -> Result<RunEnd, Refusal>
    requires order { AreInOrder
        (map (λ b. code (b.vtable, b.value)) setup.now.methods.now.methods.items) }
    requires fits { verified setup.now.basin.now setup.now.policy.now.blocks
        ≡ Ok setup.now.policy.now }
    requires inputs { IsInputsOf setup.now.basin.now inputs }
    requires plain { extras.reuse ≡ false }
    requires silent { tells_asks extras ≡ false }
    ensures { (policy : Rules) → IsCodeOf setup.now.basin.now policy setup.now.policy.now
        → MatchResult result
        (AppendsAll (IsRulesText setup.now.basin.now policy extras)
        0 (first_given inputs) [] (change (K.seen out.old) (K.seen out.new)))
        (StopsAmong (IsRulesText setup.now.basin.now policy extras)
        0 (first_given inputs) [] (change (K.seen out.old) (K.seen out.new))) }
{
    write_by_code(alloc, machine, setup, extras, &inputs, steps, out)
}

// Writes all sections on one sheet, each made whole.
fn write_on_sheet<K: Sink, L: Ledger, M: Fires>(
    alloc: Global,
    machine: &mut M,
    setup: &RunSetup<'_>,
    extras: Extras,
    inputs: Inputs,
    batches: &[Batch],
    steps: &mut Steps<L>,
    out: &mut K,
) -> Result<RunEnd, Refusal>
    requires order { AreInOrder
        (map (λ b. code (b.vtable, b.value)) setup.now.methods.now.methods.items) }
    requires fits { verified setup.now.basin.now setup.now.policy.now.blocks
        ≡ Ok setup.now.policy.now }
    requires inputs { IsInputsOf setup.now.basin.now inputs }
    requires batches { All (IsBatch setup.now.basin.now) batches.now }
    requires few { length batches.now ≤ 64 }
    requires plain { extras.reuse ≡ false }
    ensures { (policy : Rules) → IsCodeOf setup.now.basin.now policy setup.now.policy.now
        → MatchResult result
        (AppendsAll (IsRulesText setup.now.basin.now policy extras)
        0 (first_given inputs) batches.now (change (K.seen out.old) (K.seen out.new)))
        (StopsAmong (IsRulesText setup.now.basin.now policy extras)
        0 (first_given inputs) batches.now (change (K.seen out.old) (K.seen out.new))) }
{
    let mut sheet = Sheet::new(alloc, setup.basin, !batches.is_empty());
    let left = Left {
        number: 0,
        inputs,
        batches,
    };
    write_from(alloc, machine, setup, extras, left, steps, &mut sheet, out)
}

/// Writes a section for inputs and one after each batch of edits, and answers how the run of the last one ended.
pub(crate) fn write_sections<K: Sink, L: Ledger, M: Fires>(
    alloc: Global,
    machine: &mut M,
    setup: &RunSetup<'_>,
    extras: Extras,
    inputs: Inputs,
    batches: &[Batch],
    steps: &mut Steps<L>,
    out: &mut K,
) -> Result<RunEnd, Refusal>
    requires order { AreInOrder
        (map (λ b. code (b.vtable, b.value)) setup.now.methods.now.methods.items) }
    requires fits { verified setup.now.basin.now setup.now.policy.now.blocks
        ≡ Ok setup.now.policy.now }
    requires inputs { IsInputsOf setup.now.basin.now inputs }
    requires batches { All (IsBatch setup.now.basin.now) batches.now }
    requires few { length batches.now ≤ 64 }
    requires plain { extras.reuse ≡ false }
    ensures { (policy : Rules) → IsCodeOf setup.now.basin.now policy setup.now.policy.now
        → MatchResult result
        (AppendsAll (IsRulesText setup.now.basin.now policy extras)
        0 (first_given inputs) batches.now (change (K.seen out.old) (K.seen out.new)))
        (StopsAmong (IsRulesText setup.now.basin.now policy extras)
        0 (first_given inputs) batches.now (change (K.seen out.old) (K.seen out.new))) }
{
    if is_alone(extras, batches) {
        write_alone(alloc, machine, setup, extras, inputs, steps, out)
    } else {
        write_on_sheet(alloc, machine, setup, extras, inputs, batches, steps, out)
    }
}
