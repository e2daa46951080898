//! Writes the section of a run without rules.
ghost use Rattle.std.specs.Prelude.{◌≡◌, [], false, true, map, IfOk, MatchResult, None};
ghost use Rattle.rw_inputs.specs.Inputs.{IsInputsOf};
ghost use Rattle.rw_io.specs.Outside.{change};
ghost use Rattle.rw_method.specs.Catalogue.{AreInOrder};
ghost use Rattle.rw_run.specs.Next.{no_rules};
ghost use Rattle.rw_commands.specs.RunText.{IsNewestText, IsPlainText, IsRunText, IsSimulated, tells_asks};
ghost use Rattle.rw_commands.specs.Sections.{AppendsOne, StopsAtOne, first_given};

use crate::Refusal;
use crate::alone::write_run;
use crate::asked::{asked_of_newest, asked_of_oldest, tells_asks};
use crate::extras::Extras;
use rpl_fires::Fires;
use rw_base::{Ledger, NoMemory, Steps};
use rw_engine::{RunEnd, RunSetup, run_all_of};
use rw_inputs::Inputs;
use rw_io::{Sink, WriteFault, write_all};
use rw_order::{Newest, run_any};
use rw_report::law::texts_of_runs;
use rw_run::law::same_runs;
use rw_words::Order;
use std::alloc::Global;

// Writes that of the run in which the object is dispatched that has waited longest.
fn write_oldest<K: Sink, L: Ledger, M: Fires>(
    alloc: Global,
    machine: &mut M,
    setup: &RunSetup<'_>,
    extras: Extras,
    inputs: &Inputs,
    steps: &mut Steps<L>,
    out: &mut K,
) -> Result<RunEnd, Refusal>
    requires none { setup.now.policy.now ≡ record { blocks = []; budgets = []; resolved = [] } }
    requires order { AreInOrder
        (map (λ b. code (b.vtable, b.value)) setup.now.methods.now.methods.items) }
    requires inputs { IsInputsOf setup.now.basin.now inputs.now }
    requires silent { tells_asks extras ≡ false }
    ensures { MatchResult result
        (AppendsOne (λ number given. IsRunText setup.now.basin.now no_rules extras None number
        given.inputs) 0 (first_given inputs.now) (change (K.seen out.old) (K.seen out.new)))
        (StopsAtOne (λ number given. IsRunText setup.now.basin.now no_rules extras None number
        given.inputs) 0 (first_given inputs.now) (change (K.seen out.old) (K.seen out.new))) }
{
    same_runs();
    texts_of_runs();
    match run_all_of(alloc, machine, setup, inputs, extras.trace, steps) {
        Ok(run) => write_run(alloc, setup.basin, &run, extras, out),
        Err(NoMemory) => Err(Refusal::NoMemory),
    }
}

// Writes that of the run in which the object is dispatched that has waited shortest.
fn write_newest<K: Sink, M: Fires>(
    alloc: Global,
    machine: &mut M,
    setup: &RunSetup<'_>,
    extras: Extras,
    inputs: &Inputs,
    out: &mut K,
) -> Result<RunEnd, Refusal>
    requires order { AreInOrder
        (map (λ b. code (b.vtable, b.value)) setup.now.methods.now.methods.items) }
    requires inputs { IsInputsOf setup.now.basin.now inputs.now }
    requires silent { tells_asks extras ≡ false }
    ensures { MatchResult result
        (AppendsOne (λ number given. IsNewestText setup.now.basin.now extras number given.inputs)
        0 (first_given inputs.now) (change (K.seen out.old) (K.seen out.new)))
        (StopsAtOne (λ number given. IsNewestText setup.now.basin.now extras number given.inputs)
        0 (first_given inputs.now) (change (K.seen out.old) (K.seen out.new))) }
{
    texts_of_runs();
    match run_any(
        alloc,
        machine,
        setup.basin,
        setup.methods,
        inputs,
        &Newest,
        extras.trace,
    ) {
        Ok(run) => write_run(alloc, setup.basin, &run, extras, out),
        Err(NoMemory) => Err(Refusal::NoMemory),
    }
}

// The text of that in which it is told what became of each put that was asked for, in the order of dispatches that is asked for.
fn asked_text<L: Ledger, M: Fires>(
    alloc: Global,
    machine: &mut M,
    setup: &RunSetup<'_>,
    extras: Extras,
    inputs: &Inputs,
    steps: &mut Steps<L>,
) -> Result<(Vec<u8>, RunEnd), NoMemory>
    requires none { setup.now.policy.now ≡ record { blocks = []; budgets = []; resolved = [] } }
    requires order { AreInOrder
        (map (λ b. code (b.vtable, b.value)) setup.now.methods.now.methods.items) }
    requires inputs { IsInputsOf setup.now.basin.now inputs.now }
    requires asked { tells_asks extras ≡ true }
    ensures { IfOk result (λ pair. IsSimulated extras.order setup.now.basin.now extras 0
        inputs.now pair.1 pair.0.items) }
{
    match extras.order {
        Order::Oldest => asked_of_oldest(alloc, machine, setup, extras, inputs, steps),
        Order::Newest => asked_of_newest(alloc, machine, setup, extras, inputs),
    }
}

// Writes it.
fn write_asked<K: Sink, L: Ledger, M: Fires>(
    alloc: Global,
    machine: &mut M,
    setup: &RunSetup<'_>,
    extras: Extras,
    inputs: &Inputs,
    steps: &mut Steps<L>,
    out: &mut K,
) -> Result<RunEnd, Refusal>
    requires none { setup.now.policy.now ≡ record { blocks = []; budgets = []; resolved = [] } }
    requires order { AreInOrder
        (map (λ b. code (b.vtable, b.value)) setup.now.methods.now.methods.items) }
    requires inputs { IsInputsOf setup.now.basin.now inputs.now }
    requires asked { tells_asks extras ≡ true }
    ensures { MatchResult result
        (AppendsOne (IsPlainText setup.now.basin.now extras) 0 (first_given inputs.now)
        (change (K.seen out.old) (K.seen out.new)))
        (StopsAtOne (IsPlainText setup.now.basin.now extras) 0 (first_given inputs.now)
        (change (K.seen out.old) (K.seen out.new))) }
{
    let told = match asked_text(alloc, machine, setup, extras, inputs, steps) {
        Ok(told) => told,
        Err(NoMemory) => return Err(Refusal::NoMemory),
    };
    match write_all(out, &told.0) {
        Ok(()) => Ok(told.1),
        Err(WriteFault) => Err(Refusal::CannotWrite),
    }
}

/// Writes the section of the run of a setup without rules, from inputs and in the order of dispatches that is asked for, and
/// answers how the run ended.
pub(crate) fn write_without_rules<K: Sink, L: Ledger, M: Fires>(
    alloc: Global,
    machine: &mut M,
    setup: &RunSetup<'_>,
    extras: Extras,
    inputs: &Inputs,
    steps: &mut Steps<L>,
    out: &mut K,
) -> Result<RunEnd, Refusal>
    requires none { setup.now.policy.now ≡ record { blocks = []; budgets = []; resolved = [] } }
    requires order { AreInOrder
        (map (λ b. code (b.vtable, b.value)) setup.now.methods.now.methods.items) }
    requires inputs { IsInputsOf setup.now.basin.now inputs.now }
    ensures { MatchResult result
        (AppendsOne (IsPlainText setup.now.basin.now extras) 0 (first_given inputs.now)
        (change (K.seen out.old) (K.seen out.new)))
        (StopsAtOne (IsPlainText setup.now.basin.now extras) 0 (first_given inputs.now)
        (change (K.seen out.old) (K.seen out.new))) }
{
    if tells_asks(extras) {
        return write_asked(alloc, machine, setup, extras, inputs, steps, out);
    }
    match extras.order {
        Order::Oldest => write_oldest(alloc, machine, setup, extras, inputs, steps, out),
        Order::Newest => write_newest(alloc, machine, setup, extras, inputs, out),
    }
}
