//! Makes the text of a run with what became of each put that was requested.
ghost use Rattle.std.specs.Prelude.{◌≡◌, ◌≤◌, ◌++◌, [], ◌∷◌, false, true, map, IfOk, List, None, Ok, Option};
ghost use Rattle.rw_inputs.specs.Inputs.{Inputs as Rows, IsInputsOf};
ghost use Rattle.rw_inputs.specs.Placings.{placings};
ghost use Rattle.rw_method.specs.Catalogue.{AreInOrder};
ghost use Rattle.rw_report.specs.Outcome.{outcome_of};
ghost use Rattle.rw_report.specs.Whole.{whole_of};
ghost use Rattle.rw_run.specs.Choice.{MayLead};
ghost use Rattle.rw_run.specs.Log.{Event, Log};
ghost use Rattle.rw_run.specs.Next.{no_rules};
ghost use Rattle.rw_run.specs.RunOf.{trace_of};
ghost use Rattle.rw_run.specs.Runs.{with_inputs};
ghost use Rattle.rw_run.specs.Trace.{lines_in};
ghost use Rattle.rpl_verify.specs.Verified.{verified};
ghost use Rattle.rw_rules.specs.Rules.{policy_in};
ghost use Rattle.rw_asked.specs.Asked.{asked_trace};
ghost use Rattle.rw_asked.specs.Words.{asked_trace_words};
ghost use Rattle.rw_commands.specs.Policy.{PolicyFile};
ghost use Rattle.rw_commands.specs.RunText.{IsCodeOf, IsNewestText, IsRulesText, IsRunText, tells_asks};

use crate::extras::Extras;
use rpl_fires::Fires;
use rw_asked::law::same_asks;
use rw_base::{Ledger, NoMemory, Steps};
use rw_engine::{Run, RunEnd, RunSetup, run_all_of};
use rw_inputs::Inputs;
use rw_order::{Newest, run_any};
use rw_report::law::texts_of_runs;
use rw_report::{Telling, section_text};
use rw_retold::push_asked_trace;
use rw_run::law::{choices, same_runs};
use std::alloc::Global;

/// Whether what became of each put is told.
pub(crate) fn tells_asks(extras: Extras) -> bool
    ensures { result ≡ tells_asks extras }
{
    extras.asked && !extras.reuse
}

// The section of a run of the setup from inputs, of which the trace is kept.
fn text_of_run<M: Fires>(
    alloc: Global,
    machine: &mut M,
    setup: &RunSetup<'_>,
    extras: Extras,
    number: u32,
    inputs: &Inputs,
    run: &Run,
) -> Result<Vec<u8>, NoMemory>
    requires fits { verified setup.now.basin.now setup.now.policy.now.blocks
        ≡ Ok setup.now.policy.now }
    requires order { AreInOrder
        (map (λ b. code (b.vtable, b.value)) setup.now.methods.now.methods.items) }
    requires inputs { IsInputsOf setup.now.basin.now inputs.now }
    requires closed { run.now.closed ≤ setup.now.basin.now.control.stamps.count }
    ensures { (log : Log) (events : List Event)
        → MayLead setup.now.basin.now (policy_in setup.now.basin.now setup.now.policy.now)
        (with_inputs [] (placings setup.now.basin.now inputs.now)) events log
        → lines_in run.now.trace ≡ trace_of log
        → IfOk result (λ text. text.items ≡ whole_of setup.now.basin.now number
        (outcome_of run.now) None extras.flags false
        ++ asked_trace_words setup.now.basin.now (asked_trace setup.now.basin.now
        (policy_in setup.now.basin.now setup.now.policy.now) log)) }
{
    let telling = Telling {
        batch: number,
        reran: None,
        flags: extras.flags,
        trace: false,
    };
    let mut text = section_text(alloc, setup.basin, run, &telling)?;
    push_asked_trace(alloc, &mut text, machine, setup, inputs, &run.trace)?;
    Ok(text.into_bytes())
}

/// The section of the run by code that is verified for the basin, from inputs, and how the run ended.
pub(crate) fn asked_by_code<L: Ledger, M: Fires>(
    alloc: Global,
    machine: &mut M,
    setup: &RunSetup<'_>,
    extras: Extras,
    number: u32,
    inputs: &Inputs,
    steps: &mut Steps<L>,
) -> Result<(Vec<u8>, RunEnd), NoMemory>
    requires fits { verified setup.now.basin.now setup.now.policy.now.blocks
        ≡ Ok setup.now.policy.now }
    requires order { AreInOrder
        (map (λ b. code (b.vtable, b.value)) setup.now.methods.now.methods.items) }
    requires inputs { IsInputsOf setup.now.basin.now inputs.now }
    requires asked { tells_asks extras ≡ true }
    ensures { (policy : PolicyFile) (before : Option Rows)
        → IsCodeOf setup.now.basin.now policy setup.now.policy.now
        → IfOk result (λ pair. IsRulesText setup.now.basin.now policy extras
        number (record { before = before; inputs = inputs.now }) pair.1 pair.0.items) }
{
    choices();
    texts_of_runs();
    let run = run_all_of(alloc, machine, setup, inputs, true, steps)?;
    let text = text_of_run(alloc, machine, setup, extras, number, inputs, &run)?;
    Ok((text, run.end))
}

/// That of the run without rules in which the object is dispatched that has waited longest.
pub(crate) fn asked_of_oldest<L: Ledger, M: Fires>(
    alloc: Global,
    machine: &mut M,
    setup: &RunSetup<'_>,
    extras: Extras,
    inputs: &Inputs,
    steps: &mut Steps<L>,
) -> Result<(Vec<u8>, RunEnd), NoMemory>
    requires none { setup.now.policy.now ≡ record { blocks = []; budgets = []; resolved = [] } }
    requires order { AreInOrder
        (map (λ b. code (b.vtable, b.value)) setup.now.methods.now.methods.items) }
    requires inputs { IsInputsOf setup.now.basin.now inputs.now }
    requires asked { tells_asks extras ≡ true }
    ensures { IfOk result (λ pair. IsRunText setup.now.basin.now no_rules extras None 0
        inputs.now pair.1 pair.0.items) }
{
    choices();
    same_asks();
    same_runs();
    texts_of_runs();
    let run = run_all_of(alloc, machine, setup, inputs, true, steps)?;
    let text = text_of_run(alloc, machine, setup, extras, 0, inputs, &run)?;
    Ok((text, run.end))
}

/// That of the run without rules in which the object is dispatched that has waited shortest.
pub(crate) fn asked_of_newest<M: Fires>(
    alloc: Global,
    machine: &mut M,
    setup: &RunSetup<'_>,
    extras: Extras,
    inputs: &Inputs,
) -> Result<(Vec<u8>, RunEnd), NoMemory>
    requires none { setup.now.policy.now ≡ record { blocks = []; budgets = []; resolved = [] } }
    requires order { AreInOrder
        (map (λ b. code (b.vtable, b.value)) setup.now.methods.now.methods.items) }
    requires inputs { IsInputsOf setup.now.basin.now inputs.now }
    requires asked { tells_asks extras ≡ true }
    ensures { IfOk result (λ pair. IsNewestText setup.now.basin.now extras 0
        inputs.now pair.1 pair.0.items) }
{
    same_asks();
    texts_of_runs();
    let run = run_any(
        alloc,
        machine,
        setup.basin,
        setup.methods,
        inputs,
        &Newest,
        true,
    )?;
    let text = text_of_run(alloc, machine, setup, extras, 0, inputs, &run)?;
    Ok((text, run.end))
}
