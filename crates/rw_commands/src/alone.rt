//! Writes the section of a run that is told alone, handed over in pieces.
ghost use Rattle.std.specs.Prelude.{◌≡◌, ◌≤◌, map, IfOk, MatchResult, None, Ok, Option, false};
ghost use Rattle.rw_inputs.specs.Inputs.{Inputs as Rows, IsInputsOf};
ghost use Rattle.rw_io.specs.Outside.{change};
ghost use Rattle.rw_method.specs.Catalogue.{AreInOrder};
ghost use Rattle.rw_report.specs.Handed.{Grew};
ghost use Rattle.rw_report.specs.Outcome.{outcome_of};
ghost use Rattle.rw_report.specs.Whole.{whole_of};
ghost use Rattle.rpl_verify.specs.Verified.{verified};
ghost use Rattle.rw_commands.specs.Policy.{PolicyFile as Rules};
ghost use Rattle.rw_commands.specs.RunText.{IsCodeOf, IsRulesText, tells_asks};
ghost use Rattle.rw_commands.specs.Sections.{AppendsOne, StopsAtOne, StopsText};

use crate::Refusal;
use crate::extras::Extras;
use rpl_fires::Fires;
use rw_base::{Ledger, NoMemory, Steps};
use rw_engine::{Run, RunEnd, RunSetup, run_all_of};
use rw_inputs::Inputs;
use rw_io::Sink;
use rw_model::Basin;
use rw_report::law::texts_of_runs;
use rw_report::{Telling, Unwritten, write_section};
use std::alloc::Global;

/// Writes the section of a run, with what is asked for besides its table, and answers how the run ended.
pub(crate) fn write_run<K: Sink>(
    alloc: Global,
    basin: &Basin,
    run: &Run,
    extras: Extras,
    out: &mut K,
) -> Result<RunEnd, Refusal>
    requires closed { run.now.closed ≤ basin.now.control.stamps.count }
    ensures end { IfOk result (λ end. end ≡ run.now.end) }
    ensures text { MatchResult result
        (λ _. Grew (K.seen out.old) (K.seen out.new)
        (whole_of basin.now 0 (outcome_of run.now) None extras.flags extras.trace))
        (StopsText (K.seen out.old) (K.seen out.new)
        (whole_of basin.now 0 (outcome_of run.now) None extras.flags extras.trace)) }
{
    let telling = Telling {
        batch: 0,
        reran: None,
        flags: extras.flags,
        trace: extras.trace,
    };
    match write_section(alloc, basin, run, &telling, out) {
        Ok(()) => Ok(run.end),
        Err(Unwritten::NoMemory) => Err(Refusal::NoMemory),
        Err(Unwritten::CannotWrite) => Err(Refusal::CannotWrite),
    }
}

/// Writes the section of the run by code that is verified for the basin, from inputs, and answers how the run ended.
pub(crate) fn write_by_code<K: Sink, L: Ledger, M: Fires>(
    alloc: Global,
    machine: &mut M,
    setup: &RunSetup<'_>,
    extras: Extras,
    inputs: &Inputs,
    steps: &mut Steps<L>,
    out: &mut K,
) -> Result<RunEnd, Refusal>
    requires order { AreInOrder
        (map (λ b. code (b.vtable, b.value)) setup.now.methods.now.methods.items) }
    requires fits { verified setup.now.basin.now setup.now.policy.now.blocks
        ≡ Ok setup.now.policy.now }
    requires inputs { IsInputsOf setup.now.basin.now inputs.now }
    requires plain { extras.reuse ≡ false }
    requires silent { tells_asks extras ≡ false }
    ensures { (policy : Rules) (before : Option Rows)
        → IsCodeOf setup.now.basin.now policy setup.now.policy.now → MatchResult result
        (AppendsOne (IsRulesText setup.now.basin.now policy extras)
        0 (record { before = before; inputs = inputs.now })
        (change (K.seen out.old) (K.seen out.new)))
        (StopsAtOne (IsRulesText setup.now.basin.now policy extras)
        0 (record { before = before; inputs = inputs.now })
        (change (K.seen out.old) (K.seen out.new))) }
{
    texts_of_runs();
    match run_all_of(alloc, machine, setup, inputs, extras.trace, steps) {
        Ok(run) => write_run(alloc, setup.basin, &run, extras, out),
        Err(NoMemory) => Err(Refusal::NoMemory),
    }
}
