//! Makes the section of a run by verified code.
ghost use Rattle.std.specs.Prelude.{◌≡◌, map, IfOk, Ok, Option, false};
ghost use Rattle.rw_inputs.specs.Inputs.{Inputs as Rows, IsInputsOf};
ghost use Rattle.rw_method.specs.Catalogue.{AreInOrder};
ghost use Rattle.rpl_verify.specs.Verified.{verified};
ghost use Rattle.rw_commands.specs.Policy.{PolicyFile};
ghost use Rattle.rw_commands.specs.RunText.{IsCodeOf, IsRulesText, tells_asks};

use crate::extras::Extras;
use rpl_fires::Fires;
use rw_base::{Ledger, NoMemory, Steps};
use rw_engine::{RunEnd, RunSetup, run_all_of};
use rw_inputs::Inputs;
use rw_report::law::texts_of_runs;
use rw_report::{Sheet, Telling};
use std::alloc::Global;

/// Tells the section of the run by code that is verified for the basin, from inputs, and answers how the run ended.
pub(crate) fn tell_by_code<L: Ledger, M: Fires>(
    alloc: Global,
    machine: &mut M,
    setup: &RunSetup<'_>,
    extras: Extras,
    number: u32,
    inputs: &Inputs,
    steps: &mut Steps<L>,
    sheet: &mut Sheet<'_>,
) -> Result<RunEnd, NoMemory>
    requires fits { verified setup.now.basin.now setup.now.policy.now.blocks
        ≡ Ok setup.now.policy.now }
    requires order { AreInOrder
        (map (λ b. code (b.vtable, b.value)) setup.now.methods.now.methods.items) }
    requires inputs { IsInputsOf setup.now.basin.now inputs.now }
    requires plain { extras.reuse ≡ false }
    requires silent { tells_asks extras ≡ false }
    requires sheet { sheet.old.basin ≡ setup.now.basin.now }
    ensures text { (policy : PolicyFile) (before : Option Rows)
        → IsCodeOf setup.now.basin.now policy setup.now.policy.now
        → IfOk result (λ end. IsRulesText setup.now.basin.now policy extras
        number (record { before = before; inputs = inputs.now }) end sheet.new.text) }
    ensures sheet { sheet.new.basin ≡ sheet.old.basin }
{
    texts_of_runs();
    let run = run_all_of(alloc, machine, setup, inputs, extras.trace, steps)?;
    let telling = Telling {
        batch: number,
        reran: None,
        flags: extras.flags,
        trace: extras.trace,
    };
    sheet.tell(&run, &telling, 0)?;
    Ok(run.end)
}
