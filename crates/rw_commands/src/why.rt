//! Tells how a cell got its value in a run by verified code.
ghost use Rattle.std.specs.Prelude.{◌≡◌, map, IfOk, Ok};
ghost use Rattle.rw_inputs.specs.Inputs.{IsInputsOf};
ghost use Rattle.rw_method.specs.Catalogue.{AreInOrder};
ghost use Rattle.rw_model.specs.Draft.{IsSlot};
ghost use Rattle.rpl_verify.specs.Verified.{verified};
ghost use Rattle.rw_commands.specs.Policy.{PolicyFile};
ghost use Rattle.rw_commands.specs.RunText.{IsCodeOf, IsWhyOfRules};

use rpl_fires::Fires;
use rw_base::{Cell, Ledger, NoMemory, Steps};
use rw_engine::{RunEnd, RunSetup, run_all_of};
use rw_inputs::Inputs;
use rw_report::law::texts_of_runs;
use rw_report::why;
use std::alloc::Global;

/// How a cell came to what it holds in the run by code that is verified for the basin, and how the run ended.
pub(crate) fn why_by_code<L: Ledger, M: Fires>(
    alloc: Global,
    machine: &mut M,
    setup: &RunSetup<'_>,
    inputs: &Inputs,
    cell: Cell,
    steps: &mut Steps<L>,
) -> Result<(Vec<u8>, RunEnd), NoMemory>
    requires fits { verified setup.now.basin.now setup.now.policy.now.blocks
        ≡ Ok setup.now.policy.now }
    requires order { AreInOrder
        (map (λ b. code (b.vtable, b.value)) setup.now.methods.now.methods.items) }
    requires inputs { IsInputsOf setup.now.basin.now inputs.now }
    requires slot { IsSlot setup.now.basin.now.objects cell.slot.0 }
    ensures { (policy : PolicyFile) → IsCodeOf setup.now.basin.now policy setup.now.policy.now
        → IfOk result (λ pair. IsWhyOfRules setup.now.basin.now policy inputs.now cell
        pair.1 pair.0.items) }
{
    texts_of_runs();
    let run = run_all_of(alloc, machine, setup, inputs, true, steps)?;
    let text = why(alloc, setup.basin, &run, inputs, cell)?;
    Ok((text, run.end))
}
