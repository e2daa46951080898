//! Makes the water balance of a run by verified code.
ghost use Rattle.std.specs.Prelude.{◌≡◌, map, IfOk, Ok};
ghost use Rattle.rw_inputs.specs.Inputs.{IsInputsOf};
ghost use Rattle.rw_method.specs.Catalogue.{AreInOrder};
ghost use Rattle.rpl_verify.specs.Verified.{verified};
ghost use Rattle.rw_commands.specs.Policy.{PolicyFile};
ghost use Rattle.rw_commands.specs.RunText.{IsCodeOf, IsBalanceOfRules};

use rpl_fires::Fires;
use rw_base::{Ledger, NoMemory, Steps};
use rw_books::balance;
use rw_engine::{RunEnd, RunSetup, run_all_of};
use rw_inputs::Inputs;
use std::alloc::Global;

/// The books of the run by code that is verified for the basin, and how the run ended. No line of its trace is kept.
pub(crate) fn balance_by_code<L: Ledger, M: Fires>(
    alloc: Global,
    machine: &mut M,
    setup: &RunSetup<'_>,
    inputs: &Inputs,
    steps: &mut Steps<L>,
) -> Result<(Vec<u8>, RunEnd), NoMemory>
    requires fits { verified setup.now.basin.now setup.now.policy.now.blocks
        ≡ Ok setup.now.policy.now }
    requires order { AreInOrder
        (map (λ b. code (b.vtable, b.value)) setup.now.methods.now.methods.items) }
    requires inputs { IsInputsOf setup.now.basin.now inputs.now }
    ensures { (policy : PolicyFile) → IsCodeOf setup.now.basin.now policy setup.now.policy.now
        → IfOk result (λ pair. IsBalanceOfRules setup.now.basin.now policy inputs.now
        pair.1 pair.0.items) }
{
    let run = run_all_of(alloc, machine, setup, inputs, false, steps)?;
    let text = balance(alloc, setup.basin, &run)?;
    Ok((text, run.end))
}
