//! Makes the texts of the sample of a seed, and the line on its run.
ghost use Rattle.std.specs.Prelude.{◌≡◌, map, IfOk, Ok};
ghost use Rattle.rw_inputs.specs.Inputs.{IsInputsOf};
ghost use Rattle.rw_method.specs.Catalogue.{AreInOrder};
ghost use Rattle.rw_commands.specs.Command.{sample_text};
ghost use Rattle.rpl_verify.specs.Verified.{verified};
ghost use Rattle.rw_commands.specs.Policy.{PolicyFile};
ghost use Rattle.rw_commands.specs.RunText.{IsCodeOf, IsSampleText};

use crate::File;
use rpl_fires::Fires;
use rw_base::{Ledger, NoMemory, Steps};
use rw_engine::{RunSetup, run_all_of};
use rw_inputs::Inputs;
use rw_report::law::texts_of_runs;
use rw_sample::{sample_inputs, sample_line, sample_model, sample_rules};
use std::alloc::Global;

/// The text of a file of the sample. It has no edits and no traces.
pub(crate) fn sample_text(alloc: Global, seed: u64, file: File) -> Result<Vec<u8>, NoMemory>
    ensures { IfOk result (λ text. text.items ≡ sample_text seed file) }
{
    match file {
        File::Model => sample_model(alloc),
        File::Policy => sample_rules(alloc),
        File::Inputs => sample_inputs(alloc, seed),
        File::Edits | File::Traces => Ok(Vec::new(alloc)),
    }
}

/// The line on the run of the sample by its code.
pub(crate) fn sample_by_code<L: Ledger, M: Fires>(
    alloc: Global,
    machine: &mut M,
    setup: &RunSetup<'_>,
    inputs: &Inputs,
    seed: u64,
    steps: &mut Steps<L>,
) -> Result<Vec<u8>, NoMemory>
    requires fits { verified setup.now.basin.now setup.now.policy.now.blocks
        ≡ Ok setup.now.policy.now }
    requires order { AreInOrder
        (map (λ b. code (b.vtable, b.value)) setup.now.methods.now.methods.items) }
    requires inputs { IsInputsOf setup.now.basin.now inputs.now }
    ensures { (policy : PolicyFile) → IsCodeOf setup.now.basin.now policy setup.now.policy.now
        → IfOk result (λ text. IsSampleText setup.now.basin.now policy inputs.now seed
        text.items) }
{
    texts_of_runs();
    let run = run_all_of(alloc, machine, setup, inputs, true, steps)?;
    let text = sample_line(alloc, setup.basin, seed, &run)?;
    Ok(text)
}
