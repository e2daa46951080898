//! Runs all timesteps of a basin from its inputs.
ghost use Rattle.std.specs.Prelude.{◌≤◌, map, IfOk, IsSome};
ghost use Rattle.rw_method.specs.Catalogue.{AreInOrder};
ghost use Rattle.rw_rules.specs.Rules.{policy_in};
ghost use Rattle.rw_engine.specs.Passing.{CanRun, ComesTo, CountsSteps};

use rpl_machine::Machine;
use rpl_predef::Predefs;
use rpl_verify::Verified;
use rw_base::{Ledger, NoMemory, Steps};
use rw_engine::Run;
use rw_inputs::Inputs;
use rw_method::Catalogue;
use rw_model::Basin;
use std::alloc::Global;

/// Runs all timesteps of a basin from its inputs, up to the last one or to a fault, and returns the result of the run, as
/// `docs/DEFINITIONS.md` says under "Runs". Each opened timestep is counted. A fault of the run is in the answer. The only
/// error is want of memory.
pub fn run_all<L: Ledger>(
    alloc: Global,
    basin: &Basin,
    methods: &Catalogue,
    policy: &Verified,
    predefs: &Predefs,
    inputs: &Inputs,
    steps: &mut Steps<L>,
) -> Result<Run, NoMemory>
    requires can { CanRun basin.now policy.now inputs.now }
    requires order { AreInOrder (map (λ b. code (b.vtable, b.value)) methods.now.methods.items) }
    ensures run { IfOk result (ComesTo basin.now (policy_in basin.now policy.now) inputs.now) }
    ensures closed { IfOk result (λ run. run.closed ≤ basin.now.control.stamps.count) }
    ensures kept { IfOk result (λ run. IsSome run.trace) }
    ensures counted { CountsSteps basin.now steps.old steps.new result }
{
    let mut machine = Machine::new(alloc);
    rw_engine::run_all(
        alloc,
        basin,
        methods,
        policy,
        predefs,
        &mut machine,
        inputs,
        steps,
    )
}
