//! Runs all timesteps of a basin from its inputs.
ghost use Rattle.std.specs.Prelude.{◌≡◌, ◌≤◌, map, Err, IfOk, IsSome, IsTrue, MatchResult, Ok};
ghost use Rattle.rw_method.specs.Catalogue.{AreInOrder};
ghost use Rattle.rw_rules.specs.Rules.{policy_in};
ghost use Rattle.rw_engine.specs.Passing.{BeginsRun, CanRun, ComesTo, CountsSteps};
ghost use Rattle.rw_engine.specs.Picked.{ComesToPicked, Finishes, RunsAllBy};
ghost use Rattle.rw_run.specs.declared.run.Run.{Run};
ghost use Rattle.rw_engine.specs.Shows.{IsEngineOf};

use crate::engine::Engine;
use crate::setup::RunSetup;
use crate::step_end::StepEnd;
use rpl_fires::Fires;
use rpl_predef::Predefs;
use rpl_verify::Verified;
use rw_base::{Ledger, NoMemory, StepNo, Steps};
use rw_dispatch::{Oldest, Pick};
use rw_inputs::Inputs;
use rw_method::Catalogue;
use rw_model::Basin;
use rw_run::Run;
use std::alloc::Global;
use std::mem::drop;

// Passes timestep after timestep, up to the last one or to a fault.
fn pass_steps<L: Ledger, P: Pick, M: Fires>(
    engine: &mut Engine,
    machine: &mut M,
    setup: &RunSetup,
    pick: &P,
    steps: &mut Steps<L>,
) -> Result<(), NoMemory>
    requires made { IsEngineOf setup.now.basin.now setup.now.policy.now engine.old }
    requires begun { engine.old.closed ≡ 0 }
    requires turns { engine.old.turns ≡ 0 }
    requires order { AreInOrder
        (map (λ b. code (b.vtable, b.value)) setup.now.methods.now.methods.items) }
    ensures { MatchResult result
        (λ done. (run : Run) → Finishes engine.new run
        → RunsAllBy setup.now.basin.now setup.now.policy.now (P.rule pick.now) engine.old
        steps.old steps.new (Ok run))
        (λ why. RunsAllBy setup.now.basin.now setup.now.policy.now (P.rule pick.now) engine.old
        steps.old steps.new (Err why)) }
{
    for before in 0..setup.basin.control().stamps.count() {
        let end = engine.run_step_by(machine, setup, pick, StepNo(before + 1), steps)?;
        match end {
            StepEnd::Closed => {}
            StepEnd::Fault(_) => return Ok(()),
        }
    }
    Ok(())
}

// The same with an engine that ends with it, and what that shows.
fn pass_all<L: Ledger, P: Pick, M: Fires>(
    mut engine: Engine,
    machine: &mut M,
    setup: &RunSetup,
    pick: &P,
    steps: &mut Steps<L>,
) -> Result<Run, NoMemory>
    requires made { IsEngineOf setup.now.basin.now setup.now.policy.now engine }
    requires begun { engine.closed ≡ 0 }
    requires turns { engine.turns ≡ 0 }
    requires order { AreInOrder
        (map (λ b. code (b.vtable, b.value)) setup.now.methods.now.methods.items) }
    ensures { RunsAllBy setup.now.basin.now setup.now.policy.now (P.rule pick.now) engine
        steps.old steps.new result }
{
    match pass_steps(&mut engine, machine, setup, pick, steps) {
        Ok(()) => Ok(engine.finish()),
        Err(NoMemory) => {
            drop(engine);
            Err(NoMemory)
        }
    }
}

// The engine of a run before its first timestep, with a trace where one is asked for.
fn begin(
    alloc: Global,
    setup: &RunSetup<'_>,
    inputs: &Inputs,
    traced: bool,
) -> Result<Engine, NoMemory>
    requires can { CanRun setup.now.basin.now setup.now.policy.now inputs.now }
    ensures begun { IfOk result
        (BeginsRun setup.now.basin.now setup.now.policy.now inputs.now) }
    ensures kept { IsTrue traced → IfOk result (λ engine. IsSome engine.trace) }
{
    if traced {
        Engine::for_run(alloc, setup.basin, setup.policy, inputs)
    } else {
        Engine::without_trace(alloc, setup.basin, setup.policy, inputs)
    }
}

/// Runs all timesteps of a basin from its inputs, up to the last one or to a fault, lets the machine fire its rules, and returns
/// the result of the run, as `docs/DEFINITIONS.md` says under "Runs". Each opened timestep is counted. A fault of the run is in
/// the result; the only error is want of memory.
pub fn run_all<L: Ledger, M: Fires>(
    alloc: Global,
    basin: &Basin,
    methods: &Catalogue,
    policy: &Verified,
    predefs: &Predefs,
    machine: &mut M,
    inputs: &Inputs,
    steps: &mut Steps<L>,
) -> Result<Run, NoMemory>
    requires can { CanRun basin.now policy.now inputs.now }
    requires order { AreInOrder (map (λ b. code (b.vtable, b.value)) methods.now.methods.items) }
    ensures run { IfOk result (ComesTo basin.now (policy_in basin.now policy.now) inputs.now) }
    ensures closed { IfOk result (λ run. run.closed ≤ basin.now.control.stamps.count) }
    ensures kept { IfOk result (λ run. IsSome run.trace) }
    ensures counted { CountsSteps basin.now steps.old steps.new result }
{
    let setup = RunSetup {
        basin,
        methods,
        policy,
        predefs,
    };
    run_all_of(alloc, machine, &setup, inputs, true, steps)
}

/// Runs all timesteps as `run_all` does, of a setup. Without a trace the result is the same but for its lines.
pub fn run_all_of<L: Ledger, M: Fires>(
    alloc: Global,
    machine: &mut M,
    setup: &RunSetup<'_>,
    inputs: &Inputs,
    traced: bool,
    steps: &mut Steps<L>,
) -> Result<Run, NoMemory>
    requires can { CanRun setup.now.basin.now setup.now.policy.now inputs.now }
    requires order { AreInOrder
        (map (λ b. code (b.vtable, b.value)) setup.now.methods.now.methods.items) }
    ensures run { IfOk result (ComesTo setup.now.basin.now
        (policy_in setup.now.basin.now setup.now.policy.now) inputs.now) }
    ensures closed { IfOk result (λ run. run.closed ≤ setup.now.basin.now.control.stamps.count) }
    ensures kept { IsTrue traced → IfOk result (λ run. IsSome run.trace) }
    ensures counted { CountsSteps setup.now.basin.now steps.old steps.new result }
{
    let engine = begin(alloc, setup, inputs, traced)?;
    pass_all(engine, machine, setup, &Oldest, steps)
}

/// Runs all timesteps of a setup as `run_all_of` does, but `pick` says which of the objects that wait is dispatched. The only
/// error is want of memory.
pub fn run_by_of<L: Ledger, P: Pick, M: Fires>(
    alloc: Global,
    machine: &mut M,
    setup: &RunSetup<'_>,
    inputs: &Inputs,
    pick: &P,
    traced: bool,
    steps: &mut Steps<L>,
) -> Result<Run, NoMemory>
    requires can { CanRun setup.now.basin.now setup.now.policy.now inputs.now }
    requires order { AreInOrder
        (map (λ b. code (b.vtable, b.value)) setup.now.methods.now.methods.items) }
    ensures run { IfOk result (ComesToPicked setup.now.basin.now
        (policy_in setup.now.basin.now setup.now.policy.now) (P.rule pick.now) inputs.now) }
    ensures closed { IfOk result (λ run. run.closed ≤ setup.now.basin.now.control.stamps.count) }
    ensures kept { IsTrue traced → IfOk result (λ run. IsSome run.trace) }
    ensures counted { CountsSteps setup.now.basin.now steps.old steps.new result }
{
    let engine = begin(alloc, setup, inputs, traced)?;
    pass_all(engine, machine, setup, pick, steps)
}
