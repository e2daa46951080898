//! Passes timesteps one by one, by a machine of the engine's own.
ghost use Rattle.std.specs.Prelude.{◌≡◌, ◌+◌, map, IfOk, IsSome};
ghost use Rattle.rw_method.specs.Catalogue.{AreInOrder};
ghost use Rattle.rw_model.specs.Turn.{IsStep};
ghost use Rattle.rw_engine.specs.Passing.{BeginsRun, CanRun, RunsStep, steps_of};
ghost use Rattle.rw_engine.specs.Shows.{IsEngineOf};

use rpl_machine::Machine;
use rpl_predef::Predefs;
use rpl_verify::Verified;
use rw_base::{Ledger, NoMemory, StepNo, Steps};
use rw_engine::StepEnd;
use rw_inputs::Inputs;
use rw_method::Catalogue;
use rw_model::Basin;
use std::alloc::Global;

/// An engine of `rw_engine`, and the machine that fires its rules.
#[derive(Drop)]
pub struct Engine {
    /// What the run has come to.
    pub engine: rw_engine::Engine,
    machine: Machine,
}

impl Engine {
    /// Returns the engine of a run whose inputs are placed, with no timestep opened. It keeps a trace, and notes what each
    /// timestep looks at. The only error is want of memory.
    pub fn for_run(
        alloc: Global,
        basin: &Basin,
        policy: &Verified,
        inputs: &Inputs,
    ) -> Result<Engine, NoMemory>
        requires can { CanRun basin.now policy.now inputs.now }
        ensures begun { IfOk result (λ made. BeginsRun basin.now policy.now inputs.now made.engine) }
        ensures kept { IfOk result (λ made. IsSome made.engine.trace) }
        ensures noted { IfOk result (λ made. IsSome made.engine.noted) }
    {
        let engine = rw_engine::Engine::for_run(alloc, basin, policy, inputs)?;
        Ok(Engine {
            engine,
            machine: Machine::new(alloc),
        })
    }

    /// Passes the timestep after the last closed one: the timestep is opened, event follows event, and it is closed or ends
    /// with a fault, and is counted in `steps`. After want of memory it is not counted, and the engine shows the log that it
    /// showed before.
    pub fn run_step<L: Ledger>(
        &mut self,
        basin: &Basin,
        methods: &Catalogue,
        policy: &Verified,
        predefs: &Predefs,
        step: StepNo,
        steps: &mut Steps<L>,
    ) -> Result<StepEnd, NoMemory>
        requires made { IsEngineOf basin.now policy.now self.old.engine }
        requires order { AreInOrder
            (map (λ b. code (b.vtable, b.value)) methods.now.methods.items) }
        requires step { IsStep basin.now step.0 }
        ensures runs { RunsStep basin.now policy.now step.0 self.old.engine self.new.engine result }
        ensures counted { steps.new ≡ steps.old + steps_of result }
    {
        self.engine.run_step(
            basin,
            methods,
            policy,
            predefs,
            &mut self.machine,
            step,
            steps,
        )
    }
}
