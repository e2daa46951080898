//! Holds a run on its way, and runs, repeats and takes back its timesteps.
ghost use Rattle.std.specs.Prelude.{◌≤◌, ◌+◌, ◌↔◌, ℕ, List, map, IfOk, IfSome, ◌≡◌, IsSome, None, is_some, true};
ghost use Rattle.rw_model.specs.Draft.{Draft};
ghost use Rattle.rw_method.specs.Catalogue.{AreInOrder};
ghost use Rattle.rpl_verify.specs.Verified.{Accepted};
ghost use Rattle.rw_run.specs.Log.{Event, Log};
ghost use Rattle.rw_run.specs.RunOf.{IsRunOf};
ghost use Rattle.rw_model.specs.Turn.{IsStep};
ghost use Rattle.rw_model.specs.Links.{IsBetween, bounds_in};
ghost use Rattle.rw_series.specs.Series.{IsCell, held};
ghost use Rattle.rw_record.specs.Noted.{AreHeld};
ghost use Rattle.rw_engine.specs.Shows.{CanReplay, IsEngineOf, Shows};
ghost use Rattle.rw_engine.specs.Passing.{BeginsRun, CanRun, GivesInput, Replays, ReplaysKept, RunsStep, TakesBack, steps_of};
ghost use Rattle.rw_engine.specs.Picked.{RunsStepBy};
ghost use Rattle.rw_engine.specs.Records.{CanWriteLines, HasNoted, HandsOver, IsUntold, RecordsOrNot};

use crate::setup::RunSetup;
use crate::state::State;
use crate::step_end::StepEnd;
use crate::trace_lines::trace_where;
use rpl_fires::Fires;
use rpl_predef::Predefs;
use rpl_verify::Verified;
use rw_base::{Cell, Ledger, NoMemory, Qty, StepNo, Steps};
use rw_dispatch::{Oldest, Pick};
use rw_inputs::Inputs;
use rw_method::Catalogue;
use rw_model::Basin;
use rw_record::{KeptStep, Noted, StepRecord, is_alike, is_kept_alike, listed};
use rw_run::{Run, Trace};
use std::alloc::Global;
use std::marker::Model;

/// Represents a run on its way, seen as what it shows: its rules, what the cells hold, the trace, the last closed timestep, and its
/// end so far. `Shows` says which log of events it represents.
#[derive(Drop)]
pub struct Engine {
    state: State,
}

impl Model for Engine {
    ghost use Rattle.std.specs.Prelude.{◌≡◌, is_some, length};
    ghost use Rattle.rw_engine.specs.Engine as specs;
    ghost use Rattle.rw_engine.specs.State.{seen};

    ghost Value = { specs.Engine };

    ghost view = { λ engine. seen engine.state };

    ghost invariant = { λ engine. (length engine.state.counts ≡ engine.state.queue.objects)
        × (length engine.state.firings ≡ length engine.state.rules.agenda.rules)
        × (engine.state.work.keeps ≡ is_some engine.state.noted) };
}

impl Engine {
    /// Returns the engine of a run whose inputs are placed, with no timestep opened. It shows the log of the inputs. It keeps a
    /// trace, and notes what each timestep looks at, so that a record of it can be made. The only error is want of memory.
    /// `docs/DEFINITIONS.md` says under "Runs" what a run is.
    pub fn for_run(
        alloc: Global,
        basin: &Basin,
        policy: &Verified,
        inputs: &Inputs,
    ) -> Result<Engine, NoMemory>
        requires can { CanRun basin.now policy.now inputs.now }
        ensures begun { IfOk result (BeginsRun basin.now policy.now inputs.now) }
        ensures kept { IfOk result (λ engine. IsSome engine.trace) }
        ensures noted { IfOk result (λ engine. IsSome engine.noted) }
    {
        Engine::for_reuse(alloc, basin, policy, inputs, true)
    }

    /// Returns an engine as `for_run` does, which keeps a trace if one is asked for, and notes timesteps in any case. The only
    /// error is want of memory.
    pub fn for_reuse(
        alloc: Global,
        basin: &Basin,
        policy: &Verified,
        inputs: &Inputs,
        traced: bool,
    ) -> Result<Engine, NoMemory>
        requires can { CanRun basin.now policy.now inputs.now }
        ensures begun { IfOk result (BeginsRun basin.now policy.now inputs.now) }
        ensures noted { IfOk result (λ engine. IsSome engine.noted) }
        ensures kept { IfOk result (λ engine. is_some engine.trace ≡ traced) }
    {
        let trace = trace_where(alloc, traced);
        let noted = Noted::for_basin(alloc, basin)?;
        Ok(Engine {
            state: State::for_run(alloc, basin, policy, inputs, trace, noted)?,
        })
    }

    /// Returns an engine as `for_run` does, without a trace: it keeps no line, notes nothing, and takes no memory within a
    /// timestep. The only error is want of memory.
    pub fn without_trace(
        alloc: Global,
        basin: &Basin,
        policy: &Verified,
        inputs: &Inputs,
    ) -> Result<Engine, NoMemory>
        requires can { CanRun basin.now policy.now inputs.now }
        ensures begun { IfOk result (BeginsRun basin.now policy.now inputs.now) }
    {
        let trace = Trace::unkept(alloc);
        let noted = Noted::unkept(alloc);
        Ok(Engine {
            state: State::for_run(alloc, basin, policy, inputs, trace, noted)?,
        })
    }

    /// Passes the timestep after the last closed one, and lets the machine fire its rules: the timestep is opened, event follows
    /// event, and it is closed or ends with a fault, and is counted in `steps`. After want of memory it is not counted, and the
    /// engine shows the log that it showed before, and has no timestep noted.
    pub fn run_step<L: Ledger, M: Fires>(
        &mut self,
        basin: &Basin,
        methods: &Catalogue,
        policy: &Verified,
        predefs: &Predefs,
        machine: &mut M,
        step: StepNo,
        steps: &mut Steps<L>,
    ) -> Result<StepEnd, NoMemory>
        requires made { IsEngineOf basin.now policy.now self.old }
        requires order { AreInOrder
            (map (λ b. code (b.vtable, b.value)) methods.now.methods.items) }
        requires step { IsStep basin.now step.0 }
        ensures runs { RunsStep basin.now policy.now step.0 self.old self.new result }
        ensures counted { steps.new ≡ steps.old + steps_of result }
    {
        let setup = RunSetup {
            basin,
            methods,
            policy,
            predefs,
        };
        self.run_step_of(machine, &setup, step, steps)
    }

    /// Passes the timestep as `run_step` does, of a setup.
    pub fn run_step_of<L: Ledger, M: Fires>(
        &mut self,
        machine: &mut M,
        setup: &RunSetup<'_>,
        step: StepNo,
        steps: &mut Steps<L>,
    ) -> Result<StepEnd, NoMemory>
        requires made { IsEngineOf setup.now.basin.now setup.now.policy.now self.old }
        requires order { AreInOrder
            (map (λ b. code (b.vtable, b.value)) setup.now.methods.now.methods.items) }
        requires step { IsStep setup.now.basin.now step.0 }
        ensures runs { RunsStep setup.now.basin.now setup.now.policy.now step.0
            self.old self.new result }
        ensures counted { steps.new ≡ steps.old + steps_of result }
    {
        self.run_step_by(machine, setup, &Oldest, step, steps)
    }

    // The same where it is picked who is dispatched.
    pub(crate) fn run_step_by<L: Ledger, P: Pick, M: Fires>(
        &mut self,
        machine: &mut M,
        setup: &RunSetup,
        pick: &P,
        step: StepNo,
        steps: &mut Steps<L>,
    ) -> Result<StepEnd, NoMemory>
        requires made { IsEngineOf setup.now.basin.now setup.now.policy.now self.old }
        requires order { AreInOrder
            (map (λ b. code (b.vtable, b.value)) setup.now.methods.now.methods.items) }
        requires step { IsStep setup.now.basin.now step.0 }
        ensures runs { RunsStepBy setup.now.basin.now setup.now.policy.now (P.rule pick.now) step.0
            self.old self.new result }
        ensures counted { steps.new ≡ steps.old + steps_of result }
    {
        let end = self.state.run_step(machine, setup, pick, step)?;
        steps.tick();
        Ok(end)
    }

    /// Returns the result of the run so far. It takes no memory.
    pub fn run(&self) -> &Run
        ensures run { (basin : Draft) (policy : Accepted) (log : Log)
            → IsEngineOf basin policy self.now
            → Shows basin self.now log → IsRunOf basin log result.now }
        ensures same { (result.now.closed ≡ self.now.closed) × (result.now.trace ≡ self.now.trace) }
    {
        self.state.run()
    }

    /// Returns the record of the timestep that was closed last, of an engine that notes timesteps; `None` exactly if it has too many
    /// cells or lines to be kept, or is not noted: after want of memory, or once a timestep was taken back.
    pub fn last_record(&self, alloc: Global) -> Result<Option<StepRecord>, NoMemory>
        ensures noted { (basin : Draft) (step : ℕ) (old : Log) (events : List Event)
            → HasNoted basin step old events self.now → self.now.closed ≡ step
            → IfOk result (RecordsOrNot basin step old events) }
        ensures untold { IsUntold self.now → IfOk result (λ kept. kept ≡ None) }
    {
        let mut order = Vec::new(alloc);
        let kept = self.state.copied_kept(alloc, &mut order)?;
        listed(alloc, kept)
    }

    /// Returns that record as it is kept, with the lines of the timestep themselves: so it can be asked for once. `order` is the
    /// order in which the cells of another timestep rose, or any other: if those of this one rise so too, they need no sorting.
    pub fn last_kept(
        &mut self,
        alloc: Global,
        order: &mut Vec<u16>,
    ) -> Result<Option<KeptStep>, NoMemory>
        ensures noted { (basin : Draft) (step : ℕ) (old : Log) (events : List Event)
            → HasNoted basin step old events self.old → self.old.closed ≡ step
            → IfOk result (RecordsOrNot basin step old events) }
        ensures untold { IsUntold self.old → IfOk result (λ kept. kept ≡ None) }
        ensures left { HandsOver self.old self.new }
    {
        self.state.last_kept(alloc, order)
    }

    /// Returns whether each cell that a timestep looked at holds what it held before that timestep.
    pub fn alike(&self, kept: &StepRecord) -> bool
        ensures { (result ≡ true) ↔ AreHeld (held self.now.series) kept.now.looked }
    {
        is_alike(&self.state.run().series, kept.looked())
    }

    /// Returns the same as `alike`, by what is kept of the timestep.
    pub fn is_kept_alike(&self, kept: &KeptStep) -> bool
        ensures { (result ≡ true) ↔ AreHeld (held self.now.series) kept.now.looked }
    {
        is_kept_alike(&self.state.run().series, kept.looked())
    }

    /// Passes a timestep again, by its record, without methods and rules. If its cells are alike, and it comes after the last
    /// closed one, that is what `run_step` would do. After want of memory the engine shows the log that it showed before, and
    /// has no timestep noted.
    pub fn replay(&mut self, basin: &Basin, kept: &StepRecord) -> Result<(), NoMemory>
        requires step { IsStep basin.now kept.now.step }
        requires can { CanWriteLines basin.now kept.now.lines }
        requires made { CanReplay basin.now self.old }
        ensures { Replays basin.now kept.now self.old self.new result }
    {
        self.state.replay(basin, kept.kept())
    }

    /// Passes a timestep again, by what is kept of it, and notes no timestep.
    pub fn replay_kept(&mut self, basin: &Basin, kept: &KeptStep) -> Result<(), NoMemory>
        requires step { IsStep basin.now kept.now.step }
        requires can { CanWriteLines basin.now kept.now.lines }
        requires made { CanReplay basin.now self.old }
        ensures { ReplaysKept basin.now kept.now self.old self.new result }
    {
        self.state.replay_kept(basin, kept)
    }

    /// Takes back the timestep that was closed last, by its record: the engine shows the log before it. It takes no memory.
    pub fn take_back(&mut self, basin: &Basin, kept: &StepRecord)
        requires made { CanReplay basin.now self.old }
        ensures { TakesBack basin.now kept.now self.old self.new }
    {
        self.take_back_kept(basin, kept.kept())
    }

    /// Takes back the timestep that was closed last, by what is kept of it.
    pub fn take_back_kept(&mut self, basin: &Basin, kept: &KeptStep)
        requires made { CanReplay basin.now self.old }
        ensures { TakesBack basin.now kept.now self.old self.new }
    {
        self.state.take_back(basin, kept)
    }

    /// Sets a cell, with those that share its value, to an input, in the base units of the slot's dimension and within its
    /// bounds, or to nothing if none is given. It takes no memory.
    pub fn give(&mut self, basin: &Basin, cell: Cell, value: Option<Qty>)
        requires made { CanReplay basin.now self.old }
        requires cell { IsCell basin.now cell }
        requires within { IfSome value (λ value. IsBetween
            (bounds_in basin.now.objects basin.now.links basin.now.bounds cell.slot.0) value) }
        ensures { GivesInput basin.now cell value self.old self.new }
    {
        self.state.give(basin, cell, value)
    }

    /// Returns the result of the run, or its result so far if timesteps are left. It takes no memory.
    pub fn finish(self) -> Run
        ensures run { (basin : Draft) (policy : Accepted) (log : Log) → IsEngineOf basin policy self
            → Shows basin self log → IsRunOf basin log result }
        ensures closed { (basin : Draft) (policy : Accepted) → IsEngineOf basin policy self
            → result.closed ≤ basin.control.stamps.count }
        ensures same { (result.closed ≡ self.closed) × (result.trace ≡ self.trace) }
    {
        self.state.finish()
    }
}
