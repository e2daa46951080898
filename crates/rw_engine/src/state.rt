//! Holds what an engine works on, and lets event follow event in a timestep.
ghost use Rattle.std.specs.Prelude.{◌≡◌, ◌<◌, [], ℕ, map, List, Option, Some, None, Ok, IfOk, IfErr, IfSome, IsSome, is_some, true};
ghost use Rattle.rw_model.specs.Draft.{Draft};
ghost use Rattle.rw_method.specs.Catalogue.{AreInOrder};
ghost use Rattle.rw_run.specs.Log.{Event, Log, fault};
ghost use Rattle.rpl_verify.specs.Verified.{Accepted};
ghost use Rattle.rw_rules.specs.Firing.{IsRuleTurn};
ghost use Rattle.rw_run.specs.RunOf.{IsRunOf};
ghost use Rattle.rw_model.specs.Turn.{IsStep, IsTurn};
ghost use Rattle.rw_engine.specs.Counts.{count_of_number};
ghost use Rattle.rw_model.specs.Links.{IsBetween, bounds_in};
ghost use Rattle.rw_series.specs.Series.{IsCell};
ghost use Rattle.rw_dispatch.specs.Pick.{picked_at};
ghost use Rattle.rw_dispatch.specs.Queue.{IsTaken};
ghost use Rattle.rw_engine.specs.Passing.{CanRun, GivesInput, Replays, ReplaysKept, TakesBack};
ghost use Rattle.rw_run.specs.Runs.{inside};
ghost use Rattle.rw_engine.specs.Picked.{PicksAt, RunsStepBy};
ghost use Rattle.rw_engine.specs.Shows.{CanReplay, IsEngineOf, Shows};
ghost use Rattle.rw_engine.specs.State.{seen, Begins, DoesEvent, HasPassed, HasReplayed, HoldsBefore, HoldsDue, HoldsWithin, IsCleared, IsOpened, IsSoundState, IsStateOf, IsWithinStep, OnlyTells, ended_by, step_end};
ghost use Rattle.rw_dispatch.specs.Stage.{IsHeldIn};
ghost use Rattle.rw_engine.specs.Records.{CanWriteLines, HandsOver, HasNoted, IsUntold, RecordsOrNot};

use crate::counts::Counts;
use crate::noting::{note_dispatch, note_firing};
use crate::parts::{Parts, parts_of};
use crate::placing::{input, place};
use crate::replaying::{retell, write_again};
use crate::setup::RunSetup;
use crate::step_end::StepEnd;
use crate::trace_lines::{
    fault_by, fault_of_rule, note_firing_lines, note_lines, tell_line, trace_where,
};
use crate::turn::next_turn;
use rpl_fires::Fires;
use rpl_verify::Verified;
use rw_base::{Cell, NoMemory, ObjectNo, Qty, RuleNo, StepNo};
use rw_dispatch::{Pick, Queue, Workspace, judge_dispatch, make};
use rw_inputs::Inputs;
use rw_model::Basin;
use rw_record::{KeptStep, Noted, put_back_kept, take_back};
use rw_rules::{RuleSetup, Rules};
use rw_run::law::again;
use rw_run::{Run, RunEnd, RunFault, Trace, TraceEvent};
use rw_series::Series;
use std::alloc::Global;

/// What an engine works on. Queue, rules and counts, of dispatches and of firings, are those of the open timestep. What is noted is
/// at what the events of the last one looked, by which it is taken back where memory wants within it, and its lines. Turns are counted
/// over all timesteps, one a dispatch.
#[derive(Drop)]
pub(crate) struct State {
    run: Run,
    queue: Queue,
    rules: Rules,
    work: Workspace,
    counts: Counts,
    firings: Counts,
    noted: Noted,
    lines: Trace,
    turns: u64,
}

impl State {
    /// The state of a run whose inputs are placed, and no timestep opened.
    pub(crate) fn for_run(
        alloc: Global,
        basin: &Basin,
        policy: &Verified,
        inputs: &Inputs,
        trace: Trace,
        noted: Noted,
    ) -> Result<State, NoMemory>
        requires can { CanRun basin.now policy.now inputs.now }
        requires fresh { IfSome trace (λ lines. lines ≡ []) }
        requires notes { IsSome trace → IsSome noted }
        ensures begun { IfOk result (Begins basin.now policy.now inputs.now) }
        ensures trace { IfOk result (λ state. state.run.trace ≡ trace) }
        ensures noted { IfOk result (λ state. state.noted ≡ noted) }
    {
        let parts = parts_of(alloc, policy, basin)?;
        let Parts {
            counts,
            firings,
            queue,
            mut series,
            rules,
        } = parts;
        let lines = trace_where(alloc, noted.is_kept());
        place(basin, inputs, &mut series);
        Ok(State {
            run: Run {
                end: RunEnd::Settled,
                closed: 0,
                series,
                trace,
            },
            queue,
            rules,
            work: Workspace::new(noted.is_kept()),
            counts,
            firings,
            noted,
            lines,
            turns: 0,
        })
    }

    // Opens a timestep.
    fn open(&mut self, setup: &RunSetup, step: StepNo) -> Result<(), NoMemory>
        requires fresh { IsCleared setup.now.basin.now setup.now.policy.now self.old }
        ensures made { IsStateOf setup.now.basin.now setup.now.policy.now self.new }
        ensures tells { OnlyTells self.old self.new }
        ensures opened { IfOk result
            (λ _. IsOpened setup.now.basin.now setup.now.policy.now step.0 self.old self.new) }
        ensures wants { IfErr result (λ _. IsSome self.old.noted) }
    {
        let line = TraceEvent::Opened(step);
        tell_line(&mut self.run.trace, &mut self.lines, &line)?;
        self.queue.begin_step(setup.basin);
        self.rules.begin_step();
        self.counts.clear();
        self.firings.clear();
        Ok(())
    }

    // Closes the open timestep. As each of the calls below it answers whether the timestep ended: how, the state has.
    fn close(&mut self, setup: &RunSetup, step: StepNo) -> Result<bool, NoMemory>
        requires within { IsWithinStep setup.now.basin.now setup.now.policy.now self.old }
        requires idle { self.old.queue.waiting ≡ [] }
        requires step { IsStep setup.now.basin.now step.0 }
        ensures { DoesEvent setup.now.basin.now setup.now.policy.now None step.0 self.old self.new
            (HoldsDue setup.now.basin.now setup.now.policy.now self.old step.0 None) result }
    {
        let line = TraceEvent::Closed(step);
        tell_line(&mut self.run.trace, &mut self.lines, &line)?;
        self.run.closed = step.0;
        self.run.end = RunEnd::Settled;
        Ok(true)
    }

    // Ends the run by a limit that is reached.
    fn exceed(&mut self, setup: &RunSetup, step: StepNo, why: RunFault) -> Result<bool, NoMemory>
        requires within { IsWithinStep setup.now.basin.now setup.now.policy.now self.old }
        ensures { (chosen : Option ℕ) (waits : List ℕ)
            → DoesEvent setup.now.basin.now setup.now.policy.now chosen step.0 self.old self.new
            (HoldsBefore setup.now.basin.now setup.now.policy.now chosen self.old step.0 waits
            (fault why)) result }
    {
        let line = TraceEvent::Fault(why);
        tell_line(&mut self.run.trace, &mut self.lines, &line)?;
        self.run.end = RunEnd::Fault(why);
        Ok(true)
    }

    // Ends the run by the fault, if there is one.
    fn end_by(&mut self, fault: Option<RunFault>) -> bool
        ensures state { self.new ≡ ended_by fault self.old }
        ensures end { result ≡ is_some fault }
    {
        match fault {
            None => false,
            Some(fault) => {
                self.run.end = RunEnd::Fault(fault);
                true
            }
        }
    }

    // How the timestep ended.
    fn step_end(&self) -> StepEnd
        ensures { result ≡ step_end self.now.run.end }
    {
        match self.run.end {
            RunEnd::Settled => StepEnd::Closed,
            RunEnd::Fault(fault) => StepEnd::Fault(fault),
        }
    }

    // Dispatches the object that was taken out of the queue, below its limit.
    #[inline(always)]
    fn act(&mut self, setup: &RunSetup, object: ObjectNo, step: StepNo) -> Result<bool, NoMemory>
        requires within { IsWithinStep setup.now.basin.now setup.now.policy.now self.old }
        requires order { AreInOrder
            (map (λ b. code (b.vtable, b.value)) setup.now.methods.now.methods.items) }
        requires turn { IsTurn setup.now.basin.now object.0 step.0 }
        requires below { count_of_number self.old.counts object.0
            < setup.now.basin.now.control.object_limit }
        ensures { (place : ℕ) (waits : List ℕ)
            → IsTaken place waits object.0 self.old.queue.waiting
            → DoesEvent setup.now.basin.now setup.now.policy.now (Some object.0) step.0
            self.old self.new
            (HoldsWithin setup.now.basin.now setup.now.policy.now self.old step.0 waits) result }
    {
        self.counts.raise(object.0);
        self.turns = next_turn(self.turns);
        judge_dispatch(
            setup.basin,
            setup.methods,
            &self.run.series,
            object,
            step,
            &mut self.work,
        );
        let asked = self.work.asked.as_slice();
        note_dispatch(
            &mut self.noted,
            setup.basin,
            &self.run.series,
            object,
            step,
            asked,
        )?;
        let writes = self.work.writes.as_slice();
        note_lines(&mut self.lines, object, step, &self.work.end, writes)?;
        note_lines(&mut self.run.trace, object, step, &self.work.end, writes)?;
        make(setup.basin, &mut self.run.series, writes);
        self.queue
            .wake_written(setup.basin, step, writes, Some(object));
        self.rules.touched(setup.basin, writes);
        let fault = fault_by(object, step, &self.work.end);
        Ok(self.end_by(fault))
    }

    // Dispatches the object that was taken out of the queue, unless its limit is reached.
    #[inline(always)]
    fn ask(&mut self, setup: &RunSetup, object: ObjectNo, step: StepNo) -> Result<bool, NoMemory>
        requires within { IsWithinStep setup.now.basin.now setup.now.policy.now self.old }
        requires order { AreInOrder
            (map (λ b. code (b.vtable, b.value)) setup.now.methods.now.methods.items) }
        requires turn { IsTurn setup.now.basin.now object.0 step.0 }
        ensures { (place : ℕ) (waits : List ℕ)
            → IsTaken place waits object.0 self.old.queue.waiting
            → DoesEvent setup.now.basin.now setup.now.policy.now (Some object.0) step.0
            self.old self.new
            (HoldsWithin setup.now.basin.now setup.now.policy.now self.old step.0 waits) result }
    {
        let count = self.counts.get(object.0);
        if setup.basin.control().object_limit <= count {
            return self.exceed(
                setup,
                step,
                RunFault::ObjectLimit {
                    object,
                    step,
                    count,
                },
            );
        }
        self.act(setup, object, step)
    }

    // Lets the rule fire that is due, below its limit.
    fn fire<M: Fires>(
        &mut self,
        machine: &mut M,
        setup: &RunSetup,
        rule: RuleNo,
        step: StepNo,
    ) -> Result<bool, NoMemory>
        requires ready { M.serves machine.old setup.now.policy.now ≡ true }
        requires within { IsWithinStep setup.now.basin.now setup.now.policy.now self.old }
        requires idle { self.old.queue.waiting ≡ [] }
        requires turn { IsRuleTurn setup.now.basin.now setup.now.policy.now rule.0 step.0 }
        requires below { count_of_number self.old.firings rule.0
            < setup.now.basin.now.control.rule_limit }
        ensures ready { M.serves machine.new setup.now.policy.now ≡ true }
        ensures does { DoesEvent setup.now.basin.now setup.now.policy.now None step.0 self.old self.new
            (HoldsDue setup.now.basin.now setup.now.policy.now self.old step.0
            (Some rule.0)) result }
    {
        self.firings.raise(rule.0);
        let by = RuleSetup {
            basin: setup.basin,
            policy: setup.policy,
            predefs: setup.predefs,
        };
        let fired = self.rules.fire(machine, &by, &self.run.series, rule, step);
        note_firing(
            &mut self.noted,
            setup.basin,
            &self.run.series,
            &self.rules,
            rule,
        )?;
        let writes = self.rules.written();
        note_firing_lines(&mut self.lines, rule, step, &fired, writes)?;
        note_firing_lines(&mut self.run.trace, rule, step, &fired, writes)?;
        self.rules
            .write(setup.basin, &mut self.run.series, &mut self.queue, step);
        let fault = fault_of_rule(rule, step, &fired.end);
        Ok(self.end_by(fault))
    }

    // Lets the rule fire that is due, unless its limit is reached.
    fn let_fire<M: Fires>(
        &mut self,
        machine: &mut M,
        setup: &RunSetup,
        rule: RuleNo,
        step: StepNo,
    ) -> Result<bool, NoMemory>
        requires ready { M.serves machine.old setup.now.policy.now ≡ true }
        requires within { IsWithinStep setup.now.basin.now setup.now.policy.now self.old }
        requires idle { self.old.queue.waiting ≡ [] }
        requires turn { IsRuleTurn setup.now.basin.now setup.now.policy.now rule.0 step.0 }
        ensures ready { M.serves machine.new setup.now.policy.now ≡ true }
        ensures does { DoesEvent setup.now.basin.now setup.now.policy.now None step.0 self.old self.new
            (HoldsDue setup.now.basin.now setup.now.policy.now self.old step.0
            (Some rule.0)) result }
    {
        let count = self.firings.get(rule.0);
        if setup.basin.control().rule_limit <= count {
            return self.exceed(setup, step, RunFault::RuleLimit { rule, step, count });
        }
        self.fire(machine, setup, rule, step)
    }

    // Where no object waits, the first rule that is due fires; where none is due, the timestep is closed.
    fn turn_to_rules<M: Fires>(
        &mut self,
        machine: &mut M,
        setup: &RunSetup,
        step: StepNo,
    ) -> Result<bool, NoMemory>
        requires ready { M.serves machine.old setup.now.policy.now ≡ true }
        requires within { IsWithinStep setup.now.basin.now setup.now.policy.now self.old }
        requires idle { self.old.queue.waiting ≡ [] }
        requires step { IsStep setup.now.basin.now step.0 }
        ensures ready { M.serves machine.new setup.now.policy.now ≡ true }
        ensures does { DoesEvent setup.now.basin.now setup.now.policy.now None step.0 self.old self.new
            (HoldsWithin setup.now.basin.now setup.now.policy.now self.old step.0
            self.old.queue.waiting) result }
    {
        match self.rules.due(&self.run.series) {
            Some(rule) => self.let_fire(machine, setup, rule, step),
            None => self.close(setup, step),
        }
    }

    // The event that follows in the open timestep, where one of those that wait is picked.
    fn event<P: Pick, M: Fires>(
        &mut self,
        machine: &mut M,
        setup: &RunSetup,
        pick: &P,
        step: StepNo,
    ) -> Result<bool, NoMemory>
        requires ready { M.serves machine.old setup.now.policy.now ≡ true }
        requires within { IsWithinStep setup.now.basin.now setup.now.policy.now self.old }
        requires order { AreInOrder
            (map (λ b. code (b.vtable, b.value)) setup.now.methods.now.methods.items) }
        requires step { IsStep setup.now.basin.now step.0 }
        ensures ready { M.serves machine.new setup.now.policy.now ≡ true }
        ensures does { DoesEvent setup.now.basin.now setup.now.policy.now
            (picked_at (P.rule pick.now) self.old.turns self.old.queue.waiting)
            step.0 self.old self.new
            (HoldsWithin setup.now.basin.now setup.now.policy.now self.old step.0
            self.old.queue.waiting) result }
        ensures picks { PicksAt (P.rule pick.now) self.old.turns self.old.queue.waiting
            (inside step.0) }
    {
        match self.queue.next_by(pick, self.turns) {
            Some(object) => self.ask(setup, object, step),
            None => self.turn_to_rules(machine, setup, step),
        }
    }

    // The events of a timestep, of which the first opens it.
    fn pass<P: Pick, M: Fires>(
        &mut self,
        machine: &mut M,
        setup: &RunSetup,
        pick: &P,
        step: StepNo,
    ) -> Result<StepEnd, NoMemory>
        requires ready { M.serves machine.old setup.now.policy.now ≡ true }
        requires fresh { IsCleared setup.now.basin.now setup.now.policy.now self.old }
        requires order { AreInOrder
            (map (λ b. code (b.vtable, b.value)) setup.now.methods.now.methods.items) }
        requires step { IsStep setup.now.basin.now step.0 }
        ensures { HasPassed setup.now.basin.now setup.now.policy.now (P.rule pick.now) step.0
            self.old self.new result }
    {
        self.open(setup, step)?;
        loop {
            let ended = self.event(machine, setup, pick, step)?;
            if ended {
                return Ok(self.step_end());
            }
        }
    }

    /// Has the machine prepared for the policy, passes a timestep, and takes back what was done in it where memory wants for the rest.
    pub(crate) fn run_step<P: Pick, M: Fires>(
        &mut self,
        machine: &mut M,
        setup: &RunSetup,
        pick: &P,
        step: StepNo,
    ) -> Result<StepEnd, NoMemory>
        requires made { IsStateOf setup.now.basin.now setup.now.policy.now self.old }
        requires order { AreInOrder
            (map (λ b. code (b.vtable, b.value)) setup.now.methods.now.methods.items) }
        requires step { IsStep setup.now.basin.now step.0 }
        ensures made { IsStateOf setup.now.basin.now setup.now.policy.now self.new }
        ensures runs { RunsStepBy setup.now.basin.now setup.now.policy.now (P.rule pick.now) step.0
            (seen self.old) (seen self.new) result }
    {
        self.noted.begin_step();
        self.lines.truncate(0);
        machine.prepare(setup.policy)?;
        let before = self.run.trace.len();
        match self.pass(machine, setup, pick, step) {
            Ok(end) => Ok(end),
            Err(NoMemory) => {
                self.run.trace.truncate(before);
                take_back(setup.basin, &mut self.run.series, &self.noted);
                self.lines.truncate(0);
                Err(NoMemory)
            }
        }
    }

    /// What the run came to.
    pub(crate) fn finish(self) -> Run
        ensures run { (basin : Draft) (policy : Accepted) (log : Log)
            → IsEngineOf basin policy (seen self) → Shows basin (seen self) log
            → IsRunOf basin log result }
        ensures closed { result.closed ≡ self.run.closed }
        ensures trace { result.trace ≡ self.run.trace }
    {
        self.run
    }

    /// The record of the timestep that was closed last, if its lines are noted and it isn't too large.
    pub(crate) fn copied_kept(
        &self,
        alloc: Global,
        order: &mut Vec<u16>,
    ) -> Result<Option<KeptStep>, NoMemory>
        ensures noted { (basin : Draft) (step : ℕ) (old : Log) (events : List Event)
            → HasNoted basin step old events (seen self.now) → self.now.run.closed ≡ step
            → IfOk result (RecordsOrNot basin step old events) }
        ensures untold { IsUntold (seen self.now) → IfOk result (λ kept. kept ≡ None) }
    {
        let count = self.lines.len();
        if count == 0 {
            return Ok(None);
        }
        let mut lines = Trace::new(alloc);
        lines.append(&self.lines, 0)?;
        KeptStep::of(
            alloc,
            StepNo(self.run.closed),
            &self.noted,
            &mut lines,
            order,
        )
    }

    /// The same, to which its lines are handed over.
    pub(crate) fn last_kept(
        &mut self,
        alloc: Global,
        order: &mut Vec<u16>,
    ) -> Result<Option<KeptStep>, NoMemory>
        ensures noted { (basin : Draft) (step : ℕ) (old : Log) (events : List Event)
            → HasNoted basin step old events (seen self.old) → self.old.run.closed ≡ step
            → IfOk result (RecordsOrNot basin step old events) }
        ensures untold { IsUntold (seen self.old) → IfOk result (λ kept. kept ≡ None) }
        ensures sound { IsSoundState self.old → IsSoundState self.new }
        ensures left { HandsOver (seen self.old) (seen self.new) }
    {
        let count = self.lines.len();
        if count == 0 {
            return Ok(None);
        }
        KeptStep::of(
            alloc,
            StepNo(self.run.closed),
            &self.noted,
            &mut self.lines,
            order,
        )
    }

    // Passes a timestep again.
    fn pass_again(&mut self, basin: &Basin, kept: &KeptStep) -> Result<(), NoMemory>
        requires can { CanWriteLines basin.now kept.now.lines }
        requires made { IsHeldIn basin.now self.old.run.series }
        ensures { HasReplayed basin.now kept.now self.old self.new result }
    {
        self.noted.begin_step();
        self.lines.truncate(0);
        match retell(
            &mut self.noted,
            &mut self.lines,
            &mut self.run.trace,
            &self.run.series,
            kept,
        ) {
            Ok(()) => {}
            Err(NoMemory) => {
                self.lines.truncate(0);
                return Err(NoMemory);
            }
        }
        write_again(basin, &mut self.run.series, kept.lines());
        self.run.closed = kept.step().0;
        self.run.end = RunEnd::Settled;
        Ok(())
    }

    /// Passes a timestep again, by its record.
    pub(crate) fn replay(&mut self, basin: &Basin, kept: &KeptStep) -> Result<(), NoMemory>
        requires step { IsStep basin.now kept.now.step }
        requires can { CanWriteLines basin.now kept.now.lines }
        requires made { CanReplay basin.now (seen self.old) }
        ensures replays { Replays basin.now kept.now (seen self.old) (seen self.new) result }
        ensures sound { IsSoundState self.old → IsSoundState self.new }
    {
        again();
        self.pass_again(basin, kept)
    }

    /// The same, but no timestep is noted behind it.
    pub(crate) fn replay_kept(&mut self, basin: &Basin, kept: &KeptStep) -> Result<(), NoMemory>
        requires step { IsStep basin.now kept.now.step }
        requires can { CanWriteLines basin.now kept.now.lines }
        requires made { CanReplay basin.now (seen self.old) }
        ensures replays { ReplaysKept basin.now kept.now (seen self.old) (seen self.new) result }
        ensures sound { IsSoundState self.old → IsSoundState self.new }
    {
        again();
        self.noted.begin_step();
        self.lines.truncate(0);
        self.run.trace.append(kept.lines(), 0)?;
        write_again(basin, &mut self.run.series, kept.lines());
        self.run.closed = kept.step().0;
        self.run.end = RunEnd::Settled;
        Ok(())
    }

    /// Takes the timestep that was closed last back, by its record.
    pub(crate) fn take_back(&mut self, basin: &Basin, kept: &KeptStep)
        requires made { CanReplay basin.now (seen self.old) }
        ensures back { TakesBack basin.now kept.now (seen self.old) (seen self.new) }
        ensures sound { IsSoundState self.old → IsSoundState self.new }
    {
        self.noted.begin_step();
        self.lines.truncate(0);
        let before = self.run.trace.len().saturating_sub(kept.lines().len());
        self.run.trace.truncate(before);
        put_back_kept(basin, &mut self.run.series, kept.looked());
        self.run.closed = kept.step().0.saturating_sub(1);
        self.run.end = RunEnd::Settled;
    }

    /// Makes a cell hold an input, or nothing.
    pub(crate) fn give(&mut self, basin: &Basin, cell: Cell, value: Option<Qty>)
        requires made { CanReplay basin.now (seen self.old) }
        requires cell { IsCell basin.now cell }
        requires within { IfSome value (λ value. IsBetween
            (bounds_in basin.now.objects basin.now.links basin.now.bounds cell.slot.0) value) }
        ensures gives { GivesInput basin.now cell value (seen self.old) (seen self.new) }
        ensures sound { IsSoundState self.old → IsSoundState self.new }
    {
        self.run.series.restore(basin, cell, input(value));
    }

    /// What the run comes to so far.
    pub(crate) fn run(&self) -> &Run
        ensures is { result.now ≡ self.now.run }
        ensures run { (basin : Draft) (policy : Accepted) (log : Log)
            → IsEngineOf basin policy (seen self.now) → Shows basin (seen self.now) log
            → IsRunOf basin log result.now }
    {
        &self.run
    }
}
