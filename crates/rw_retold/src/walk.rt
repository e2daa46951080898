//! Walks through the lines of a trace, and lets objects solve and rules fire again to find what they asked for.
ghost use Rattle.std.specs.Prelude.{◌≡◌, [], ◌∷◌, ◌++◌, ◌≤◌, ℕ, IfOk, IsSome, List, OnOk, Ok, Some, if◌then◌else◌, map, codes, string_bytes};
ghost use Rattle.std.specs.Option.{option_or};
ghost use Rattle.rw_calendar.specs.declared.limits.TheConstants.{STEPS_MAX};
ghost use Rattle.rw_base.specs.declared.number.Cell.{Cell as Place};
ghost use Rattle.rw_model.specs.Turn.{IsStep};
ghost use Rattle.rw_method.specs.Catalogue.{AreInOrder};
ghost use Rattle.rw_series.specs.Series.{held};
ghost use Rattle.rw_firing.specs.Fire.{Fire as FireDone};
ghost use Rattle.rw_inputs.specs.Placings.{placings};
ghost use Rattle.rw_dispatch.specs.Writes.{AreWrites, CanWrite};
ghost use Rattle.rw_run.specs.declared.trace.TraceEvent.{TraceEvent as Lines};
ghost use Rattle.rw_run.specs.declared.trace.TraceEvent.TheVariants as TraceEvent;
ghost use Rattle.rw_run.specs.Dispatch.{dispatched};
ghost use Rattle.rw_run.specs.Log.{Dispatch, Log, cells_of, last_put, solved, value_in};
ghost use Rattle.rw_run.specs.Next.{asked_by_rule};
ghost use Rattle.rw_run.specs.Runs.{with_inputs};
ghost use Rattle.rw_report.specs.Lines.{line_words};
ghost use Rattle.rpl_verify.specs.Machine.{fire_of_code};
ghost use Rattle.rpl_verify.specs.Verified.{verified};
ghost use Rattle.rw_rules.specs.Rules.{policy_in};
ghost use Rattle.rw_engine.specs.Passing.{CanRun};
ghost use Rattle.rw_asked.specs.Asked.{AreToSlots, fates_alone, fates_of, lines_of_asks, wanted_of};
ghost use Rattle.rw_asked.specs.Words.{asked_lines_words};
ghost use Rattle.rw_retold.specs.Walk.{IsWalkOf, IsWalkedTo};

use crate::checks::{can_write, has_method, is_rule, is_step};
use rpl_fires::Fires;
use rw_asked::{push_dispatched, push_fired};
use rw_base::{NoMemory, ObjectNo, RuleNo, StepNo};
use rw_dispatch::{Workspace, judge_dispatch, make};
use rw_engine::{Engine, RunSetup};
use rw_firing::RulePut;
use rw_inputs::Inputs;
use rw_model::Basin;
use rw_report::{ROOM, Teller};
use rw_run::{TraceEvent, Write};
use rw_series::Series;
use rw_writes::asked_by;
use std::alloc::Global;

/// The cells as they were at a line of a trace, the open timestep, and what is wanted to have objects solve and rules fire again.
#[derive(Drop)]
pub(crate) struct Walk {
    pub(crate) series: Series,
    pub(crate) work: Workspace,
    pub(crate) wanted: Vec<Write>,
    pub(crate) step: StepNo,
    pub(crate) buffer: [u8; ROOM],
}

/// Appends a line of the trace as it is.
#[inline(always)]
pub(crate) fn push_plain(
    text: &mut String,
    teller: &Teller<'_>,
    basin: &Basin,
    line: TraceEvent,
) -> Result<(), NoMemory>
    requires { teller.now ≡ basin.now }
    ensures { OnOk result (string_bytes text.new
        ≡ string_bytes text.old ++ (line_words basin.now line ++ codes "\n")) }
{
    teller.push_line(text, line)
}

// Appends the lines of what a dispatch asked for.
fn push_alone(
    text: &mut String,
    buffer: &mut [u8; ROOM],
    teller: &Teller<'_>,
    basin: &Basin,
    series: &Series,
    puts: &[Write],
) -> Result<(), NoMemory>
    requires { teller.now ≡ basin.now }
    ensures { OnOk result (string_bytes text.new ≡ string_bytes text.old
        ++ asked_lines_words basin.now (lines_of_asks (fates_alone (held series.now) puts.now))) }
{
    push_dispatched(text, buffer, teller, series, puts)
}

// Appends the lines of what a firing asked for.
fn push_wanted(
    text: &mut String,
    buffer: &mut [u8; ROOM],
    teller: &Teller<'_>,
    basin: &Basin,
    series: &Series,
    puts: &[Write],
) -> Result<(), NoMemory>
    requires teller { teller.now ≡ basin.now }
    requires slots { AreToSlots basin.now puts.now }
    ensures { OnOk result (string_bytes text.new ≡ string_bytes text.old
        ++ asked_lines_words basin.now
        (lines_of_asks (fates_of basin.now (held series.now) puts.now))) }
{
    push_fired(text, buffer, teller, series, puts)
}

// Has what all these ask for.
fn want_all(
    wanted: &mut Vec<Write>,
    rule: RuleNo,
    step: StepNo,
    puts: &[RulePut],
) -> Result<(), NoMemory>
    requires { step.0 ≤ STEPS_MAX }
    ensures { OnOk result (wanted.new.items ≡ map (asked_by_rule rule.0 step.0) puts.now) }
{
    wanted.clear();
    for put in puts {
        wanted.push(asked_by(rule, step, *put))?;
    }
    Ok(())
}

impl Walk {
    /// Before the first timestep of the run of these inputs.
    pub(crate) fn begin(
        alloc: Global,
        setup: &RunSetup<'_>,
        inputs: &Inputs,
    ) -> Result<Walk, NoMemory>
        requires can { CanRun setup.now.basin.now setup.now.policy.now inputs.now }
        ensures walk { IfOk result (IsWalkOf setup.now.basin.now) }
        ensures cells { IfOk result (λ walk. (cell : Place) → held walk.series cell
            ≡ cells_of setup.now.basin.now
            (with_inputs [] (placings setup.now.basin.now inputs.now)) cell) }
    {
        let engine = Engine::without_trace(alloc, setup.basin, setup.policy, inputs)?;
        let run = engine.finish();
        Ok(Walk {
            series: run.series,
            work: Workspace::new(true),
            wanted: Vec::new(alloc),
            step: StepNo(0),
            buffer: [0; ROOM],
        })
    }

    /// Writes a put that the trace says to be written.
    pub(crate) fn write(&mut self, basin: &Basin, write: &Write)
        requires walk { IsWalkOf basin.now self.old }
        ensures walk { IsWalkOf basin.now self.new }
        ensures step { self.new.step ≡ self.old.step }
        ensures cells { CanWrite basin.now write.now → (cell : Place) → held self.new.series cell
            ≡ option_or (last_put basin.now (write.now ∷ []) cell) (held self.old.series cell) }
    {
        if can_write(basin, write) {
            make(basin, &mut self.series, &[*write]);
        }
    }

    /// Tells what an object asked for that is dispatched.
    pub(crate) fn tell_dispatch(
        &mut self,
        text: &mut String,
        setup: &RunSetup<'_>,
        teller: &Teller<'_>,
        object: ObjectNo,
    ) -> Result<(), NoMemory>
        requires teller { teller.now ≡ setup.now.basin.now }
        requires walk { IsWalkOf setup.now.basin.now self.old }
        requires order { AreInOrder
            (map (λ b. code (b.vtable, b.value)) setup.now.methods.now.methods.items) }
        ensures walk { IsWalkOf setup.now.basin.now self.new }
        ensures same { (self.new.series ≡ self.old.series) × (self.new.step ≡ self.old.step) }
        ensures told { (dispatch : Dispatch) → IsStep setup.now.basin.now self.old.step.0
            → dispatched setup.now.basin.now (held self.old.series) object.0 self.old.step.0
            ≡ solved dispatch
            → OnOk result ((string_bytes text.new ≡ string_bytes text.old
            ++ asked_lines_words setup.now.basin.now
            (lines_of_asks (fates_alone (held self.old.series) dispatch.asked)))
            × AreWrites setup.now.basin.now dispatch.written) }
    {
        if !is_step(setup.basin, self.step) || !has_method(setup.basin, object) {
            return Ok(());
        }
        let _end = judge_dispatch(
            setup.basin,
            setup.methods,
            &self.series,
            object,
            self.step,
            &mut self.work,
        );
        push_alone(
            text,
            &mut self.buffer,
            teller,
            setup.basin,
            &self.series,
            self.work.asked.as_slice(),
        )
    }

    /// Tells what a rule asked for that fires.
    pub(crate) fn tell_firing<M: Fires>(
        &mut self,
        text: &mut String,
        machine: &mut M,
        setup: &RunSetup<'_>,
        teller: &Teller<'_>,
        rule: RuleNo,
    ) -> Result<(), NoMemory>
        requires teller { teller.now ≡ setup.now.basin.now }
        requires walk { IsWalkOf setup.now.basin.now self.old }
        requires fits { verified setup.now.basin.now setup.now.policy.now.blocks
            ≡ Ok setup.now.policy.now }
        ensures walk { IsWalkOf setup.now.basin.now self.new }
        ensures same { (self.new.series ≡ self.old.series) × (self.new.step ≡ self.old.step) }
        ensures told { (fire : FireDone) → IsStep setup.now.basin.now self.old.step.0
            → fire_of_code setup.now.policy.now.blocks setup.now.basin.now rule.0
            self.old.step.0 (value_in (held self.old.series)) ≡ Some fire
            → OnOk result (string_bytes text.new ≡ string_bytes text.old
            ++ asked_lines_words setup.now.basin.now
            (lines_of_asks (fates_of setup.now.basin.now (held self.old.series)
            (wanted_of rule.0 self.old.step.0 (Some fire))))) }
    {
        if !is_step(setup.basin, self.step) {
            return Ok(());
        }
        if !is_rule(setup.policy, rule) {
            return Ok(());
        }
        machine.prepare(setup.policy)?;
        machine.fire(
            setup.policy,
            setup.predefs,
            setup.basin,
            &self.series,
            rule,
            self.step,
        );
        let fired = machine.fired();
        want_all(&mut self.wanted, rule, self.step, fired.puts)?;
        push_wanted(
            text,
            &mut self.buffer,
            teller,
            setup.basin,
            &self.series,
            self.wanted.as_slice(),
        )
    }
}
