//! Writes the trace of a run with what became of each put that was asked for.
ghost use Rattle.std.specs.Prelude.{◌≡◌, ◌<◌, ◌+◌, [], ◌∷◌, ◌++◌, ℕ, List, OnOk, Ok, drop, length, map, string_bytes};
ghost use Rattle.rw_method.specs.Catalogue.{AreInOrder};
ghost use Rattle.rw_inputs.specs.Placings.{placings};
ghost use Rattle.rw_run.specs.declared.trace.TraceEvent.{TraceEvent as Told};
ghost use Rattle.rw_run.specs.Choice.{MayLead};
ghost use Rattle.rw_run.specs.Log.{Event, Log};
ghost use Rattle.rw_run.specs.RunOf.{trace_of};
ghost use Rattle.rw_run.specs.Runs.{with_inputs};
ghost use Rattle.rw_run.specs.Trace.{lines_in};
ghost use Rattle.rpl_verify.specs.Verified.{verified};
ghost use Rattle.rw_rules.specs.Rules.{policy_in};
ghost use Rattle.rw_engine.specs.Passing.{CanRun};
ghost use Rattle.rw_asked.specs.Asked.{asked_trace};
ghost use Rattle.rw_asked.specs.Words.{asked_trace_words};
ghost use Rattle.rw_retold.specs.Walk.{IsWalkOf, IsWalkedTo};

use crate::walk::{Walk, push_plain};
use rpl_fires::Fires;
use rw_base::{Cell, NoMemory};
use rw_engine::RunSetup;
use rw_inputs::Inputs;
use rw_report::{Teller, line_at};
use rw_run::{Trace, TraceEvent, Write};
use std::alloc::Global;

// Tells the next line, and what was asked for in the event that it begins.
fn tell_line<M: Fires>(
    walk: &mut Walk,
    text: &mut String,
    machine: &mut M,
    setup: &RunSetup<'_>,
    teller: &Teller<'_>,
    line: TraceEvent,
) -> Result<(), NoMemory>
    requires teller { teller.now ≡ setup.now.basin.now }
    requires walk { IsWalkOf setup.now.basin.now walk.old }
    requires fits { verified setup.now.basin.now setup.now.policy.now.blocks
        ≡ Ok setup.now.policy.now }
    requires order { AreInOrder
        (map (λ b. code (b.vtable, b.value)) setup.now.methods.now.methods.items) }
    ensures walk { IsWalkOf setup.now.basin.now walk.new }
    ensures goes { (left : List Told) (log : Log) (whole : List ℕ)
        → IsWalkedTo setup.now.basin.now (policy_in setup.now.basin.now setup.now.policy.now)
        (line ∷ left) log whole walk.old (string_bytes text.old)
        → OnOk result (IsWalkedTo setup.now.basin.now
        (policy_in setup.now.basin.now setup.now.policy.now)
        left log whole walk.new (string_bytes text.new)) }
{
    match line {
        TraceEvent::Written {
            slot,
            step,
            content,
        } => {
            let cell = Cell { slot, step };
            walk.write(setup.basin, &Write { cell, content });
            Ok(())
        }
        TraceEvent::Opened(step) => {
            walk.step = step;
            push_plain(text, teller, setup.basin, line)
        }
        TraceEvent::Solve(object) => {
            push_plain(text, teller, setup.basin, line)?;
            walk.tell_dispatch(text, setup, teller, object)
        }
        TraceEvent::Fire {
            rule,
            done,
            count: _,
        } => {
            push_plain(text, teller, setup.basin, line)?;
            if done {
                walk.tell_firing(text, machine, setup, teller, rule)
            } else {
                Ok(())
            }
        }
        TraceEvent::Idle(_) => push_plain(text, teller, setup.basin, line),
        TraceEvent::Closed(_) => push_plain(text, teller, setup.basin, line),
        TraceEvent::Fault(_) => push_plain(text, teller, setup.basin, line),
    }
}

// Tells the line in a place. Most lines are of puts, and of such a line no more than the put is read.
#[inline(always)]
fn tell_at<M: Fires>(
    walk: &mut Walk,
    text: &mut String,
    machine: &mut M,
    setup: &RunSetup<'_>,
    teller: &Teller<'_>,
    trace: &Trace,
    place: usize,
) -> Result<(), NoMemory>
    requires within { place < length (lines_in trace.now) }
    requires teller { teller.now ≡ setup.now.basin.now }
    requires walk { IsWalkOf setup.now.basin.now walk.old }
    requires fits { verified setup.now.basin.now setup.now.policy.now.blocks
        ≡ Ok setup.now.policy.now }
    requires order { AreInOrder
        (map (λ b. code (b.vtable, b.value)) setup.now.methods.now.methods.items) }
    ensures walk { IsWalkOf setup.now.basin.now walk.new }
    ensures goes { (log : Log) (whole : List ℕ)
        → IsWalkedTo setup.now.basin.now (policy_in setup.now.basin.now setup.now.policy.now)
        (drop place (lines_in trace.now)) log whole walk.old (string_bytes text.old)
        → OnOk result (IsWalkedTo setup.now.basin.now
        (policy_in setup.now.basin.now setup.now.policy.now)
        (drop (place + 1) (lines_in trace.now)) log whole walk.new (string_bytes text.new)) }
{
    match trace.written(place) {
        Some(write) => {
            walk.write(setup.basin, &write);
            Ok(())
        }
        None => tell_line(walk, text, machine, setup, teller, line_at(trace, place)),
    }
}

// Tells all lines.
fn tell_all<M: Fires>(
    walk: &mut Walk,
    text: &mut String,
    machine: &mut M,
    setup: &RunSetup<'_>,
    teller: &Teller<'_>,
    trace: &Trace,
) -> Result<(), NoMemory>
    requires teller { teller.now ≡ setup.now.basin.now }
    requires walk { IsWalkOf setup.now.basin.now walk.old }
    requires fits { verified setup.now.basin.now setup.now.policy.now.blocks
        ≡ Ok setup.now.policy.now }
    requires order { AreInOrder
        (map (λ b. code (b.vtable, b.value)) setup.now.methods.now.methods.items) }
    ensures { (log : Log) (whole : List ℕ)
        → IsWalkedTo setup.now.basin.now (policy_in setup.now.basin.now setup.now.policy.now)
        (lines_in trace.now) log whole walk.old (string_bytes text.old)
        → OnOk result (string_bytes text.new ≡ whole) }
{
    for place in 0..trace.len() {
        tell_at(walk, text, machine, setup, teller, trace, place)?;
    }
    Ok(())
}

/// Appends the trace of a run of the setup from these inputs, in whatever order objects were dispatched, with what became of each
/// put that was asked for, as `docs/FORMATS.md` says. The machine fires the rules of the trace again. The only error is want of memory.
pub fn push_asked_trace<M: Fires>(
    alloc: Global,
    text: &mut String,
    machine: &mut M,
    setup: &RunSetup<'_>,
    inputs: &Inputs,
    trace: &Trace,
) -> Result<(), NoMemory>
    requires can { CanRun setup.now.basin.now setup.now.policy.now inputs.now }
    requires order { AreInOrder
        (map (λ b. code (b.vtable, b.value)) setup.now.methods.now.methods.items) }
    ensures { (log : Log) (events : List Event)
        → MayLead setup.now.basin.now (policy_in setup.now.basin.now setup.now.policy.now)
        (with_inputs [] (placings setup.now.basin.now inputs.now)) events log
        → lines_in trace.now ≡ trace_of log
        → OnOk result (string_bytes text.new ≡ string_bytes text.old
        ++ asked_trace_words setup.now.basin.now (asked_trace setup.now.basin.now
        (policy_in setup.now.basin.now setup.now.policy.now) log)) }
{
    let mut walk = Walk::begin(alloc, setup, inputs)?;
    let teller = Teller::new(alloc, setup.basin)?;
    text.push_str("# trace\n")?;
    tell_all(&mut walk, text, machine, setup, &teller, trace)
}
