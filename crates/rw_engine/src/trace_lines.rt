//! Writes the lines of events to a trace, and to the lines of the timestep if these are noted.
ghost use Rattle.std.specs.Prelude.{◌≡◌, [], ◌∷◌, if◌then◌else◌, map, IfOk, IfErr, IsSome, None, Some};
ghost use Rattle.rw_run.specs.declared.trace.TraceEvent.TheVariants as Line;
ghost use Rattle.rw_run.specs.RunOf.{line_of};
ghost use Rattle.rw_run.specs.Trace.{told};
ghost use Rattle.rw_engine.specs.Lines.{lines_by, lines_of_rule, fault_by, fault_of_rule, TellsBoth, TraceGrows};

use rw_base::{NoMemory, ObjectNo, RuleNo, StepNo};
use rw_dispatch::DispatchEnd;
use rw_firing::FireEnd;
use rw_rules::RuleFired;
use rw_run::{RunFault, Trace, TraceEvent, Write};
use std::alloc::Global;

/// A trace without lines, where lines are to be kept, and one that keeps none elsewhere.
pub(crate) fn trace_where(alloc: Global, kept: bool) -> Trace
    ensures { result ≡ (if kept then Some [] else None) }
{
    if kept {
        Trace::new(alloc)
    } else {
        Trace::unkept(alloc)
    }
}

// Writes a line for each.
fn tell_writes(trace: &mut Trace, writes: &[Write]) -> Result<(), NoMemory>
    ensures told { IfOk result (λ _. trace.new ≡ told trace.old (map line_of writes.now)) }
    ensures grows { TraceGrows trace.old trace.new }
    ensures wants { IfErr result (λ _. IsSome trace.old) }
{
    for write in writes {
        trace.push_write(write)?;
    }
    Ok(())
}

// Writes the line of a fault, and hands it back.
fn tell_fault(trace: &mut Trace, fault: RunFault) -> Result<Option<RunFault>, NoMemory>
    ensures told { IfOk result
        (λ ended. (trace.new ≡ told trace.old (Line.Fault fault ∷ [])) × (ended ≡ Some fault)) }
    ensures grows { TraceGrows trace.old trace.new }
    ensures wants { IfErr result (λ _. IsSome trace.old) }
{
    trace.push(TraceEvent::Fault(fault))?;
    Ok(Some(fault))
}

// Writes a line, and one for each of these below it.
#[inline(always)]
fn tell_done(
    trace: &mut Trace,
    line: TraceEvent,
    writes: &[Write],
) -> Result<Option<RunFault>, NoMemory>
    ensures told { IfOk result (λ ended. (trace.new
        ≡ told trace.old (line ∷ map line_of writes.now)) × (ended ≡ None)) }
    ensures grows { TraceGrows trace.old trace.new }
    ensures wants { IfErr result (λ _. IsSome trace.old) }
{
    trace.push(line)?;
    tell_writes(trace, writes)?;
    Ok(None)
}

/// Writes the lines of a dispatch that ended so and writes these, and answers the fault that it is, if it is one.
#[inline(always)]
fn tell(
    trace: &mut Trace,
    object: ObjectNo,
    step: StepNo,
    end: &DispatchEnd,
    writes: &[Write],
) -> Result<Option<RunFault>, NoMemory>
    ensures told { IfOk result
        (λ _. trace.new ≡ told trace.old (lines_by object.0 step.0 end.now writes.now)) }
    ensures fault { IfOk result (λ fault. fault ≡ fault_by object.0 step.0 end.now) }
    ensures grows { TraceGrows trace.old trace.new }
    ensures wants { IfErr result (λ _. IsSome trace.old) }
{
    match end {
        DispatchEnd::Idle => tell_done(trace, TraceEvent::Idle(object), &[]),
        DispatchEnd::Solved => tell_done(trace, TraceEvent::Solve(object), writes),
        DispatchEnd::Conflict { slot, held, solved } => tell_fault(
            trace,
            RunFault::Conflict {
                object,
                slot: *slot,
                step,
                held: *held,
                solved: *solved,
            },
        ),
        DispatchEnd::OutOfRange { slot, value } => tell_fault(
            trace,
            RunFault::ObjectOutOfRange {
                object,
                slot: *slot,
                step,
                value: *value,
            },
        ),
    }
}

// Writes the lines of a rule's firing that writes these, and answers the fault that it is, if it is one.
#[inline(always)]
fn tell_firing(
    trace: &mut Trace,
    rule: RuleNo,
    step: StepNo,
    fired: &RuleFired,
    writes: &[Write],
) -> Result<Option<RunFault>, NoMemory>
    ensures told { IfOk result (λ _. trace.new ≡ told trace.old
        (lines_of_rule rule.0 step.0 fired.now.end fired.now.count writes.now)) }
    ensures fault { IfOk result (λ fault. fault ≡ fault_of_rule rule.0 step.0 fired.now.end) }
    ensures grows { TraceGrows trace.old trace.new }
    ensures wants { IfErr result (λ _. IsSome trace.old) }
{
    let count = fired.count;
    match fired.end {
        FireEnd::Done => {
            let done = true;
            tell_done(trace, TraceEvent::Fire { rule, done, count }, writes)
        }
        FireEnd::Unknown => {
            let done = false;
            tell_done(trace, TraceEvent::Fire { rule, done, count }, writes)
        }
        FireEnd::ZeroDivisor => tell_fault(trace, RunFault::ZeroDivisor { rule, step }),
        FireEnd::OutOfRange(value) => {
            tell_fault(trace, RunFault::RuleOutOfRange { rule, step, value })
        }
    }
}

/// The fault that a dispatch is which ended so, if it is one.
#[inline(always)]
pub(crate) fn fault_by(object: ObjectNo, step: StepNo, end: &DispatchEnd) -> Option<RunFault>
    ensures { result ≡ fault_by object.0 step.0 end.now }
{
    match end {
        DispatchEnd::Idle | DispatchEnd::Solved => None,
        DispatchEnd::Conflict { slot, held, solved } => Some(RunFault::Conflict {
            object,
            slot: *slot,
            step,
            held: *held,
            solved: *solved,
        }),
        DispatchEnd::OutOfRange { slot, value } => Some(RunFault::ObjectOutOfRange {
            object,
            slot: *slot,
            step,
            value: *value,
        }),
    }
}

/// The fault that a firing is which ended so, if it is one.
#[inline(always)]
pub(crate) fn fault_of_rule(rule: RuleNo, step: StepNo, end: &FireEnd) -> Option<RunFault>
    ensures { result ≡ fault_of_rule rule.0 step.0 end.now }
{
    match end {
        FireEnd::Done | FireEnd::Unknown => None,
        FireEnd::ZeroDivisor => Some(RunFault::ZeroDivisor { rule, step }),
        FireEnd::OutOfRange(value) => Some(RunFault::RuleOutOfRange {
            rule,
            step,
            value: *value,
        }),
    }
}

// Notes the lines of a dispatch.
#[inline(never)]
fn note_dispatched(
    lines: &mut Trace,
    object: ObjectNo,
    step: StepNo,
    end: &DispatchEnd,
    writes: &[Write],
) -> Result<(), NoMemory>
    ensures told { IfOk result
        (λ _. lines.new ≡ told lines.old (lines_by object.0 step.0 end.now writes.now)) }
    ensures grows { TraceGrows lines.old lines.new }
    ensures wants { IfErr result (λ _. IsSome lines.old) }
{
    tell(lines, object, step, end, writes)?;
    Ok(())
}

/// The same, where lines are kept.
#[inline(always)]
pub(crate) fn note_lines(
    lines: &mut Trace,
    object: ObjectNo,
    step: StepNo,
    end: &DispatchEnd,
    writes: &[Write],
) -> Result<(), NoMemory>
    ensures told { IfOk result
        (λ _. lines.new ≡ told lines.old (lines_by object.0 step.0 end.now writes.now)) }
    ensures grows { TraceGrows lines.old lines.new }
    ensures wants { IfErr result (λ _. IsSome lines.old) }
{
    if lines.is_kept() {
        note_dispatched(lines, object, step, end, writes)
    } else {
        Ok(())
    }
}

// Notes the lines of a firing.
#[inline(never)]
fn note_fired(
    lines: &mut Trace,
    rule: RuleNo,
    step: StepNo,
    fired: RuleFired,
    writes: &[Write],
) -> Result<(), NoMemory>
    ensures told { IfOk result (λ _. lines.new ≡ told lines.old
        (lines_of_rule rule.0 step.0 fired.end fired.count writes.now)) }
    ensures grows { TraceGrows lines.old lines.new }
    ensures wants { IfErr result (λ _. IsSome lines.old) }
{
    tell_firing(lines, rule, step, &fired, writes)?;
    Ok(())
}

/// The same, where lines are kept.
#[inline(always)]
pub(crate) fn note_firing_lines(
    lines: &mut Trace,
    rule: RuleNo,
    step: StepNo,
    fired: &RuleFired,
    writes: &[Write],
) -> Result<(), NoMemory>
    ensures told { IfOk result (λ _. lines.new ≡ told lines.old
        (lines_of_rule rule.0 step.0 fired.now.end fired.now.count writes.now)) }
    ensures grows { TraceGrows lines.old lines.new }
    ensures wants { IfErr result (λ _. IsSome lines.old) }
{
    if lines.is_kept() {
        note_fired(lines, rule, step, *fired, writes)
    } else {
        Ok(())
    }
}

/// Tells a line to a trace, and to the lines of its timestep.
pub(crate) fn tell_line(
    trace: &mut Trace,
    lines: &mut Trace,
    line: &TraceEvent,
) -> Result<(), NoMemory>
    requires { IsSome trace.old → IsSome lines.old }
    ensures { TellsBoth (line.now ∷ []) trace.old lines.old trace.new lines.new result }
{
    lines.push(*line)?;
    trace.push(*line)
}
