//! Packs the lines of a trace, since a run has some for each of its cells.
ghost use Rattle.std.specs.Prelude.{◌≡◌, IfOk};
ghost use Rattle.rw_run.specs.Line.{line_event};
ghost use Rattle.rw_run.specs.RunOf.{line_of};
ghost use Rattle.rw_run.specs.Trace.{dispatch_told, write_of};

use crate::{RunFault, TraceEvent, Write};
use rw_base::{Cell, NoMemory, ObjectNo, Qty, RuleNo, SlotNo, StepNo};
use rw_model::{Content, Writer};
use std::alloc::Global;

/// A line of a trace as it is kept: small, since a run has some lines for each of its cells, and one fault at most.
#[derive(Drop)]
pub(crate) enum Line {
    Opened(StepNo),
    Idle(ObjectNo),
    Solve(ObjectNo),
    Fire {
        done: bool,
        rule: RuleNo,
        count: u64,
    },
    Written {
        slot: SlotNo,
        step: StepNo,
        number: u16,
        writer: Writer,
        value: Qty,
    },
    Closed(StepNo),
    Fault(Box<RunFault>),
}

/// Returns the line of an event.
#[inline(always)]
pub(crate) fn line_of(alloc: Global, event: TraceEvent) -> Result<Line, NoMemory>
    ensures { IfOk result (λ line. line_event line ≡ event) }
{
    Ok(match event {
        TraceEvent::Opened(step) => Line::Opened(step),
        TraceEvent::Idle(object) => Line::Idle(object),
        TraceEvent::Solve(object) => Line::Solve(object),
        TraceEvent::Fire { rule, done, count } => Line::Fire { done, rule, count },
        TraceEvent::Written {
            slot,
            step,
            content,
        } => Line::Written {
            slot,
            step,
            number: content.number,
            writer: content.writer,
            value: content.value,
        },
        TraceEvent::Closed(step) => Line::Closed(step),
        TraceEvent::Fault(fault) => Line::Fault(Box::new(alloc, fault)?),
    })
}

/// Returns the line of what is written.
#[inline(always)]
pub(crate) fn line_of_write(write: &Write) -> Line
    ensures { line_event result ≡ line_of write.now }
{
    Line::Written {
        slot: write.cell.slot,
        step: write.cell.step,
        number: write.content.number,
        writer: write.content.writer,
        value: write.content.value,
    }
}

/// Returns a copy of a line, with a box of its own where it has one.
pub(crate) fn copy_of(alloc: Global, line: &Line) -> Result<Line, NoMemory>
    ensures { IfOk result (λ copy. line_event copy ≡ line_event line.now) }
{
    Ok(match line {
        Line::Opened(step) => Line::Opened(*step),
        Line::Idle(object) => Line::Idle(*object),
        Line::Solve(object) => Line::Solve(*object),
        Line::Fire { done, rule, count } => Line::Fire {
            done: *done,
            rule: *rule,
            count: *count,
        },
        Line::Written {
            slot,
            step,
            number,
            writer,
            value,
        } => Line::Written {
            slot: *slot,
            step: *step,
            number: *number,
            writer: *writer,
            value: *value,
        },
        Line::Closed(step) => Line::Closed(*step),
        Line::Fault(fault) => Line::Fault(Box::new(alloc, **fault)?),
    })
}

/// Returns the event that a line reports.
#[inline(always)]
pub(crate) fn event_of(line: &Line) -> TraceEvent
    ensures { result ≡ line_event line.now }
{
    match line {
        Line::Opened(step) => TraceEvent::Opened(*step),
        Line::Idle(object) => TraceEvent::Idle(*object),
        Line::Solve(object) => TraceEvent::Solve(*object),
        Line::Fire { done, rule, count } => TraceEvent::Fire {
            rule: *rule,
            done: *done,
            count: *count,
        },
        Line::Written {
            slot,
            step,
            number,
            writer,
            value,
        } => TraceEvent::Written {
            slot: *slot,
            step: *step,
            content: Content {
                value: *value,
                number: *number,
                writer: *writer,
            },
        },
        Line::Closed(step) => TraceEvent::Closed(*step),
        Line::Fault(fault) => TraceEvent::Fault(**fault),
    }
}

/// Returns what a line reports as written; `None` where it reports something else.
#[inline(always)]
pub(crate) fn write_of(line: &Line) -> Option<Write>
    ensures { result ≡ write_of (line_event line.now) }
{
    match line {
        Line::Written {
            slot,
            step,
            number,
            writer,
            value,
        } => Some(Write {
            cell: Cell {
                slot: *slot,
                step: *step,
            },
            content: Content {
                value: *value,
                number: *number,
                writer: *writer,
            },
        }),
        _ => None,
    }
}

/// Returns whose dispatch a line reports, and whether it put something; `None` where it reports something else.
#[inline(always)]
pub(crate) fn dispatch_of(line: &Line) -> Option<(ObjectNo, bool)>
    ensures { result ≡ dispatch_told (line_event line.now) }
{
    match line {
        Line::Idle(object) => Some((*object, false)),
        Line::Solve(object) => Some((*object, true)),
        _ => None,
    }
}
