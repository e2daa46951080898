//! Keeps what happens in a run, line by line.
ghost use Rattle.std.specs.Prelude.{◌≡◌, [], ◌∷◌, ◌++◌, length, map, take, drop, slice_get, option_and_then, option_map, is_some, Some, None, IsSome, IfOk, IfErr};
ghost use Rattle.rw_run.specs.Line.{line_event};
ghost use Rattle.rw_run.specs.declared.line.Line.{Line as LineKept};
ghost use Rattle.rw_run.specs.RunOf.{line_of};
ghost use Rattle.rw_run.specs.Trace.{dispatch_told, lines_in, told, write_of};

use crate::line::{Line, copy_of, dispatch_of, event_of, line_of, line_of_write, write_of};
use crate::{RunFault, Write};
use rw_base::{NoMemory, ObjectNo, RuleNo, SlotNo, StepNo};
use rw_model::Content;
use std::alloc::Global;
use std::marker::Model;

/// The lines of a trace.
#[derive(Clone, Copy, Debug, PartialEq, Eq)]
pub enum TraceEvent {
    /// A timestep was opened.
    Opened(StepNo),
    /// An object was dispatched and put nothing.
    Idle(ObjectNo),
    /// An object was dispatched; the lines after this one say what it wrote.
    Solve(ObjectNo),
    /// A rule fired; the lines after this one say what it wrote.
    Fire {
        /// The rule.
        rule: RuleNo,
        /// Whether it reached its end, and not an unknown value.
        done: bool,
        /// The number of instructions that it took.
        count: u64,
    },
    /// A put was written.
    Written {
        /// The slot.
        slot: SlotNo,
        /// The timestep of its cell.
        step: StepNo,
        /// The content of the cell from then on.
        content: Content,
    },
    /// A timestep was closed.
    Closed(StepNo),
    /// The run ended with this fault.
    Fault(RunFault),
}

/// The record of what happens in a run, line by line, seen as the list of its lines, and as none where they are not kept. It
/// keeps 24 bytes for a line.
#[derive(Drop)]
pub struct Trace {
    kept: bool,
    alloc: Global,
    lines: Vec<Line>,
}

impl Model for Trace {
    ghost use Rattle.std.specs.Prelude.{List, map, Option, Some, None, if◌then◌else◌};
    ghost use Rattle.rw_run.specs.declared.trace.TraceEvent.{TraceEvent};
    ghost use Rattle.rw_run.specs.Line.{line_event};

    ghost Value = { Option (List TraceEvent) };

    ghost view = { λ t. if t.kept then Some (map line_event t.lines.items) else None };
}

impl Trace {
    /// Returns the trace without lines. It takes no memory.
    pub fn new(alloc: Global) -> Trace
        ensures { result ≡ Some [] }
    {
        Trace {
            kept: true,
            alloc,
            lines: Vec::new(alloc),
        }
    }

    /// Returns a trace that keeps no line that is added to it, and so never takes memory.
    pub fn unkept(alloc: Global) -> Trace
        ensures { result ≡ None }
    {
        Trace {
            kept: false,
            alloc,
            lines: Vec::new(alloc),
        }
    }

    /// Adds a line at the end, if lines are kept; if not, it takes no memory. After want of memory the trace is as it was.
    #[inline(always)]
    pub fn push(&mut self, event: TraceEvent) -> Result<(), NoMemory>
        ensures pushed { IfOk result (λ _. self.new ≡ told self.old (event ∷ [])) }
        ensures unchanged { IfErr result (λ _. self.new ≡ self.old) }
        ensures wants { IfErr result (λ _. IsSome self.old) }
    {
        if self.kept {
            push(self.alloc, &mut self.lines, event)
        } else {
            Ok(())
        }
    }

    /// Adds the line of what is written, in the same way as `push`.
    #[inline(always)]
    pub fn push_write(&mut self, write: &Write) -> Result<(), NoMemory>
        ensures pushed { IfOk result (λ _. self.new ≡ told self.old (line_of write.now ∷ [])) }
        ensures unchanged { IfErr result (λ _. self.new ≡ self.old) }
        ensures wants { IfErr result (λ _. IsSome self.old) }
    {
        if self.kept {
            push_write(&mut self.lines, write)
        } else {
            Ok(())
        }
    }

    /// Adds the lines of another trace from a place on, as they are kept there, if lines are kept; if not, it takes no memory.
    /// After want of memory the trace is as it was.
    pub fn append(&mut self, other: &Trace, from: usize) -> Result<(), NoMemory>
        ensures appended { IfOk result
            (λ _. self.new ≡ told self.old (drop from (lines_in other.now))) }
        ensures unchanged { IfErr result (λ _. self.new ≡ self.old) }
        ensures wants { IfErr result (λ _. IsSome self.old) }
    {
        if self.kept {
            append(self.alloc, &mut self.lines, other.kept_from(from))
        } else {
            Ok(())
        }
    }

    /// Returns its lines as a trace of their own, in room of their size, and keeps the room that it has. After want of memory the
    /// trace is as it was.
    pub fn take(&mut self) -> Result<Trace, NoMemory>
        ensures taken { IfOk result (λ lines. lines ≡ Some (lines_in self.old)) }
        ensures left { IfOk result (λ _. self.new ≡ option_map (λ _. []) self.old) }
        ensures unchanged { IfErr result (λ _. self.new ≡ self.old) }
        ensures wants { IfErr result (λ _. IsSome self.old) }
    {
        let mut taken = Trace::new(self.alloc);
        if self.kept {
            taken.lines.append(&mut self.lines)?;
        }
        Ok(taken)
    }

    // The lines from a place on, as they are kept.
    fn kept_from(&self, place: usize) -> &[Line]
        ensures { map line_event result.now ≡ drop place (lines_in self.now) }
    {
        if self.kept {
            from_place(&self.lines, place)
        } else {
            &[]
        }
    }

    /// Returns whether lines are kept.
    pub fn is_kept(&self) -> bool
        ensures { result ≡ is_some self.now }
    {
        self.kept
    }

    /// Returns the line in a place, counted from 0. `None` exactly where there is none.
    #[inline(always)]
    pub fn line(&self, place: usize) -> Option<TraceEvent>
        ensures { result ≡ slice_get (lines_in self.now) place }
    {
        if self.kept {
            line_at(&self.lines, place)
        } else {
            None
        }
    }

    /// Returns what the line in a place reports as written. `None` where there is no such line, and where it reports something
    /// else.
    pub fn written(&self, place: usize) -> Option<Write>
        ensures { result ≡ option_and_then write_of (slice_get (lines_in self.now) place) }
    {
        if self.kept {
            write_at(&self.lines, place)
        } else {
            None
        }
    }

    /// Returns whose dispatch the line in a place reports, and whether it put something. `None` where there is no such line, and
    /// where it reports something else.
    #[inline(always)]
    pub fn dispatched(&self, place: usize) -> Option<(ObjectNo, bool)>
        ensures { result ≡ option_and_then dispatch_told (slice_get (lines_in self.now) place) }
    {
        if self.kept {
            dispatch_at(&self.lines, place)
        } else {
            None
        }
    }

    /// Returns the number of lines.
    pub fn len(&self) -> usize
        ensures { result ≡ length (lines_in self.now) }
    {
        if self.kept { self.lines.len() } else { 0 }
    }

    /// Keeps the first `count` lines alone.
    pub fn truncate(&mut self, count: usize)
        ensures { self.new ≡ option_map (take count) self.old }
    {
        self.lines.truncate(count);
    }
}

// Adds the line of an event. After want of memory the lines are as they were.
#[inline(always)]
fn push(alloc: Global, lines: &mut Vec<Line>, event: TraceEvent) -> Result<(), NoMemory>
    ensures pushed { IfOk result (λ _. map line_event lines.new.items
        ≡ map line_event lines.old.items ++ event ∷ []) }
    ensures unchanged { IfErr result (λ _. lines.new.items ≡ lines.old.items) }
{
    lines.push(line_of(alloc, event)?)?;
    Ok(())
}

// Adds the line of what is written. After want of memory the lines are as they were.
#[inline(always)]
fn push_write(lines: &mut Vec<Line>, write: &Write) -> Result<(), NoMemory>
    ensures pushed { IfOk result (λ _. map line_event lines.new.items
        ≡ map line_event lines.old.items ++ line_of write.now ∷ []) }
    ensures unchanged { IfErr result (λ _. lines.new.items ≡ lines.old.items) }
{
    lines.push(line_of_write(write))?;
    Ok(())
}

// Adds copies of these lines. After want of memory some of them may have been added.
fn push_copies(alloc: Global, lines: &mut Vec<Line>, more: &[Line]) -> Result<(), NoMemory>
    ensures pushed { IfOk result (λ _. map line_event lines.new.items
        ≡ map line_event lines.old.items ++ map line_event more.now) }
    ensures before { take (length lines.old.items) lines.new.items ≡ lines.old.items }
{
    lines.reserve(more.len())?;
    for line in more {
        push_copy(alloc, lines, line)?;
    }
    Ok(())
}

// Adds a copy of a line. After want of memory the lines are as they were. What most lines are is written where it is known.
#[inline(always)]
fn push_copy(alloc: Global, lines: &mut Vec<Line>, line: &Line) -> Result<(), NoMemory>
    ensures pushed { IfOk result (λ _. (copy : LineKept)
        × ((lines.new.items ≡ lines.old.items ++ copy ∷ [])
        × (line_event copy ≡ line_event line.now))) }
    ensures unchanged { IfErr result (λ _. lines.new.items ≡ lines.old.items) }
{
    match line {
        Line::Written {
            slot,
            step,
            number,
            writer,
            value,
        } => lines.push(Line::Written {
            slot: *slot,
            step: *step,
            number: *number,
            writer: *writer,
            value: *value,
        })?,
        Line::Idle(object) => lines.push(Line::Idle(*object))?,
        Line::Solve(object) => lines.push(Line::Solve(*object))?,
        _ => lines.push(copy_of(alloc, line)?)?,
    }
    Ok(())
}

// Adds copies of these lines. After want of memory the lines are as they were.
fn append(alloc: Global, lines: &mut Vec<Line>, more: &[Line]) -> Result<(), NoMemory>
    ensures appended { IfOk result (λ _. map line_event lines.new.items
        ≡ map line_event lines.old.items ++ map line_event more.now) }
    ensures unchanged { IfErr result (λ _. lines.new.items ≡ lines.old.items) }
{
    let before = lines.len();
    match push_copies(alloc, lines, more) {
        Ok(()) => Ok(()),
        Err(NoMemory) => {
            lines.truncate(before);
            Err(NoMemory)
        }
    }
}

// The lines from a place on.
fn from_place(lines: &[Line], place: usize) -> &[Line]
    ensures { result.now ≡ drop place lines.entry.now }
{
    if place < lines.len() {
        &lines[place..]
    } else {
        &[]
    }
}

// What the line in a place tells.
#[inline(always)]
fn line_at(lines: &[Line], place: usize) -> Option<TraceEvent>
    ensures { result ≡ slice_get (map line_event lines.now) place }
{
    match lines.get(place) {
        Some(line) => Some(event_of(line)),
        None => None,
    }
}

// What the line in a place says to be written.
fn write_at(lines: &[Line], place: usize) -> Option<Write>
    ensures { result ≡ option_and_then write_of (slice_get (map line_event lines.now) place) }
{
    match lines.get(place) {
        Some(line) => write_of(line),
        None => None,
    }
}

// Whose dispatch the line in a place tells.
#[inline(always)]
fn dispatch_at(lines: &[Line], place: usize) -> Option<(ObjectNo, bool)>
    ensures { result ≡ option_and_then dispatch_told (slice_get (map line_event lines.now) place) }
{
    match lines.get(place) {
        Some(line) => dispatch_of(line),
        None => None,
    }
}
