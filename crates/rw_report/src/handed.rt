//! Writes a section to a sink in pieces, so that no text holds its table. What wants memory is made before the first piece: where
//! there is none, nothing was written.
ghost use Rattle.std.specs.Prelude.{◌≡◌, ◌≤◌, ◌+◌, ◌++◌, ℕ, List, [], IfOk, codes, drop, length, MatchResult, option_map, string_bytes};
ghost use Rattle.rw_io.specs.Handed.{BrokeOff, PassesOn, IsOnItsWay};
ghost use Rattle.rw_io.specs.Outside.{SinkView};
ghost use Rattle.rw_series.specs.Series.{held};
ghost use Rattle.rw_report.specs.Handed.{Grew, IsPrepared, WritesText};
ghost use Rattle.rw_report.specs.Outcome.{outcome_of};
ghost use Rattle.rw_report.specs.Pieces.{AreTexts, words_at};
ghost use Rattle.rw_report.specs.Section.{columns, for_each, for_slots, row, row_front, rows, value_words, values_in};
ghost use Rattle.rw_report.specs.Whole.{section_tail, section_top, whole_of};

use crate::pieces::ROOM;
use crate::table::{last_of_block, push_stamp, write_block};
use crate::whole::{Telling, push_flags_if, push_head, push_trace_if};
use rw_base::{NoMemory, StepNo};
use rw_io::{Gathered, Sink, WriteFault};
use rw_model::Basin;
use rw_run::Run;
use rw_series::{Series, StepCells};
use std::alloc::Global;

/// The reasons why a section is not written whole.
#[derive(Clone, Copy, Debug, PartialEq, Eq)]
pub enum Unwritten {
    /// There was no memory, and nothing was written.
    NoMemory,
    /// A write failed, and the sink's count of faults has risen. A front of the section was written.
    CannotWrite,
}

// What of a section wants memory: all but the values of its table.
#[derive(Drop)]
struct Prepared {
    // What stands before the first line of the table.
    head: String,
    // How each line of the table begins.
    fronts: Vec<String>,
    // What stands behind the last line of the table.
    tail: String,
    // Room for pieces that are gathered.
    gathered: Gathered,
}

// How the line of a timestep begins.
fn front_of(alloc: Global, basin: &Basin, step: u16) -> Result<String, NoMemory>
    requires first { 1 ≤ step }
    requires last { step ≤ basin.now.control.stamps.count }
    ensures { IfOk result (λ text. string_bytes text ≡ row_front basin.now step) }
{
    let mut text = String::new(alloc);
    push_stamp(alloc, &mut text, basin, step)?;
    Ok(text)
}

// How the lines of the first timesteps begin, of so many of them.
fn fronts_of(alloc: Global, basin: &Basin, closed: u16) -> Result<Vec<String>, NoMemory>
    requires { closed ≤ basin.now.control.stamps.count }
    ensures count { IfOk result (λ texts. length texts.items ≡ closed) }
    ensures texts { IfOk result (λ texts. AreTexts (row_front basin.now) texts.items) }
{
    let mut texts = Vec::new(alloc);
    for before in 0..closed {
        texts.push(front_of(alloc, basin, before + 1)?)?;
    }
    Ok(texts)
}

// Hands on the values of the slots behind the first ones and up to a last one.
fn hand_block<K: Sink>(
    gathered: &mut Gathered,
    out: &mut K,
    buffer: &mut [u8; ROOM],
    cells: &StepCells,
    first: u16,
    last: u16,
) -> Result<(), WriteFault>
    requires order { first ≤ last }
    requires few { last ≤ first + 32 }
    ensures { (before : SinkView) (front : List ℕ)
        → IsOnItsWay before (K.seen out.old) gathered.old
        (front ++ for_each (words_at (held cells.now)) first)
        → MatchResult result
        (λ _. IsOnItsWay before (K.seen out.new) gathered.new
        (front ++ for_each (words_at (held cells.now)) last))
        (λ _. BrokeOff before (K.seen out.new)
        (front ++ for_each (words_at (held cells.now)) last)) }
{
    let at = write_block(buffer, cells, first, last);
    gathered.put(&buffer[at..], out)
}

// Hands on the value that each of these cells holds.
fn hand_cells<K: Sink>(
    gathered: &mut Gathered,
    out: &mut K,
    cells: &StepCells,
    count: u16,
) -> Result<(), WriteFault>
    ensures { PassesOn (K.seen out.old) (K.seen out.new) gathered.old gathered.new
        (for_each (words_at (held cells.now)) count) result }
{
    let mut buffer = [0; ROOM];
    let mut first = 0;
    while first < count {
        let last = last_of_block(first, count);
        match hand_block(gathered, out, &mut buffer, cells, first, last) {
            Ok(()) => first = last,
            Err(fault) => return Err(fault),
        }
    }
    Ok(())
}

// Hands on the values of a timestep and the end of its line.
fn hand_values<K: Sink>(
    gathered: &mut Gathered,
    out: &mut K,
    basin: &Basin,
    series: &Series,
    step: StepNo,
) -> Result<(), WriteFault>
    ensures { PassesOn (K.seen out.old) (K.seen out.new) gathered.old gathered.new
        (for_slots basin.now
        (λ slot. codes "," ++ value_words (values_in (held series.now) slot step.0)) ++ codes "\n")
        result }
{
    match hand_cells(gathered, out, &series.at_step(step), basin.slot_count()) {
        Ok(()) => gathered.put(b"\n", out),
        Err(fault) => Err(fault),
    }
}

// Hands on the line of a timestep, which begins so.
fn hand_row<K: Sink>(
    gathered: &mut Gathered,
    out: &mut K,
    front: &str,
    basin: &Basin,
    series: &Series,
    step: StepNo,
) -> Result<(), WriteFault>
    requires { front.now ≡ row_front basin.now step.0 }
    ensures { PassesOn (K.seen out.old) (K.seen out.new) gathered.old gathered.new
        (row basin.now (values_in (held series.now)) step.0) result }
{
    match gathered.put(front.as_bytes(), out) {
        Ok(()) => hand_values(gathered, out, basin, series, step),
        Err(fault) => Err(fault),
    }
}

// Hands on the lines of the first timesteps, which begin so.
fn hand_rows<K: Sink>(
    gathered: &mut Gathered,
    out: &mut K,
    fronts: &[String],
    basin: &Basin,
    series: &Series,
    closed: u16,
) -> Result<(), WriteFault>
    requires count { length fronts.now ≡ closed }
    requires fronts { AreTexts (row_front basin.now) fronts.now }
    ensures { PassesOn (K.seen out.old) (K.seen out.new) gathered.old gathered.new
        (rows basin.now (values_in (held series.now)) closed) result }
{
    for before in 0..closed {
        let front = fronts[usize::from(before)].as_str();
        match hand_row(gathered, out, front, basin, series, StepNo(before + 1)) {
            Ok(()) => {}
            Err(fault) => return Err(fault),
        }
    }
    Ok(())
}

// Makes what of the section of a run wants memory.
fn prepare(
    alloc: Global,
    basin: &Basin,
    run: &Run,
    telling: &Telling<'_>,
) -> Result<Prepared, NoMemory>
    requires closed { run.now.closed ≤ basin.now.control.stamps.count }
    ensures { IfOk result (IsPrepared basin.now run.now.closed
        (section_top basin.now telling.now.batch (outcome_of run.now)
        (option_map (λ steps. steps.now) telling.now.reran))
        (section_tail basin.now (outcome_of run.now) telling.now.flags telling.now.trace)) }
{
    let mut head = String::new(alloc);
    push_head(&mut head, basin, run, telling)?;
    let fronts = fronts_of(alloc, basin, run.closed)?;
    let mut tail = String::new(alloc);
    push_flags_if(&mut tail, basin, run, telling.flags)?;
    push_trace_if(alloc, &mut tail, basin, run, telling.trace)?;
    let gathered = Gathered::with_room(alloc)?;
    Ok(Prepared {
        head,
        fronts,
        tail,
        gathered,
    })
}

// Hands over the section of which so much is made.
fn hand_section<K: Sink>(
    prepared: &mut Prepared,
    basin: &Basin,
    series: &Series,
    closed: u16,
    out: &mut K,
) -> Result<(), WriteFault>
    requires count { length prepared.old.fronts.items ≡ closed }
    requires fronts { AreTexts (row_front basin.now) prepared.old.fronts.items }
    ensures { (top tail : List ℕ) → IsPrepared basin.now closed top tail prepared.old
        → MatchResult result
        (λ _. Grew (K.seen out.old) (K.seen out.new)
        (top ++ ((columns basin.now
        ++ rows basin.now (values_in (held series.now)) closed) ++ tail)))
        (λ _. BrokeOff (K.seen out.old) (K.seen out.new)
        (top ++ ((columns basin.now
        ++ rows basin.now (values_in (held series.now)) closed) ++ tail))) }
{
    match prepared.gathered.put(prepared.head.as_bytes(), out) {
        Ok(()) => {}
        Err(fault) => return Err(fault),
    }
    let fronts = prepared.fronts.as_slice();
    match hand_rows(&mut prepared.gathered, out, fronts, basin, series, closed) {
        Ok(()) => {}
        Err(fault) => return Err(fault),
    }
    match prepared.gathered.put(prepared.tail.as_bytes(), out) {
        Ok(()) => prepared.gathered.hand_over(out),
        Err(fault) => Err(fault),
    }
}

/// Writes the text of `section` to a sink, in pieces of up to 65,536 bytes, and what comes before and after the table in one of
/// its own. What needs memory is made before the first piece.
pub fn write_section<K: Sink>(
    alloc: Global,
    basin: &Basin,
    run: &Run,
    telling: &Telling<'_>,
    out: &mut K,
) -> Result<(), Unwritten>
    requires closed { run.now.closed ≤ basin.now.control.stamps.count }
    ensures { WritesText (K.seen out.old) (K.seen out.new)
        (whole_of basin.now telling.now.batch (outcome_of run.now)
        (option_map (λ steps. steps.now) telling.now.reran) telling.now.flags telling.now.trace)
        result }
{
    let mut prepared = match prepare(alloc, basin, run, telling) {
        Ok(prepared) => prepared,
        Err(NoMemory) => return Err(Unwritten::NoMemory),
    };
    match hand_section(&mut prepared, basin, &run.series, run.closed, out) {
        Ok(()) => Ok(()),
        Err(WriteFault) => Err(Unwritten::CannotWrite),
    }
}
