//! Holds the record of a closed timestep with a plain list of its cells beside it.
ghost use Rattle.std.specs.Prelude.{◌≡◌, IfOk, MatchOption, Some, drop};
ghost use Rattle.rw_run.specs.Trace.{lines_in};
ghost use Rattle.rw_record.specs.Noted.{noted_in};
ghost use Rattle.rw_record.specs.Record.{IsLarge, IsRecordOf, greatest_step, least_step};

use crate::{HeldList, KeptStep, Noted};
use rw_base::{NoMemory, StepNo};
use rw_run::{Held, Trace};
use std::alloc::Global;
use std::marker::Model;

/// The record of a closed timestep with a plain list of its cells.
#[derive(Drop)]
pub struct StepRecord {
    kept: KeptStep,
    looked: Vec<Held>,
}

impl Model for StepRecord {
    ghost use Rattle.std.specs.Prelude.{◌≡◌};
    ghost use Rattle.rw_record.specs.Record as specs;

    ghost Value = { specs.StepRecord };

    ghost view = { λ r. r.kept };

    ghost invariant = { λ r. r.looked.items ≡ r.kept.looked };
}

impl StepRecord {
    /// Returns the record of a timestep of which this is noted, and whose lines are in the trace from this place on. `None`
    /// exactly where it has more than `MOST_KEPT` cells or lines. The one error is want of memory. `docs/DEFINITIONS.md` says
    /// under "Reuse" what is kept.
    pub fn of(
        alloc: Global,
        step: StepNo,
        noted: &Noted,
        trace: &Trace,
        from: usize,
    ) -> Result<Option<StepRecord>, NoMemory>
        ensures { IfOk result (λ kept. MatchOption kept
            (IsLarge (noted_in noted.now) (drop from (lines_in trace.now)))
            (IsRecordOf step.0 (noted_in noted.now) (drop from (lines_in trace.now)))) }
    {
        let mut order = Vec::new(alloc);
        let mut lines = lines_from(alloc, trace, from)?;
        let kept = KeptStep::of(alloc, step, noted, &mut lines, &mut order)?;
        listed(alloc, kept)
    }

    /// Returns the record as it is kept.
    pub fn kept(&self) -> &KeptStep
        ensures { result.now ≡ self.now }
    {
        &self.kept
    }

    /// Returns the timestep.
    pub fn step(&self) -> StepNo
        ensures { result.0 ≡ self.now.step }
    {
        self.kept.step()
    }

    /// Returns the cells at which it looked or which its puts reached, with what they held before it.
    pub fn looked(&self) -> &[Held]
        ensures { result.now ≡ self.now.looked }
    {
        self.looked.as_slice()
    }

    /// Returns the least timestep at which one of these cells is, and 65,535 where there is none.
    pub fn first(&self) -> StepNo
        ensures { result.0 ≡ least_step self.now.looked }
    {
        self.kept.first()
    }

    /// Returns the greatest timestep at which one of these cells is, and 0 where there is none.
    pub fn last(&self) -> StepNo
        ensures { result.0 ≡ greatest_step self.now.looked }
    {
        self.kept.last()
    }

    /// Returns its lines.
    pub fn lines(&self) -> &Trace
        ensures { result.now ≡ Some self.now.lines }
    {
        self.kept.lines()
    }
}

/// Returns what is kept of a timestep, if anything, with a plain list of its cells.
pub fn listed(alloc: Global, kept: Option<KeptStep>) -> Result<Option<StepRecord>, NoMemory>
    ensures { IfOk result (λ found. found ≡ kept) }
{
    match kept {
        Some(kept) => {
            let looked = spread(alloc, kept.looked())?;
            Ok(Some(StepRecord { kept, looked }))
        }
        None => Ok(None),
    }
}

// The cells of a list.
fn spread(alloc: Global, list: &HeldList) -> Result<Vec<Held>, NoMemory>
    ensures { IfOk result (λ items. items.items ≡ list.now) }
{
    let mut items = Vec::with_capacity(alloc, list.len())?;
    for place in 0..list.len() {
        let one = list.get(place);
        items.push(Held {
            cell: one.cell,
            content: one.content,
        })?;
    }
    Ok(items)
}

// The lines of a trace from a place on.
fn lines_from(alloc: Global, trace: &Trace, from: usize) -> Result<Trace, NoMemory>
    ensures { IfOk result (λ lines. lines ≡ Some (drop from (lines_in trace.now))) }
{
    let mut lines = Trace::new(alloc);
    lines.append(trace, from)?;
    Ok(lines)
}
