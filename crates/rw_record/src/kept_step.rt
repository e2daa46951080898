//! Holds the record of a closed timestep: the cells at which it looked or which it reached, and its lines.
ghost use Rattle.std.specs.Prelude.{◌≡◌, ◌||◌, nat_lt, IfOk, MatchOption, is_some, length};
ghost use Rattle.rw_run.specs.Reuse.{most_kept};
ghost use Rattle.rw_run.specs.Trace.{lines_in};
ghost use Rattle.rw_record.specs.Noted.{noted_in};
ghost use Rattle.rw_record.specs.Record.{IsLarge, IsRecordOf, greatest_step, least_step};

use crate::ordered::risen;
use crate::{HeldList, Noted};
use rw_base::{NoMemory, StepNo};
use rw_run::{MOST_KEPT, Trace};
use std::alloc::Global;
use std::marker::Model;

/// The record of a closed timestep: the cells at which it looked or which its puts reached, with what they held before it, rising
/// by slot and then by timestep, and its lines.
#[derive(Drop)]
pub struct KeptStep {
    step: StepNo,
    first: StepNo,
    last: StepNo,
    looked: HeldList,
    lines: Trace,
}

impl Model for KeptStep {
    ghost use Rattle.std.specs.Prelude.{◌≡◌, Some};
    ghost use Rattle.rw_run.specs.Trace.{lines_in};
    ghost use Rattle.rw_record.specs.Record as specs;

    ghost Value = { specs.StepRecord };

    ghost view = { λ r.
        record { step = r.step.0; looked = r.looked; lines = lines_in r.lines } };

    ghost invariant = { λ r. (r.lines ≡ Some (lines_in r.lines))
        × ((r.first.0 ≡ specs.least_step r.looked)
        × (r.last.0 ≡ specs.greatest_step r.looked)) };
}

impl KeptStep {
    /// Returns the record of a timestep of which this is noted, to which these lines are handed over. `None` exactly where it has
    /// more than `MOST_KEPT` cells or lines. The one error is want of memory. `docs/DEFINITIONS.md` says under "Reuse" what is
    /// kept. `order` is that in which the noted cells of another timestep rose, or any other: where these rise in it, too, they
    /// need no sorting.
    pub fn of(
        alloc: Global,
        step: StepNo,
        noted: &Noted,
        lines: &mut Trace,
        order: &mut Vec<u16>,
    ) -> Result<Option<KeptStep>, NoMemory>
        ensures kept { IfOk result (λ kept. MatchOption kept
            (IsLarge (noted_in noted.now) (lines_in lines.old))
            (IsRecordOf step.0 (noted_in noted.now) (lines_in lines.old))) }
        ensures left { is_some lines.new ≡ is_some lines.old }
    {
        if is_large(noted.as_slice().len(), lines) {
            return Ok(None);
        }
        let looked = risen(alloc, noted.as_slice(), order)?;
        let taken = lines.take()?;
        Ok(Some(KeptStep {
            step,
            first: StepNo(least_step(&looked)),
            last: StepNo(greatest_step(&looked)),
            looked,
            lines: taken,
        }))
    }

    /// Returns the timestep.
    pub fn step(&self) -> StepNo
        ensures { result.0 ≡ self.now.step }
    {
        self.step
    }

    /// Returns the cells at which it looked or which its puts reached, with what they held before it.
    pub fn looked(&self) -> &HeldList
        ensures { result.now ≡ self.now.looked }
    {
        &self.looked
    }

    /// Returns the least timestep at which one of these cells is, and 65,535 where there is none.
    pub fn first(&self) -> StepNo
        ensures { result.0 ≡ least_step self.now.looked }
    {
        self.first
    }

    /// Returns the greatest timestep at which one of these cells is, and 0 where there is none.
    pub fn last(&self) -> StepNo
        ensures { result.0 ≡ greatest_step self.now.looked }
    {
        self.last
    }

    /// Returns its lines.
    pub fn lines(&self) -> &Trace
        ensures { result.now ≡ Some self.now.lines }
    {
        &self.lines
    }
}

// Whether so many cells, or these lines, are too many to be kept.
fn is_large(cells: usize, lines: &Trace) -> bool
    ensures { result
        ≡ (nat_lt most_kept cells || nat_lt most_kept (length (lines_in lines.now))) }
{
    cells > MOST_KEPT || lines.len() > MOST_KEPT
}

// The least timestep at which one of the cells is.
fn least_step(cells: &HeldList) -> u16
    ensures { result ≡ least_step cells.now }
{
    let mut least = u16::MAX;
    for place in 0..cells.len() {
        least = least.min(cells.get(place).cell.step.0);
    }
    least
}

// The greatest timestep at which one of the cells is.
fn greatest_step(cells: &HeldList) -> u16
    ensures { result ≡ greatest_step cells.now }
{
    let mut greatest = 0;
    for place in 0..cells.len() {
        greatest = greatest.max(cells.get(place).cell.step.0);
    }
    greatest
}
