//! Holds what the cells held at the end of each run that settled.
ghost use Rattle.std.specs.Prelude.{true, false, ◌≡◌, ◌<◌, ◌≤◌, ◌+◌, ◌*◌, ◌++◌, [], ◌∷◌, IfOk, Some, length, option_map, slice_get, vec_capacity};
ghost use Rattle.rw_model.specs.Draft.{Draft};
ghost use Rattle.rw_model.specs.declared.content.Content.{Content};
ghost use Rattle.rw_run.specs.Log.{Cells};
ghost use Rattle.rw_series.specs.Series.{held};
ghost use Rattle.rw_mrm.specs.Summary.{summary_by};
ghost use Rattle.rw_mrm.specs.Tally as specs;

use crate::summary::push_summary;
use rw_base::{Cell, NoMemory, SlotNo, StepNo};
use rw_model::{Basin, Content};
use rw_report::KeptValue;
use rw_run::{Run, RunEnd};
use rw_series::Series;
use std::alloc::Global;
use std::marker::Model;

/// What is kept of runs of a basin, for their summary: of each that settled what its cells held at the end, and how many were
/// added. `for_basin` takes the memory for all of them at once: 8 bytes for each cell and run.
#[derive(Drop)]
pub struct Tally {
    slots: u16,
    steps: u16,
    values: Vec<KeptValue>,
    settled: u8,
    runs: u8,
    room: u8,
}

impl Model for Tally {
    ghost use Rattle.std.specs.Prelude.{◌≡◌, ◌≤◌, ◌*◌, length};
    ghost use Rattle.rw_mrm.specs.Tally as specs;

    ghost Value = { specs.Tally };

    ghost view = { λ s. record {
      slots = s.slots;
      steps = s.steps;
      values = s.values.items;
      settled = s.settled;
      runs = s.runs;
      room = s.room;
    } };

    ghost invariant = { λ s. (length s.values.items ≡ s.settled * (s.slots * s.steps))
        × ((s.room * (s.slots * s.steps) ≤ s.values.cap) × (s.settled ≤ s.runs)) };
}

// Adds what a cell holds behind all others, for which there is room.
fn push(values: &mut Vec<KeptValue>, content: Option<Content>)
    requires { length values.old.items < vec_capacity values.old }
    ensures items { values.new.items ≡ values.old.items
        ++ option_map (λ (content : Content). content.value) content ∷ [] }
    ensures room { vec_capacity values.new ≡ vec_capacity values.old }
{
    values.push_reserved(KeptValue::of(content));
}

// Adds what a slot has at each timestep.
fn push_slot(values: &mut Vec<KeptValue>, series: &Series, slot: SlotNo, steps: u16)
    requires { length values.old.items + steps ≤ vec_capacity values.old }
    ensures items { values.new.items
        ≡ values.old.items ++ specs.slot_values (held series.now) steps slot.0 }
    ensures room { vec_capacity values.new ≡ vec_capacity values.old }
{
    for before in 0..steps {
        let step = StepNo(before + 1);
        push(values, series.get(Cell { slot, step }));
    }
}

// Adds what all slots have, slot after slot.
fn push_table(values: &mut Vec<KeptValue>, series: &Series, slots: u16, steps: u16)
    requires { length values.old.items + slots * steps ≤ vec_capacity values.old }
    ensures items { values.new.items
        ≡ values.old.items ++ specs.joined_up_to (specs.slot_values (held series.now) steps) slots }
    ensures room { vec_capacity values.new ≡ vec_capacity values.old }
{
    for before in 0..slots {
        push_slot(values, series, SlotNo(before + 1), steps);
    }
}

// What is kept in a place.
fn value_at(values: &[KeptValue], place: usize) -> Option<i64>
    requires { place < length values.now }
    ensures { slice_get values.now place ≡ Some result }
{
    values[place].get()
}

impl Tally {
    /// Returns a tally to which no run was added, with room for `traces` runs of a basin. The one error is want of memory.
    pub fn for_basin(alloc: Global, basin: &Basin, traces: u8) -> Result<Tally, NoMemory>
        ensures { IfOk result (λ tally. tally ≡ specs.no_runs basin.now traces) }
    {
        let slots = basin.slot_count();
        let steps = basin.control().stamps.count();
        let size = usize::from(slots) * usize::from(steps);
        let values = Vec::with_capacity(alloc, usize::from(traces) * size)?;
        Ok(Tally {
            slots,
            steps,
            values,
            settled: 0,
            runs: 0,
            room: traces,
        })
    }

    // Adds a run that settled.
    fn keep(&mut self, basin: &Basin, series: &Series)
        requires made { specs.IsTallyFor basin.now self.old }
        requires room { self.old.runs < self.old.room }
        ensures { self.new ≡ specs.with_run basin.now true (held series.now) self.old }
    {
        push_table(&mut self.values, series, self.slots, self.steps);
        self.settled += 1;
        self.runs += 1;
    }

    // Adds a run that didn't settle.
    fn count(&mut self)
        requires room { self.old.runs < self.old.room }
        ensures { (basin : Draft) (cells : Cells)
            → self.new ≡ specs.with_run basin false cells self.old }
    {
        self.runs += 1;
    }

    /// Adds a run of the basin. It takes no memory.
    pub fn add(&mut self, basin: &Basin, run: &Run)
        requires made { specs.IsTallyFor basin.now self.old }
        requires room { self.old.runs < self.old.room }
        ensures { self.new
            ≡ specs.with_run basin.now (specs.is_settled run.now.end)
            (held run.now.series) self.old }
    {
        match run.end {
            RunEnd::Settled => self.keep(basin, &run.series),
            RunEnd::Fault(_) => self.count(),
        }
    }

    /// Returns the summary of the runs that were added: in how many of those that settled each cell is known, and the minimum,
    /// the median and the maximum of its values there. The one error is want of memory.
    pub fn summary(&self, alloc: Global, basin: &Basin) -> Result<Vec<u8>, NoMemory>
        ensures { IfOk result (λ text. text.items ≡ summary_by basin.now self.now) }
    {
        let mut text = String::new(alloc);
        push_summary(alloc, &mut text, basin, self)?;
        Ok(text.into_bytes())
    }

    /// Returns the number of slots.
    pub(crate) fn slots(&self) -> u16
        ensures { result ≡ self.now.slots }
    {
        self.slots
    }

    /// Returns the number of timesteps.
    pub(crate) fn steps(&self) -> u16
        ensures { result ≡ self.now.steps }
    {
        self.steps
    }

    /// Returns the number of runs that settled.
    pub(crate) fn settled(&self) -> u8
        ensures { result ≡ self.now.settled }
    {
        self.settled
    }

    /// Returns the number of runs that were added.
    pub(crate) fn runs(&self) -> u8
        ensures { result ≡ self.now.runs }
    {
        self.runs
    }

    /// Returns what is in a place of the table of this number; both count from 0.
    pub(crate) fn value(&self, table: u8, place: usize) -> Option<i64>
        requires table { table < self.now.settled }
        requires place { place < self.now.slots * self.now.steps }
        ensures { slice_get self.now.values (table * (self.now.slots * self.now.steps) + place)
            ≡ Some result }
    {
        let size = usize::from(self.slots) * usize::from(self.steps);
        value_at(self.values.as_slice(), usize::from(table) * size + place)
    }
}
