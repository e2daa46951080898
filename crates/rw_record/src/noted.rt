//! Notes the cells at which an open timestep looks or which it reaches.
ghost use Rattle.std.specs.Prelude.{◌≡◌, ◌∷◌, [], All, IfOk, IfErr, Some, None, is_some, map, option_map};
ghost use Rattle.rw_model.specs.Draft.{IsSlot};
ghost use Rattle.rw_model.specs.Kept.{numbers_of};
ghost use Rattle.rw_run.specs.Dispatch.{cell_at};
ghost use Rattle.rw_series.specs.Series.{held};
ghost use Rattle.rw_run.specs.Frame.{cells_looked};
ghost use Rattle.rw_run.specs.Step.{cells_reached, cells_with};
ghost use Rattle.rw_run.specs.declared.write.Write.{Write};
ghost use Rattle.rw_record.specs.Noted.{AddsNotes, AreOnce, noted_in, row_cells};

use crate::cell_notes::CellNotes;
use rw_base::{Cell, NoMemory, SlotNo, StepNo};
use rw_firing::Look;
use rw_model::Basin;
use rw_run::{Held, Write};
use rw_series::Series;
use std::alloc::Global;
use std::marker::Model;

/// The cells that were noted since a timestep was opened, each once, with what it held then, in the order of noting, seen as that
/// list, and as none where nothing is kept. The mark of a cell says whether it is noted already.
#[derive(Drop)]
pub struct Noted {
    kept: bool,
    notes: CellNotes,
}

impl Model for Noted {
    ghost use Rattle.std.specs.Prelude.{◌≡◌, [], List, Option, Some, None, false, if◌then◌else◌};
    ghost use Rattle.rw_run.specs.declared.held.Held.{Held};

    ghost Value = { Option (List Held) };

    ghost view = { λ n. if n.kept then Some n.notes else None };

    ghost invariant = { λ n. n.kept ≡ false → n.notes ≡ [] };
}

impl Noted {
    /// Returns a list in which no cell is noted. It takes room for a mark of each cell of the basin; the one error is want of
    /// memory.
    pub fn for_basin(alloc: Global, basin: &Basin) -> Result<Noted, NoMemory>
        ensures { IfOk result (λ noted. noted ≡ Some []) }
    {
        let steps = basin.control().stamps.count();
        let notes = CellNotes::of(alloc, basin.slot_count(), steps)?;
        Ok(Noted { kept: true, notes })
    }

    /// Returns a list that keeps no cell that is noted, and so never takes memory.
    pub fn unkept(alloc: Global) -> Noted
        ensures { result ≡ None }
    {
        Noted {
            kept: false,
            notes: CellNotes::unmarked(alloc),
        }
    }

    /// Returns whether anything is kept.
    pub fn is_kept(&self) -> bool
        ensures { result ≡ is_some self.now }
    {
        self.kept
    }

    /// Returns what is noted.
    pub fn as_slice(&self) -> &[Held]
        ensures noted { result.now ≡ noted_in self.now }
        ensures once { AreOnce result.now }
    {
        self.notes.as_slice()
    }

    /// Removes all noted cells. This takes as long as there are noted ones.
    pub fn begin_step(&mut self)
        ensures { self.new ≡ option_map (λ _. []) self.old }
    {
        self.notes.clear();
    }

    /// Notes a cell with what it holds, unless it is noted already. After want of memory it is not noted.
    #[inline(always)]
    pub fn note(&mut self, series: &Series, cell: Cell) -> Result<(), NoMemory>
        ensures noted { AddsNotes (held series.now) (cell ∷ []) self.old self.new result }
        ensures unchanged { IfErr result (λ _. self.new ≡ self.old) }
    {
        if self.kept {
            self.notes.add(series, cell)
        } else {
            Ok(())
        }
    }

    /// Notes the cells of looks. After want of memory some first ones of them are noted.
    pub fn note_looks(&mut self, series: &Series, looks: &[Look]) -> Result<(), NoMemory>
        ensures { AddsNotes (held series.now) (cells_looked looks.now) self.old self.new result }
    {
        for look in looks {
            self.note(series, look.cell)?;
        }
        Ok(())
    }

    /// Notes the cells that slots have at a timestep, in the order of these numbers. Where all of them are noted, as those of an
    /// object that is dispatched again, this takes one pass over their marks. After want of memory some first ones of them are
    /// noted.
    pub fn note_row(
        &mut self,
        series: &Series,
        numbers: &[Option<u16>],
        step: StepNo,
    ) -> Result<(), NoMemory>
        ensures { AddsNotes (held series.now) (row_cells step.0 numbers.now) self.old self.new
            result }
    {
        if self.kept {
            self.notes.add_row(series, numbers, step)
        } else {
            Ok(())
        }
    }

    /// Notes the cells of puts, each with all that share its value. After want of memory some first ones of them are noted.
    #[inline(always)]
    pub fn note_reached(
        &mut self,
        basin: &Basin,
        series: &Series,
        writes: &[Write],
    ) -> Result<(), NoMemory>
        requires { All (λ (write : Write). IsSlot basin.now.objects write.cell.slot.0) writes.now }
        ensures { AddsNotes (held series.now) (cells_reached basin.now writes.now) self.old
            self.new result }
    {
        if writes.is_empty() {
            return Ok(());
        }
        self.note_writes(basin, series, writes)
    }

    // The same, where there are some.
    #[inline(never)]
    fn note_writes(
        &mut self,
        basin: &Basin,
        series: &Series,
        writes: &[Write],
    ) -> Result<(), NoMemory>
        requires { All (λ (write : Write). IsSlot basin.now.objects write.cell.slot.0) writes.now }
        ensures { AddsNotes (held series.now) (cells_reached basin.now writes.now) self.old
            self.new result }
    {
        for write in writes {
            self.note_group(basin, series, write.cell)?;
        }
        Ok(())
    }

    // Notes a cell with all that share its value.
    fn note_group(&mut self, basin: &Basin, series: &Series, cell: Cell) -> Result<(), NoMemory>
        requires { IsSlot basin.now.objects cell.slot.0 }
        ensures { AddsNotes (held series.now) (cells_with basin.now cell) self.old self.new result }
    {
        let group = basin.group(cell.slot);
        if self.notes.are_slots_noted(group, cell.step) {
            return Ok(());
        }
        self.note_new(series, group, cell)
    }

    // Notes a cell, and those of these slots at its timestep.
    #[inline(never)]
    fn note_new(&mut self, series: &Series, group: &[SlotNo], cell: Cell) -> Result<(), NoMemory>
        ensures { AddsNotes (held series.now)
            (cell ∷ map (λ slot. cell_at slot cell.step.0) (numbers_of group.now)) self.old
            self.new result }
    {
        self.note(series, cell)?;
        self.note_slots(series, group, cell.step)
    }

    // Notes the cells of these slots at a timestep.
    fn note_slots(
        &mut self,
        series: &Series,
        slots: &[SlotNo],
        step: StepNo,
    ) -> Result<(), NoMemory>
        ensures { AddsNotes (held series.now)
            (map (λ slot. cell_at slot step.0) (numbers_of slots.now)) self.old self.new result }
    {
        for slot in slots {
            self.note(series, Cell { slot: *slot, step })?;
        }
        Ok(())
    }
}
