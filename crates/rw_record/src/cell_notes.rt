//! Keeps noted cells, each once, with what they held.
ghost use Rattle.std.specs.Prelude.{◌≡◌, ◌*◌, ◌++◌, ◌∷◌, [], IfOk, IfErr, Some, map};
ghost use Rattle.std.specs.List.{list_all};
ghost use Rattle.rw_model.specs.Kept.{numbers_of};
ghost use Rattle.rw_run.specs.Dispatch.{cell_at};
ghost use Rattle.rw_series.specs.Series.{held};
ghost use Rattle.rw_run.specs.Step.{is_same_cell};
ghost use Rattle.rw_record.specs.Marks.{KeepsMarks, TellNoted};
ghost use Rattle.rw_record.specs.Noted.{AddsNotes, AreOnce, is_noted, noted_after, row_cells};

use crate::marks::{has_mark, is_marked, mark_if, row_of, set_mark};
use rw_base::{Cell, NoMemory, SlotNo, StepNo};
use rw_run::Held;
use rw_series::Series;
use std::alloc::Global;
use std::marker::Model;

/// The cells that are noted, each once, with what it held then, in the order of noting, seen as that list. Each cell of the slots
/// and timesteps has a mark, which says whether it is noted.
#[derive(Drop)]
pub(crate) struct CellNotes {
    slots: u16,
    steps: u16,
    marks: Vec<bool>,
    items: Vec<Held>,
}

impl Model for CellNotes {
    ghost use Rattle.std.specs.Prelude.{List};
    ghost use Rattle.rw_run.specs.declared.held.Held.{Held};
    ghost use Rattle.rw_record.specs.Marks.{KeepsMarks};

    ghost Value = { List Held };

    ghost view = { λ n. n.items.items };

    ghost invariant = { λ n. KeepsMarks n.slots n.steps n.marks.items n.items.items };
}

impl CellNotes {
    /// Returns the list in which no cell is noted. It takes room for a mark of each cell of these slots and timesteps; the one
    /// error is want of memory.
    pub(crate) fn of(alloc: Global, slots: u16, steps: u16) -> Result<CellNotes, NoMemory>
        ensures { IfOk result (λ notes. notes ≡ []) }
    {
        let marks = Vec::from_elem(alloc, false, usize::from(slots) * usize::from(steps))?;
        Ok(CellNotes {
            slots,
            steps,
            marks,
            items: Vec::new(alloc),
        })
    }

    /// Returns the list in which no cell is noted, and none has a mark.
    pub(crate) fn unmarked(alloc: Global) -> CellNotes
        ensures { result ≡ [] }
    {
        CellNotes {
            slots: 0,
            steps: 0,
            marks: Vec::new(alloc),
            items: Vec::new(alloc),
        }
    }

    /// Returns what is noted.
    #[inline(always)]
    pub(crate) fn as_slice(&self) -> &[Held]
        ensures noted { result.now ≡ self.now }
        ensures once { AreOnce result.now }
    {
        self.items.as_slice()
    }

    // Whether a cell is noted. A cell of the basin has a mark.
    #[inline(always)]
    fn is_noted(&self, cell: Cell) -> bool
        ensures { result ≡ is_noted self.now cell }
    {
        if has_mark(self.slots, self.steps, cell) {
            is_marked(self.marks.as_slice(), self.slots, self.steps, cell)
        } else {
            is_among(self.items.as_slice(), cell)
        }
    }

    // The marks of the cells at a timestep, by slot. There are none where there is no such timestep.
    #[inline(always)]
    fn marks_at(&self, step: StepNo) -> &[bool]
        ensures { TellNoted self.now step.0 result.now }
    {
        if 1 <= step.0 && step.0 <= self.steps {
            row_of(self.marks.as_slice(), self.slots, step.0)
        } else {
            &[]
        }
    }

    // Whether the cells that slots have at a timestep are all noted.
    fn are_noted(&self, numbers: &[Option<u16>], step: StepNo) -> bool
        ensures { result ≡ list_all (is_noted self.now) (row_cells step.0 numbers.now) }
    {
        let row = self.marks_at(step);
        let items = self.as_slice();
        for number in numbers {
            if !is_number_noted(row, items, *number, step) {
                return false;
            }
        }
        true
    }

    /// Returns whether the cells of these slots at a timestep are all noted.
    #[inline(always)]
    pub(crate) fn are_slots_noted(&self, slots: &[SlotNo], step: StepNo) -> bool
        ensures { result ≡ list_all (is_noted self.now)
            (map (λ slot. cell_at slot step.0) (numbers_of slots.now)) }
    {
        for slot in slots {
            if !self.is_noted(Cell { slot: *slot, step }) {
                return false;
            }
        }
        true
    }

    /// Adds a cell with what it holds, unless it is noted. After want of memory all is as it was.
    #[inline(always)]
    pub(crate) fn add(&mut self, series: &Series, cell: Cell) -> Result<(), NoMemory>
        ensures added { IfOk result
            (λ _. self.new ≡ noted_after (held series.now) self.old (cell ∷ [])) }
        ensures unchanged { IfErr result (λ _. self.new ≡ self.old) }
    {
        if !has_mark(self.slots, self.steps, cell) {
            return self.add_other(series, cell);
        }
        if is_marked(self.marks.as_slice(), self.slots, self.steps, cell) {
            return Ok(());
        }
        push_held(&mut self.items, series, cell)?;
        set_mark(&mut self.marks, self.slots, self.steps, cell, true);
        Ok(())
    }

    // The same of any cell.
    #[cold]
    fn add_other(&mut self, series: &Series, cell: Cell) -> Result<(), NoMemory>
        ensures added { IfOk result
            (λ _. self.new ≡ noted_after (held series.now) self.old (cell ∷ [])) }
        ensures unchanged { IfErr result (λ _. self.new ≡ self.old) }
    {
        if self.is_noted(cell) {
            return Ok(());
        }
        push_held(&mut self.items, series, cell)?;
        mark_if(&mut self.marks, self.slots, self.steps, cell, true);
        Ok(())
    }

    // Adds the cell of a slot at a timestep, if there is a slot.
    #[inline(always)]
    fn add_number(
        &mut self,
        series: &Series,
        number: Option<u16>,
        step: StepNo,
    ) -> Result<(), NoMemory>
        ensures { AddsNotes (held series.now) (row_cells step.0 (number ∷ []))
            (Some self.old) (Some self.new) result }
    {
        match number {
            Some(slot) => self.add(
                series,
                Cell {
                    slot: SlotNo(slot),
                    step,
                },
            ),
            None => Ok(()),
        }
    }

    /// Adds the cells that slots have at a timestep. After want of memory some first ones of them are added.
    pub(crate) fn add_row(
        &mut self,
        series: &Series,
        numbers: &[Option<u16>],
        step: StepNo,
    ) -> Result<(), NoMemory>
        ensures { AddsNotes (held series.now) (row_cells step.0 numbers.now) (Some self.old)
            (Some self.new) result }
    {
        if self.are_noted(numbers, step) {
            return Ok(());
        }
        for number in numbers {
            self.add_number(series, *number, step)?;
        }
        Ok(())
    }

    /// Removes all cells, with their marks. This takes as long as there are noted ones.
    pub(crate) fn clear(&mut self)
        ensures { self.new ≡ [] }
    {
        unmark(
            &mut self.marks,
            self.slots,
            self.steps,
            self.items.as_slice(),
        );
        self.items.clear();
    }
}

// Whether it is the same cell.
fn is_same(cell: Cell, other: Cell) -> bool
    ensures { result ≡ is_same_cell cell other }
{
    other.slot.0 == cell.slot.0 && other.step.0 == cell.step.0
}

// Whether a cell is one of these.
#[cold]
fn is_among(items: &[Held], cell: Cell) -> bool
    ensures { result ≡ is_noted items.now cell }
{
    for one in items {
        if is_same(cell, one.cell) {
            return true;
        }
    }
    false
}

// Whether the cell of a slot at a timestep is noted, if there is a slot. The row has the marks of that timestep.
#[inline(always)]
fn is_number_noted(row: &[bool], items: &[Held], number: Option<u16>, step: StepNo) -> bool
    requires { TellNoted items.now step.0 row.now }
    ensures { result ≡ list_all (is_noted items.now) (row_cells step.0 (number ∷ [])) }
{
    match number {
        Some(slot) => is_slot_noted(row, items, slot, step),
        None => true,
    }
}

// Whether the cell of a slot at a timestep is noted.
#[inline(always)]
fn is_slot_noted(row: &[bool], items: &[Held], slot: u16, step: StepNo) -> bool
    requires { TellNoted items.now step.0 row.now }
    ensures { result ≡ is_noted items.now (cell_at slot step.0) }
{
    if 1 <= slot && usize::from(slot) <= row.len() {
        row[usize::from(slot) - 1]
    } else {
        is_among(
            items,
            Cell {
                slot: SlotNo(slot),
                step,
            },
        )
    }
}

// Adds a cell with what it holds. Each case writes its own: what is chosen between the two is copied once more.
#[inline(always)]
fn push_held(items: &mut Vec<Held>, series: &Series, cell: Cell) -> Result<(), NoMemory>
    ensures pushed { IfOk result (λ _. items.new.items ≡ items.old.items
        ++ record { cell = cell; content = held series.now cell } ∷ []) }
    ensures unchanged { IfErr result (λ _. items.new.items ≡ items.old.items) }
{
    match series.get(cell) {
        Some(known) => {
            items.push(Held {
                cell,
                content: Some(known),
            })?;
        }
        None => {
            items.push(Held {
                cell,
                content: None,
            })?;
        }
    }
    Ok(())
}

// Takes the marks of these cells away.
fn unmark(marks: &mut Vec<bool>, slots: u16, steps: u16, items: &[Held])
    requires { KeepsMarks slots steps marks.old.items items.now }
    ensures { KeepsMarks slots steps marks.new.items [] }
{
    for one in items {
        mark_if(marks, slots, steps, one.cell, false);
    }
}
