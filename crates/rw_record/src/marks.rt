//! Keeps a mark for each cell of a basin.
ghost use Rattle.std.specs.Prelude.{◌≡◌, ◌≤◌, ◌*◌, ◌-◌, IsTrue, drop, if◌then◌else◌, length, take, vec_len};
ghost use Rattle.rw_base.specs.declared.number.Cell.{Cell};
ghost use Rattle.rw_run.specs.Step.{is_same_cell};
ghost use Rattle.rw_series.specs.Cells.{position_of};
ghost use Rattle.rw_record.specs.Marks.{has_mark, is_cell_marked};

use rw_base::Cell;

/// Returns whether there is a mark for a cell, of these slots and timesteps.
#[inline(always)]
pub(crate) fn has_mark(slots: u16, steps: u16, cell: Cell) -> bool
    ensures { result ≡ has_mark slots steps cell }
{
    (1 <= cell.slot.0 && cell.slot.0 <= slots) && (1 <= cell.step.0 && cell.step.0 <= steps)
}

// The place of a mark, counted from 0.
#[inline(always)]
fn position(slots: u16, cell: Cell) -> usize
    requires slot { 1 ≤ cell.slot.0 }
    requires step { 1 ≤ cell.step.0 }
    ensures { result ≡ position_of slots cell.slot.0 cell.step.0 }
{
    usize::from(cell.step.0 - 1) * usize::from(slots) + usize::from(cell.slot.0 - 1)
}

/// Returns whether a cell is marked.
#[inline(always)]
pub(crate) fn is_marked(marks: &[bool], slots: u16, steps: u16, cell: Cell) -> bool
    requires many { length marks.now ≡ slots * steps }
    requires there { IsTrue (has_mark slots steps cell) }
    ensures { result ≡ is_cell_marked slots marks.now cell }
{
    marks[position(slots, cell)]
}

/// Marks a cell, or removes its mark.
#[inline(always)]
pub(crate) fn set_mark(marks: &mut Vec<bool>, slots: u16, steps: u16, cell: Cell, mark: bool)
    requires many { vec_len marks.old ≡ slots * steps }
    requires there { IsTrue (has_mark slots steps cell) }
    ensures many { vec_len marks.new ≡ slots * steps }
    ensures set { (other : Cell) → IsTrue (has_mark slots steps other)
        → is_cell_marked slots marks.new.items other
        ≡ (if is_same_cell cell other then mark else is_cell_marked slots marks.old.items other) }
{
    marks[position(slots, cell)] = mark;
}

/// Marks a cell, or removes its mark, if there is a mark for it.
#[inline(always)]
pub(crate) fn mark_if(marks: &mut Vec<bool>, slots: u16, steps: u16, cell: Cell, mark: bool)
    requires { vec_len marks.old ≡ slots * steps }
    ensures many { vec_len marks.new ≡ slots * steps }
    ensures set { (other : Cell) → IsTrue (has_mark slots steps other)
        → is_cell_marked slots marks.new.items other
        ≡ (if is_same_cell cell other then mark else is_cell_marked slots marks.old.items other) }
{
    if has_mark(slots, steps, cell) {
        set_mark(marks, slots, steps, cell, mark);
    }
}

/// Returns the marks of the cells at a timestep, by slot.
#[inline(always)]
pub(crate) fn row_of(marks: &[bool], slots: u16, step: u16) -> &[bool]
    requires first { 1 ≤ step }
    requires last { step * slots ≤ length marks.now }
    ensures { result.now ≡ take slots (drop ((step - 1) * slots) marks.entry.now) }
{
    let first = usize::from(step - 1) * usize::from(slots);
    &marks[first..first + usize::from(slots)]
}
