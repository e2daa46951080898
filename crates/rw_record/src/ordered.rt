//! Sorts the cells of a timestep by slot, and then by timestep.
ghost use Rattle.std.specs.Prelude.{◌≡◌, ◌≤◌, ◌↔◌, [], IfOk, IfSome, Contains, length, true};
ghost use Rattle.std.specs.List.{range_with_len};
ghost use Rattle.rw_run.specs.Reuse.{most_kept};
ghost use Rattle.rw_run.specs.declared.held.Held.{Held as WasHeld};
ghost use Rattle.rw_record.specs.Noted.{AreOnce};
ghost use Rattle.rw_record.specs.InOrder.{RisesAbove, RisesAll, rank_in};
ghost use Rattle.rw_record.specs.Record.{AreRisingCells, IsBelow};

use crate::HeldList;
use rw_base::{Cell, NoMemory};
use rw_run::Held;
use std::alloc::Global;

/// Returns the cells, rising. Most timesteps note theirs in one order: where they rise by that of another one, they are taken in
/// it, and are sorted otherwise, and the order is theirs from then on.
pub(crate) fn risen(
    alloc: Global,
    items: &[Held],
    order: &mut Vec<u16>,
) -> Result<HeldList, NoMemory>
    requires once { AreOnce items.now }
    requires few { length items.now ≤ most_kept }
    ensures rising { IfOk result (λ list. AreRisingCells list) }
    ensures members { IfOk result (λ list. (one : WasHeld)
        → Contains list one ↔ Contains items.now one) }
{
    if order.len() == items.len() {
        if let Some(list) = HeldList::rising(alloc, items, order.as_slice())? {
            return Ok(list);
        }
    }
    sorted(alloc, items, order)
}

// The same, sorted.
#[inline(never)]
fn sorted(alloc: Global, items: &[Held], order: &mut Vec<u16>) -> Result<HeldList, NoMemory>
    requires once { AreOnce items.now }
    requires few { length items.now ≤ most_kept }
    ensures rising { IfOk result (λ list. AreRisingCells list) }
    ensures members { IfOk result (λ list. (one : WasHeld)
        → Contains list one ↔ Contains items.now one) }
{
    sort(items, order)?;
    HeldList::of(alloc, items, order.as_slice())
}

/// Returns what is in a place, if its cell is above this one.
#[inline(always)]
pub(crate) fn above(items: &[Held], place: u16, last: Cell) -> Option<&Held>
    ensures { IfSome result (λ one. RisesAbove items.entry.now place last one.now) }
{
    match items.get(usize::from(place)) {
        Some(one) => {
            if is_below(last, one.cell) {
                return Some(one);
            }
            None
        }
        None => None,
    }
}

// Whether a cell is of a lower slot than another, or of the same slot at an earlier timestep.
#[inline(always)]
fn is_below(cell: Cell, other: Cell) -> bool
    ensures { (result ≡ true) ↔ IsBelow cell other }
{
    cell.slot.0 < other.slot.0 || (cell.slot.0 == other.slot.0 && cell.step.0 < other.step.0)
}

// The order by which the cells rise.
fn sort(items: &[Held], order: &mut Vec<u16>) -> Result<(), NoMemory>
    requires once { AreOnce items.now }
    requires few { length items.now ≤ most_kept }
    ensures { IfOk result (λ _. RisesAll items.now order.new.items) }
{
    number(order, items.len())?;
    order.sort_unstable_by_key(|place| rank(items, *place));
    Ok(())
}

// So many places, as they stand.
fn number(order: &mut Vec<u16>, count: usize) -> Result<(), NoMemory>
    requires { count ≤ most_kept }
    ensures { IfOk result (λ _. order.new.items ≡ range_with_len 0 count) }
{
    order.clear();
    for place in 0..count {
        order.push(place as u16)?;
    }
    Ok(())
}

// The slot of the cell in a place, and its timestep.
#[inline(always)]
fn rank(items: &[Held], place: u16) -> (u16, u16)
    ensures { result ≡ rank_in items.now place }
{
    match items.get(usize::from(place)) {
        Some(one) => (one.cell.slot.0, one.cell.step.0),
        None => (0, 0),
    }
}
