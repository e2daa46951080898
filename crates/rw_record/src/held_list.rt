//! Packs a list of cells with what they held.
ghost use Rattle.std.specs.Prelude.{◌≡◌, ◌<◌, ◌≤◌, ◌++◌, ◌∷◌, [], IfOk, IfSome, List, Some, length, map, slice_get, true, vec_len};
ghost use Rattle.rw_run.specs.Reuse.{most_kept};
ghost use Rattle.rw_run.specs.declared.held.Held.{Held as WasHeld};
ghost use Rattle.rw_record.specs.HeldList.{AreListed, KeepsContent, held_of};
ghost use Rattle.rw_record.specs.InOrder.{RisesSo, picked_out};

use crate::ordered::above;
use rw_base::{Cell, NoMemory, SlotNo, StepNo};
use rw_model::Content;
use rw_run::Held;
use std::alloc::Global;
use std::marker::Model;

/// A cell, and the place of what it held among contents. It held nothing where there is no such place.
#[derive(Clone, Copy)]
pub(crate) struct PlacedCell {
    pub(crate) cell: Cell,
    pub(crate) place: u16,
}

/// A list of cells and what they held, seen as that list. It keeps six bytes for a cell that held nothing.
#[derive(Drop)]
pub struct HeldList {
    cells: Vec<PlacedCell>,
    contents: Vec<Content>,
}

impl Model for HeldList {
    ghost use Rattle.std.specs.Prelude.{List, map};
    ghost use Rattle.rw_run.specs.declared.held.Held.{Held};
    ghost use Rattle.rw_record.specs.HeldList.{held_of};

    ghost Value = { List Held };

    ghost view = { λ list. map (held_of list.contents.items) list.cells.items };
}

impl HeldList {
    /// Returns the list of the cells in these places. The one error is want of memory.
    pub(crate) fn of(alloc: Global, items: &[Held], order: &[u16]) -> Result<HeldList, NoMemory>
        requires { length order.now ≤ most_kept }
        ensures { IfOk result (λ list. list ≡ picked_out items.now order.now) }
    {
        let mut cells = Vec::with_capacity(alloc, items.len())?;
        let mut contents = Vec::with_capacity(alloc, count_known(items))?;
        add_all(&mut cells, &mut contents, items, order)?;
        Ok(HeldList { cells, contents })
    }

    /// Returns the list of the cells in these places where they rise in that order, and `None` where they do not.
    pub(crate) fn rising(
        alloc: Global,
        items: &[Held],
        order: &[u16],
    ) -> Result<Option<HeldList>, NoMemory>
        requires { length order.now ≤ most_kept }
        ensures { IfOk result (λ made. IfSome made
            (λ list. (list ≡ picked_out items.now order.now) × RisesSo items.now order.now)) }
    {
        let mut cells = Vec::with_capacity(alloc, items.len())?;
        let mut contents = Vec::with_capacity(alloc, count_known(items))?;
        let rise = add_rising(&mut cells, &mut contents, items, order)?;
        let list = HeldList { cells, contents };
        if rise {
            return Ok(Some(list));
        }
        drop(list);
        Ok(None)
    }

    /// Returns the number of cells.
    #[inline(always)]
    pub fn len(&self) -> usize
        ensures { result ≡ length self.now }
    {
        self.cells.len()
    }

    /// Returns the cell in a place, counted from 0, and what it held.
    #[inline(always)]
    pub fn get(&self, place: usize) -> Held
        requires { place < length self.now }
        ensures { slice_get self.now place ≡ Some result }
    {
        held_at(&self.cells, &self.contents, place)
    }
}

// How many of the cells held something.
fn count_known(items: &[Held]) -> usize
    ensures { result ≤ length items.now }
{
    let mut count = 0;
    for one in items {
        if one.content.is_some() {
            count = count + 1;
        }
    }
    count
}

// Adds those that stand in these places to none.
fn add_all(
    cells: &mut Vec<PlacedCell>,
    contents: &mut Vec<Content>,
    items: &[Held],
    order: &[u16],
) -> Result<(), NoMemory>
    requires few { length order.now ≤ most_kept }
    requires cells { cells.old.items ≡ [] }
    requires contents { contents.old.items ≡ [] }
    ensures { IfOk result
        (λ _. AreListed (picked_out items.now order.now) cells.new.items contents.new.items) }
{
    for place in order {
        add_found(cells, contents, items, *place)?;
    }
    Ok(())
}

// Adds those that stand in these places to none, as long as they rise. Answers whether all do.
fn add_rising(
    cells: &mut Vec<PlacedCell>,
    contents: &mut Vec<Content>,
    items: &[Held],
    order: &[u16],
) -> Result<bool, NoMemory>
    requires few { length order.now ≤ most_kept }
    requires cells { cells.old.items ≡ [] }
    requires contents { contents.old.items ≡ [] }
    ensures { IfOk result (λ rise. (rise ≡ true) → RisesSo items.now order.now
        × AreListed (picked_out items.now order.now) cells.new.items contents.new.items) }
{
    let mut last = Cell {
        slot: SlotNo(0),
        step: StepNo(0),
    };
    for place in order {
        match above(items, *place, last) {
            Some(one) => {
                add(cells, contents, one)?;
                last = one.cell;
            }
            None => return Ok(false),
        }
    }
    Ok(true)
}

// Adds the one that stands in a place, if one does.
#[inline(always)]
fn add_found(
    cells: &mut Vec<PlacedCell>,
    contents: &mut Vec<Content>,
    items: &[Held],
    place: u16,
) -> Result<(), NoMemory>
    requires { vec_len contents.old < 65535 }
    ensures { (before : List WasHeld) → AreListed before cells.old.items contents.old.items
        → IfOk result (λ _. AreListed (before ++ picked_out items.now (place ∷ []))
        cells.new.items contents.new.items) }
{
    match items.get(usize::from(place)) {
        Some(one) => add(cells, contents, one),
        None => Ok(()),
    }
}

// Adds a cell.
#[inline(always)]
fn add(cells: &mut Vec<PlacedCell>, contents: &mut Vec<Content>, one: &Held) -> Result<(), NoMemory>
    requires { vec_len contents.old < 65535 }
    ensures { (before : List WasHeld) → AreListed before cells.old.items contents.old.items
        → IfOk result (λ _. AreListed (before ++ one.now ∷ []) cells.new.items contents.new.items) }
{
    let place = keep(contents, &one.content)?;
    cells.push(PlacedCell {
        cell: one.cell,
        place,
    })?;
    Ok(())
}

// Adds what a cell held, if it held something, and answers its place.
#[inline(always)]
fn keep(contents: &mut Vec<Content>, content: &Option<Content>) -> Result<u16, NoMemory>
    requires { vec_len contents.old < 65535 }
    ensures { IfOk result (KeepsContent content.now contents.old.items contents.new.items) }
{
    match content {
        Some(known) => {
            let place = contents.len() as u16;
            contents.push(*known)?;
            Ok(place)
        }
        None => Ok(u16::MAX),
    }
}

// What stands in a place.
#[inline(always)]
fn held_at(cells: &[PlacedCell], contents: &[Content], place: usize) -> Held
    requires { place < length cells.now }
    ensures { slice_get (map (held_of contents.now) cells.now) place ≡ Some result }
{
    let one = cells[place];
    Held {
        cell: one.cell,
        content: contents.get(usize::from(one.place)).copied(),
    }
}
