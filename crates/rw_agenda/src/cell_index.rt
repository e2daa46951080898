//! Finds the rules that looked at a cell, without a search through the looks of all rules.
ghost use Rattle.std.specs.Prelude.{◌≡◌, ◌≤◌, ◌<◌, ◌+◌, ◌*◌, ◌-◌, ◌^◌, ◌==◌, ◌||◌, ◌&&◌, ◌++◌, ◌∷◌, [], ℕ, All, IfOk, IsSomeAnd, Some, None, true, false, length, unwrap_or, slice_index_or};
ghost use Rattle.std.specs.List.{list_any, slice_get};
ghost use Rattle.rw_base.specs.declared.number.Cell.{Cell};
ghost use Rattle.rw_model.specs.Kept.{numbers_of};
ghost use Rattle.rw_run.specs.Dispatch.{cell_at};
ghost use Rattle.rw_firing.specs.declared.look.Look.{Look};
ghost use Rattle.rw_agenda.specs.CellIndex.{CanWatch, has_watch, is_met, is_watching, newest_at, index_position, watch_numbered};
ghost use Rattle.rw_agenda.specs.Marks.{MarksMore};
ghost use Rattle.rw_agenda.specs.declared.watch.Watch.{Watch};

use crate::last_looks::LastLooks;
use crate::limits::INDEX_STEPS;
use crate::marks::Marks;
use crate::watch::Watch;
use rw_base::{Cell, NoMemory, SlotNo, StepNo};
use rw_firing::Look;
use rw_model::Basin;
use std::alloc::Global;
use std::marker::Model;

/// The rules that looked at each cell, so that they are found without the looks of all rules. A rule watches each cell at which
/// it looked, until all watches are removed. Timesteps that are `INDEX_STEPS` apart share their places: a run looks around its
/// timestep, and what it asks over and over stays small. Where there was no room for a watch, every rule counts as one that
/// looked everywhere: one too many is marked, and its looks are compared for nothing.
#[derive(Drop)]
pub(crate) struct CellIndex {
    slots: u16,
    newest: Vec<u32>,
    watches: Vec<Watch>,
    past: u32,
    room: u32,
    full: bool,
}

impl Model for CellIndex {
    ghost use Rattle.std.specs.Prelude.{◌≤◌, ◌<◌, ◌+◌, ◌^◌};
    ghost use Rattle.rw_agenda.specs.CellIndex as specs;

    ghost Value = { specs.CellIndex };

    ghost view = { λ index. record {
      slots = index.slots;
      newest = index.newest.items;
      watches = index.watches.items;
      past = index.past;
      room = index.room;
      is_full = index.full;
    } };

    ghost invariant = { λ index.
        (index.room ≤ index.watches.cap) × (index.past + index.room < 2 ^ 32) };
}

impl CellIndex {
    /// Returns an index of the cells of a basin that no rule watches, with room for `room` watches. No other call takes memory.
    pub(crate) fn with_room(alloc: Global, basin: &Basin, room: u32) -> Result<CellIndex, NoMemory>
        ensures { IfOk result (λ index. (cell : Cell) (rule : ℕ)
            → is_watching index cell rule ≡ false) }
    {
        let slots = slots_for(basin, room);
        let newest = Vec::from_elem(alloc, 0, usize::from(slots) * usize::from(INDEX_STEPS) + 1)?;
        let watches = Vec::with_capacity(alloc, room as usize)?;
        Ok(CellIndex {
            slots,
            newest,
            watches,
            past: 0,
            room,
            full: false,
        })
    }

    /// Removes all watches. Those that come next have other numbers than all before, so that no cell's newest one has to be
    /// removed.
    pub(crate) fn clear(&mut self)
        ensures { (cell : Cell) (rule : ℕ) → is_watching self.new cell rule ≡ false }
    {
        self.past = passed(self.past, self.room);
        if self.past == 0 {
            self.newest.fill(0);
        }
        self.watches.clear();
        self.full = false;
    }

    /// Adds a watch of a cell by the rule in this place, once more where it watches the cell already.
    #[inline(always)]
    pub(crate) fn watch(&mut self, rule: u16, cell: Cell)
        ensures watching { is_watching self.new cell rule ≡ true }
        ensures kept { (other : Cell) (earlier : ℕ) → is_watching self.old other earlier ≡ true
            → is_watching self.new other earlier ≡ true }
        ensures room { CanWatch self.old cell → self.new.is_full ≡ self.old.is_full }
    {
        let place = position_of(self.slots, cell);
        if place >= self.newest.len() {
            self.full = true;
            return;
        }
        let newest = self.newest[place];
        if self.watches.len() >= self.room as usize {
            self.full = true;
            return;
        }
        push_watch(&mut self.watches, rule, cell.step.0, newest);
        self.newest[place] = self.past + self.watches.len() as u32;
    }

    /// Adds watches of these cells by the rule in this place. It watches those already at which it looked when it last fired. In
    /// a place after all at which it looked in the timestep it is not asked whether it watches the cell.
    #[inline(always)]
    pub(crate) fn watch_all(&mut self, rule: u16, last: &LastLooks, looked: &[Look])
        requires { All (λ (look : Look). is_watching self.old look.cell rule ≡ true)
            (unwrap_or last.now.looked []) }
        ensures watching { All
            (λ (look : Look). is_watching self.new look.cell rule ≡ true) looked.now }
        ensures kept { (other : Cell) (earlier : ℕ) → is_watching self.old other earlier ≡ true
            → is_watching self.new other earlier ≡ true }
    {
        let most = last.most();
        let mut place = 0;
        while place < looked.len() {
            let cell = looked[place].cell;
            let next = next_cell(looked, place);
            self.watch_at(rule, last, most, place, cell);
            place = next;
        }
    }

    // The rule looked at a cell at this place of its looks.
    #[inline(always)]
    fn watch_at(&mut self, rule: u16, last: &LastLooks, most: usize, place: usize, cell: Cell)
        requires { All (λ (look : Look). is_watching self.old look.cell rule ≡ true)
            (unwrap_or last.now.looked []) }
        ensures watching { is_watching self.new cell rule ≡ true }
        ensures kept { (other : Cell) (earlier : ℕ) → is_watching self.old other earlier ≡ true
            → is_watching self.new other earlier ≡ true }
    {
        if place < most {
            self.watch_again(rule, last.looks(), place, cell);
        } else {
            self.watch(rule, cell);
        }
    }

    // The same, of a place at which it looked before in the timestep.
    #[inline(never)]
    fn watch_again(&mut self, rule: u16, before: &[Look], place: usize, cell: Cell)
        requires { All (λ (look : Look). is_watching self.old look.cell rule ≡ true) before.now }
        ensures watching { is_watching self.new cell rule ≡ true }
        ensures kept { (other : Cell) (earlier : ℕ) → is_watching self.old other earlier ≡ true
            → is_watching self.new other earlier ≡ true }
    {
        if is_in_place(before, place, cell) || self.is_watched(rule, cell) {
            return;
        }
        self.watch(rule, cell);
    }

    // Whether the rule is met, going from the newest watch of the cell to the one before, and so on.
    fn is_watched(&self, rule: u16, cell: Cell) -> bool
        ensures { result ≡ true → is_watching self.now cell rule ≡ true }
    {
        let newest = self.newest_at(self.slots, cell);
        let step = cell.step.0;
        is_met(self.watches.as_slice(), self.past, newest, rule, step)
    }

    /// Marks each rule that watches a cell of one of these slots at the timestep, and no other.
    #[inline(always)]
    pub(crate) fn mark(&self, marks: &mut Marks, group: &[SlotNo], step: StepNo)
        ensures { MarksMore
            (λ rule. list_any (λ slot. has_watch self.now (cell_at slot step.0) rule)
            (numbers_of group.now)) marks.old marks.new }
    {
        let slots = self.slots;
        for slot in group {
            self.mark_at(marks, slots, Cell { slot: *slot, step });
        }
    }

    /// Returns whether there was no room for a watch, so that every rule watches each cell.
    #[inline(always)]
    pub(crate) fn is_full(&self) -> bool
        ensures { result ≡ self.now.is_full }
    {
        self.full
    }

    /// Returns whether there is no watch.
    #[inline(always)]
    pub(crate) fn is_idle(&self) -> bool
        ensures { result ≡ true → (cell : Cell) (rule : ℕ) → has_watch self.now cell rule ≡ false }
    {
        self.watches.is_empty()
    }

    // Marks each rule of which there is a watch of a cell.
    #[inline(always)]
    fn mark_at(&self, marks: &mut Marks, slots: u16, cell: Cell)
        requires { slots ≡ self.now.slots }
        ensures { MarksMore (has_watch self.now cell) marks.old marks.new }
    {
        mark_from(
            marks,
            self.watches.as_slice(),
            self.past,
            self.newest_at(slots, cell),
            cell.step.0,
        );
    }

    // The number of the newest watch of a cell's place, 0 where there is none.
    #[inline(always)]
    fn newest_at(&self, slots: u16, cell: Cell) -> u32
        requires { slots ≡ self.now.slots }
        ensures { result ≡ newest_at self.now cell }
    {
        number_in(self.newest.as_slice(), position_of(slots, cell))
    }
}

// How many slots an index has. It has none where no rule looks at anything.
fn slots_for(basin: &Basin, room: u32) -> u16 {
    if room == 0 { 0 } else { basin.slot_count() }
}

// The place of a cell, which it shares with those of its slot that lie so many timesteps away.
#[inline(always)]
fn position_of(slots: u16, cell: Cell) -> usize
    ensures { result ≡ index_position slots cell }
{
    place_in_row(slots, cell.step.0 % INDEX_STEPS, cell.slot.0)
}

// The place in a row of so many slots.
#[inline(always)]
fn place_in_row(slots: u16, row: u16, slot: u16) -> usize
    ensures { result ≡ row * slots + slot }
{
    usize::from(row) * usize::from(slots) + usize::from(slot)
}

// The number in a place, 0 where there is none.
#[inline(always)]
fn number_in(numbers: &[u32], place: usize) -> u32
    ensures { result ≡ slice_index_or numbers.now place 0 }
{
    match numbers.get(place) {
        Some(number) => *number,
        None => 0,
    }
}

// Whether a watch is of this rule and this timestep.
fn is_of(watch: Watch, rule: u16, step: u16) -> bool
    ensures { result ≡ (watch.rule == rule && watch.step == step) }
{
    watch.rule == rule && watch.step == step
}

// How many are past next, where so many watches are past and there is room for so many more. Where the numbers would come to their
// end, they begin anew.
fn passed(past: u32, room: u32) -> u32
    requires { past + room < 2 ^ 32 }
    ensures { result + room < 2 ^ 32 }
{
    let next = past + room;
    if room <= u32::MAX - next { next } else { 0 }
}

// The watch of a number, counted from the first one behind those that are past.
fn watch_of(watches: &[Watch], past: u32, number: u32) -> Option<Watch>
    ensures { result ≡ watch_numbered watches.now past number }
{
    if number <= past {
        None
    } else {
        watches.get((number - past) as usize - 1).copied()
    }
}

// Whether the rule is met at the timestep, going from the watch of this number to the one before, and so on.
fn is_met(watches: &[Watch], past: u32, newest: u32, rule: u16, step: u16) -> bool
    ensures { result ≡ is_met watches.now past (length watches.now) newest rule step }
{
    let mut number = newest;
    for turn in 0..watches.len() {
        let Some(watch) = watch_of(watches, past, number) else {
            return false;
        };
        if is_of(watch, rule, step) {
            return true;
        }
        number = watch.before;
    }
    false
}

// The first place behind this one of a look at another cell, and how many looks there are where there is none. A rule often looks
// at one cell several times in turn.
#[inline(always)]
fn next_cell(looks: &[Look], place: usize) -> usize
    requires { place < length looks.now }
    ensures behind { place < result }
    ensures last { result ≤ length looks.now }
    ensures same { (k : ℕ) (d : Look) → place ≤ k → k < result
        → (slice_index_or looks.now k d).cell ≡ (slice_index_or looks.now place d).cell }
{
    let cell = looks[place].cell;
    for next in place + 1..looks.len() {
        if !is_same(looks[next].cell, cell) {
            return next;
        }
    }
    looks.len()
}

// Whether two cells are one, by one comparison.
#[inline(always)]
fn is_same(cell: Cell, other: Cell) -> bool
    ensures { result ≡ true → cell ≡ other }
{
    cell_number(cell) == cell_number(other)
}

// A cell as one number.
#[inline(always)]
fn cell_number(cell: Cell) -> u32
    ensures { result ≡ cell.step.0 * 65536 + cell.slot.0 }
{
    u32::from(cell.step.0) * 65536 + u32::from(cell.slot.0)
}

// Whether the look in a place was at this cell.
fn is_in_place(looks: &[Look], place: usize, cell: Cell) -> bool
    ensures { result ≡ true → IsSomeAnd (slice_get looks.now place) (λ look. look.cell ≡ cell) }
{
    match looks.get(place) {
        Some(look) => is_same(look.cell, cell),
        None => false,
    }
}

// Adds a watch that leads to the newest one of its place, if there is one.
fn push_watch(watches: &mut Vec<Watch>, rule: u16, step: u16, newest: u32)
    requires room { length watches.old.items < watches.old.cap }
    ensures added { watches.new.items ≡ watches.old.items ++ record {
      rule = rule;
      step = step;
      before = newest;
    } ∷ [] }
    ensures room { watches.new.cap ≡ watches.old.cap }
{
    watches.push_reserved(Watch {
        rule,
        step,
        before: newest,
    });
}

// Marks each rule that is met at the timestep, going from the newest watch of a place, if it has one.
#[inline(always)]
fn mark_from(marks: &mut Marks, watches: &[Watch], past: u32, newest: u32, step: u16)
    ensures { MarksMore (λ rule. is_met watches.now past (length watches.now) newest rule step)
        marks.old marks.new }
{
    if past < newest {
        mark_met(marks, watches, past, newest, step);
    }
}

// Marks the rule of a watch, if it is of the timestep.
fn mark_one(marks: &mut Marks, watch: Watch, step: u16)
    ensures { MarksMore (λ rule. watch.rule == rule && watch.step == step) marks.old marks.new }
{
    if watch.step == step {
        marks.set(watch.rule);
    }
}

// Marks each rule that is met at the timestep, going from the watch of this number to the one before, and so on.
#[inline(never)]
fn mark_met(marks: &mut Marks, watches: &[Watch], past: u32, newest: u32, step: u16)
    ensures { MarksMore (λ rule. is_met watches.now past (length watches.now) newest rule step)
        marks.old marks.new }
{
    let mut number = newest;
    for turn in 0..watches.len() {
        let Some(watch) = watch_of(watches, past, number) else {
            return;
        };
        mark_one(marks, watch, step);
        number = watch.before;
    }
}
