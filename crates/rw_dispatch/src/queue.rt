//! Holds the objects that wait to be dispatched, in the order of the events that woke them.
ghost use Rattle.std.specs.Prelude.{ℕ, List, length, true, cond, ◌==◌, ◌≡◌, ◌≤◌, ◌<◌, ◌+◌, ◌++◌, ◌∷◌, [], MatchOption, IfSome, IfOk, All, option_map};
ghost use Rattle.std.specs.List.{list_any};
ghost use Rattle.rw_model.specs.Draft.{IsObject, IsSlot};
ghost use Rattle.rw_model.specs.Kept.{numbers_of};
ghost use Rattle.rw_run.specs.Times.{times};
ghost use Rattle.rw_run.specs.Waiting.{all_waiting, is_owner, is_woken, slots_at, woken};
ghost use Rattle.rw_dispatch.specs.Queue.{IsQueueOf, IsTaken, objects_of};
ghost use Rattle.rw_dispatch.specs.Owners.{HasReached};
ghost use Rattle.rw_dispatch.specs.Writes.{AreWrites};

use crate::owners::{Reached, has_mark, is_but, is_data, lesser, reach_slots, reach_writes};
use crate::pick::Pick;
use rw_base::{NoMemory, ObjectNo, SlotNo, StepNo};
use rw_model::Basin;
use rw_run::Write;
use std::alloc::Global;
use std::collections::VecDeque;
use std::marker::Model;

/// The objects of a basin that wait to be dispatched, seen as how many objects there are and the numbers of those that wait, the
/// one to be dispatched next first. None of them waits twice.
#[derive(Drop)]
pub struct Queue {
    items: VecDeque<ObjectNo>,
    waits: Vec<bool>,
}

impl Model for Queue {
    ghost use Rattle.rw_dispatch.specs.Queue as specs;
    ghost use Rattle.std.specs.Prelude.{length};

    ghost Value = { specs.Queue };

    ghost view = { λ q.
        record { objects = length q.waits.items; waiting = specs.objects_of q.items.items } };

    ghost invariant = { λ q.
        specs.KeepsQueue (specs.objects_of q.items.items) q.items.len q.items.cap q.waits.items };
}

impl Queue {
    /// Returns a queue for a basin, in which no object waits. The one error is want of memory; no other call takes any.
    pub fn for_basin(alloc: Global, basin: &Basin) -> Result<Queue, NoMemory>
        ensures made { IfOk result (IsQueueOf basin.now) }
        ensures empty { IfOk result (λ queue. queue.waiting ≡ []) }
    {
        let count = usize::from(basin.object_count());
        let items = VecDeque::with_capacity(alloc, count)?;
        let waits = Vec::from_elem(alloc, false, count)?;
        Ok(Queue { items, waits })
    }

    /// Removes the object that is to be dispatched next, and returns it. `None` exactly where none waits.
    pub fn next(&mut self) -> Option<ObjectNo>
        ensures objects { self.new.objects ≡ self.old.objects }
        ensures taken { MatchOption result ((self.old.waiting ≡ []) × (self.new.waiting ≡ []))
            (λ object. self.old.waiting ≡ object.0 ∷ self.new.waiting) }
        ensures known { IfSome result (λ object. (1 ≤ object.0) × (object.0 ≤ self.old.objects)) }
    {
        let Some(object) = pop(&mut self.items) else {
            return None;
        };
        self.waits[(object.0 - 1) as usize] = false;
        Some(object)
    }

    /// Removes the object in a place of those that wait, counted from 0, and returns it. `None` exactly where none waits there.
    pub fn take(&mut self, place: usize) -> Option<ObjectNo>
        ensures objects { self.new.objects ≡ self.old.objects }
        ensures taken { MatchOption result
            ((length self.old.waiting ≤ place) × (self.new.waiting ≡ self.old.waiting))
            (λ object. IsTaken place self.old.waiting object.0 self.new.waiting) }
        ensures known { IfSome result (λ object. (1 ≤ object.0) × (object.0 ≤ self.old.objects)) }
    {
        let Some(object) = remove(&mut self.items, place) else {
            return None;
        };
        self.waits[(object.0 - 1) as usize] = false;
        Some(object)
    }

    /// Removes the object that is picked of those that wait, at a turn, and returns it. `None` exactly where none waits.
    pub fn next_by<P: Pick>(&mut self, pick: &P, turn: u64) -> Option<ObjectNo>
        ensures objects { self.new.objects ≡ self.old.objects }
        ensures taken { MatchOption result ((self.old.waiting ≡ []) × (self.new.waiting ≡ []))
            (λ object. IsTaken (P.rule pick.now turn self.old.waiting)
            self.old.waiting object.0 self.new.waiting) }
        ensures known { IfSome result (λ object. (1 ≤ object.0) × (object.0 ≤ self.old.objects)) }
    {
        if pick.is_oldest() {
            return self.next();
        }
        self.next_picked(pick, turn)
    }

    // The same by the list of those that wait.
    fn next_picked<P: Pick>(&mut self, pick: &P, turn: u64) -> Option<ObjectNo>
        ensures objects { self.new.objects ≡ self.old.objects }
        ensures taken { MatchOption result ((self.old.waiting ≡ []) × (self.new.waiting ≡ []))
            (λ object. IsTaken (P.rule pick.now turn self.old.waiting)
            self.old.waiting object.0 self.new.waiting) }
        ensures known { IfSome result (λ object. (1 ≤ object.0) × (object.0 ≤ self.old.objects)) }
    {
        if self.items.is_empty() {
            return None;
        }
        let place = place_by(&mut self.items, pick, turn);
        self.take(place)
    }

    /// Begins a timestep: all objects but those that only keep data wait, in order of number.
    pub fn begin_step(&mut self, basin: &Basin)
        requires made { IsQueueOf basin.now self.old }
        ensures made { IsQueueOf basin.now self.new }
        ensures all { self.new.waiting ≡ all_waiting basin.now }
    {
        while self.next().is_some() {}
        for place in 0..basin.object_count() {
            let data = is_data(basin, ObjectNo(place + 1));
            self.append_if(!data, place + 1);
        }
    }

    /// Wakes the objects that own a slot which carries one value with one of these, as one event: those that do not wait yet, but
    /// the one that is left out and those that only keep data, wait after all others, in order of number. The law `waiting_after`
    /// of `rw_run` says that those are the objects that wait after the event.
    pub fn wake(&mut self, basin: &Basin, slots: &[SlotNo], but: Option<ObjectNo>)
        requires made { IsQueueOf basin.now self.old }
        requires slots { All (λ (slot : SlotNo). IsSlot basin.now.objects slot.0) slots.now }
        ensures made { IsQueueOf basin.now self.new }
        ensures woken { self.new.waiting ≡ self.old.waiting ++ woken basin.now
            (option_map (λ object. object.0) but) self.old.waiting (numbers_of slots.now) }
    {
        let mut reached = Reached::none();
        reach_slots(&mut reached, basin, but, slots);
        self.wake_reached(basin, &reached, but);
    }

    /// Wakes the objects that what an event writes at a timestep reaches, as `wake` does.
    #[inline(always)]
    pub fn wake_written(
        &mut self,
        basin: &Basin,
        step: StepNo,
        writes: &[Write],
        but: Option<ObjectNo>,
    )
        requires made { IsQueueOf basin.now self.old }
        requires can { AreWrites basin.now writes.now }
        ensures made { IsQueueOf basin.now self.new }
        ensures woken { self.new.waiting ≡ self.old.waiting ++ woken basin.now
            (option_map (λ object. object.0) but) self.old.waiting (slots_at step.0 writes.now) }
    {
        let mut reached = Reached::none();
        reach_writes(&mut reached, basin, but, step, writes);
        self.wake_reached(basin, &reached, but);
    }

    // Wakes the objects that are reached.
    fn wake_reached(&mut self, basin: &Basin, reached: &Reached, but: Option<ObjectNo>)
        requires made { IsQueueOf basin.now self.old }
        ensures made { IsQueueOf basin.now self.new }
        ensures woken { (slots : List ℕ) → HasReached (option_map (λ object. object.0) but)
            (is_owner basin.now slots) reached.now
            → self.new.waiting ≡ self.old.waiting ++ woken basin.now
            (option_map (λ object. object.0) but) self.old.waiting slots }
    {
        let last = lesser(reached.last, u32::from(basin.object_count()));
        for place in lesser(reached.before, last)..last {
            let object = object_in(place);
            let woken = self.is_woken(basin, reached, but, object);
            self.append_if(woken, object);
        }
    }

    // Appends an object that doesn't wait yet.
    fn append(&mut self, object: u16)
        requires first { 1 ≤ object }
        requires last { object ≤ self.old.objects }
        requires free { times object self.old.waiting ≡ 0 }
        ensures objects { self.new.objects ≡ self.old.objects }
        ensures appended { self.new.waiting ≡ self.old.waiting ++ object ∷ [] }
    {
        push(&mut self.items, ObjectNo(object));
        self.waits[(object - 1) as usize] = true;
    }

    // Appends an object where the test says so.
    fn append_if(&mut self, test: bool, object: u16)
        requires first { 1 ≤ object }
        requires last { object ≤ self.old.objects }
        requires free { test ≡ true → times object self.old.waiting ≡ 0 }
        ensures objects { self.new.objects ≡ self.old.objects }
        ensures appended { self.new.waiting ≡ self.old.waiting ++ cond test (object ∷ []) [] }
    {
        if test {
            self.append(object);
        }
    }

    // Whether an object is woken that is reached: it doesn't wait yet, has a method, and isn't left out.
    #[tactic(auto, using(crate::proofs::Queues::free))]
    fn is_free(&self, basin: &Basin, but: Option<ObjectNo>, object: u16) -> bool
        requires made { IsQueueOf basin.now self.now }
        requires known { IsObject basin.now.objects object }
        ensures woken { (slots : List ℕ) → is_owner basin.now slots object ≡ true
            → result ≡ is_woken
            basin.now (option_map (λ other. other.0) but) self.now.waiting slots object }
        ensures free { result ≡ true → times object self.now.waiting ≡ 0 }
    {
        if self.waits(object) {
            return false;
        }
        if is_but(but, object) {
            return false;
        }
        !is_data(basin, ObjectNo(object))
    }

    // Whether an object is woken.
    fn is_woken(&self, basin: &Basin, reached: &Reached, but: Option<ObjectNo>, object: u16) -> bool
        requires made { IsQueueOf basin.now self.now }
        requires known { IsObject basin.now.objects object }
        requires few { object ≤ 500 }
        ensures woken { (slots : List ℕ) → HasReached (option_map (λ other. other.0) but)
            (is_owner basin.now slots) reached.now
            → result
            ≡ is_woken basin.now (option_map (λ other. other.0) but) self.now.waiting slots object }
        ensures free { result ≡ true → times object self.now.waiting ≡ 0 }
    {
        if has_mark(reached, object) {
            self.is_free(basin, but, object)
        } else {
            false
        }
    }

    // Whether an object waits.
    fn waits(&self, object: u16) -> bool
        requires first { 1 ≤ object }
        requires last { object ≤ self.now.objects }
        ensures { result ≡ list_any (λ other. object == other) self.now.waiting }
    {
        self.waits[(object - 1) as usize]
    }
}

// The number of the object in a place, counted from 0.
fn object_in(place: u32) -> u16
    requires { place < 500 }
    ensures { result ≡ place + 1 }
{
    place as u16 + 1
}

// Adds an object behind all others, for which there is room.
fn push(items: &mut VecDeque<ObjectNo>, object: ObjectNo)
    requires { items.old.len < items.old.cap }
    ensures items { objects_of items.new.items ≡ objects_of items.old.items ++ object.0 ∷ [] }
    ensures len { items.new.len ≡ items.old.len + 1 }
    ensures capacity { items.new.cap ≡ items.old.cap }
{
    items.push_back_reserved(object);
}

// Takes out the first object.
fn pop(items: &mut VecDeque<ObjectNo>) -> Option<ObjectNo>
    ensures items { MatchOption result
        ((objects_of items.old.items ≡ []) × (objects_of items.new.items ≡ []))
        (λ object. objects_of items.old.items ≡ object.0 ∷ objects_of items.new.items) }
    ensures len { MatchOption result (items.new.len ≡ items.old.len)
        (λ object. items.new.len + 1 ≡ items.old.len) }
    ensures capacity { items.new.cap ≡ items.old.cap }
{
    match items.pop_front() {
        Some(object) => Some(object),
        None => None,
    }
}

// Takes out the object in a place.
fn remove(items: &mut VecDeque<ObjectNo>, place: usize) -> Option<ObjectNo>
    ensures items { MatchOption result
        ((length (objects_of items.old.items) ≤ place)
        × (objects_of items.new.items ≡ objects_of items.old.items))
        (λ object. IsTaken place (objects_of items.old.items) object.0
        (objects_of items.new.items)) }
    ensures len { MatchOption result (items.new.len ≡ items.old.len)
        (λ object. items.new.len + 1 ≡ items.old.len) }
    ensures capacity { items.new.cap ≡ items.old.cap }
{
    match items.remove(place) {
        Some(object) => Some(object),
        None => None,
    }
}

// The place that is picked. The list is made contiguous for it.
fn place_by<P: Pick>(items: &mut VecDeque<ObjectNo>, pick: &P, turn: u64) -> usize
    requires some { 1 ≤ length items.old.items }
    ensures place { result ≡ P.rule pick.now turn (objects_of items.old.items) }
    ensures below { result < length (objects_of items.old.items) }
    ensures items { items.new.items ≡ items.old.items }
    ensures len { items.new.len ≡ items.old.len }
    ensures capacity { items.new.cap ≡ items.old.cap }
{
    pick.pick(turn, items.make_contiguous())
}
