//! Holds the links between slots, and finds the link of a slot without a search.
ghost use Rattle.std.specs.Prelude.{◌≡◌, ◌+◌, ◌≤◌, ℕ, [], ◌∷◌, ◌++◌, length, map, All, if◌then◌else◌, None, Some, OnOk, OnErr, IfOk, vec_len, vec_capacity, slice_index_or};
ghost use Rattle.std.specs.Option.{ForSome};
ghost use Rattle.rw_model.specs.Links.{is_among, link_of, linked_with};
ghost use Rattle.rw_model.specs.Kept.{numbers_of, links_of};

use rw_base::{NoMemory, SlotNo};
use std::alloc::Global;
use std::marker::Model;

/// The links between slots, in the order of the calls, seen as the numbers of their slots.
#[derive(Drop)]
pub(crate) struct Links {
    alloc: Global,
    links: Vec<Vec<SlotNo>>,
    places: Vec<Option<usize>>,
}

impl Model for Links {
    ghost use Rattle.std.specs.Prelude.{List, ℕ};
    ghost use Rattle.rw_model.specs.Kept.{links_of, KeepsPlaces};

    ghost Value = { List (List ℕ) };

    ghost view = { λ l. links_of l.links.items };

    ghost invariant = { λ l. KeepsPlaces (links_of l.links.items) l.places.items };
}

// Makes room to say of so many slots which link has them.
fn widen(places: &mut Vec<Option<usize>>, count: usize) -> Result<(), NoMemory>
    ensures same { (k : ℕ)
        → slice_index_or places.new.items k None ≡ slice_index_or places.old.items k None }
    ensures room { OnOk result (count ≤ vec_len places.new) }
{
    if places.len() < count {
        places.resize(count, None)?;
    }
    Ok(())
}

// Says of each of the slots that this link has it.
fn mark(places: &mut Vec<Option<usize>>, slots: &[SlotNo], link: usize)
    requires { All (λ (slot : SlotNo). (1 ≤ slot.0) × (slot.0 ≤ vec_len places.old)) slots.now }
    ensures marked { (k : ℕ) → slice_index_or places.new.items k None
        ≡ (if is_among (k + 1) (numbers_of slots.now) then Some link
        else slice_index_or places.old.items k None) }
    ensures len { vec_len places.new ≡ vec_len places.old }
{
    for slot in slots {
        places[usize::from(slot.0) - 1] = Some(link);
    }
}

fn copied(alloc: Global, slots: &[SlotNo]) -> Result<Vec<SlotNo>, NoMemory>
    ensures { IfOk result (λ copy. copy.items ≡ slots.now) }
{
    Ok(slots.to_vec(alloc)?)
}

fn append(links: &mut Vec<Vec<SlotNo>>, link: Vec<SlotNo>)
    requires { vec_len links.old + 1 ≤ vec_capacity links.old }
    ensures { links_of links.new.items ≡ links_of links.old.items ++ numbers_of link.items ∷ [] }
{
    links.push_reserved(link);
}

impl Links {
    /// Returns the list of no links.
    pub(crate) fn new(alloc: Global) -> Links
        ensures { result ≡ [] }
    {
        Links {
            alloc,
            links: Vec::new(alloc),
            places: Vec::new(alloc),
        }
    }

    /// Returns the number of links.
    pub(crate) fn count(&self) -> usize
        ensures { result ≡ length self.now }
    {
        self.links.len()
    }

    /// Returns the place of the link that has the slot.
    pub(crate) fn place(&self, slot: u16) -> Option<usize>
        requires { 1 ≤ slot }
        ensures place { result ≡ link_of self.now slot }
        ensures within { ForSome result (λ place. place + 1 ≤ length self.now) }
    {
        match self.places.get(usize::from(slot) - 1) {
            Some(place) => *place,
            None => None,
        }
    }

    /// Returns the slots of the link that has the slot, and none where no link has it.
    pub(crate) fn with(&self, slot: u16) -> &[SlotNo]
        requires { 1 ≤ slot }
        ensures { numbers_of result.now ≡ linked_with self.now slot }
    {
        match self.place(slot) {
            Some(place) => self.links[place].as_slice(),
            None => &[],
        }
    }

    /// Adds a link. No slot of a basin of `count` slots is in two links.
    pub(crate) fn add(&mut self, slots: &[SlotNo], count: u16) -> Result<(), NoMemory>
        requires known { All (λ (slot : SlotNo). (1 ≤ slot.0) × (slot.0 ≤ count)) slots.now }
        requires free { All (λ (slot : SlotNo). link_of self.old slot.0 ≡ None) slots.now }
        ensures ok { OnOk result (self.new ≡ self.old ++ numbers_of slots.now ∷ []) }
        ensures err { OnErr result (self.new ≡ self.old) }
    {
        let place = self.count();
        let link = copied(self.alloc, slots)?;
        self.links.reserve(1)?;
        widen(&mut self.places, usize::from(count))?;
        mark(&mut self.places, slots, place);
        append(&mut self.links, link);
        Ok(())
    }
}
