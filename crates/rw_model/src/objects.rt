//! Holds the objects of a basin, and finds objects and slots by number, place and name.
ghost use Rattle.rw_model.specs.declared.limits.TheConstants.{OBJECTS_MAX, SLOTS_MAX};
ghost use Rattle.std.specs.Prelude.{◌≡◌, ◌+◌, ◌-◌, ◌<◌, ◌≤◌, [], ◌∷◌, ◌++◌, length, take, None, Some, option_map, option_and_then, IfSome, OnOk, OnErr};
ghost use Rattle.rw_model.specs.Slots.{slots_of, slot_in};
ghost use Rattle.rw_model.specs.Objects.{object_named, object_at, slots_from, all_slots, slot_at, slot_in_place, slot_named};
ghost use Rattle.rw_model.specs.Kept.{place_of};
ghost use Rattle.rw_model.specs.Draft.{IsSlot};
ghost use Rattle.rw_model.specs.Links.{owner_of, dim_of};

use crate::Kind;
use crate::place::{Place, number_in_place, number_of_name, push_places};
use crate::slot::Slot;
use indexmap::IndexMap;
use rw_base::{Dim, NoMemory};
use std::alloc::Global;
use std::marker::Model;

/// The objects of a basin, in the order of their numbers, with their slots.
#[derive(Drop)]
pub(crate) struct Objects {
    alloc: Global,
    kinds: IndexMap<String, Kind>,
    places: Vec<Place>,
    firsts: Vec<u16>,
}

impl Model for Objects {
    ghost use Rattle.std.specs.Prelude.{List, map, string_bytes};
    ghost use Rattle.rw_model.specs.Objects.{Object};
    ghost use Rattle.rw_model.specs.declared.kind.Kind.{Kind};

    ghost Value = { List Object };

    ghost use Rattle.rw_model.specs.Kept.{objects_kept, KeepsSlots};

    ghost view = { λ o. objects_kept o.kinds.entries };

    ghost invariant = { λ o.
        KeepsSlots (objects_kept o.kinds.entries) o.places.items o.firsts.items };
}

impl Objects {
    /// Returns the list of no objects.
    pub(crate) fn new(alloc: Global) -> Objects
        ensures { result ≡ [] }
    {
        Objects {
            alloc,
            kinds: IndexMap::new(alloc),
            places: Vec::new(alloc),
            firsts: Vec::new(alloc),
        }
    }

    /// Returns the number of objects.
    pub(crate) fn count(&self) -> u16
        ensures count { result ≡ length self.now }
        ensures few { result ≤ OBJECTS_MAX }
    {
        self.kinds.len() as u16
    }

    /// Returns the number of slots.
    pub(crate) fn slot_count(&self) -> u16
        ensures count { result ≡ length (all_slots self.now) }
        ensures few { result ≤ SLOTS_MAX }
    {
        self.places.len() as u16
    }

    /// Returns the number of the object with this name.
    pub(crate) fn find(&self, name: &str) -> Option<u16>
        ensures number { result ≡ object_named self.now name.now }
        ensures within { IfSome result (λ o. (1 ≤ o) × (o ≤ length self.now)) }
    {
        match self.kinds.get_index_of(name) {
            Some(index) => Some(index as u16 + 1),
            None => None,
        }
    }

    /// Adds an object.
    pub(crate) fn add(&mut self, name: &str, kind: Kind) -> Result<(), NoMemory>
        requires fresh { object_named self.old name.now ≡ None }
        requires few { length self.old < OBJECTS_MAX }
        requires places { length (slots_of kind) ≤ 11 }
        requires few_slots { length
            (all_slots (self.old ++ record { name = name.now; kind = kind } ∷ [])) ≤ SLOTS_MAX }
        ensures ok { OnOk result
            (self.new ≡ self.old ++ record { name = name.now; kind = kind } ∷ []) }
        ensures err { OnErr result (self.new ≡ self.old) }
    {
        let owner = self.count() + 1;
        let first = self.slot_count();
        let name = String::from_str(self.alloc, name)?;
        self.places.reserve(11)?;
        self.firsts.reserve(1)?;
        self.kinds.reserve(1)?;
        push_places(&mut self.places, owner, &kind);
        self.firsts.push_reserved(first);
        let Ok(_) = self.kinds.insert(name, kind) else {
            unreachable!();
        };
        Ok(())
    }

    /// Returns the name of the object of this number.
    pub(crate) fn name(&self, o: u16) -> &str
        requires first { 1 ≤ o }
        requires last { o ≤ length self.now }
        ensures { option_map (λ object. object.name) (object_at self.now o) ≡ Some result.now }
    {
        let Some((name, _)) = self.kinds.get_index(usize::from(o) - 1) else {
            unreachable!();
        };
        name.as_str()
    }

    /// Returns the kind of the object of this number.
    pub(crate) fn kind(&self, o: u16) -> &Kind
        requires first { 1 ≤ o }
        requires last { o ≤ length self.now }
        ensures kind { option_map (λ object. object.kind) (object_at self.now o) ≡ Some result.now }
        ensures few_places { length (slots_of result.now) ≤ 11 }
    {
        let Some((_, kind)) = self.kinds.get_index(usize::from(o) - 1) else {
            unreachable!();
        };
        kind
    }

    /// Returns the object and the place of the slot of this number.
    pub(crate) fn place(&self, s: u16) -> Place
        requires first { 1 ≤ s }
        requires last { s ≤ length (all_slots self.now) }
        ensures place { option_map place_of (slot_at self.now s) ≡ Some result }
        ensures first { 1 ≤ result.owner }
        ensures last { result.owner ≤ length self.now }
        ensures slot { option_and_then (λ object. slot_in object.kind result.place)
            (object_at self.now result.owner)
            ≡ option_map (λ placed. placed.slot) (slot_at self.now s) }
    {
        self.places[usize::from(s) - 1]
    }

    /// Returns what the slot of this number is.
    pub(crate) fn slot(&self, s: u16) -> Slot<'_>
        requires first { 1 ≤ s }
        requires last { s ≤ length (all_slots self.now) }
        ensures { option_map (λ placed. placed.slot) (slot_at self.now s) ≡ Some result }
    {
        let place = self.place(s);
        let Some(slot) = self.kind(place.owner).slot(place.place) else {
            unreachable!();
        };
        slot
    }

    // How many slots stand before those of the object of this number.
    fn slots_before(&self, o: u16) -> u16
        requires first { 1 ≤ o }
        requires last { o ≤ length self.now }
        ensures before { result ≡ length (slots_from 1 (take (o - 1) self.now)) }
        ensures few { result ≤ SLOTS_MAX }
    {
        self.firsts[usize::from(o) - 1]
    }

    /// Returns the object that owns the slot of this number.
    pub(crate) fn owner(&self, s: u16) -> u16
        requires { IsSlot self.now s }
        ensures owner { result ≡ owner_of self.now s }
        ensures first { 1 ≤ result }
        ensures last { result ≤ length self.now }
    {
        self.place(s).owner
    }

    /// Returns what the slot of this number measures.
    pub(crate) fn dim(&self, s: u16) -> Dim
        requires { IsSlot self.now s }
        ensures { result ≡ dim_of self.now s }
    {
        self.slot(s).dim()
    }

    /// Returns the number of an object's slot in a place.
    pub(crate) fn slot_in_place(&self, o: u16, place: u8) -> Option<u16>
        requires first { 1 ≤ o }
        requires last { o ≤ length self.now }
        ensures { result ≡ slot_in_place self.now o place }
    {
        number_in_place(self.kind(o), o, self.slots_before(o) + 1, place)
    }

    /// Returns the number of the slot with this name, of the object with that name.
    pub(crate) fn find_slot(&self, object: &str, name: &str) -> Option<u16>
        ensures { result ≡ slot_named self.now object.now name.now }
    {
        let Some(o) = self.find(object) else {
            return None;
        };
        number_of_name(self.kind(o), o, self.slots_before(o) + 1, name)
    }
}
