//! Holds a valid basin, and returns what it has of objects, slots, links and bounds.
ghost use Rattle.std.specs.Prelude.{◌≡◌, ◌≤◌, length, map, None, Some, All, Contains, not, option_map};
ghost use Rattle.std.specs.List.{range_with_len};
ghost use Rattle.std.specs.Option.{ForSome};
ghost use Rattle.rw_model.specs.Code.{code_of};
ghost use Rattle.rw_model.specs.Kind.{IsKind};
ghost use Rattle.rw_model.specs.Slot.{IsInside, all_quantities};
ghost use Rattle.rw_model.specs.Objects.{object_at, all_slots, slot_at, slot_in_place, slot_named};
ghost use Rattle.rw_model.specs.Draft.{IsObject, IsSlot, IsWithinWidest};
ghost use Rattle.rw_model.specs.Links.{group_of, bounds_in};
ghost use Rattle.rw_model.specs.Before.{before_of};
ghost use Rattle.rw_model.specs.Basin.{is_settable, IsBasin};
ghost use Rattle.rw_model.specs.Kept.{numbers_of};

use crate::before::before_in;
use crate::links::Links;
use crate::lookups::Tables;
use crate::objects::Objects;
use crate::own_bounds::OwnBounds;
use crate::{Kind, Role, RunControl};
use rw_base::{Dim, ObjectNo, Qty, SlotNo};
use std::marker::Model;

/// A valid basin, seen as what its builder was told. Objects are numbered from 1 in the order in which they were added, and slots
/// from 1, object by object, in the order of their places. All values are in the base units m3, mm, timestep and kWh. No call
/// takes memory. `docs/DEFINITIONS.md` says under "Slots" when a basin is valid.
#[derive(Drop)]
pub struct Basin {
    pub(crate) control: RunControl,
    pub(crate) objects: Objects,
    pub(crate) links: Links,
    pub(crate) own: OwnBounds,
    pub(crate) tables: Tables,
}

impl Model for Basin {
    ghost use Rattle.rw_model.specs.Draft.{Draft};
    ghost use Rattle.rw_model.specs.Kept.{numbers_of, links_of, KeepsBasin};

    ghost Value = { Draft };

    ghost view = { λ b.
        record { control = b.control; objects = b.objects; links = b.links; bounds = b.own } };

    ghost invariant = { λ b.
        KeepsBasin
        (record { control = b.control; objects = b.objects; links = b.links; bounds = b.own })
        (numbers_of b.tables.slots.items) (links_of b.tables.groups.items) b.tables.bounds.items
        b.tables.numbers.items };
}

impl Basin {
    /// Returns the number of objects, 1 to 500.
    pub fn object_count(&self) -> u16
        ensures count { result ≡ length self.now.objects }
        ensures valid { IsBasin self.now }
    {
        self.objects.count()
    }

    /// Returns the number of slots, at most 4000.
    pub fn slot_count(&self) -> u16
        ensures count { result ≡ length (all_slots self.now.objects) }
        ensures valid { IsBasin self.now }
    {
        self.objects.slot_count()
    }

    /// Returns how a run goes: its timesteps, the order of its rules, and its limits.
    pub fn control(&self) -> &RunControl
        ensures { result.now ≡ self.now.control }
    {
        &self.control
    }

    /// Returns the name of an object.
    pub fn object_name(&self, o: ObjectNo) -> &str
        requires { IsObject self.now.objects o.0 }
        ensures { option_map (λ object. object.name) (object_at self.now.objects o.0)
            ≡ Some result.now }
    {
        self.objects.name(o.0)
    }

    /// Returns the kind of an object, with its parameters, which are in range.
    pub fn kind(&self, o: ObjectNo) -> &Kind
        requires { IsObject self.now.objects o.0 }
        ensures kind { option_map (λ object. object.kind) (object_at self.now.objects o.0)
            ≡ Some result.now }
        ensures sound { IsKind result.now }
    {
        self.objects.kind(o.0)
    }

    /// Returns the number of an object's kind, 0 to 9, as `Kind::code` has them.
    pub fn kind_code(&self, o: ObjectNo) -> u8
        requires { IsObject self.now.objects o.0 }
        ensures { option_map (λ object. code_of object.kind)
            (object_at self.now.objects o.0) ≡ Some result }
    {
        self.objects.kind(o.0).code()
    }

    /// Returns the slot of an object in a place, counted from 0. `None` exactly where the object has no slot there.
    #[tactic(auto, using(crate::proofs::Bounding::known_in_place))]
    pub fn slot_at(&self, o: ObjectNo, place: u8) -> Option<SlotNo>
        requires { IsObject self.now.objects o.0 }
        ensures number { option_map (λ slot. slot.0) result
            ≡ slot_in_place self.now.objects o.0 place }
        ensures known { ForSome result (λ slot. IsSlot self.now.objects slot.0) }
    {
        match self.number_at(o, place) {
            Some(number) => Some(SlotNo(number)),
            None => None,
        }
    }

    /// Returns the numbers of an object's slots by place, for the first 12 places. `None` exactly where the object has no slot
    /// there.
    pub fn row(&self, o: ObjectNo) -> &[Option<u16>]
        requires { IsObject self.now.objects o.0 }
        ensures { result.now ≡ map (slot_in_place self.now.objects o.0) (range_with_len 0 12) }
    {
        let first = usize::from(o.0 - 1) * 12;
        &self.tables.numbers[first..first + 12]
    }

    // The number of an object's slot in a place.
    fn number_at(&self, o: ObjectNo, place: u8) -> Option<u16>
        requires { IsObject self.now.objects o.0 }
        ensures { result ≡ slot_in_place self.now.objects o.0 place }
    {
        if place < 12 {
            self.tables.numbers[usize::from(o.0 - 1) * 12 + usize::from(place)]
        } else {
            self.objects.slot_in_place(o.0, place)
        }
    }

    /// Returns the object that owns a slot.
    pub fn owner(&self, s: SlotNo) -> ObjectNo
        requires { IsSlot self.now.objects s.0 }
        ensures owner { option_map (λ placed. placed.owner) (slot_at self.now.objects s.0)
            ≡ Some result.0 }
        ensures known { IsObject self.now.objects result.0 }
    {
        ObjectNo(self.objects.place(s.0).owner)
    }

    /// Returns the name of a slot.
    pub fn slot_name(&self, s: SlotNo) -> &str
        requires { IsSlot self.now.objects s.0 }
        ensures { option_map (λ placed. placed.slot.name) (slot_at self.now.objects s.0)
            ≡ Some result.now }
    {
        self.objects.slot(s.0).name()
    }

    /// Returns what a slot measures: the exponents of m3, mm, timestep and kWh.
    pub fn dim(&self, s: SlotNo) -> Dim
        requires { IsSlot self.now.objects s.0 }
        ensures { option_map (λ placed. placed.slot.dim)
            (slot_at self.now.objects s.0) ≡ Some result }
    {
        self.objects.slot(s.0).dim()
    }

    /// Returns whether inputs and rules can set a slot: all but those that a method derives. `docs/DEFINITIONS.md` has the roles
    /// under "Slots".
    pub fn settable(&self, s: SlotNo) -> bool
        requires { IsSlot self.now.objects s.0 }
        ensures { option_map (λ placed. is_settable placed.slot.role)
            (slot_at self.now.objects s.0) ≡ Some result }
    {
        self.objects.slot(s.0).role() != Role::Derived
    }

    /// Returns the minimum and the maximum of a slot, in the base units of its dimension: what the bounds of all slots of its
    /// link leave. They are ordered, and within the widest bounds that the slot can have.
    pub fn bounds(&self, s: SlotNo) -> (i64, i64)
        requires { IsSlot self.now.objects s.0 }
        ensures bounds { result ≡ bounds_in self.now.objects self.now.links self.now.bounds s.0 }
        ensures widest { IsWithinWidest self.now.objects s.0 result }
        ensures quantities { IsInside result all_quantities }
    {
        self.tables.bounds[usize::from(s.0) - 1]
    }

    /// Returns the slots that carry one value with a slot, rising, itself included.
    pub fn group(&self, s: SlotNo) -> &[SlotNo]
        requires { IsSlot self.now.objects s.0 }
        ensures group { numbers_of result.now ≡ group_of self.now.objects self.now.links s.0 }
        ensures known { All (λ (slot : SlotNo). IsSlot self.now.objects slot.0) result.now }
    {
        match self.links.place(s.0) {
            Some(place) => self.tables.groups[place].as_slice(),
            None => std::slice::from_ref(&self.tables.slots[usize::from(s.0) - 1]),
        }
    }

    /// Returns the slot with this name, of the object with that name. `None` exactly where there is no such object, or where it
    /// has no such slot.
    #[tactic(auto, using(crate::proofs::Bounding::known_by_name))]
    pub fn find_slot(&self, object: &str, slot: &str) -> Option<SlotNo>
        ensures number { option_map (λ number. number.0) result
            ≡ slot_named self.now.objects object.now slot.now }
        ensures known { ForSome result (λ number. IsSlot self.now.objects number.0) }
    {
        match self.objects.find_slot(object, slot) {
            Some(number) => Some(SlotNo(number)),
            None => None,
        }
    }

    /// Returns the value of a slot at a timestep before the run, of which step 0 is the last one: Storage and Content at step 0,
    /// in m3; PoolElevation at step 0, in mm; and the Inflow of a lagged reach at the steps of its history, in m3/step. `None`
    /// elsewhere. `docs/DEFINITIONS.md` has it under "Slots".
    pub fn before(&self, s: SlotNo, step: i64) -> Option<Qty>
        requires { IsSlot self.now.objects s.0 }
        ensures { result ≡ before_of self.now.objects s.0 step }
    {
        let place = self.objects.place(s.0);
        match before_in(self.objects.kind(place.owner), place.place, step) {
            Some(value) => Qty::of(value),
            None => None,
        }
    }
}
