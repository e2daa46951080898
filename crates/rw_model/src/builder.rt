//! Builds a basin from objects, links and bounds, and refuses those that a basin cannot have.
ghost use Rattle.std.specs.Prelude.{◌≡◌, ◌+◌, [], ◌∷◌, ◌++◌, length, None, OnOk, OnErr, IfOk, IfErr, IsOk, IsErrOf, option_map};
ghost use Rattle.rw_base.specs.Answers.{Answers, Finds};
ghost use Rattle.rw_model.specs.Objects.{slot_named};
ghost use Rattle.rw_model.specs.Basin.{IsDraft, IsBasin, finish_refusal};
ghost use Rattle.rw_model.specs.Kept.{numbers_of, links_of, KeepsBasin};
ghost use Rattle.rw_model.specs.Draft.{IsControl};
ghost use Rattle.rw_model.specs.Refusal.{build_refusal_of};
ghost use Rattle.rw_model.specs.Build.{with_object, with_link, with_bound, finished};

use crate::basin::Basin;
use crate::bounds::has_crossed_bounds;
use crate::judge::{judge_bound, judge_link, judge_object};
use crate::limits::CELLS_MAX;
use crate::links::Links;
use crate::lookups::Tables;
use crate::objects::Objects;
use crate::own_bounds::OwnBounds;
use crate::{BuildFault, Kind, RunControl};
use rw_base::{ObjectNo, SlotNo};
use std::alloc::Global;
use std::marker::Model;

/// A basin in the making, seen as what it was told so far.
#[derive(Drop)]
pub struct BasinBuilder {
    alloc: Global,
    control: RunControl,
    objects: Objects,
    links: Links,
    bounds: OwnBounds,
}

impl Model for BasinBuilder {
    ghost use Rattle.rw_model.specs.Draft.{Draft};
    ghost use Rattle.rw_model.specs.Basin.{IsDraft};

    ghost Value = { Draft };

    ghost view = { λ b.
        record { control = b.control; objects = b.objects; links = b.links; bounds = b.bounds } };

    ghost invariant = { λ b.
        IsDraft
        (record { control = b.control; objects = b.objects; links = b.links; bounds = b.bounds }) };
}

impl BasinBuilder {
    /// Returns a builder of a basin with no object yet. `BadParameter` exactly where the limit of an object is not 16 to 100,
    /// that of a rule not 1 to 100, or rules may put neither 0 nor 30 timesteps ahead. No other fault comes.
    pub fn begin(alloc: Global, control: RunControl) -> Result<BasinBuilder, BuildFault>
        ensures begun { IfOk result
            (λ builder.
            builder ≡ record { control = control; objects = []; links = []; bounds = [] }) }
        ensures in_range { OnOk result (IsControl control) }
        ensures refused { IfErr result
            (λ fault. (fault ≡ BuildFault.BadParameter) × ¬ IsControl control) }
    {
        let _steps = control.stamps.count();
        let objects = 16..=100;
        let rules = 1..=100;
        if !objects.contains(&control.object_limit) || !rules.contains(&control.rule_limit) {
            return Err(BuildFault::BadParameter);
        }
        if control.ahead != 0 && control.ahead != 30 {
            return Err(BuildFault::BadParameter);
        }
        Ok(BasinBuilder {
            alloc,
            control,
            objects: Objects::new(alloc),
            links: Links::new(alloc),
            bounds: OwnBounds::new(alloc),
        })
    }

    /// Adds an object, and returns its number. Its slots are numbered after those of the objects before it.
    ///
    /// `BadParameter` comes where the name or a parameter of the kind is out of range, else `DuplicateName` where another object
    /// has the name or two slots of a data object have the same, else `TooMany` with 500 for objects and 4000 for slots.
    /// `NoMemory` comes only where none of these holds. After each of them the builder is as it was.
    pub fn object(&mut self, name: &str, kind: Kind) -> Result<ObjectNo, BuildFault>
        ensures number { IfOk result (λ object. object.0 ≡ length self.new.objects) }
        ensures answers { Answers BuildFault.NoMemory build_refusal_of (λ _. self.new) result
            (with_object self.old (record { name = name.now; kind = kind })) }
        ensures memory { IsErrOf result BuildFault.NoMemory
            → IsOk (with_object self.old (record { name = name.now; kind = kind })) }
        ensures unchanged { OnErr result (self.new ≡ self.old) }
    {
        if let Some(fault) = judge_object(&self.objects, name, &kind) {
            return Err(fault);
        }
        let number = self.objects.count() + 1;
        match self.objects.add(name, kind) {
            Ok(()) => Ok(ObjectNo(number)),
            Err(_) => Err(BuildFault::NoMemory),
        }
    }

    /// Links slots, which then carry one value: 2 to 8 slots of different objects, which all measure the same.
    ///
    /// `BadParameter` comes where there are fewer than 2 slots or more than 8. Then slot by slot, `UnknownSlot` comes where no
    /// slot has the number, else `LinkedTwice` where an earlier link has the slot, else `LinkWithinObject` where an earlier slot
    /// of this link is of the same object, else `LinkDimension` where it does not measure what the first one does. `NoMemory`
    /// comes only where none of these holds. After each of them the builder is as it was.
    pub fn link(&mut self, slots: &[SlotNo]) -> Result<(), BuildFault>
        ensures answers { Answers BuildFault.NoMemory build_refusal_of (λ _. self.new) result
            (with_link self.old (numbers_of slots.now)) }
        ensures memory { IsErrOf result BuildFault.NoMemory
            → IsOk (with_link self.old (numbers_of slots.now)) }
        ensures unchanged { OnErr result (self.new ≡ self.old) }
    {
        if let Some(fault) = judge_link(&self.objects, &self.links, slots) {
            return Err(fault);
        }
        match self.links.add(slots, self.objects.slot_count()) {
            Ok(()) => Ok(()),
            Err(_) => Err(BuildFault::NoMemory),
        }
    }

    /// Gives a slot bounds of its own, in the base units of its dimension.
    ///
    /// `UnknownSlot` comes where no slot has the number, else `DuplicateName` where the slot has bounds already, else
    /// `BadParameter` where the minimum is above the maximum or one is outside the widest bounds that the slot can have.
    /// `NoMemory` comes only where none of these holds. After each of them the builder is as it was.
    pub fn bound(&mut self, slot: SlotNo, min: i64, max: i64) -> Result<(), BuildFault>
        ensures answers { Answers BuildFault.NoMemory build_refusal_of (λ _. self.new) result
            (with_bound self.old slot.0 (min, max)) }
        ensures memory { IsErrOf result BuildFault.NoMemory
            → IsOk (with_bound self.old slot.0 (min, max)) }
        ensures unchanged { OnErr result (self.new ≡ self.old) }
    {
        self.give(slot.0, (min, max))
    }

    // Gives the slot of this number bounds of its own.
    fn give(&mut self, slot: u16, bounds: (i64, i64)) -> Result<(), BuildFault>
        ensures answers { Answers BuildFault.NoMemory build_refusal_of (λ _. self.new) result
            (with_bound self.old slot bounds) }
        ensures memory { IsErrOf result BuildFault.NoMemory
            → IsOk (with_bound self.old slot bounds) }
        ensures unchanged { OnErr result (self.new ≡ self.old) }
    {
        if let Some(fault) = judge_bound(&self.objects, &self.bounds, slot, bounds) {
            return Err(fault);
        }
        match self.bounds.add(slot, bounds) {
            Ok(()) => Ok(()),
            Err(_) => Err(BuildFault::NoMemory),
        }
    }

    /// Returns the basin of what was told.
    ///
    /// `BadParameter` comes where there is no object, else `TooMany` with 1000000 where the slots have more values over all
    /// timesteps, else `LinkBounds` where the bounds of linked slots leave them no value. `NoMemory` comes only where none of
    /// these holds. After each of them what was told is dropped. `docs/FORMATS.md` has all that is refused under "What is wrong".
    pub fn finish(self) -> Result<Basin, BuildFault>
        ensures answers { Answers BuildFault.NoMemory build_refusal_of (λ basin. basin) result
            (finished self) }
        ensures valid { OnOk result (IsBasin self) }
        ensures memory { IsErrOf result BuildFault.NoMemory → IsOk (finished self) }
    {
        match self.tables() {
            Ok(tables) => Ok(Basin {
                control: self.control,
                objects: self.objects,
                links: self.links,
                own: self.bounds,
                tables,
            }),
            Err(fault) => Err(fault),
        }
    }

    // Why what was told is no basin.
    fn judge_finish(&self) -> Option<BuildFault>
        ensures fault { Finds build_refusal_of result (finish_refusal self.now) }
        ensures told { IsDraft self.now }
    {
        if self.objects.count() == 0 {
            return Some(BuildFault::BadParameter);
        }
        let cells = u32::from(self.objects.slot_count()) * u32::from(self.control.stamps.count());
        if cells > CELLS_MAX {
            return Some(BuildFault::TooMany(CELLS_MAX));
        }
        if has_crossed_bounds(&self.objects, &self.links, &self.bounds) {
            return Some(BuildFault::LinkBounds);
        }
        None
    }

    // What a basin of what was told keeps besides.
    fn tables(&self) -> Result<Tables, BuildFault>
        ensures answers { Answers BuildFault.NoMemory build_refusal_of (λ _. self.now) result
            (finished self.now) }
        ensures memory { IsErrOf result BuildFault.NoMemory → IsOk (finished self.now) }
        ensures kept { IfOk result (λ tables. KeepsBasin self.now (numbers_of tables.slots.items)
            (links_of tables.groups.items) tables.bounds.items tables.numbers.items) }
    {
        if let Some(fault) = self.judge_finish() {
            return Err(fault);
        }
        match Tables::of(self.alloc, &self.objects, &self.links, &self.bounds) {
            Ok(tables) => Ok(tables),
            Err(_) => Err(BuildFault::NoMemory),
        }
    }

    /// Returns the slot with this name, of the object with that name. `None` exactly where there is no such object, or where it
    /// has no such slot.
    pub fn find_slot(&self, object: &str, slot: &str) -> Option<SlotNo>
        ensures { option_map (λ number. number.0) result
            ≡ slot_named self.now.objects object.now slot.now }
    {
        match self.objects.find_slot(object, slot) {
            Some(number) => Some(SlotNo(number)),
            None => None,
        }
    }
}
