//! Computes the bounds of each slot, as those of all slots of its link leave them.
ghost use Rattle.std.specs.Prelude.{◌≡◌, All, map, IfOk};
ghost use Rattle.std.specs.List.{list_any};
ghost use Rattle.rw_model.specs.Draft.{IsSlot};
ghost use Rattle.rw_model.specs.Links.{slot_numbers, own_bounds, meet, meet_all, bounds_in};
ghost use Rattle.rw_model.specs.Basin.{IsLink, is_crossed};
ghost use Rattle.rw_model.specs.Kept.{numbers_of};

use crate::links::Links;
use crate::objects::Objects;
use crate::own_bounds::OwnBounds;
use rw_base::{NoMemory, SlotNo};
use std::alloc::Global;

// The bounds of its own that the slot has, and its usual ones where it has none.
fn own_bounds(objects: &Objects, own: &OwnBounds, slot: u16) -> (i64, i64)
    requires { IsSlot objects.now slot }
    ensures { result ≡ own_bounds objects.now own.now slot }
{
    match own.get(slot) {
        Some(bounds) => bounds,
        None => objects.slot(slot).usual(),
    }
}

// What is between both.
fn meet(a: (i64, i64), b: (i64, i64)) -> (i64, i64)
    ensures { result ≡ meet a b }
{
    (a.0.max(b.0), a.1.min(b.1))
}

// What is between these bounds, and between those of each of the slots.
fn meet_all(objects: &Objects, own: &OwnBounds, bounds: (i64, i64), slots: &[SlotNo]) -> (i64, i64)
    requires { All (λ (slot : SlotNo). IsSlot objects.now slot.0) slots.now }
    ensures { result ≡ meet_all objects.now own.now bounds (numbers_of slots.now) }
{
    let mut met = bounds;
    for slot in slots {
        met = meet(met, own_bounds(objects, own, slot.0));
    }
    met
}

// The values that a slot can have, which all slots of its link can have.
fn bounds_in(objects: &Objects, links: &Links, own: &OwnBounds, slot: u16) -> (i64, i64)
    requires slot { IsSlot objects.now slot }
    requires links { All (IsLink objects.now) links.now }
    ensures { result ≡ bounds_in objects.now links.now own.now slot }
{
    let first = own_bounds(objects, own, slot);
    meet_all(objects, own, first, links.with(slot))
}

fn is_crossed(bounds: (i64, i64)) -> bool
    ensures { result ≡ is_crossed bounds }
{
    bounds.1 < bounds.0
}

/// Returns whether there is a slot that can have no value.
pub(crate) fn has_crossed_bounds(objects: &Objects, links: &Links, own: &OwnBounds) -> bool
    requires { All (IsLink objects.now) links.now }
    ensures { result
        ≡ list_any (λ slot. is_crossed (bounds_in objects.now links.now own.now slot))
        (slot_numbers objects.now) }
{
    for before in 0..objects.slot_count() {
        let bounds = bounds_in(objects, links, own, before + 1);
        if is_crossed(bounds) {
            return true;
        }
    }
    false
}

/// Returns the bounds between which the values of each slot are, in the order of the slots.
pub(crate) fn all_bounds(
    alloc: Global,
    objects: &Objects,
    links: &Links,
    own: &OwnBounds,
) -> Result<Vec<(i64, i64)>, NoMemory>
    requires { All (IsLink objects.now) links.now }
    ensures { IfOk result
        (λ bounds.
        bounds.items ≡ map (bounds_in objects.now links.now own.now) (slot_numbers objects.now)) }
{
    let mut all = Vec::new(alloc);
    for before in 0..objects.slot_count() {
        all.push(bounds_in(objects, links, own, before + 1))?;
    }
    Ok(all)
}
