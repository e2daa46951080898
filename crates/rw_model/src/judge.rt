//! Decides whether an object, a link or bounds can be added to a basin, and finds the first fault.
ghost use Rattle.std.specs.Prelude.{◌≡◌, ◌↔◌, ◌≤◌, ◌&&◌, ℕ, List, [], ◌∷◌, ◌++◌, length, All, None};
ghost use Rattle.std.specs.Ordering.{int_eq};
ghost use Rattle.rw_base.specs.Answers.{Finds};
ghost use Rattle.rw_model.specs.Slots.{slots_of};
ghost use Rattle.rw_model.specs.Objects.{placed_from, slot_at};
ghost use Rattle.rw_model.specs.Links.{is_same_dim, measures_alike, shares_owner, link_of, join_refusal, link_refusal};
ghost use Rattle.rw_model.specs.Kept.{numbers_of};
ghost use Rattle.rw_model.specs.Draft.{has_slot_named, has_distinct_names, has_distinct_slots, CanAdd, IsSlot};
ghost use Rattle.rw_model.specs.Kind.{IsKind};
ghost use Rattle.rw_model.specs.Refusal.{build_refusal_of};
ghost use Rattle.rw_model.specs.Build.{size_refusal, object_refusal, is_allowed, bound_refusal};

use crate::limits::{LINK_MAX, OBJECTS_MAX, SLOTS_MAX};
use crate::links::Links;
use crate::objects::Objects;
use crate::own_bounds::OwnBounds;
use crate::place::count_places;
use crate::{BuildFault, DataSlot, Kind, is_kind, is_name};
use rw_base::{Dim, SlotNo};

fn has_slot_named(name: &str, slots: &[DataSlot]) -> bool
    ensures { result ≡ has_slot_named name.now slots.now }
{
    for slot in slots {
        if name == slot.name.as_str() {
            return true;
        }
    }
    false
}

fn has_distinct_names(slots: &[DataSlot]) -> bool
    ensures { result ≡ has_distinct_names slots.now }
{
    for (place, slot) in slots.iter().enumerate() {
        if has_slot_named(slot.name.as_str(), &slots[place + 1..]) {
            return false;
        }
    }
    true
}

fn has_distinct_slots(kind: &Kind) -> bool
    ensures { result ≡ has_distinct_slots kind.now }
{
    match kind {
        Kind::DataObject { slots } => has_distinct_names(slots.as_slice()),
        _ => true,
    }
}

// What is wrong with the numbers of objects and slots, with one object more.
fn judge_size(objects: &Objects, kind: &Kind) -> Option<BuildFault>
    requires { IsKind kind.now }
    ensures { (name : List ℕ) → Finds build_refusal_of result
        (size_refusal (objects.now ++ record { name = name; kind = kind.now } ∷ [])) }
{
    let owner = objects.count() + 1;
    if owner > OBJECTS_MAX {
        return Some(BuildFault::TooMany(u32::from(OBJECTS_MAX)));
    }
    if objects.slot_count() + count_places(kind, owner) > SLOTS_MAX {
        return Some(BuildFault::TooMany(u32::from(SLOTS_MAX)));
    }
    None
}

/// Returns what is wrong with an object that is to be added; `None` where nothing is.
pub(crate) fn judge_object(objects: &Objects, name: &str, kind: &Kind) -> Option<BuildFault>
    ensures fault { Finds build_refusal_of result
        (object_refusal objects.now (record { name = name.now; kind = kind.now })) }
    ensures can_add { result ≡ None
        → CanAdd objects.now (record { name = name.now; kind = kind.now }) }
{
    if !is_name(name) || !is_kind(kind) {
        return Some(BuildFault::BadParameter);
    }
    if objects.find(name).is_some() || !has_distinct_slots(kind) {
        return Some(BuildFault::DuplicateName);
    }
    judge_size(objects, kind)
}

// Whether the bounds are ordered, and within the widest that the slot can have.
fn is_within_widest(objects: &Objects, slot: u16, bounds: (i64, i64)) -> bool
    requires { IsSlot objects.now slot }
    ensures { result ≡ is_allowed (slot_at objects.now slot) bounds }
{
    objects.slot(slot).allows(bounds)
}

/// Returns what is wrong with bounds that a slot is to have as its own; `None` where nothing is.
pub(crate) fn judge_bound(
    objects: &Objects,
    own: &OwnBounds,
    slot: u16,
    bounds: (i64, i64),
) -> Option<BuildFault>
    ensures { Finds build_refusal_of result (bound_refusal objects.now own.now slot bounds) }
{
    if slot == 0 || slot > objects.slot_count() {
        return Some(BuildFault::UnknownSlot);
    }
    if own.get(slot).is_some() {
        return Some(BuildFault::DuplicateName);
    }
    if !is_within_widest(objects, slot, bounds) {
        return Some(BuildFault::BadParameter);
    }
    None
}

// Whether an object of one of the slots is that of the slot.
fn shares_owner(objects: &Objects, slot: u16, before: &[SlotNo]) -> bool
    requires slot { IsSlot objects.now slot }
    requires before { All (λ (other : SlotNo). IsSlot objects.now other.0) before.now }
    ensures { result ≡ shares_owner objects.now slot (numbers_of before.now) }
{
    let owner = objects.owner(slot);
    for other in before {
        if owner == objects.owner(other.0) {
            return true;
        }
    }
    false
}

// Whether the slot measures what the first of the others does.
fn is_alike(objects: &Objects, slot: u16, before: &[SlotNo]) -> bool
    requires slot { IsSlot objects.now slot }
    requires before { All (λ (other : SlotNo). IsSlot objects.now other.0) before.now }
    ensures { result ≡ measures_alike objects.now slot (numbers_of before.now) }
{
    match before.first() {
        Some(first) => is_same_dim(objects.dim(first.0), objects.dim(slot)),
        None => true,
    }
}

fn is_same_step_and_energy(a: Dim, b: Dim) -> bool
    ensures { result ≡ (int_eq a.step b.step && int_eq a.energy b.energy) }
{
    a.step == b.step && a.energy == b.energy
}

fn is_same_dim(a: Dim, b: Dim) -> bool
    ensures { result ≡ is_same_dim a b }
{
    a.volume == b.volume && a.length == b.length && is_same_step_and_energy(a, b)
}

// What is wrong with a slot that a link names after others.
fn join_fault(objects: &Objects, links: &Links, before: &[SlotNo], slot: u16) -> Option<BuildFault>
    requires { All (λ (other : SlotNo). IsSlot objects.now other.0) before.now }
    ensures fault { Finds build_refusal_of result
        (join_refusal objects.now links.now (numbers_of before.now) slot) }
    ensures known { result ≡ None → IsSlot objects.now slot }
    ensures free { result ≡ None → link_of links.now slot ≡ None }
{
    if slot == 0 || slot > objects.slot_count() {
        return Some(BuildFault::UnknownSlot);
    }
    if links.place(slot).is_some() {
        return Some(BuildFault::LinkedTwice);
    }
    if shares_owner(objects, slot, before) {
        return Some(BuildFault::LinkWithinObject);
    }
    if is_alike(objects, slot, before) {
        None
    } else {
        Some(BuildFault::LinkDimension)
    }
}

/// Returns what is wrong with a link; `None` where nothing is.
pub(crate) fn judge_link(objects: &Objects, links: &Links, slots: &[SlotNo]) -> Option<BuildFault>
    ensures fault { Finds build_refusal_of result
        (link_refusal objects.now links.now (numbers_of slots.now)) }
    ensures known { result ≡ None → All (λ (slot : SlotNo). IsSlot objects.now slot.0) slots.now }
    ensures free { result ≡ None
        → All (λ (slot : SlotNo). link_of links.now slot.0 ≡ None) slots.now }
{
    if slots.len() < 2 || slots.len() > LINK_MAX {
        return Some(BuildFault::BadParameter);
    }
    for (place, slot) in slots.iter().enumerate() {
        if let Some(fault) = join_fault(objects, links, &slots[..place], slot.0) {
            return Some(fault);
        }
    }
    None
}
