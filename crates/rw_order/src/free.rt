//! Decides whether the order of dispatches is free in a basin.
ghost use Rattle.std.specs.Prelude.{◌≡◌, ◌==◌, ◌&&◌, ◌||◌, not};
ghost use Rattle.std.specs.List.{list_all};
ghost use Rattle.rw_model.specs.Draft.{IsObject, IsSlot};
ghost use Rattle.rw_model.specs.Objects.{Object, slot_in_place};
ghost use Rattle.rw_run.specs.Log.{is_number};
ghost use Rattle.rw_order.specs.Free.{has_level_in, has_other_level, is_level, joins_levels, is_free, order_free};

use rw_base::{ObjectNo, SlotNo};
use rw_method::places::{POOL_ELEVATION, STORAGE};
use rw_model::{Basin, Kind};

/// Returns whether the order of dispatches is free in a basin: no canal loses water, there is no power reservoir and no routed
/// reach, and no link joins a Storage or a PoolElevation of two reservoirs. Where it is, every order settles where one does, with
/// the same values (law `any_order`). No memory is taken.
pub fn order_free(basin: &Basin) -> bool
    ensures { result ≡ order_free basin.now }
{
    all_are_free(basin) && !joins_levels(basin)
}

// Whether its terms are solved alike in any order.
fn is_free(kind: &Kind) -> bool
    ensures { result ≡ is_free kind.now }
{
    match kind {
        Kind::Canal { seepage } => *seepage == 0,
        Kind::PowerReservoir { .. } | Kind::RoutedReach { .. } => false,
        _ => true,
    }
}

// Whether each object is of a kind that is free.
#[tactic(auto, using(crate::proofs::Searching::keeps_on, crate::proofs::Searching::loses, crate::proofs::Searching::all_keep))]
fn all_are_free(basin: &Basin) -> bool
    ensures { result ≡ list_all (λ (object : Object). is_free object.kind) basin.now.objects }
{
    for before in 0..basin.object_count() {
        if !is_free(basin.kind(ObjectNo(before + 1))) {
            return false;
        }
    }
    true
}

// Whether a kind is that of a reservoir.
fn is_reservoir(kind: &Kind) -> bool
    ensures { result ≡ has_level_in 2 kind.now }
{
    match kind {
        Kind::Reservoir { .. } => true,
        _ => false,
    }
}

// Whether an object has the slot in a place.
fn is_in_place(basin: &Basin, object: ObjectNo, place: u8, slot: SlotNo) -> bool
    requires { IsObject basin.now.objects object.0 }
    ensures { result ≡ is_number slot.0 (slot_in_place basin.now.objects object.0 place) }
{
    match basin.slot_at(object, place) {
        Some(found) => found.0 == slot.0,
        None => false,
    }
}

// Whether a slot is a level, by its owner and whether it is the owner's Storage or PoolElevation.
fn is_either(reservoir: bool, storage: bool, elevation: bool) -> bool
    ensures { result ≡ (reservoir && (storage || elevation)) }
{
    if !reservoir {
        return false;
    }
    storage || elevation
}

// Whether a slot is a reservoir's Storage or PoolElevation.
fn is_level(basin: &Basin, slot: SlotNo) -> bool
    requires { IsSlot basin.now.objects slot.0 }
    ensures { result ≡ is_level basin.now.objects slot.0 }
{
    let owner = basin.owner(slot);
    let reservoir = is_reservoir(basin.kind(owner));
    let storage = is_in_place(basin, owner, STORAGE, slot);
    let elevation = is_in_place(basin, owner, POOL_ELEVATION, slot);
    is_either(reservoir, storage, elevation)
}

// Whether a slot is a level, and another one than this.
fn is_other_level(basin: &Basin, other: SlotNo, slot: SlotNo) -> bool
    requires { IsSlot basin.now.objects other.0 }
    ensures { result ≡ (not (other.0 == slot.0) && is_level basin.now.objects other.0) }
{
    if other.0 == slot.0 {
        return false;
    }
    is_level(basin, other)
}

// Whether another level carries one value with a slot.
fn has_other_level(basin: &Basin, slot: SlotNo) -> bool
    requires { IsSlot basin.now.objects slot.0 }
    ensures { result ≡ has_other_level basin.now slot.0 }
{
    let group = basin.group(slot);
    for other in group {
        if is_other_level(basin, *other, slot) {
            return true;
        }
    }
    false
}

// Whether a slot is a level that a link joins to another one.
fn is_joined(basin: &Basin, slot: SlotNo) -> bool
    requires { IsSlot basin.now.objects slot.0 }
    ensures { result ≡ (is_level basin.now.objects slot.0 && has_other_level basin.now slot.0) }
{
    if is_level(basin, slot) {
        has_other_level(basin, slot)
    } else {
        false
    }
}

// Whether a link joins levels.
fn joins_levels(basin: &Basin) -> bool
    ensures { result ≡ joins_levels basin.now }
{
    for before in 0..basin.slot_count() {
        if is_joined(basin, SlotNo(before + 1)) {
            return true;
        }
    }
    false
}
