//! Collects the objects that own the slots which writes reach.
ghost use Rattle.std.specs.Prelude.{◌≡◌, ◌≤◌, ◌<◌, ◌==◌, ◌||◌, ◌++◌, ◌∷◌, [], ℕ, Bool, All, false, List, Option, length, option_map};
ghost use Rattle.rw_model.specs.Draft.{IsObject, IsSlot};
ghost use Rattle.rw_model.specs.Links.{owner_of};
ghost use Rattle.rw_model.specs.Kept.{numbers_of};
ghost use Rattle.rw_model.specs.Turn.{is_data};
ghost use Rattle.rw_run.specs.Waiting.{is_at, is_but, is_owner, slots_at};
ghost use Rattle.rw_dispatch.specs.Writes.{AreWrites, CanWrite};
ghost use Rattle.rw_dispatch.specs.Owners.{HasReached, has_object_mark};

use rw_base::{ObjectNo, SlotNo, StepNo, has_bit, set_bit};
use rw_model::Basin;
use rw_run::Write;

/// Returns whether an object only keeps data.
pub(crate) fn is_data(basin: &Basin, object: ObjectNo) -> bool
    requires { IsObject basin.now.objects object.0 }
    ensures { result ≡ is_data basin.now object.0 }
{
    basin.kind_code(object) == 0
}

/// The objects that are reached: a bit for each, that of object 1 first, how many objects are before all of them, and the last
/// one. Both numbers have 32 bits: one of 16 would be read together with the other, and wait until both are written.
#[derive(Drop)]
pub(crate) struct Reached {
    pub(crate) marks: [u64; 8],
    pub(crate) before: u32,
    pub(crate) last: u32,
}

impl Reached {
    /// Returns the set of no objects.
    pub(crate) fn none() -> Reached
        ensures { (but : Option ℕ) → HasReached but (λ object. false) result }
    {
        Reached {
            marks: [0; 8],
            before: u32::MAX,
            last: 0,
        }
    }
}

/// Returns whether an object is reached.
pub(crate) fn has_mark(reached: &Reached, object: u16) -> bool
    requires first { 1 ≤ object }
    requires last { object ≤ 500 }
    ensures { result ≡ has_object_mark reached.now.marks object }
{
    has_bit(&reached.marks, object - 1)
}

/// Returns the smaller of two numbers.
pub(crate) fn lesser(one: u32, other: u32) -> u32
    ensures one { result ≤ one }
    ensures other { result ≤ other }
    ensures least { (bound : ℕ) → bound ≤ one → bound ≤ other → bound ≤ result }
{
    if one < other { one } else { other }
}

fn greater(one: u32, other: u32) -> u32
    ensures one { one ≤ result }
    ensures other { other ≤ result }
{
    if one < other { other } else { one }
}

/// Returns whether this object is left out.
pub(crate) fn is_but(but: Option<ObjectNo>, object: u16) -> bool
    ensures { result ≡ is_but (option_map (λ other. other.0) but) object }
{
    match but {
        None => false,
        Some(other) => other.0 == object,
    }
}

// One object more is reached, unless it is left out.
fn reach(reached: &mut Reached, but: Option<ObjectNo>, object: u16)
    requires first { 1 ≤ object }
    requires last { object ≤ 500 }
    ensures { (seen : ℕ → Bool)
        → HasReached (option_map (λ other. other.0) but) seen reached.old
        → HasReached (option_map (λ other. other.0) but) (λ other. object == other || seen other)
        reached.new }
{
    if is_but(but, object) {
        return;
    }
    set_bit(&mut reached.marks, object - 1);
    reached.before = lesser(reached.before, u32::from(object - 1));
    reached.last = greater(reached.last, u32::from(object));
}

// The number of the object that owns a slot.
fn owner_of(basin: &Basin, slot: SlotNo) -> u16
    requires { IsSlot basin.now.objects slot.0 }
    ensures owner { result ≡ owner_of basin.now.objects slot.0 }
    ensures first { 1 ≤ result }
    ensures last { result ≤ 500 }
{
    let _objects = basin.object_count();
    basin.owner(slot).0
}

// The owners of the slots in a slot's group are reached.
fn reach_group(reached: &mut Reached, basin: &Basin, but: Option<ObjectNo>, slot: SlotNo)
    requires { IsSlot basin.now.objects slot.0 }
    ensures { (seen : ℕ → Bool)
        → HasReached (option_map (λ other. other.0) but) seen reached.old
        → HasReached (option_map (λ other. other.0) but)
        (λ object. is_at basin.now object slot.0 || seen object) reached.new }
{
    let group = basin.group(slot);
    for other in group {
        reach(reached, but, owner_of(basin, *other));
    }
}

/// Adds the owners that these slots reach.
pub(crate) fn reach_slots(
    reached: &mut Reached,
    basin: &Basin,
    but: Option<ObjectNo>,
    slots: &[SlotNo],
)
    requires slots { All (λ (slot : SlotNo). IsSlot basin.now.objects slot.0) slots.now }
    requires none { HasReached (option_map (λ other. other.0) but) (λ object. false) reached.old }
    ensures { HasReached (option_map (λ other. other.0) but)
        (is_owner basin.now (numbers_of slots.now)) reached.new }
{
    for slot in slots {
        reach_group(reached, basin, but, *slot);
    }
}

// The owners are reached that a write at the timestep reaches.
fn reach_write(
    reached: &mut Reached,
    basin: &Basin,
    but: Option<ObjectNo>,
    step: StepNo,
    write: &Write,
)
    requires { CanWrite basin.now write.now }
    ensures { (slots : List ℕ)
        → HasReached (option_map (λ other. other.0) but) (is_owner basin.now slots) reached.old
        → HasReached (option_map (λ other. other.0) but)
        (is_owner basin.now (slots_at step.0 (write.now ∷ []) ++ slots)) reached.new }
{
    if write.cell.step.0 == step.0 {
        reach_group(reached, basin, but, write.cell.slot);
    }
}

/// Adds the owners that what is written at a timestep reaches.
#[inline(always)]
pub(crate) fn reach_writes(
    reached: &mut Reached,
    basin: &Basin,
    but: Option<ObjectNo>,
    step: StepNo,
    writes: &[Write],
)
    requires can { AreWrites basin.now writes.now }
    requires none { HasReached (option_map (λ other. other.0) but) (λ object. false) reached.old }
    ensures { HasReached (option_map (λ other. other.0) but)
        (is_owner basin.now (slots_at step.0 writes.now)) reached.new }
{
    for write in writes {
        reach_write(reached, basin, but, step, write);
    }
}
