//! Proves what the definitions of this crate mean in plain words. Each law is the `ensures` of a function that does nothing.
ghost use Rattle.std.specs.Prelude.{◌≡◌, ◌<◌, ◌≤◌, ◌↔◌, IsTrue, ℕ, ℤ, List, [], ◌∷◌, All, Contains, IsSome, None, Some};
ghost use Rattle.rw_model.specs.declared.content.Content.{Content};
ghost use Rattle.rw_model.specs.declared.put.PutEnd.TheVariants as PutEnd;
ghost use Rattle.rw_model.specs.declared.writer.Writer.TheVariants as Writer;
ghost use Rattle.rw_model.specs.Objects.{Object, object_named, slot_at, slot_named};
ghost use Rattle.rw_model.specs.Draft.{Draft, Bound, IsSound, IsFresh, CanAdd, IsSlot, IsWithinWidest, CanBound};
ghost use Rattle.rw_model.specs.Links.{link_of, link_refusal, group_of, own_bounds, linked_with, bounds_in, IsBetween};
ghost use Rattle.rw_model.specs.Basin.{IsLink, IsDraft, IsBasin, finish_refusal};
ghost use Rattle.rw_model.specs.Slot.{Bounds};
ghost use Rattle.rw_model.specs.declared.kind.Kind.{Kind};
ghost use Rattle.rw_model.specs.Name.{IsName, IsPlain, is_name, is_plain};
ghost use Rattle.rw_model.specs.Kind.{IsKind, is_kind};
ghost use Rattle.rw_model.specs.Build.{is_sound, is_fresh, is_allowed, object_refusal, bound_refusal};
ghost use Rattle.rw_model.specs.Put.{end_of_put, IsSameObject};
ghost use Rattle.rw_model.specs.declared.limits.TheConstants.{CELLS_MAX, DATA_SLOTS_MAX, LAG_MAX, LINK_MAX, NAME_MAX, OBJECTS_MAX, PARTS, POWER_MAX, SEEPAGE_MAX, SLOTS_MAX};

/// The put rules, in their order. An unknown cell is written. The held value of a priority that isn't higher is
/// kept. Another put to a value of priority 0 is written where the object that wrote the value puts it, and otherwise
/// denied. Any other put is written where its priority isn't lower than the held one, and otherwise denied.
pub fn put_rules()
    ensures unknown { (new : Content) → end_of_put None new ≡ PutEnd.Written }
    ensures kept { (held new : Content)
        → held.value ≡ new.value → held.number ≤ new.number
        → end_of_put (Some held) new ≡ PutEnd.Kept }

    ensures own { (held new : Content) → (held.value ≡ new.value → new.number < held.number)
        → held.number ≡ 0 → IsSameObject held.writer new.writer
        → end_of_put (Some held) new ≡ PutEnd.Written }
    ensures given { (held new : Content) → (held.value ≡ new.value → new.number < held.number)
        → held.number ≡ 0 → ¬ IsSameObject held.writer new.writer
        → end_of_put (Some held) new ≡ PutEnd.Denied held }

    ensures higher { (held new : Content) → (held.value ≡ new.value → new.number < held.number)
        → 0 < held.number → new.number ≤ held.number → end_of_put (Some held) new ≡ PutEnd.Written }
    ensures lower { (held new : Content) → (held.value ≡ new.value → new.number < held.number)
        → 0 < held.number → held.number < new.number
        → end_of_put (Some held) new ≡ PutEnd.Denied held }
{}

/// The tests of names and objects pass exactly where their words hold, and that of bounds where a slot can have them.
pub fn tests_and_words()
    ensures plain { (text : List ℕ) → IsTrue (is_plain text) ↔ IsPlain text }
    ensures name { (text : List ℕ) → IsTrue (is_name text) ↔ IsName text }
    ensures kind { (kind : Kind) → IsTrue (is_kind kind) ↔ IsKind kind }
    ensures sound { (object : Object) → IsTrue (is_sound object) ↔ IsSound object }
    ensures fresh { (objects : List Object) (object : Object)
        → IsTrue (is_fresh objects object) ↔ IsFresh objects object }
    ensures allowed { (objects : List Object) (slot : ℕ) (bounds : Bounds)
        → IsTrue (is_allowed (slot_at objects slot) bounds) ↔ IsWithinWidest objects slot bounds }
{}

/// What a basin has by name has a plain name.
pub fn plain_names()
    ensures object { (basin : Draft) (object : List ℕ) → IsBasin basin
        → IsSome (object_named basin.objects object) → IsPlain object }
    ensures slot { (basin : Draft) (object slot : List ℕ) → IsBasin basin
        → IsSome (slot_named basin.objects object slot) → IsPlain object × IsPlain slot }
{}

/// Nothing is wrong with an object exactly where it can be added, and with bounds exactly where a slot can have them.
pub fn faultless_parts()
    ensures object { (objects : List Object) (object : Object)
        → (object_refusal objects object ≡ None) ↔ CanAdd objects object }
    ensures bound { (objects : List Object) (own : List Bound) (slot : ℕ) (bounds : Bounds)
        → (bound_refusal objects own slot bounds ≡ None) ↔ CanBound objects own slot bounds }
{}

/// Nothing is wrong with all that a builder was told exactly where it makes a valid basin.
#[tactic(auto, using(crate::proofs::Linked::basin_iff))]
pub fn faultless_basins()
    ensures { (draft : Draft) → IsDraft draft → (finish_refusal draft ≡ None) ↔ IsBasin draft }
{}

/// Slots with which nothing is wrong are 2 to 8, of different objects, measure the same, and are in no earlier link.
pub fn linked_slots()
    ensures link { (objects : List Object) (links : List (List ℕ)) (slots : List ℕ)
        → link_refusal objects links slots ≡ None → IsLink objects slots }
    ensures free { (objects : List Object) (links : List (List ℕ)) (slots : List ℕ)
        → link_refusal objects links slots ≡ None → All (λ slot. link_of links slot ≡ None) slots }
{}

/// The group of a slot that no link has is the slot alone. In a valid basin the group of a slot that a link has is that
/// link: it has its slots and no others.
pub fn links_and_groups()
    ensures alone { (objects : List Object) (links : List (List ℕ)) (slot : ℕ)
        → IsSlot objects slot → link_of links slot ≡ None
        → group_of objects links slot ≡ slot ∷ [] }
    ensures linked { (draft : Draft) (link : List ℕ) (slot other : ℕ)
        → IsDraft draft → Contains draft.links link → Contains link slot
        → Contains (group_of draft.objects draft.links slot) other ↔ Contains link other }
{}

/// A value is between the bounds of a slot exactly where it is between its own bounds and those of each slot of its link.
pub fn bounds_of_a_group()
    ensures { (objects : List Object) (links : List (List ℕ)) (own : List Bound)
        (slot : ℕ) (value : ℤ)
        → IsBetween (bounds_in objects links own slot) value
        ↔ (IsBetween (own_bounds objects own slot) value
        × All (λ other. IsBetween (own_bounds objects own other) value)
        (linked_with links slot)) }
{}

/// The limits of a model that is read, in numbers: definitions have them by these names. What is to take more has a constant of its
/// own beside these.
pub fn limits_of_models()
    ensures objects { OBJECTS_MAX ≡ 500 }
    ensures slots { SLOTS_MAX ≡ 4000 }
    ensures cells { CELLS_MAX ≡ 1000000 }
    ensures link { LINK_MAX ≡ 8 }
    ensures name { NAME_MAX ≡ 32 }
    ensures data { DATA_SLOTS_MAX ≡ 8 }
    ensures lag { LAG_MAX ≡ 30 }
    ensures parts { PARTS ≡ 1000 }
    ensures seepage { SEEPAGE_MAX ≡ 999 }
    ensures power { POWER_MAX ≡ 10000 }
{}
