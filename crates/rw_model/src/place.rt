//! Holds the object and the place of a slot, and finds the number of a slot by its place or its name.
ghost use Rattle.std.specs.Prelude.{◌≡◌, ◌+◌, ◌≤◌, length, map, ◌++◌, vec_len, vec_capacity};
ghost use Rattle.rw_model.specs.Slots.{slots_of};
ghost use Rattle.rw_model.specs.Objects.{placed_from, first_from, is_in_place, is_named};
ghost use Rattle.rw_model.specs.Kept.{place_of};

use crate::Kind;

/// The object of a slot, and its place there.
#[derive(Clone, Copy, Drop)]
pub(crate) struct Place {
    /// The number of the object.
    pub(crate) owner: u16,
    /// The place of the slot in that object.
    pub(crate) place: u8,
}

// The most places that a kind has.
const PLACES_MAX: u8 = 11;

// Appends the slots of an object.
pub(crate) fn push_places(places: &mut Vec<Place>, owner: u16, kind: &Kind)
    requires few { length (slots_of kind.now) ≤ 11 }
    requires room { vec_len places.old + 11 ≤ vec_capacity places.old }
    ensures { places.new.items
        ≡ places.old.items ++ map place_of (placed_from owner 0 (slots_of kind.now)) }
{
    for place in 0..PLACES_MAX {
        if kind.slot(place).is_some() {
            places.push_reserved(Place { owner, place });
        }
    }
}

// The number of the slot in a place, of an object whose slots are numbered from `first` on.
pub(crate) fn number_in_place(kind: &Kind, owner: u16, first: u16, place: u8) -> Option<u16>
    requires few { length (slots_of kind.now) ≤ 11 }
    requires small { first ≤ 4001 }
    ensures { result
        ≡ first_from first (is_in_place owner place) (placed_from owner 0 (slots_of kind.now)) }
{
    let mut number = first;
    for at in 0..PLACES_MAX {
        if kind.slot(at).is_some() {
            if at == place {
                return Some(number);
            }
            number += 1;
        }
    }
    None
}

// The number of the slot with a name, of an object whose slots are numbered from `first` on.
pub(crate) fn number_of_name(kind: &Kind, owner: u16, first: u16, name: &str) -> Option<u16>
    requires few { length (slots_of kind.now) ≤ 11 }
    requires small { first ≤ 4001 }
    ensures { result
        ≡ first_from first (is_named owner name.now) (placed_from owner 0 (slots_of kind.now)) }
{
    let mut number = first;
    for at in 0..PLACES_MAX {
        if let Some(slot) = kind.slot(at) {
            if name == slot.name() {
                return Some(number);
            }
            number += 1;
        }
    }
    None
}

/// Counts the slots of an object.
pub(crate) fn count_places(kind: &Kind, owner: u16) -> u16
    requires { length (slots_of kind.now) ≤ 11 }
    ensures count { result ≡ length (placed_from owner 0 (slots_of kind.now)) }
    ensures few { result ≤ 11 }
{
    let mut count = 0;
    for at in 0..PLACES_MAX {
        if kind.slot(at).is_some() {
            count += 1;
        }
    }
    count
}
