//! Compares kinds, and finds what instructions on lists make of them.
ghost use Rattle.std.specs.Prelude.{◌≡◌, [], ◌∷◌, option_map};
ghost use Rattle.rpl_verify.specs.Kinds.{is_same_value_kind, is_that_kind, element_kind, list_value_kind, list_room};
ghost use Rattle.rpl_verify.specs.Table.{appended, element_picked, widened_list};

use rpl_code::ValueKind;
use rw_base::limits::LIST_MAX;

/// Returns whether two kinds are the same.
pub(crate) fn is_same_kind(a: ValueKind, b: ValueKind) -> bool
    ensures { result ≡ is_same_value_kind a b }
{
    match (a, b) {
        (ValueKind::N, ValueKind::N) => true,
        (ValueKind::B, ValueKind::B) => true,
        (ValueKind::D, ValueKind::D) => true,
        (ValueKind::S, ValueKind::S) => true,
        (ValueKind::NList(m), ValueKind::NList(n)) => m == n,
        (ValueKind::SList(m), ValueKind::SList(n)) => m == n,
        _ => false,
    }
}

/// Returns whether both kinds are there, and the same.
pub(crate) fn is_kind(a: Option<ValueKind>, b: Option<ValueKind>) -> bool
    ensures { result ≡ is_that_kind a b }
{
    match (a, b) {
        (Some(x), Some(y)) => is_same_kind(x, y),
        _ => false,
    }
}

/// Returns the kind of a list's elements.
pub(crate) fn element_of(kind: ValueKind) -> Option<ValueKind>
    ensures { result ≡ element_kind kind }
{
    match kind {
        ValueKind::NList(_) => Some(ValueKind::N),
        ValueKind::SList(_) => Some(ValueKind::S),
        _ => None,
    }
}

/// Returns for how many elements a list has room.
pub(crate) fn room_of(kind: ValueKind) -> u16
    ensures { result ≡ list_room kind }
{
    match kind {
        ValueKind::NList(room) | ValueKind::SList(room) => room,
        _ => 0,
    }
}

/// Returns the kind of a list of `room` elements, if there are such lists.
pub(crate) fn list_kind(room: u16, element: ValueKind) -> Option<ValueKind>
    ensures { result ≡ list_value_kind room element }
{
    match element {
        ValueKind::N => Some(ValueKind::NList(room)),
        ValueKind::S => Some(ValueKind::SList(room)),
        _ => None,
    }
}

/// Returns the kind of the list with one element more, if there is room for it.
pub(crate) fn appended(element: ValueKind, list: ValueKind) -> Option<ValueKind>
    ensures { option_map (λ kind. kind ∷ []) result ≡ appended (element ∷ list ∷ []) }
{
    match (element, list) {
        (ValueKind::N, ValueKind::NList(room)) if room < LIST_MAX => {
            Some(ValueKind::NList(room + 1))
        }
        (ValueKind::S, ValueKind::SList(room)) if room < LIST_MAX => {
            Some(ValueKind::SList(room + 1))
        }
        _ => None,
    }
}

/// Returns the kind of the list with room for `room` elements, if it has room for no more.
pub(crate) fn widened(room: u16, list: ValueKind) -> Option<ValueKind>
    ensures { option_map (λ kind. kind ∷ []) result ≡ widened_list room (list ∷ []) }
{
    match list {
        ValueKind::NList(most) if most <= room => Some(ValueKind::NList(room)),
        ValueKind::SList(most) if most <= room => Some(ValueKind::SList(room)),
        _ => None,
    }
}

/// Returns the kind of what is picked from a list by a place.
pub(crate) fn picked(place: ValueKind, list: ValueKind) -> Option<ValueKind>
    ensures { option_map (λ kind. kind ∷ []) result ≡ element_picked (place ∷ list ∷ []) }
{
    match (place, list) {
        (ValueKind::N, ValueKind::NList(_)) => Some(ValueKind::N),
        (ValueKind::N, ValueKind::SList(_)) => Some(ValueKind::S),
        _ => None,
    }
}
