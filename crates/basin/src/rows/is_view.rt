//! Decides whether a dispatch may be given a view.
ghost use Rattle.std.specs.Prelude.{◌≡◌, ◌≤ℤ◌, IsTrue};
ghost use Rattle.std.specs.Option.{ForSome};
ghost use Rattle.rw_method.specs.View.{bounds_in_view, IsBounded, IsViewOf};
ghost use Rattle.basin.specs.IsView.{IsPlaced};

use rw_method::View;
use rw_model::{Kind, Slot, is_kind};

fn is_inside(bounds: (i64, i64), value: Option<i64>) -> bool
    ensures { IsTrue result → ForSome value (λ z. (bounds.0 ≤ℤ z) × (z ≤ℤ bounds.1)) }
{
    match value {
        Some(value) => bounds.0 <= value && value <= bounds.1,
        None => true,
    }
}

fn is_bounded(bounds: (i64, i64), slot: &Slot<'_>, value: Option<i64>) -> bool
    ensures { IsTrue result → IsBounded bounds slot.now value }
{
    let widest = slot.widest();
    widest.0 <= bounds.0 && bounds.1 <= widest.1 && is_inside(bounds, value)
}

fn bounds_at(view: &View, place: u8) -> (i64, i64)
    ensures { result ≡ bounds_in_view view.entry.now place }
{
    match view.bounds.get(usize::from(place)) {
        Some(bounds) => *bounds,
        None => (0, 0),
    }
}

fn is_placed(kind: &Kind, view: &View, place: u8) -> bool
    ensures { IsTrue result → IsPlaced kind.now view.entry.now place }
{
    match kind.slot(place) {
        Some(slot) => is_bounded(bounds_at(view, place), &slot, view.known_value(place)),
        None => view.known(place).is_none(),
    }
}

/// Returns whether an object of this kind can see this.
pub(crate) fn is_view_of(kind: &Kind, view: &View) -> bool
    ensures { IsTrue result → IsViewOf kind.now view.entry.now }
{
    for place in 0..12 {
        if !is_placed(kind, view, place) {
            return false;
        }
    }
    is_kind(kind)
}
