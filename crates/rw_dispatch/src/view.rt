//! Fills in what an object sees in a dispatch.
ghost use Rattle.std.specs.Prelude.{◌≡◌, ◌<◌, ◌≤◌, ℕ, IfSome, None, false, length, map, set, slice_index_or};
ghost use Rattle.rw_model.specs.Draft.{IsObject, IsSlot};
ghost use Rattle.rw_series.specs.Series.{IsSeriesOf, held};
ghost use Rattle.rw_run.specs.Dispatch.{slot_or_none, content_in, bounds_in_place, places};
ghost use Rattle.rw_model.specs.Turn.{IsTurn};
ghost use Rattle.rw_model.specs.Objects.{slot_in_place};
ghost use Rattle.rw_dispatch.specs.Seeing.{content_at_slot, bounds_of_slot, has_late};

use rw_base::{ObjectNo, SlotNo, StepNo};
use rw_method::View;
use rw_model::{Basin, Content, Kind};
use rw_series::{Series, StepCells};

/// Returns the slot that an object has in a place, and number 0 where it has none there.
pub fn slot_or_none(basin: &Basin, object: ObjectNo, place: u8) -> SlotNo
    requires { IsObject basin.now.objects object.0 }
    ensures { result.0 ≡ slot_or_none basin.now object.0 place }
{
    match basin.slot_at(object, place) {
        Some(slot) => slot,
        None => SlotNo(0),
    }
}

/// Returns the view of no object, in which nothing is filled in.
pub(crate) fn blank_view() -> View {
    View {
        own: ObjectNo(0),
        now: [None; 12],
        past: None,
        bounds: [(0, 0); 12],
    }
}

// Fills in what the slot with this number holds, and its bounds.
fn see_slot(
    now: &mut [Option<Content>; 12],
    bounds: &mut [(i64, i64); 12],
    basin: &Basin,
    cells: &StepCells,
    place: usize,
    number: Option<u16>,
)
    requires place { place < 12 }
    requires known { IfSome number (IsSlot basin.now.objects) }
    requires column { IfSome number (λ slot. slot ≤ length cells.now.columns) }
    ensures content { now.new ≡ set now.old place (content_at_slot (held cells.now) 1 number) }
    ensures bounds { bounds.new ≡ set bounds.old place (bounds_of_slot basin.now number) }
{
    match number {
        Some(number) => {
            let slot = SlotNo(number);
            match cells.content(slot) {
                Some(content) => now[place] = Some(content),
                None => now[place] = None,
            }
            bounds[place] = basin.bounds(slot);
        }
        None => {
            now[place] = None;
            bounds[place] = (0, 0);
        }
    }
}

/// Returns whether objects of a kind have slots in the places from 5 on.
pub(crate) fn has_late(kind: &Kind) -> bool
    ensures { result ≡ has_late kind.now }
{
    match kind {
        Kind::DataObject { .. } | Kind::Reservoir { .. } | Kind::PowerReservoir { .. } => true,
        _ => false,
    }
}

// The number in a place, which is looked up where there may be one.
fn number_at(numbers: &[Option<u16>], place: usize, may: bool) -> Option<u16>
    requires { place < length numbers.now }
    ensures { (may ≡ false → slice_index_or numbers.now place None ≡ None)
        → result ≡ slice_index_or numbers.now place None }
{
    if may { numbers[place] } else { None }
}

/// Fills in what the object's slots hold and their bounds, by place, whatever was there. The view is filled where it is, since it
/// is large. Where it is known that the object has no slot from place 5 on, none is looked for there.
#[inline(always)]
pub(crate) fn see_slots(
    now: &mut [Option<Content>; 12],
    bounds: &mut [(i64, i64); 12],
    basin: &Basin,
    series: &Series,
    object: ObjectNo,
    step: StepNo,
    late: bool,
)
    requires turn { IsTurn basin.now object.0 step.0 }
    requires made { IsSeriesOf basin.now series.now }
    requires late { late ≡ false → (place : ℕ) → 5 ≤ place
        → slot_in_place basin.now.objects object.0 place ≡ None }
    ensures contents { now.new
        ≡ map (content_in basin.now (held series.now) object.0 step.0) places }
    ensures bounds { bounds.new ≡ map (bounds_in_place basin.now object.0) places }
{
    let numbers = basin.row(object);
    // Where they lie is found once.
    let cells = series.at_step(step);
    // Two loops of so few turns are both unrolled.
    for place in 0..5 {
        see_slot(now, bounds, basin, &cells, place, numbers[place]);
    }
    for far in 5..12 {
        let number = number_at(numbers, far, late);
        see_slot(now, bounds, basin, &cells, far, number);
    }
}
