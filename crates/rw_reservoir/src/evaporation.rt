//! Computes how much evaporates from a reservoir in a timestep.
ghost use Rattle.std.specs.Prelude.{◌≡◌, option_map, pos, ◌-ℤ◌, ◌≤ℤ◌};
ghost use Rattle.std.specs.Int.{int_max};
ghost use Rattle.std.specs.Option.{ForSome};
ghost use Rattle.rw_method.specs.declared.places.TheConstants.{EVAPORATION_RATE};
ghost use Rattle.rw_method.specs.View.{known_value};
ghost use Rattle.rw_method.specs.Term.{IsWithin};
ghost use Rattle.rw_method.specs.Contents.{difference, evaporated};
ghost use Rattle.rw_method.specs.Balance.{evaporation_from, evaporation_of};

use rw_base::Qty;
use rw_method::View;
use rw_method::places::EVAPORATION_RATE;
use rw_table::Rating;

fn volume_less(upper: i64, lower: i64) -> i128
    ensures amount { result ≡ upper -ℤ lower }
    ensures bound { IsWithin 1 result }
{
    i128::from(upper) - i128::from(lower)
}

// The difference of two volumes, where both are there.
fn difference(upper: Option<i64>, lower: Option<i64>) -> Option<i128>
    ensures amount { result ≡ difference upper lower }
    ensures bound { ForSome result (IsWithin 1) }
{
    match (upper, lower) {
        (Some(upper), Some(lower)) => Some(volume_less(upper, lower)),
        _ => None,
    }
}

// The elevation, once it has sunk by the rate, at most to the lowest.
fn sunk(elevation: i64, rate: Qty, lowest: i64) -> i64
    requires low { pos 0 ≤ℤ elevation }
    requires high { elevation ≤ℤ pos 10000000 }
    ensures { result ≡ int_max (elevation -ℤ rate) lowest }
{
    (elevation - rate.get()).max(lowest)
}

// How much evaporates from a storage at a rate.
fn evaporated(rating: &Rating, storage: i64, rate: Qty) -> Option<i128>
    ensures amount { result ≡ evaporated rating.now storage rate }
    ensures bound { ForSome result (IsWithin 1) }
{
    let place = rating.rows_up_to(storage);
    let Some(elevation) = rating.elev_near(place, storage) else {
        return None;
    };
    let sunk = sunk(elevation, rate, rating.lowest());
    difference(
        rating.vol_near(place, elevation),
        rating.vol_near(place, sunk),
    )
}

// How much evaporates, where the storage before and the rate are known.
fn evaporation_from(rating: &Rating, past: Option<Qty>, rate: Option<Qty>) -> Option<i128>
    ensures amount { result ≡ evaporation_from rating.now past rate }
    ensures bound { ForSome result (IsWithin 1) }
{
    match (past, rate) {
        (Some(storage), Some(rate)) => {
            Some(evaporated(rating, storage.get(), rate).unwrap_or(0))
        }
        _ => None,
    }
}

fn rate(view: &View) -> Option<Qty>
    ensures { result ≡ known_value view.entry.now EVAPORATION_RATE }
{
    match view.known(EVAPORATION_RATE) {
        Some(content) => Some(content.value),
        None => None,
    }
}

/// Returns how much evaporates, in m3/step, which is 0 where evaporation is not chosen. `None` where the rate or the storage
/// before is unknown.
pub(crate) fn evaporation_of(evaporation: bool, table: Option<&Rating>, view: &View) -> Option<i128>
    ensures amount { result
        ≡ evaporation_of evaporation (option_map (λ rating. rating.now) table.entry)
        view.entry.now }
    ensures bound { ForSome result (IsWithin 1) }
{
    match table {
        Some(rating) if evaporation => evaporation_from(rating, view.past, rate(view)),
        _ => Some(0),
    }
}
