//! Finds what is wrong with the storage and the elevation that a reservoir has now or had before.
ghost use Rattle.std.specs.Prelude.{◌≡◌, option_map};
ghost use Rattle.rw_method.specs.Contents.{fault_of_basis, is_this, agree, disagreement};
ghost use Rattle.rw_method.specs.Solve.{fault_of_past, fault_of_level};

use crate::contents::{basis_of, can_hold, elevation_of, volume_of};
use crate::places::{POOL_ELEVATION, STORAGE};
use crate::{Basis, Given, Solved, View};
use rw_base::Qty;
use rw_table::Rating;

/// Returns what is wrong with the storage before, in m3: `OutOfRange` where evaporation is chosen and the table does not have
/// that storage; `None` elsewhere.
pub fn fault_of_past(evaporation: bool, table: Option<&Rating>, past: Option<Qty>) -> Option<Solved>
    ensures { result
        ≡ fault_of_past evaporation (option_map (λ rating. rating.now) table.entry) past }
{
    match past {
        Some(storage) if evaporation && !can_hold(table, storage.get()) => {
            Some(Solved::OutOfRange {
                place: STORAGE,
                value: i128::from(storage.get()),
            })
        }
        _ => None,
    }
}

// What is wrong with the slot that gives the contents.
#[inline(always)]
fn fault_of_basis(table: Option<&Rating>, basis: Basis) -> Option<Solved>
    ensures { result ≡ fault_of_basis (option_map (λ rating. rating.now) table.entry) basis }
{
    match basis {
        Basis::Storage(storage) if !can_hold(table, storage.value) => Some(Solved::OutOfRange {
            place: STORAGE,
            value: i128::from(storage.value),
        }),
        Basis::Elevation(elevation) if volume_of(table, elevation.value).is_none() => {
            Some(Solved::OutOfRange {
                place: POOL_ELEVATION,
                value: i128::from(elevation.value),
            })
        }
        _ => None,
    }
}

// Whether there is such a value, and it is this one.
fn is_this(found: Option<i64>, value: i64) -> bool
    ensures { result ≡ is_this found value }
{
    match found {
        Some(found) => found == value,
        None => false,
    }
}

// Whether the elevation is the storage's, or the storage is the elevation's.
fn agree(table: Option<&Rating>, storage: i64, elevation: i64) -> bool
    ensures { result ≡ agree (option_map (λ rating. rating.now) table.entry) storage elevation }
{
    is_this(elevation_of(table, storage), elevation)
        || is_this(volume_of(table, elevation), storage)
}

// A storage and an elevation that are both given with priority 0, and don't agree.
#[inline(always)]
fn disagreement(
    table: Option<&Rating>,
    storage: Option<Given>,
    elevation: Option<Given>,
) -> Option<Solved>
    ensures { result
        ≡ disagreement (option_map (λ rating. rating.now) table.entry) storage elevation }
{
    match (storage, elevation) {
        (Some(storage), Some(elevation))
            if storage.number == 0
                && elevation.number == 0
                && !agree(table, storage.value, elevation.value) => {
            Some(Solved::Conflict {
                place: POOL_ELEVATION,
                held: i128::from(elevation.value),
                solved: i128::from(elevation_of(table, storage.value).unwrap_or(0)),
            })
        }
        _ => None,
    }
}

/// Returns what is wrong with a storage in m3 and an elevation in mm that are given: with the slot that gives the contents,
/// `OutOfRange`, or with both together, `Conflict`. `docs/DEFINITIONS.md` has it under "What a reservoir holds".
#[inline(always)]
pub fn fault_of_level(view: &View, table: Option<&Rating>) -> Option<Solved>
    ensures { result
        ≡ fault_of_level (option_map (λ rating. rating.now) table.entry) view.entry.now }
{
    let (storage, elevation) = (view.given(STORAGE), view.given(POOL_ELEVATION));
    if let Some(fault) = fault_of_basis(table, basis_of(storage, elevation)) {
        return Some(fault);
    }
    disagreement(table, storage, elevation)
}
