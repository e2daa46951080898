//! Finds the contents of a reservoir from the storage or the elevation that is given.
ghost use Rattle.std.specs.Prelude.{◌≡◌, Some, option_map};
ghost use Rattle.rw_method.specs.declared.basis.Basis.TheVariants as Basis;
ghost use Rattle.rw_method.specs.declared.places.TheConstants.{POOL_ELEVATION, STORAGE};
ghost use Rattle.rw_method.specs.View.{given};
ghost use Rattle.rw_method.specs.Contents.{basis_of, are_both_zero, elevation_of, volume_of, can_hold, contents_by};
ghost use Rattle.rw_method.specs.Balance.{stores};

use crate::places::{POOL_ELEVATION, STORAGE};
use crate::{Basis, Given, Share, Term, View};
use rw_table::Rating;

/// Returns the one of the smaller number of a storage and an elevation that are both given, and in a tie the storage.
#[inline(always)]
pub(crate) fn basis_of(storage: Option<Given>, elevation: Option<Given>) -> Basis
    ensures { result ≡ basis_of storage elevation }
{
    match (storage, elevation) {
        (None, None) => Basis::Nothing,
        (Some(storage), None) => Basis::Storage(storage),
        (None, Some(elevation)) => Basis::Elevation(elevation),
        (Some(storage), Some(elevation)) => {
            if storage.number <= elevation.number {
                Basis::Storage(storage)
            } else {
                Basis::Elevation(elevation)
            }
        }
    }
}

/// Returns whether both are given with priority 0.
#[inline(always)]
pub(crate) fn are_both_zero(storage: Option<Given>, elevation: Option<Given>) -> bool
    ensures { result ≡ are_both_zero storage elevation }
{
    match (storage, elevation) {
        (Some(storage), Some(elevation)) => storage.number == 0 && elevation.number == 0,
        _ => false,
    }
}

/// Returns the elevation at a storage, where there is a table that has it.
#[inline(always)]
pub(crate) fn elevation_of(table: Option<&Rating>, storage: i64) -> Option<i64>
    ensures { result ≡ elevation_of (option_map (λ rating. rating.now) table.entry) storage }
{
    match table {
        Some(rating) => rating.elev(storage),
        None => None,
    }
}

/// Returns the volume at an elevation, where there is a table that has it.
#[inline(always)]
pub(crate) fn volume_of(table: Option<&Rating>, elevation: i64) -> Option<i64>
    ensures { result ≡ volume_of (option_map (λ rating. rating.now) table.entry) elevation }
{
    match table {
        Some(rating) => rating.vol(elevation),
        None => None,
    }
}

/// Returns whether the reservoir can hold this storage: the table, if there is one, has an elevation for it.
#[inline(always)]
pub(crate) fn can_hold(table: Option<&Rating>, storage: i64) -> bool
    ensures { result ≡ can_hold (option_map (λ rating. rating.now) table.entry) storage }
{
    match table {
        Some(rating) => rating.has_elev(storage),
        None => true,
    }
}

// The contents by an elevation. They are 0 where the table doesn't have it: the answer is then that it is out of range.
#[inline(always)]
fn contents_at(table: Option<&Rating>, elevation: Given) -> Given
    ensures { Some result
        ≡ contents_by (option_map (λ rating. rating.now) table.entry) (Basis.Elevation elevation) }
{
    Given {
        value: volume_of(table, elevation.value).unwrap_or(0),
        number: elevation.number,
    }
}

// The contents that are given.
#[inline(always)]
fn contents_by(table: Option<&Rating>, basis: Basis) -> Option<Given>
    ensures { result ≡ contents_by (option_map (λ rating. rating.now) table.entry) basis }
{
    match basis {
        Basis::Nothing => None,
        Basis::Storage(storage) => Some(storage),
        Basis::Elevation(elevation) => Some(contents_at(table, elevation)),
    }
}

/// Returns the contents in m3 as a term, which takes water and is put as the storage: what a given storage in m3 or a given
/// elevation in mm gives. `docs/DEFINITIONS.md` has it under "What a reservoir holds".
#[inline(always)]
pub fn stores(view: &View, table: Option<&Rating>) -> Term
    ensures { result ≡ stores (contents_by (option_map (λ rating. rating.now) table.entry)
        (basis_of (given view.entry.now STORAGE) (given view.entry.now POOL_ELEVATION))) }
{
    let basis = basis_of(view.given(STORAGE), view.given(POOL_ELEVATION));
    Term {
        place: STORAGE,
        share: Share::Takes,
        given: contents_by(table, basis),
    }
}
