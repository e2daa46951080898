//! Puts the elevation that belongs to a storage, and the storage that belongs to an elevation.
ghost use Rattle.std.specs.Prelude.{◌≡◌, option_map, ◌<◌, ◌+◌, ◌≤◌, ◌++◌, length, OnOk, IfErr};
ghost use Rattle.rw_method.specs.Contents.{basis_of};
ghost use Rattle.rw_method.specs.Puts.{solved_put, beside_basis, beside_given, level_puts};
ghost use Rattle.rw_method.specs.Solve.{AllFit};
ghost use Rattle.rw_method.specs.Asking.{Asks, can_get};

use crate::asking::{ask_found, narrow};
use crate::contents::{are_both_zero, basis_of, elevation_of, volume_of};
use crate::places::{POOL_ELEVATION, STORAGE};
use crate::{Balanced, Basis, Given, PutList, Solved, View};
use rw_table::Rating;

// Beside the slot that gives the contents puts the other one of storage and elevation.
#[inline(always)]
fn ask_beside(
    view: &View,
    table: Option<&Rating>,
    puts: &mut PutList,
    basis: Basis,
) -> Result<(), Solved>
    requires { length puts.old < 8 }
    ensures asks { Asks (can_get (option_map (λ rating. rating.now) table.entry) view.entry.now)
        (beside_basis (option_map (λ rating. rating.now) table.entry) basis)
        puts.old puts.new result }
    ensures room { OnOk result (length puts.new ≤ length puts.old + 1) }
{
    match basis {
        Basis::Nothing => Ok(()),
        Basis::Storage(storage) => {
            let found = elevation_of(table, storage.value);
            ask_found(view, table, puts, POOL_ELEVATION, found, storage.number)
        }
        Basis::Elevation(elevation) => {
            let found = volume_of(table, elevation.value);
            ask_found(view, table, puts, STORAGE, found, elevation.number)
        }
    }
}

// Beside the slot that gives the contents puts the other one, unless both are given with priority 0.
#[inline(always)]
fn ask_beside_given(
    view: &View,
    table: Option<&Rating>,
    puts: &mut PutList,
    storage: Option<Given>,
    elevation: Option<Given>,
) -> Result<(), Solved>
    requires { length puts.old < 8 }
    ensures asks { Asks (can_get (option_map (λ rating. rating.now) table.entry) view.entry.now)
        (beside_given (option_map (λ rating. rating.now) table.entry) storage elevation)
        puts.old puts.new result }
    ensures room { OnOk result (length puts.new ≤ length puts.old + 1) }
{
    if are_both_zero(storage, elevation) {
        return Ok(());
    }
    ask_beside(view, table, puts, basis_of(storage, elevation))
}

/// Puts the elevation of a solved storage, in mm, or what belongs to given contents: an elevation in mm or a storage in m3. The
/// error is `OutOfRange`, as of `ask`.
#[inline(always)]
pub fn ask_level(
    view: &View,
    table: Option<&Rating>,
    puts: &mut PutList,
    storage: Option<Given>,
    elevation: Option<Given>,
    balanced: Balanced,
) -> Result<(), Solved>
    requires room { length puts.old < 8 }
    requires fits { AllFit (can_get (option_map (λ rating. rating.now) table) view.now)
        (solved_put balanced) }
    ensures asks { Asks (can_get (option_map (λ rating. rating.now) table.entry) view.entry.now)
        (level_puts (option_map (λ rating. rating.now) table.entry) storage elevation balanced)
        puts.old puts.new result }
    ensures room { OnOk result (length puts.new ≤ length puts.old + 1) }
{
    match balanced {
        Balanced::Solves {
            place: 2,
            value,
            number,
        } => ask_found(
            view,
            table,
            puts,
            POOL_ELEVATION,
            elevation_of(table, narrow(value)),
            number,
        ),
        _ => ask_beside_given(view, table, puts, storage, elevation),
    }
}
