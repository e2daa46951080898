//! Divides an outflow into its release and its spill.
ghost use Rattle.std.specs.Prelude.{◌≡◌, ◌<◌, ◌++◌, ◌∷◌, [], length, pos, ◌-ℤ◌, OnOk, IfErr, option_map};
ghost use Rattle.std.specs.Int.{int_min};
ghost use Rattle.rw_method.specs.Puts.{put, released_puts};
ghost use Rattle.rw_method.specs.Solve.{AllFit};
ghost use Rattle.rw_method.specs.Asking.{Asks, can_get};

use crate::asking::ask;
use crate::{Given, PutList, Solved, View};
use rw_table::Rating;

/// Returns what is released of an outflow, in m3/step: all of it up to the maximum release, `most`.
pub fn released(outflow: i64, most: i64) -> i64
    ensures { result ≡ int_min outflow most }
{
    outflow.min(most)
}

// What spills of an outflow.
fn spill(outflow: i64, release: i64) -> i128
    ensures { result ≡ outflow -ℤ release }
{
    i128::from(outflow) - i128::from(release)
}

// Puts a release and a spill.
#[inline(always)]
fn ask_parts(
    view: &View,
    table: Option<&Rating>,
    puts: &mut PutList,
    places: (u8, u8),
    release: i64,
    spill: i128,
    number: u16,
) -> Result<(), Solved>
    requires { length puts.old < 7 }
    ensures asks { Asks (can_get (option_map (λ rating. rating.now) table.entry) view.entry.now)
        (put places.0 release number ∷ put places.1 spill number ∷ [])
        puts.old puts.new result }
{
    match ask(view, table, puts, places.0, i128::from(release), number) {
        Ok(()) => ask(view, table, puts, places.1, spill, number),
        Err(answer) => Err(answer),
    }
}

/// Puts the release and the spill of an outflow, in m3/step, in these two places, where `most` is the maximum release. The error
/// is `OutOfRange`, as of `ask`.
#[inline(always)]
pub fn ask_released(
    view: &View,
    table: Option<&Rating>,
    puts: &mut PutList,
    places: (u8, u8),
    most: i64,
    outflow: Given,
) -> Result<(), Solved>
    requires { length puts.old < 7 }
    ensures asks { Asks (can_get (option_map (λ rating. rating.now) table.entry) view.entry.now)
        (released_puts places.0 places.1 most outflow)
        puts.old puts.new result }
{
    let release = released(outflow.value, most);
    let spill = spill(outflow.value, release);
    ask_parts(view, table, puts, places, release, spill, outflow.number)
}
