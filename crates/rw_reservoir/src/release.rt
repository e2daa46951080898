//! Puts the evaporation of a reservoir, and the release and the spill of its outflow.
ghost use Rattle.std.specs.Prelude.{◌≡◌, option_map, ◌<◌, ◌+◌, ◌≤◌, ◌++◌, length, OnOk, IfErr};
ghost use Rattle.rw_method.specs.Puts.{evaporation_put, release_puts};
ghost use Rattle.rw_method.specs.Solve.{AllFit};
ghost use Rattle.rw_method.specs.Asking.{Asks, can_get};

use rw_method::places::{EVAPORATION, RELEASE, SPILL};
use rw_method::{Given, PutList, Solved, View, ask, ask_released};
use rw_table::Rating;

/// Puts how much evaporates, with priority 0, where evaporation is chosen.
#[inline(always)]
pub(crate) fn ask_evaporation(
    view: &View,
    table: Option<&Rating>,
    puts: &mut PutList,
    evaporation: bool,
    amount: Option<i128>,
) -> Result<(), Solved>
    requires { length puts.old < 8 }
    ensures asks { Asks (can_get (option_map (λ rating. rating.now) table.entry) view.entry.now)
        (evaporation_put evaporation amount)
        puts.old puts.new result }
    ensures room { OnOk result (length puts.new ≤ length puts.old + 1) }
{
    if evaporation {
        ask(view, table, puts, EVAPORATION, amount.unwrap_or(0), 0)
    } else {
        Ok(())
    }
}

/// Puts the release and the spill of an outflow, where there is a maximum release.
#[inline(always)]
pub(crate) fn ask_release(
    view: &View,
    table: Option<&Rating>,
    puts: &mut PutList,
    max_release: Option<i64>,
    outflow: Given,
) -> Result<(), Solved>
    requires { length puts.old < 7 }
    ensures asks { Asks (can_get (option_map (λ rating. rating.now) table.entry) view.entry.now)
        (release_puts max_release outflow)
        puts.old puts.new result }
{
    match max_release {
        Some(most) => ask_released(view, table, puts, (RELEASE, SPILL), most, outflow),
        None => Ok(()),
    }
}
