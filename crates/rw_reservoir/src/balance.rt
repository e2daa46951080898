//! Solves the balance of a reservoir, and finds out early where too little is known for that.
ghost use Rattle.std.specs.Prelude.{◌≡◌, ◌+ℤ◌, ◌-ℤ◌, ◌∷◌, [], ℤ, List, Option, None, nat_le, true};
ghost use Rattle.std.specs.Option.{ForSome};
ghost use Rattle.rw_table.specs.Table.{Row};
ghost use Rattle.rw_method.specs.declared.balanced.Balanced.TheVariants as Balanced;
ghost use Rattle.rw_method.specs.declared.places.TheConstants.{INFLOW, OUTFLOW, POOL_ELEVATION, STORAGE};
ghost use Rattle.rw_method.specs.View.{given};
ghost use Rattle.rw_method.specs.Term.{IsWithin};
ghost use Rattle.rw_method.specs.Contents.{difference};
ghost use Rattle.rw_method.specs.Balance.{known_sum, brings, takes};
ghost use Rattle.rw_method.specs.Solving.{missing, solved_balance};
ghost use Rattle.rw_reservoir.specs.Answering.{reservoir_terms};

use rw_base::Qty;
use rw_method::places::{INFLOW, OUTFLOW, POOL_ELEVATION, STORAGE};
use rw_method::{Balanced, Share, Term, View, solve_balance};

fn with_side(past: Qty, side: i128) -> i128
    requires { IsWithin 3 side }
    ensures flow { result ≡ past +ℤ side }
    ensures bound { IsWithin 4 result }
{
    i128::from(past.get()) + side
}

fn less_evaporation(held: i128, evaporation: i128) -> i128
    requires held { IsWithin 4 held }
    requires evaporation { IsWithin 1 evaporation }
    ensures flow { result ≡ held -ℤ evaporation }
    ensures bound { IsWithin 6 result }
{
    held - evaporation
}

// The storage before and what flows by the side, less what evaporates. `None` where one of them is unknown.
fn steady(past: Option<Qty>, side: Option<i128>, evaporation: Option<i128>) -> Option<i128>
    requires side { ForSome side (IsWithin 3) }
    requires evaporation { ForSome evaporation (IsWithin 1) }
    ensures flow { result ≡ difference (known_sum past side) evaporation }
    ensures bound { ForSome result (IsWithin 6) }
{
    match (past, side, evaporation) {
        (Some(past), Some(side), Some(evaporation)) => {
            Some(less_evaporation(with_side(past, side), evaporation))
        }
        _ => None,
    }
}

/// Returns whether neither the storage nor the elevation is given. Its clauses are of `true` alone, as that of `is_short`.
pub(crate) fn is_empty(view: &View) -> bool
    ensures storage { result ≡ true → given view.entry.now STORAGE ≡ None }
    ensures elevation { result ≡ true → given view.entry.now POOL_ELEVATION ≡ None }
{
    view.given(STORAGE).is_none() && view.given(POOL_ELEVATION).is_none()
}

// Whether two of the terms aren't given. Its clause is of `true` alone, as that of `is_short`.
#[inline(always)]
fn are_two_missing(view: &View) -> bool
    ensures { result ≡ true → (table : Option (List Row))
        → nat_le 2 (missing (reservoir_terms table view.entry.now)) ≡ true }
{
    match (view.given(INFLOW), view.given(OUTFLOW)) {
        (None, None) => true,
        (Some(_), Some(_)) => false,
        _ => is_empty(view),
    }
}

/// Returns whether too little is known, whatever the side flows and the evaporation are. It only saves time, since the balance
/// gives the same: so its clause is of `true` alone, and a body that always says `false` would be proved, too.
#[inline(always)]
pub(crate) fn is_short(view: &View) -> bool
    ensures { result ≡ true → (table : Option (List Row)) (steady : Option ℤ)
        → solved_balance steady (reservoir_terms table view.entry.now) ≡ Balanced.Idle }
{
    are_two_missing(view)
}

/// Returns what follows from the balance, with the side flows and the evaporation.
#[inline(always)]
pub(crate) fn balance(
    view: &View,
    contents: &Term,
    side: Option<i128>,
    evaporated: Option<i128>,
) -> Balanced
    requires side { ForSome side (IsWithin 3) }
    requires evaporated { ForSome evaporated (IsWithin 1) }
    ensures { result ≡ solved_balance (difference (known_sum view.entry.now.past side) evaporated)
        (brings view.entry.now INFLOW ∷ takes view.entry.now OUTFLOW ∷ contents.now ∷ []) }
{
    let terms = [
        view.term(Share::Brings, INFLOW),
        view.term(Share::Takes, OUTFLOW),
        *contents,
    ];
    solve_balance(steady(view.past, side, evaporated), &terms)
}
