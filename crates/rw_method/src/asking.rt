//! Adds the puts of a reservoir to those of its dispatch: a storage has to be one that the table has.
ghost use Rattle.std.specs.Prelude.{◌≡◌, ◌<◌, ◌+◌, ◌≤◌, ◌∷◌, [], ◌++◌, length, option_map, IsTrue, OnOk, IfErr};
ghost use Rattle.rw_model.specs.Slot.{all_quantities};
ghost use Rattle.rw_method.specs.View.{is_between};
ghost use Rattle.rw_method.specs.Puts.{put, put_found, solved_put, is_bounded};
ghost use Rattle.rw_method.specs.Solve.{AllFit};
ghost use Rattle.rw_method.specs.Asking.{Asks, can_get};

use crate::contents::can_hold;
use crate::places::STORAGE;
use crate::{Balanced, PutList, Solved, View, add_put};
use rw_table::Rating;

/// Returns the same quantity in 64 bits.
pub(crate) fn narrow(quantity: i128) -> i64
    requires { IsTrue (is_between all_quantities quantity) }
    ensures { result ≡ quantity }
{
    quantity as i64
}

/// Adds a put to the slot in a place, of a value in the base units of its dimension and of a priority. The error is `OutOfRange`,
/// where the slot cannot have the value, or where it is a storage that the table does not have.
#[inline(always)]
pub fn ask(
    view: &View,
    table: Option<&Rating>,
    puts: &mut PutList,
    place: u8,
    value: i128,
    number: u16,
) -> Result<(), Solved>
    requires { length puts.old < 8 }
    ensures asks { Asks (can_get (option_map (λ rating. rating.now) table.entry) view.entry.now)
        (put place value number ∷ [])
        puts.old puts.new result }
{
    if let Err(answer) = add_put(view, puts, place, value, number) {
        return Err(answer);
    }
    if place == STORAGE && !can_hold(table, narrow(value)) {
        return Err(Solved::OutOfRange { place, value });
    }
    Ok(())
}

/// Puts the value that the table has, if it has one.
#[inline(always)]
pub(crate) fn ask_found(
    view: &View,
    table: Option<&Rating>,
    puts: &mut PutList,
    place: u8,
    found: Option<i64>,
    number: u16,
) -> Result<(), Solved>
    requires { length puts.old < 8 }
    ensures asks { Asks (can_get (option_map (λ rating. rating.now) table.entry) view.entry.now)
        (put_found place found number)
        puts.old puts.new result }
    ensures room { OnOk result (length puts.new ≤ length puts.old + 1) }
{
    match found {
        Some(value) => ask(view, table, puts, place, i128::from(value), number),
        None => Ok(()),
    }
}

/// Puts the term that was solved, if one was, in the base units of its slot's dimension. The error is `OutOfRange`, as of `ask`.
#[inline(always)]
pub fn ask_solved(
    view: &View,
    table: Option<&Rating>,
    puts: &mut PutList,
    balanced: Balanced,
) -> Result<(), Solved>
    requires { length puts.old < 8 }
    ensures asks { Asks (can_get (option_map (λ rating. rating.now) table.entry) view.entry.now)
        (solved_put balanced)
        puts.old puts.new result }
    ensures bounded { OnOk result (AllFit (is_bounded view.entry.now) (solved_put balanced)) }
    ensures room { OnOk result (length puts.new ≤ length puts.old + 1) }
{
    match balanced {
        Balanced::Solves {
            place,
            value,
            number,
        } => ask(view, table, puts, place, value, number),
        _ => Ok(()),
    }
}
