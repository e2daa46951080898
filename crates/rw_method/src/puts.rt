//! Adds puts that a slot can have to those of a dispatch, and finds what a slot holds after them.
ghost use Rattle.std.specs.Prelude.{◌≡◌, ◌<◌, MatchOption, Bool, List, [], ◌∷◌, ◌++◌, length, None, IsTrue, IsOk, ◌↔◌, OnOk, OnErr, IfOk, IfErr};
ghost use Rattle.rw_method.specs.declared.solved.Solved.TheVariants as Solved;
ghost use Rattle.rw_model.specs.Slot.{all_quantities};
ghost use Rattle.rw_method.specs.View.{bounds_in_view, is_between};
ghost use Rattle.std.specs.List.{All};
ghost use Rattle.rw_method.specs.Puts.{put, is_bounded, solved_put, held_by, held_after_puts, known_after};
ghost use Rattle.rw_method.specs.Solve.{AllFit, answer_of_puts, answer};
ghost use Rattle.rw_method.specs.declared.put.Put.{Put};

use crate::asking::narrow;
use crate::{Balanced, Given, Put, PutList, Solved, View};
use rw_base::{QUANTITY_MAX, Qty};
use rw_model::Content;

fn is_between(low: i64, high: i64, value: i128) -> bool
    ensures { result ≡ is_between (low, high) value }
{
    i128::from(low) <= value && value <= i128::from(high)
}

fn bounds_at(view: &View, place: u8) -> (i64, i64)
    ensures { result ≡ bounds_in_view view.entry.now place }
{
    match view.bounds.get(usize::from(place)) {
        Some(bounds) => *bounds,
        None => (0, 0),
    }
}

// Whether a quantity is within bounds.
fn is_inside(bounds: (i64, i64), value: i64) -> bool
    ensures { result ≡ is_between bounds value }
{
    bounds.0 <= value && value <= bounds.1
}

// Whether the slot in a place can have the value. Whether that is a quantity comes first: then it is compared in 64 bits.
fn is_bounded(view: &View, place: u8, value: i128) -> bool
    ensures { result ≡ is_bounded view.entry.now (put place value 0) }
{
    if !is_between(-QUANTITY_MAX, QUANTITY_MAX, value) {
        return false;
    }
    is_inside(bounds_at(view, place), narrow(value))
}

// The quantity of this value.
fn quantity(value: i128) -> Qty
    requires { IsTrue (is_between all_quantities value) }
    ensures { result ≡ value }
{
    match Qty::of(value as i64) {
        Some(quantity) => quantity,
        None => unreachable!(),
    }
}

/// Adds a put to the slot in a place, of a value in the base units of its dimension and of a priority. The error is `OutOfRange`,
/// exactly where the slot cannot have the value; then the puts are as they were.
#[inline(always)]
pub fn add_put(
    view: &View,
    puts: &mut PutList,
    place: u8,
    value: i128,
    number: u16,
) -> Result<(), Solved>
    requires { length puts.old < 8 }
    ensures fits { IsOk result ↔ IsTrue (is_bounded view.entry.now (put place value number)) }
    ensures ok { OnOk result (puts.new ≡ puts.old ++ put place value number ∷ []) }
    ensures err { IfErr result (λ answer. answer ≡ Solved.OutOfRange place value) }
    ensures unchanged { OnErr result (puts.new ≡ puts.old) }
{
    if !is_bounded(view, place, value) {
        return Err(Solved::OutOfRange { place, value });
    }
    let value = quantity(value);
    puts.push(Put {
        place,
        value,
        number,
    });
    Ok(())
}

/// Adds the puts that an answer begins with to an empty list: as `begin_puts` does, where the list already is, since it is large.
#[inline(always)]
pub fn begin_asking(view: &View, puts: &mut PutList, balanced: Balanced) -> Result<(), Solved>
    requires { puts.old ≡ [] }
    ensures ok { OnOk result (puts.new ≡ solved_put balanced) }
    ensures fits { IsOk result → AllFit (is_bounded view.entry.now) (solved_put balanced) }
    ensures open { IsOk result → (fit : Put → Bool) (puts : List Put)
        → answer fit puts balanced None ≡ answer_of_puts fit puts }
    ensures err { IfErr result (λ ended. (fit : Put → Bool) (more : List Put)
        → All (λ put. fit put ≡ is_bounded view.entry.now put) (solved_put balanced)
        → ended ≡ answer fit (solved_put balanced ++ more) balanced None) }
    ensures unchanged { OnErr result (puts.new ≡ puts.old) }
{
    match balanced {
        Balanced::Idle => return Err(Solved::Idle),
        Balanced::Conflicts {
            place,
            held,
            solved,
        } => {
            return Err(Solved::Conflict {
                place,
                held,
                solved,
            });
        }
        Balanced::Holds => {}
        Balanced::Solves {
            place,
            value,
            number,
        } => {
            if let Err(answer) = add_put(view, puts, place, value, number) {
                return Err(answer);
            }
        }
    }
    Ok(())
}

/// Returns the puts that an answer begins with: the solved term, if one is solved, in the base units of its slot's dimension. The
/// error is the answer otherwise: `Idle` where too little is known, `Conflict` where the terms conflict, `OutOfRange` where the
/// slot of the solved term cannot have its value.
#[inline(always)]
pub fn begin_puts(view: &View, balanced: Balanced) -> Result<PutList, Solved>
    ensures ok { IfOk result (λ puts. puts ≡ solved_put balanced) }
    ensures fits { IsOk result → AllFit (is_bounded view.entry.now) (solved_put balanced) }
    ensures open { IsOk result → (fit : Put → Bool) (puts : List Put)
        → answer fit puts balanced None ≡ answer_of_puts fit puts }
    ensures err { IfErr result (λ ended. (fit : Put → Bool) (more : List Put)
        → All (λ put. fit put ≡ is_bounded view.entry.now put) (solved_put balanced)
        → ended ≡ answer fit (solved_put balanced ++ more) balanced None) }
{
    let mut puts = PutList::none();
    match begin_asking(view, &mut puts, balanced) {
        Ok(()) => Ok(puts),
        Err(answer) => Err(answer),
    }
}

/// Returns what a dispatch returns before puts are judged, if anything: `Idle` where too little is known, else what is wrong with
/// what is held, else the conflict of the terms, with its values in the base units of the slot.
pub fn ended(balanced: Balanced, fault: Option<Solved>) -> Option<Solved>
    ensures { MatchOption result
        ((fit : Put → Bool) (puts : List Put)
        → answer fit puts balanced fault ≡ answer_of_puts fit puts)
        (λ ended. (fit : Put → Bool) (puts : List Put) → answer fit puts balanced fault ≡ ended) }
{
    match (balanced, fault) {
        (Balanced::Idle, _) => Some(Solved::Idle),
        (_, Some(fault)) => Some(fault),
        (
            Balanced::Conflicts {
                place,
                held,
                solved,
            },
            None,
        ) => Some(Solved::Conflict {
            place,
            held,
            solved,
        }),
        (Balanced::Holds | Balanced::Solves { .. }, None) => None,
    }
}

/// Returns the answer of an object that puts the solved term and nothing else, in the base units of its slot's dimension.
#[inline(always)]
pub fn put_solved(view: &View, balanced: Balanced) -> Solved
    ensures { result ≡ answer (is_bounded view.entry.now) (solved_put balanced) balanced None }
{
    match begin_puts(view, balanced) {
        Ok(puts) => Solved::Puts(puts),
        Err(answer) => answer,
    }
}

fn held_by(content: Option<Content>) -> Given
    ensures { result ≡ held_by content }
{
    match content {
        Some(content) => Given {
            value: content.value.get(),
            number: content.number,
        },
        None => Given {
            value: 0,
            number: 0,
        },
    }
}

/// Returns what a place holds once the balance is solved: what was just solved, or what is known, in the base units of its slot's
/// dimension, and 0 where nothing is.
pub fn known_after(view: &View, balanced: Balanced, place: u8) -> Given
    requires { AllFit (is_bounded view.now) (solved_put balanced) }
    ensures { result ≡ known_after view.entry.now balanced place }
{
    match balanced {
        Balanced::Solves {
            place: solved,
            value,
            number,
        } if solved == place => Given {
            value: quantity(value).get(),
            number,
        },
        _ => held_by(view.known(place)),
    }
}

// What a put gives its slot.
fn given_by(put: Put) -> Given
    ensures { result ≡ record { value = put.value; number = put.number } }
{
    Given {
        value: put.value.get(),
        number: put.number,
    }
}

/// Returns what a place holds after these puts: what one of them puts there, or what is known, in the base units of its slot's
/// dimension, and 0 where nothing is.
pub fn held_after(view: &View, puts: &[Put], place: u8) -> Given
    ensures { result ≡ held_after_puts view.entry.now puts.now place }
{
    for put in puts {
        if put.place == place {
            return given_by(*put);
        }
    }
    held_by(view.known(place))
}
