//! Puts the flow that was solved, and the outflow that an energy request asks for.
ghost use Rattle.std.specs.Prelude.{◌≡◌, ◌<◌, ◌+◌, ◌≤◌, ◌∷◌, [], ◌++◌, length, option_map, OnOk, IfErr};
ghost use Rattle.rw_method.specs.Puts.{put, asked_number, beside_flow, flow_puts};
ghost use Rattle.rw_method.specs.Solve.{AllFit};
ghost use Rattle.rw_method.specs.Asking.{Asks, can_get};

use rw_method::places::{INFLOW, OUTFLOW};
use rw_method::{Balanced, Given, PutList, Solved, Term, View, ask, ask_solved, greatest_beside};
use rw_table::Rating;

// A flow that is put.
#[derive(Clone, Copy, Debug, PartialEq, Eq)]
struct Flow {
    place: u8,
    value: i128,
    number: u16,
}

// The number with which the outflow is put that a request asks for.
fn asked_number(terms: &[Term], balanced: Balanced, number: u16) -> u16
    ensures { result ≡ asked_number terms.now balanced number }
{
    match balanced {
        Balanced::Holds => number.min(greatest_beside(OUTFLOW, terms)),
        _ => number,
    }
}

// Puts two flows, one after the other.
fn ask_two(
    view: &View,
    table: Option<&Rating>,
    puts: &mut PutList,
    one: Flow,
    other: Flow,
) -> Result<(), Solved>
    requires { length puts.old < 7 }
    ensures asks { Asks (can_get (option_map (λ rating. rating.now) table.entry) view.entry.now)
        (put one.place one.value one.number ∷ put other.place other.value other.number ∷ [])
        puts.old puts.new result }
    ensures room { OnOk result (length puts.new ≤ length puts.old + 2) }
{
    match ask(view, table, puts, one.place, one.value, one.number) {
        Ok(()) => ask(view, table, puts, other.place, other.value, other.number),
        Err(answer) => Err(answer),
    }
}

// Puts the flow that was solved, and beside it the outflow that a request asks for, unless that is the one.
fn ask_beside(
    view: &View,
    table: Option<&Rating>,
    puts: &mut PutList,
    asked: Flow,
    solved: Flow,
) -> Result<(), Solved>
    requires { length puts.old < 7 }
    ensures asks { Asks (can_get (option_map (λ rating. rating.now) table.entry) view.entry.now)
        (beside_flow (put asked.place asked.value asked.number)
        (put solved.place solved.value solved.number))
        puts.old puts.new result }
    ensures room { OnOk result (length puts.new ≤ length puts.old + 2) }
{
    if solved.place == OUTFLOW {
        return ask(view, table, puts, solved.place, solved.value, solved.number);
    }
    if solved.place == INFLOW {
        return ask_two(view, table, puts, solved, asked);
    }
    ask_two(view, table, puts, asked, solved)
}

/// Puts what was solved, and next to it the outflow that a request asks for, unless the outflow itself was solved.
pub(crate) fn ask_flows(
    view: &View,
    table: Option<&Rating>,
    puts: &mut PutList,
    asked: Option<Given>,
    terms: &[Term],
    balanced: Balanced,
) -> Result<(), Solved>
    requires { length puts.old < 7 }
    ensures asks { Asks (can_get (option_map (λ rating. rating.now) table.entry) view.entry.now)
        (flow_puts asked terms.now balanced)
        puts.old puts.new result }
    ensures room { OnOk result (length puts.new ≤ length puts.old + 2) }
{
    let Some(asked) = asked else {
        return ask_solved(view, table, puts, balanced);
    };
    let asked = Flow {
        place: OUTFLOW,
        value: i128::from(asked.value),
        number: asked_number(terms, balanced, asked.number),
    };
    match balanced {
        Balanced::Solves {
            place,
            value,
            number,
        } => ask_beside(
            view,
            table,
            puts,
            asked,
            Flow {
                place,
                value,
                number,
            },
        ),
        Balanced::Idle | Balanced::Holds | Balanced::Conflicts { .. } => {
            ask(view, table, puts, asked.place, asked.value, asked.number)
        }
    }
}
