//! Solves a power reservoir in a dispatch.
ghost use Rattle.std.specs.Prelude.{◌≡◌, ◌≤◌, ◌≤ℤ◌, ℤ, pos};
ghost use Rattle.rw_model.specs.declared.kind.Kind.TheVariants as Kind;
ghost use Rattle.rw_method.specs.declared.places.TheConstants.{OUTFLOW};
ghost use Rattle.rw_method.specs.Power.{plant, head_of, asked_of, outflow_or};
ghost use Rattle.rw_method.specs.Balance.{lets_out};
ghost use Rattle.rw_method.specs.View.{given};
ghost use Rattle.rw_method.specs.Term.{IsWithin};
ghost use Rattle.std.specs.Option.{ForSome};
ghost use Rattle.rw_method.specs.Solve.{solve_of};
ghost use Rattle.rw_power.specs.Answering.{power_answer};
ghost use Rattle.rw_power.specs.Bounds.{IsFall};

use crate::energy::head_of;
use crate::puts::put_all;
use crate::request::asked;
use rw_method::places::{INFLOW, OUTFLOW};
use rw_method::{
    Given, Method, Share, Solved, Term, View, ended, fault_of_level, solve_balance, stores,
};
use rw_model::Kind;
use rw_table::Rating;

/// The method of power reservoirs: what flows in and does not flow out is stored, and what flows out makes energy.
#[derive(Debug, Drop)]
pub struct PowerReservoirMethod;

// The outflow as a term, which counts as given by what is asked for.
fn lets_out(view: &View, asked: Option<Given>) -> Term
    ensures { result ≡ lets_out (outflow_or asked (given view.entry.now OUTFLOW)) }
{
    let given = match asked {
        Some(asked) => Some(asked),
        None => view.given(OUTFLOW),
    };
    Term {
        place: OUTFLOW,
        share: Share::Takes,
        given,
    }
}

fn steady(view: &View) -> Option<i128>
    ensures flow { result ≡ view.entry.now.past }
    ensures bound { ForSome result (IsWithin 6) }
{
    match view.past {
        Some(storage) => Some(i128::from(storage.get())),
        None => None,
    }
}

// What is answered where nothing is wrong before all else.
fn answer_asked(
    view: &View,
    rating: &Rating,
    max_release: i64,
    power: u16,
    head: i64,
    asked: Option<Given>,
) -> Solved
    requires { IsFall head }
    ensures { (tailwater : ℤ)
        → head ≡ head_of (plant rating.now max_release tailwater power) view.entry.now
        → asked ≡ asked_of (plant rating.now max_release tailwater power) view.entry.now
        → result ≡ power_answer (plant rating.now max_release tailwater power) view.entry.now }
{
    let terms = [
        view.term(Share::Brings, INFLOW),
        lets_out(view, asked),
        stores(view, Some(rating)),
    ];
    let balanced = solve_balance(steady(view), &terms);
    match ended(balanced, fault_of_level(view, Some(rating))) {
        Some(answer) => answer,
        None => put_all(
            view,
            rating,
            max_release,
            power,
            head,
            asked,
            &terms,
            balanced,
        ),
    }
}

// What a dispatch of a power reservoir answers.
fn solve_power(view: &View, rating: &Rating, max_release: i64, tailwater: i64, power: u16) -> Solved
    requires most { pos 0 ≤ℤ max_release }
    requires tailwater { pos 0 ≤ℤ tailwater }
    requires power { 1 ≤ power }
    ensures { (initial_storage : ℤ)
        → result
        ≡ solve_of (Kind.PowerReservoir initial_storage rating.now max_release tailwater power)
        view.entry.now }
{
    let head = head_of(rating, tailwater, view.past);
    match asked(view, rating, max_release, tailwater, power, head) {
        Ok(asked) => answer_asked(view, rating, max_release, power, head, asked),
        Err(fault) => fault,
    }
}

impl Method for PowerReservoirMethod {
    ghost code = { λ _. 8 };

    fn code(&self) -> u8 {
        8
    }

    fn solve(&self, kind: &Kind, view: &View, solved: &mut Solved) {
        match kind {
            Kind::PowerReservoir {
                table,
                max_release,
                tailwater,
                power,
                ..
            } => *solved = solve_power(view, table, *max_release, *tailwater, *power),
            _ => unreachable!(),
        }
    }
}
