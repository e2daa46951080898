//! Solves water users.
ghost use Rattle.std.specs.Prelude.{◌≡◌, ℕ, ◌-ℤ◌, [], None};
ghost use Rattle.std.specs.Option.{ForSome};
ghost use Rattle.rw_method.specs.declared.places.TheConstants.{DIVERSION};
ghost use Rattle.rw_method.specs.Term.{IsWithin, per_mille};
ghost use Rattle.rw_method.specs.View.{known_value};
ghost use Rattle.rw_model.specs.declared.kind.Kind.TheVariants as Kind;
ghost use Rattle.rw_method.specs.Puts.{is_bounded, water_user_puts, puts_or_answer};
ghost use Rattle.rw_method.specs.Solve.{answer, balanced_of, solve_of};

use rw_method::places::{DEPLETION, DIVERSION, DIVERSION_REQUEST, RETURN_FLOW};
use rw_method::{
    Balanced, Given, Method, PutList, Share, Solved, View, add_put, begin_asking, known_after,
    per_mille, solve_balance,
};
use rw_model::{Kind, Supply};

/// The method of water users: a part of what is diverted is consumed, and the rest flows back.
#[derive(Debug, Drop)]
pub struct WaterUserMethod;

// The flow in a place, if it is known.
fn known_flow(view: &View, place: u8) -> Option<i128>
    ensures flow { result ≡ known_value view.entry.now place }
    ensures bound { ForSome result (IsWithin 6) }
{
    match view.known_value(place) {
        Some(value) => Some(i128::from(value)),
        None => None,
    }
}

fn used_up(diversion: Given, depletion: u16) -> i128
    ensures amount { result ≡ per_mille diversion.value depletion }
    ensures bound { IsWithin 1 result }
{
    per_mille(diversion.value, depletion)
}

fn flowing_back(diversion: Given, used: i128) -> i128
    requires { IsWithin 1 used }
    ensures { result ≡ diversion.value -ℤ used }
{
    i128::from(diversion.value) - used
}

// What its diversion comes to: it is the request, or is set by a rule.
fn balanced_by(view: &View, supply: Supply) -> Balanced
    ensures { (depletion : ℕ)
        → result ≡ balanced_of (Kind.WaterUser depletion supply) view.entry.now }
{
    match supply {
        Supply::Request => solve_balance(
            known_flow(view, DIVERSION_REQUEST),
            &[view.term(Share::Takes, DIVERSION)],
        ),
        Supply::Rule => solve_balance(known_flow(view, DIVERSION), &[]),
    }
}

// Puts its diversion, if that is solved, and what is used up and flows back of it.
#[inline(always)]
fn ask_uses(
    view: &View,
    puts: &mut PutList,
    depletion: u16,
    balanced: Balanced,
) -> Result<(), Solved>
    requires { puts.old ≡ [] }
    ensures { puts_or_answer puts.new result ≡ answer (is_bounded view.entry.now)
        (water_user_puts depletion view.entry.now balanced) balanced None }
{
    if let Err(answer) = begin_asking(view, puts, balanced) {
        return Err(answer);
    }
    let diversion = known_after(view, balanced, DIVERSION);
    let used = used_up(diversion, depletion);
    if let Err(answer) = add_put(view, puts, DEPLETION, used, diversion.number) {
        return Err(answer);
    }
    let back = flowing_back(diversion, used);
    if let Err(answer) = add_put(view, puts, RETURN_FLOW, back, diversion.number) {
        return Err(answer);
    }
    Ok(())
}

// Answers what puts its diversion, if that is solved, and what is used up and flows back of it.
#[inline(always)]
fn put_uses(view: &View, depletion: u16, balanced: Balanced, solved: &mut Solved)
    ensures { solved.new ≡ answer (is_bounded view.entry.now)
        (water_user_puts depletion view.entry.now balanced) balanced None }
{
    solved.clear();
    let asked = match solved {
        Solved::Puts(puts) => ask_uses(view, puts, depletion, balanced),
        _ => Ok(()),
    };
    if let Err(answer) = asked {
        *solved = answer;
    }
}

pub(crate) fn solve_user(view: &View, depletion: u16, supply: Supply, solved: &mut Solved)
    ensures { solved.new ≡ solve_of (Kind.WaterUser depletion supply) view.entry.now }
{
    match balanced_by(view, supply) {
        Balanced::Idle => *solved = Solved::Idle,
        balanced => put_uses(view, depletion, balanced, solved),
    }
}

impl Method for WaterUserMethod {
    ghost code = { λ _. 6 };

    fn code(&self) -> u8 {
        6
    }

    fn solve(&self, kind: &Kind, view: &View, solved: &mut Solved) {
        match kind {
            Kind::WaterUser { depletion, supply } => {
                solve_user(view, *depletion, *supply, solved);
            }
            _ => unreachable!(),
        }
    }
}
