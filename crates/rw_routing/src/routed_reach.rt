//! Solves routed reaches.
ghost use Rattle.std.specs.Prelude.{◌≡◌, ◌≤◌, ◌+ℤ◌, ◌-ℤ◌, ◌++◌, ℤ, pos, None, option_map};
ghost use Rattle.std.specs.Option.{ForSome};
ghost use Rattle.rw_model.specs.declared.limits.TheConstants.{PARTS};
ghost use Rattle.rw_model.specs.declared.kind.Kind.TheVariants as Kind;
ghost use Rattle.rw_method.specs.declared.places.TheConstants.{INFLOW, OUTFLOW};
ghost use Rattle.rw_method.specs.Term.{IsWithin};
ghost use Rattle.rw_method.specs.Balance.{content_before};
ghost use Rattle.rw_method.specs.Puts.{is_bounded, solved_put, content_put, known_after};
ghost use Rattle.rw_method.specs.Solve.{answer, solve_of};

use rw_base::Qty;
use rw_method::places::{CONTENT, INFLOW, OUTFLOW};
use rw_method::{
    Balanced, Given, Method, Release, Share, Solved, View, add_put, begin_puts, known_after,
    solve_balance,
};
use rw_model::Kind;

/// The method of routed reaches: of what the reach holds and of what flows in, a share is released. What is rounded off stays.
#[derive(Debug, Drop)]
pub struct RoutedReachMethod;

// What it held a timestep ago, and 0 where that isn't known.
fn content_before(view: &View) -> i64
    ensures { result ≡ content_before view.entry.now }
{
    match view.past {
        Some(past) => past.get(),
        None => 0,
    }
}

// Nothing flows beside its terms, where what it held is known.
fn steady_of(past: Option<Qty>) -> Option<i128>
    ensures flow { result ≡ option_map (λ content. pos 0) past }
    ensures bound { ForSome result (IsWithin 6) }
{
    match past {
        Some(_) => Some(0),
        None => None,
    }
}

fn held(content: i64, inflow: Given) -> i128
    ensures amount { result ≡ content +ℤ inflow.value }
    ensures bound { IsWithin 2 result }
{
    i128::from(content) + i128::from(inflow.value)
}

fn left(held: i128, outflow: Given) -> i128
    requires { IsWithin 2 held }
    ensures { result ≡ held -ℤ outflow.value }
{
    held - i128::from(outflow.value)
}

// What it answers that puts its solved flow, if one is solved, and what is left.
fn put_content(view: &View, balanced: Balanced) -> Solved
    ensures { result ≡ answer (is_bounded view.entry.now)
        (solved_put balanced ++ content_put (content_before view.entry.now)
        (known_after view.entry.now balanced INFLOW)
        (known_after view.entry.now balanced OUTFLOW)) balanced None }
{
    let mut puts = match begin_puts(view, balanced) {
        Ok(puts) => puts,
        Err(answer) => return answer,
    };
    let inflow = known_after(view, balanced, INFLOW);
    let outflow = known_after(view, balanced, OUTFLOW);
    let held = held(content_before(view), inflow);
    let left = left(held, outflow);
    if let Err(answer) = add_put(view, &mut puts, CONTENT, left, outflow.number) {
        return answer;
    }
    Solved::Puts(puts)
}

pub(crate) fn solve_routed_reach(view: &View, release: u16) -> Solved
    requires some { 1 ≤ release }
    requires most { release ≤ PARTS }
    ensures { (initial_content : ℤ)
        → result ≡ solve_of (Kind.RoutedReach initial_content release) view.entry.now }
{
    let routes = Share::Routes {
        content: content_before(view),
        release: Release::of(release),
    };
    let terms = [view.term(routes, INFLOW), view.term(Share::Takes, OUTFLOW)];
    put_content(view, solve_balance(steady_of(view.past), &terms))
}

impl Method for RoutedReachMethod {
    ghost code = { λ _. 9 };

    fn code(&self) -> u8 {
        9
    }

    fn solve(&self, kind: &Kind, view: &View, solved: &mut Solved) {
        match kind {
            Kind::RoutedReach { release, .. } => *solved = solve_routed_reach(view, *release),
            _ => unreachable!(),
        }
    }
}
