//! Solves reaches, with a lag and without one.
ghost use Rattle.std.specs.Prelude.{◌≡◌, ◌+ℤ◌, suc, zero, [], ℕ, ℤ, Bool, List};
ghost use Rattle.std.specs.Option.{ForSome};
ghost use Rattle.rw_model.specs.declared.kind.Kind.TheVariants as Kind;
ghost use Rattle.rw_method.specs.declared.places.TheConstants.{REACH_SIDE};
ghost use Rattle.rw_method.specs.Term.{IsWithin};
ghost use Rattle.rw_method.specs.Balance.{known_sum, side_flows};
ghost use Rattle.rw_method.specs.Solve.{solve_of};

use crate::answering::answer_solved;
use rw_base::Qty;
use rw_method::places::{INFLOW, OUTFLOW, REACH_SIDE};
use rw_method::{Method, Share, Solved, View, side_flows, solve_balance};
use rw_model::Kind;

/// The method of reaches: what flowed in as many timesteps ago as the lag flows out, with the side flows.
#[derive(Debug, Drop)]
pub struct ReachMethod;

fn with_side(past: Qty, side: i128) -> i128
    requires { IsWithin 3 side }
    ensures flow { result ≡ past +ℤ side }
    ensures bound { IsWithin 6 result }
{
    i128::from(past.get()) + side
}

// What flowed in as many timesteps ago as the lag, and what flows in by the side.
fn lagged_outflow(past: Option<Qty>, side: Option<i128>) -> Option<i128>
    requires { ForSome side (IsWithin 3) }
    ensures flow { result ≡ known_sum past side }
    ensures bound { ForSome result (IsWithin 6) }
{
    match (past, side) {
        (Some(past), Some(side)) => Some(with_side(past, side)),
        _ => None,
    }
}

fn solve_unlagged(view: &View, side: Option<i128>, solved: &mut Solved)
    requires { ForSome side (IsWithin 3) }
    ensures { (history : List ℤ) (local_inflow diversion return_flow : Bool)
        → side ≡ side_flows view.entry.now REACH_SIDE local_inflow diversion return_flow
        → solved.new
        ≡ solve_of (Kind.Reach zero history local_inflow diversion return_flow) view.entry.now }
{
    let terms = [
        view.term(Share::Brings, INFLOW),
        view.term(Share::Takes, OUTFLOW),
    ];
    answer_solved(view, solve_balance(side, &terms), solved);
}

fn solve_lagged(view: &View, side: Option<i128>, solved: &mut Solved)
    requires { ForSome side (IsWithin 3) }
    ensures { (lag : ℕ) (history : List ℤ) (local_inflow diversion return_flow : Bool)
        → side ≡ side_flows view.entry.now REACH_SIDE local_inflow diversion return_flow
        → solved.new
        ≡ solve_of (Kind.Reach (suc lag) history local_inflow diversion return_flow)
        view.entry.now }
{
    let terms = [view.term(Share::Takes, OUTFLOW)];
    let steady = lagged_outflow(view.past, side);
    answer_solved(view, solve_balance(steady, &terms), solved);
}

pub(crate) fn solve_reach(
    view: &View,
    lag: u8,
    local_inflow: bool,
    diversion: bool,
    return_flow: bool,
    solved: &mut Solved,
)
    ensures { (history : List ℤ)
        → solved.new
        ≡ solve_of (Kind.Reach lag history local_inflow diversion return_flow) view.entry.now }
{
    let side = side_flows(view, REACH_SIDE, local_inflow, diversion, return_flow);
    if lag == 0 {
        solve_unlagged(view, side, solved);
    } else {
        solve_lagged(view, side, solved);
    }
}

impl Method for ReachMethod {
    ghost code = { λ _. 4 };

    fn code(&self) -> u8 {
        4
    }

    fn solve(&self, kind: &Kind, view: &View, solved: &mut Solved) {
        match kind {
            Kind::Reach {
                lag,
                local_inflow,
                diversion,
                return_flow,
                ..
            } => solve_reach(view, *lag, *local_inflow, *diversion, *return_flow, solved),
            _ => unreachable!(),
        }
    }
}
