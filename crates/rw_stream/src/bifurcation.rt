//! Solves bifurcations.
ghost use Rattle.std.specs.Prelude.{◌≡◌};
ghost use Rattle.rw_model.specs.declared.kind.Kind.TheVariants as Kind;
ghost use Rattle.rw_method.specs.Solve.{solve_of};

use crate::answering::answer_solved;
use rw_method::places::{INFLOW, OUTFLOW_1, OUTFLOW_2};
use rw_method::{Method, Share, Solved, View, solve_balance};
use rw_model::Kind;

/// The method of bifurcations: what flows in is divided into two outflows.
#[derive(Debug, Drop)]
pub struct BifurcationMethod;

pub(crate) fn solve_bifurcation(view: &View, solved: &mut Solved)
    ensures { solved.new ≡ solve_of Kind.Bifurcation view.entry.now }
{
    let terms = [
        view.term(Share::Brings, INFLOW),
        view.term(Share::Takes, OUTFLOW_1),
        view.term(Share::Takes, OUTFLOW_2),
    ];
    answer_solved(view, solve_balance(Some(0), &terms), solved);
}

impl Method for BifurcationMethod {
    ghost code = { λ _. 3 };

    fn code(&self) -> u8 {
        3
    }

    fn solve(&self, kind: &Kind, view: &View, solved: &mut Solved) {
        match kind {
            Kind::Bifurcation => solve_bifurcation(view, solved),
            _ => unreachable!(),
        }
    }
}
