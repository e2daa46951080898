//! Solves gages.
ghost use Rattle.std.specs.Prelude.{◌≡◌};
ghost use Rattle.rw_model.specs.declared.kind.Kind.TheVariants as Kind;
ghost use Rattle.rw_method.specs.Solve.{solve_of};

use crate::answering::answer_solved;
use rw_method::places::{INFLOW, OUTFLOW};
use rw_method::{Method, Share, Solved, View, solve_balance};
use rw_model::Kind;

/// The method of gages: what flows in flows out.
#[derive(Debug, Drop)]
pub struct GageMethod;

pub(crate) fn solve_gage(view: &View, solved: &mut Solved)
    ensures { solved.new ≡ solve_of Kind.Gage view.entry.now }
{
    let terms = [
        view.term(Share::Brings, INFLOW),
        view.term(Share::Takes, OUTFLOW),
    ];
    answer_solved(view, solve_balance(Some(0), &terms), solved);
}

impl Method for GageMethod {
    ghost code = { λ _. 1 };

    fn code(&self) -> u8 {
        1
    }

    fn solve(&self, kind: &Kind, view: &View, solved: &mut Solved) {
        match kind {
            Kind::Gage => solve_gage(view, solved),
            _ => unreachable!(),
        }
    }
}
