//! Solves confluences.
ghost use Rattle.std.specs.Prelude.{◌≡◌};
ghost use Rattle.rw_model.specs.declared.kind.Kind.TheVariants as Kind;
ghost use Rattle.rw_method.specs.Solve.{solve_of};

use crate::answering::answer_solved;
use rw_method::places::{INFLOW_1, INFLOW_2, JOINED_OUTFLOW};
use rw_method::{Method, Share, Solved, View, solve_balance};
use rw_model::Kind;

/// The method of confluences: the two inflows flow out together.
#[derive(Debug, Drop)]
pub struct ConfluenceMethod;

pub(crate) fn solve_confluence(view: &View, solved: &mut Solved)
    ensures { solved.new ≡ solve_of Kind.Confluence view.entry.now }
{
    let terms = [
        view.term(Share::Brings, INFLOW_1),
        view.term(Share::Brings, INFLOW_2),
        view.term(Share::Takes, JOINED_OUTFLOW),
    ];
    answer_solved(view, solve_balance(Some(0), &terms), solved);
}

impl Method for ConfluenceMethod {
    ghost code = { λ _. 2 };

    fn code(&self) -> u8 {
        2
    }

    fn solve(&self, kind: &Kind, view: &View, solved: &mut Solved) {
        match kind {
            Kind::Confluence => solve_confluence(view, solved),
            _ => unreachable!(),
        }
    }
}
