//! Solves canals.
ghost use Rattle.std.specs.Prelude.{◌≡◌, ◌≤◌, ◌-ℤ◌, [], None};
ghost use Rattle.rw_model.specs.declared.limits.TheConstants.{SEEPAGE_MAX};
ghost use Rattle.rw_model.specs.declared.kind.Kind.TheVariants as Kind;
ghost use Rattle.rw_method.specs.declared.places.TheConstants.{INFLOW, OUTFLOW};
ghost use Rattle.rw_method.specs.Puts.{is_bounded, canal_puts, puts_or_answer};
ghost use Rattle.rw_method.specs.Solve.{answer, solve_of};

use rw_method::places::{INFLOW, OUTFLOW, SEEPAGE};
use rw_method::{
    Balanced, Given, Method, PutList, Seepage, Share, Solved, View, add_put, begin_asking,
    known_after, solve_balance,
};
use rw_model::Kind;

/// The method of canals: a part of what flows in seeps away.
#[derive(Debug, Drop)]
pub struct CanalMethod;

fn seeping(inflow: Given, outflow: Given) -> i128
    ensures { result ≡ inflow.value -ℤ outflow.value }
{
    i128::from(inflow.value) - i128::from(outflow.value)
}

// Puts its solved flow, if one is solved, and what seeps away.
#[inline(always)]
fn ask_seepage(view: &View, puts: &mut PutList, balanced: Balanced) -> Result<(), Solved>
    requires { puts.old ≡ [] }
    ensures { puts_or_answer puts.new result
        ≡ answer (is_bounded view.entry.now) (canal_puts view.entry.now balanced) balanced None }
{
    if let Err(answer) = begin_asking(view, puts, balanced) {
        return Err(answer);
    }
    let inflow = known_after(view, balanced, INFLOW);
    let outflow = known_after(view, balanced, OUTFLOW);
    let seeping = seeping(inflow, outflow);
    if let Err(answer) = add_put(view, puts, SEEPAGE, seeping, inflow.number) {
        return Err(answer);
    }
    Ok(())
}

// Answers what puts its solved flow, if one is solved, and what seeps away.
#[inline(always)]
fn put_seepage(view: &View, balanced: Balanced, solved: &mut Solved)
    ensures { solved.new
        ≡ answer (is_bounded view.entry.now) (canal_puts view.entry.now balanced) balanced None }
{
    solved.clear();
    let asked = match solved {
        Solved::Puts(puts) => ask_seepage(view, puts, balanced),
        _ => Ok(()),
    };
    if let Err(answer) = asked {
        *solved = answer;
    }
}

pub(crate) fn solve_canal(view: &View, seepage: u16, solved: &mut Solved)
    requires { seepage ≤ SEEPAGE_MAX }
    ensures { solved.new ≡ solve_of (Kind.Canal seepage) view.entry.now }
{
    let terms = [
        view.term(Share::Conveys(Seepage::of(seepage)), INFLOW),
        view.term(Share::Takes, OUTFLOW),
    ];
    match solve_balance(Some(0), &terms) {
        Balanced::Idle => *solved = Solved::Idle,
        balanced => put_seepage(view, balanced, solved),
    }
}

impl Method for CanalMethod {
    ghost code = { λ _. 7 };

    fn code(&self) -> u8 {
        7
    }

    fn solve(&self, kind: &Kind, view: &View, solved: &mut Solved) {
        match kind {
            Kind::Canal { seepage } => solve_canal(view, *seepage, solved),
            _ => unreachable!(),
        }
    }
}
