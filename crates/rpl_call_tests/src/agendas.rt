//! Tests an agenda of two rules that is asked which of them is due.
ghost use Rattle.std.specs.Prelude.{◌≡◌, [], ◌∷◌};
ghost use Rattle.rw_agenda.specs.Agenda.{unfired};

use crate::firings::dam;
use rw_agenda::Agenda;
use rw_base::RuleNo;
use rw_model::{AgendaOrder, Basin};
use rw_series::Series;
use std::alloc::Global;
use std::mem::drop;
use std::process::Abort;

// Two rules that look at nothing: each is due once in a timestep, in order.
fn each_is_due_once(agenda: &mut Agenda, series: &Series) -> bool
    requires { agenda.old.rules ≡ unfired 1 ∷ unfired 0 ∷ [] }
{
    let first = agenda.next(series);
    agenda.fired(RuleNo(1), &[]);
    let second = agenda.next(series);
    agenda.fired(RuleNo(2), &[]);
    let third = agenda.next(series);
    agenda.begin_step();
    let anew = agenda.next(series);
    first == Some(RuleNo(1))
        && second == Some(RuleNo(2))
        && third.is_none()
        && anew == Some(RuleNo(1))
}

fn check(rt: &impl Abort, alloc: Global, basin: &Basin) {
    let Ok(mut agenda) = Agenda::for_rules(alloc, basin, &[1, 0]) else {
        panic!(rt; "no memory")
    };
    let Ok(series) = Series::sized(alloc, basin) else {
        panic!(rt; "no memory")
    };
    assert!(rt; basin.control().agenda == AgendaOrder::HighFirst);
    assert!(rt; each_is_due_once(&mut agenda, &series));
    drop(agenda);
    drop(series);
}

#[test]
fn rules_are_due_in_order(rt: HostRuntime) {
    let alloc = rt.alloc();
    let basin = dam(&rt, alloc);
    check(&rt, alloc, &basin);
    drop(basin);
}
