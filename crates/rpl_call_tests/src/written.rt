//! Tests a firing with two puts to one slot, of which the later one is written.
ghost use Rattle.std.specs.Prelude.{◌≡◌, Ok};
ghost use Rattle.rpl_verify.specs.Verified.{verified};
ghost use Rattle.rw_rules.specs.Firing.{IsRuleTurn};

use crate::firings::accepted;
use rpl_fires::Fires;
use rpl_machine::Machine;
use rpl_predef::Predefs;
use rpl_verify::Verified;
use rw_base::{RuleNo, StepNo};
use rw_firing::FireEnd;
use rw_model::Basin;
use rw_rules::{RuleSetup, Rules, fire, reads};
use rw_run::Write;
use rw_series::Series;
use rw_writes::Writes;
use std::alloc::Global;
use std::mem::drop;
use std::process::Abort;

const CODE: &str =
    "CODE 1\nRULE\nLOCALS N\nnum 4\nnum 5\nlist 2\nforeach 0\nload 0\nput Dam.Outflow 0\nnext\nEND\n";

// Whether one write is of this value, with priority 1.
fn is_only(writes: &[Write], value: i64) -> bool {
    writes.len() == 1 && writes[0].content.value.get() == value && writes[0].content.number == 1
}

fn no_rule_looks(rt: &impl Abort, alloc: Global, basin: &Basin, policy: &Verified)
    requires { verified basin.now policy.now.blocks ≡ Ok policy.now }
{
    let Ok(most) = reads(alloc, policy, basin) else {
        panic!(rt; "no memory")
    };
    assert!(rt; most.len() == 1 && most[0] == 0);
}

fn is_one_rule_of_one_day(rt: &impl Abort, basin: &Basin, policy: &Verified)
    requires { verified basin.now policy.now.blocks ≡ Ok policy.now }
    ensures { IsRuleTurn basin.now policy.now 1 1 }
{
    assert!(rt; policy.rule_count() == 1);
    assert!(rt; basin.control().stamps.count() == 1);
}

fn is_fired(
    rt: &impl Abort,
    alloc: Global,
    predefs: &Predefs,
    machine: &mut Machine,
    basin: &Basin,
    series: &Series,
    policy: &Verified,
)
    requires { verified basin.now policy.now.blocks ≡ Ok policy.now }
{
    let Ok(mut writes) = Writes::with_room(alloc) else {
        panic!(rt; "no memory")
    };
    is_one_rule_of_one_day(rt, basin, policy);
    let setup = RuleSetup {
        basin,
        policy,
        predefs,
    };
    let Ok(()) = machine.prepare(policy) else {
        panic!(rt; "no memory")
    };
    fire(machine, &mut writes, &setup, series, RuleNo(1), StepNo(1));
    assert!(rt; machine.fired().count == 12);
    assert!(rt; is_only(writes.written(), 5));
    drop(writes);
}

fn is_fired_of_rules(
    rt: &impl Abort,
    alloc: Global,
    predefs: &Predefs,
    machine: &mut Machine,
    basin: &Basin,
    series: &Series,
    policy: &Verified,
)
    requires { verified basin.now policy.now.blocks ≡ Ok policy.now }
{
    let Ok(mut rules) = Rules::for_policy(alloc, policy, basin) else {
        panic!(rt; "no memory")
    };
    is_one_rule_of_one_day(rt, basin, policy);
    let setup = RuleSetup {
        basin,
        policy,
        predefs,
    };
    let Ok(()) = machine.prepare(policy) else {
        panic!(rt; "no memory")
    };
    let fired = rules.fire(machine, &setup, series, RuleNo(1), StepNo(1));
    assert!(rt; fired.end == FireEnd::Done && fired.count == 12);
    assert!(rt; is_only(rules.written(), 5));
    drop(rules);
}

/// Tests that of two puts to a slot the later one is written.
pub(crate) fn the_later_is_written(
    rt: &impl Abort,
    alloc: Global,
    predefs: &Predefs,
    machine: &mut Machine,
    basin: &Basin,
    series: &Series,
) {
    let policy = accepted(rt, alloc, basin, CODE);
    no_rule_looks(rt, alloc, basin, &policy);
    is_fired(rt, alloc, predefs, machine, basin, series, &policy);
    is_fired_of_rules(rt, alloc, predefs, machine, basin, series, &policy);
    drop(policy);
}
