//! Tests the record of the first of three days of a lake, of which all is given but what flows out.
ghost use Rattle.std.specs.Prelude.{◌≡◌, ◌<◌, IsErr, Ok, map};
ghost use Rattle.rpl_verify.specs.Verified.{verified};
ghost use Rattle.rw_engine.specs.Shows.{IsEngineOf};
ghost use Rattle.rw_method.specs.Catalogue.{AreInOrder};
ghost use Rattle.rw_model.specs.Turn.{IsStep};

use crate::shared::{basin, lasting, none_is_wrong};
use rpl_predef::Predefs;
use rpl_verify::Verified;
use rw_base::{Ledger, NoMemory, StepNo, Steps};
use rw_calls::Engine;
use rw_engine::{Held, StepEnd, StepRecord};
use rw_inputs::read_inputs;
use rw_method::Catalogue;
use rw_model::Basin;
use std::alloc::Global;
use std::process::Abort;

const MODEL: &str = r#"
format = 1
[run]
start = "2020-02-01T00:00"
step = "24h"
steps = 3
[[object]]
name = "Lake"
kind = "reservoir"
initial_storage = 500
table = [[0, 0], [1000, 1000]]
"#;

const INPUTS: &str =
    "slot,step,value\nLake.Inflow,1,100\nLake.Storage,1,550\nLake.PoolElevation,1,550\n";

// Slots, and what they hold.
const LOOKED: &[(u16, Option<i64>)] = &[(1, Some(100)), (2, None), (3, Some(550)), (4, Some(550))];

fn is_look(found: &Held, slot: u16, want: Option<i64>) -> bool {
    found.cell.slot.0 == slot
        && found.cell.step.0 == 1
        && match found.content {
            Some(content) => want == Some(content.value.get()),
            None => want.is_none(),
        }
}

fn first_wrong_look(looked: &[Held], want: &[(u16, Option<i64>)]) -> Option<usize> {
    for k in 0..want.len() {
        if looked.len() <= k || !is_look(&looked[k], want[k].0, want[k].1) {
            return Some(k);
        }
    }
    None
}

// The lake looked at its four slots, of which its put reached one. The lines are those of the opening, of the lake that solves, of its
// outflow, and of the closing.
fn check_record(rt: &impl Abort, kept: &StepRecord) {
    none_is_wrong(rt, first_wrong_look(kept.looked(), LOOKED));
    assert!(rt; kept.looked().len() == 4 && kept.lines().len() == 4 && kept.step() == StepNo(1));
}

// The record of the timestep that an engine closed last.
fn last_record<'a>(rt: &impl Abort, alloc: Global, engine: &Engine) -> &'a StepRecord {
    match engine.engine.last_record(alloc) {
        Ok(Some(kept)) => lasting(rt, alloc, kept),
        _ => panic!(rt; "no record"),
    }
}

// An engine of the inputs, for which there is memory, and which is never freed.
fn begun<'a>(rt: &impl Abort, alloc: Global, basin: &Basin, policy: &Verified) -> &'a mut Engine
    requires { verified basin.now policy.now.blocks ≡ Ok policy.now }
    ensures { IsEngineOf basin.now policy.now result.now.engine }
{
    let Ok(inputs) = read_inputs(alloc, basin, INPUTS.as_bytes()) else {
        panic!(rt; "no inputs")
    };
    match Engine::for_run(alloc, basin, policy, &inputs) {
        Ok(engine) => match Box::new(alloc, engine) {
            Ok(kept) => Box::leak(kept),
            Err(_) => panic!(rt; "memory"),
        },
        Err(NoMemory) => panic!(rt; "memory"),
    }
}

// Passes the first day. A timestep for which there is no memory isn't counted.
fn pass<L: Ledger>(
    basin: &Basin,
    methods: &Catalogue,
    policy: &Verified,
    predefs: &Predefs,
    engine: &mut Engine,
    steps: &mut Steps<L>,
) -> Result<StepEnd, NoMemory>
    requires made { IsEngineOf basin.now policy.now engine.old.engine }
    requires order { AreInOrder (map (λ b. code (b.vtable, b.value)) methods.now.methods.items) }
    requires day { IsStep basin.now 1 }
    ensures { IsErr result → steps.new ≡ steps.old }
{
    engine.run_step(basin, methods, policy, predefs, StepNo(1), steps)
}

/// Tests that the record of a day has what the lake looked at, and what its puts reached.
pub(crate) fn check_records<L: Ledger>(
    rt: &impl Abort,
    alloc: Global,
    methods: &Catalogue,
    predefs: &Predefs,
    steps: &mut Steps<L>,
)
    requires { AreInOrder (map (λ b. code (b.vtable, b.value)) methods.now.methods.items) }
{
    let basin = basin(rt, alloc, MODEL);
    assert!(rt; basin.control().stamps.count() == 3);
    let none = lasting(rt, alloc, Verified::none(alloc));
    let engine = begun(rt, alloc, basin, none);
    match pass(basin, methods, none, predefs, engine, steps) {
        Ok(StepEnd::Closed) => check_record(rt, last_record(rt, alloc, engine)),
        _ => panic!(rt; "the first day isn't closed"),
    }
}
