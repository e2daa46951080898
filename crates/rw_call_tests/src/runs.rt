//! Tests a run of three gages over a day, of which a rule picks who is dispatched, by how many dispatches of the run there were.
ghost use Rattle.std.specs.Prelude.{◌≡◌, ◌==◌, ◌<◌, if◌then◌else◌, map};
ghost use Rattle.rw_dispatch.specs.Pick.{newest, oldest};
ghost use Rattle.rw_method.specs.Catalogue.{AreInOrder};

use crate::methods::{all_methods, predefs};
use crate::records::check_records;
use crate::shared::{basin, lasting, none_is_wrong};
use rpl_machine::Machine;
use rpl_predef::Predefs;
use rpl_verify::Verified;
use rw_base::{Blank, Ledger, NoMemory, ObjectNo, StepNo, Steps};
use rw_dispatch::Pick;
use rw_engine::{Run, RunSetup, TraceEvent, run_by_of};
use rw_inputs::read_inputs;
use rw_method::Catalogue;
use std::alloc::Global;
use std::marker::Brand;
use std::process::Abort;
use std::test::Fail;

const MODEL: &str = r#"
format = 1
[run]
start = "2020-01-01T00:00"
step = "24h"
steps = 1
[[object]]
name = "A"
kind = "gage"
[[object]]
name = "B"
kind = "gage"
[[object]]
name = "C"
kind = "gage"
"#;

// Picks the one that has waited shortest for the second dispatch, and the one that has waited longest for all others.
struct SecondIsNewest;

impl Pick for SecondIsNewest {
    ghost rule = { λ _ turn waits. if turn == 1 then newest turn waits else oldest turn waits };

    fn pick(&self, turn: u64, waiting: &[ObjectNo]) -> usize {
        if turn == 1 { waiting.len() - 1 } else { 0 }
    }
}

fn run<'a, L: Ledger>(
    rt: &impl Abort,
    alloc: Global,
    methods: &Catalogue,
    predefs: &Predefs,
    machine: &mut Machine,
    steps: &mut Steps<L>,
) -> &'a Run
    requires { AreInOrder (map (λ b. code (b.vtable, b.value)) methods.now.methods.items) }
{
    let basin = basin(rt, alloc, MODEL);
    let none = lasting(rt, alloc, Verified::none(alloc));
    let Ok(inputs) = read_inputs(alloc, basin, b"slot,step,value\n") else {
        panic!(rt; "no inputs")
    };
    let setup = RunSetup {
        basin,
        methods,
        policy: none,
        predefs,
    };
    match run_by_of(
        alloc,
        machine,
        &setup,
        &inputs,
        &SecondIsNewest,
        true,
        steps,
    ) {
        Ok(run) => lasting(rt, alloc, run),
        Err(NoMemory) => panic!(rt; "memory"),
    }
}

fn first_wrong_line(run: &Run, lines: &[TraceEvent]) -> Option<usize> {
    for k in 0..lines.len() {
        if run.trace.line(k) != Some(lines[k]) {
            return Some(k);
        }
    }
    None
}

fn check_lines(rt: &impl Abort, run: &Run) {
    let lines = [
        TraceEvent::Opened(StepNo(1)),
        TraceEvent::Idle(ObjectNo(1)),
        TraceEvent::Idle(ObjectNo(3)),
        TraceEvent::Idle(ObjectNo(2)),
        TraceEvent::Closed(StepNo(1)),
    ];
    none_is_wrong(rt, first_wrong_line(run, &lines));
    assert!(rt; run.trace.len() == 5);
}

fn check<L: Ledger>(
    rt: &impl Abort,
    alloc: Global,
    blank: Blank,
    methods: &Catalogue,
    predefs: &Predefs,
    machine: &mut Machine,
)
    requires name { blank.name ≡ L.name }
    requires parts { blank.parts ≡ L.parts }
    requires some { 0 < blank.parts }
    requires order { AreInOrder (map (λ b. code (b.vtable, b.value)) methods.now.methods.items) }
{
    let mut steps = Steps::<L>::of(blank);
    check_lines(rt, run(rt, alloc, methods, predefs, machine, &mut steps));
    check_records(rt, alloc, methods, predefs, &mut steps);
}

#[test]
fn runs_and_records_are_those_worked_out(rt: HostRuntime) -> Result<(), Fail> {
    let methods = Catalogue::of(all_methods(rt.alloc())?).expect(&rt, "a catalogue");
    let predefs = predefs(rt.alloc())?;
    let mut machine = Machine::new(rt.alloc());
    check::<Brand>(
        &rt,
        rt.alloc(),
        Blank::new(1),
        &methods,
        &predefs,
        &mut machine,
    );
    Ok(())
}
