//! Tests a session of batches of edits, of a dam over two days, in which a batch that is refused for want of memory is applied
//! once more. Here none is refused. `tests/memory/session` lets each request of this test for memory fail, in turn.
ghost use Rattle.std.specs.Prelude.{◌≡◌, ◌<◌, ◌≤◌, All, Ok, length, map};
ghost use Rattle.rpl_verify.specs.Verified.{verified};
ghost use Rattle.rw_inputs.specs.Edits.{IsBatch};
ghost use Rattle.rw_method.specs.Catalogue.{AreInOrder};
ghost use Rattle.rw_rerun.specs.Session.{IsSessionOf};

use crate::methods::{all_methods, predefs};
use crate::shared::{basin, has_bytes, lasting};
use rpl_code::read_code;
use rpl_predef::Predefs;
use rpl_verify::{Verified, verify};
use rw_base::{Blank, Ledger, NoMemory, Steps};
use rw_calls::{Session, run_all};
use rw_inputs::{Batch, read_edits, read_inputs};
use rw_method::Catalogue;
use rw_model::Basin;
use rw_report::section;
use std::alloc::Global;
use std::marker::Brand;
use std::mem::drop;
use std::process::Abort;
use std::test::Fail;

const DAM: &str = r#"
format = 1
[run]
start = "2020-01-01T00:00"
step = "24h"
steps = 2
[[object]]
name = "Dam"
kind = "reservoir"
initial_storage = 1000
"#;

// Rule 1 holds the dam at 1020, and rule 2 lets 50 out of it.
const CAP_AND_BASE: &str =
    "CODE 1\nRULE\nLOCALS -\nslot Dam.Storage\nnow\nread\nnum 1020\ncall Min\nput Dam.Storage 0\nEND\nRULE\nLOCALS -\nnum 50\nput Dam.Outflow 0\nEND\n";

const INFLOWS: &str = "slot,step,value\nDam.Inflow,1-2,100\n";

const EDITS: &str = "batch,slot,step,value
1,Dam.Inflow,2,130
2,Dam.Inflow,1,20
3,Dam.Inflow,1,20
4,Dam.Outflow,2,5000
";

// More flows in on the second day, which alone is run again.
const SECOND_DAY: &str = "# batch 1 settled
# reran 2
step,stamp,Dam.Inflow,Dam.Outflow,Dam.Storage
1,2020-01-02T00:00,100,80,1020
2,2020-01-03T00:00,130,130,1020
# flags
step,Dam.Inflow,Dam.Outflow,Dam.Storage
1,I0,O1,R1
2,I0,O1,R1
# trace
open 1
idle Dam
fire 2 done 2
  Dam.Outflow 1 50 R2
solve Dam
  Dam.Storage 1 1050 O2
fire 1 done 6
  Dam.Storage 1 1020 R1
solve Dam
  Dam.Outflow 1 80 O1
fire 1 done 6
close 1
open 2
idle Dam
fire 2 done 2
  Dam.Outflow 2 50 R2
solve Dam
  Dam.Storage 2 1100 O2
fire 1 done 6
  Dam.Storage 2 1020 R1
solve Dam
  Dam.Outflow 2 130 O1
fire 1 done 6
close 2
";

// Less flows in on the first day, and the dam holds less behind it.
const BOTH_DAYS: &str = "# batch 2 settled
# reran 1 2
step,stamp,Dam.Inflow,Dam.Outflow,Dam.Storage
1,2020-01-02T00:00,20,50,970
2,2020-01-03T00:00,130,80,1020
# flags
step,Dam.Inflow,Dam.Outflow,Dam.Storage
1,I0,R2,R1
2,I0,O1,R1
# trace
open 1
idle Dam
fire 2 done 2
  Dam.Outflow 1 50 R2
solve Dam
  Dam.Storage 1 970 O2
fire 1 done 6
  Dam.Storage 1 970 R1
solve Dam
close 1
open 2
idle Dam
fire 2 done 2
  Dam.Outflow 2 50 R2
solve Dam
  Dam.Storage 2 1050 O2
fire 1 done 6
  Dam.Storage 2 1020 R1
solve Dam
  Dam.Outflow 2 80 O1
fire 1 done 6
close 2
";

// The same edit once more.
const NO_DAY: &str = "# batch 3 settled
# reran none
step,stamp,Dam.Inflow,Dam.Outflow,Dam.Storage
1,2020-01-02T00:00,20,50,970
2,2020-01-03T00:00,130,80,1020
# flags
step,Dam.Inflow,Dam.Outflow,Dam.Storage
1,I0,R2,R1
2,I0,O1,R1
# trace
open 1
idle Dam
fire 2 done 2
  Dam.Outflow 1 50 R2
solve Dam
  Dam.Storage 1 970 O2
fire 1 done 6
  Dam.Storage 1 970 R1
solve Dam
close 1
open 2
idle Dam
fire 2 done 2
  Dam.Outflow 2 50 R2
solve Dam
  Dam.Storage 2 1050 O2
fire 1 done 6
  Dam.Storage 2 1020 R1
solve Dam
  Dam.Outflow 2 80 O1
fire 1 done 6
close 2
";

// More is let out on the second day than there is.
const OVERDRAWN: &str = "# batch 4 fault out of range object Dam slot Dam.Storage step 2 value -3900
# reran 2
step,stamp,Dam.Inflow,Dam.Outflow,Dam.Storage
1,2020-01-02T00:00,20,50,970
# flags
step,Dam.Inflow,Dam.Outflow,Dam.Storage
1,I0,R2,R1
# trace
open 1
idle Dam
fire 2 done 2
  Dam.Outflow 1 50 R2
solve Dam
  Dam.Storage 1 970 O2
fire 1 done 6
  Dam.Storage 1 970 R1
solve Dam
close 1
open 2
fault out of range object Dam slot Dam.Storage step 2 value -3900
";

// The code that a text is read as, which is accepted.
fn accepted<'a>(rt: &impl Abort, alloc: Global, basin: &Basin, text: &str) -> &'a Verified
    requires { length text.now ≤ 16_777_216 }
    ensures { verified basin.now result.now.blocks ≡ Ok result.now }
{
    let Ok(code) = read_code(alloc, text.as_bytes()) else {
        panic!(rt; "no code")
    };
    match verify(alloc, code, basin) {
        Ok(policy) => lasting(rt, alloc, policy),
        Err(_) => panic!(rt; "refused"),
    }
}

// Applies a batch, once more where it is refused, for which there is memory then.
fn apply<L: Ledger>(
    rt: &impl Abort,
    basin: &Basin,
    session: &mut Session<'_>,
    batch: &Batch,
    steps: &mut Steps<L>,
)
    requires basin { session.old.session.setup.basin.now ≡ basin.now }
    requires made { IsSessionOf session.old.session.setup.basin.now session.old.session.setup.policy.now
        session.old.session.state }
    requires order { AreInOrder
        (map (λ b. code (b.vtable, b.value)) session.old.session.setup.methods.now.methods.items) }
    requires batch { IsBatch basin.now batch.now }
    ensures basin { session.new.session.setup.basin.now ≡ basin.now }
    ensures made { IsSessionOf session.new.session.setup.basin.now session.new.session.setup.policy.now
        session.new.session.state }
    ensures order { AreInOrder
        (map (λ b. code (b.vtable, b.value)) session.new.session.setup.methods.now.methods.items) }
{
    match session.apply(batch, steps) {
        Ok(()) => {}
        Err(NoMemory) => match session.apply(batch, steps) {
            Ok(()) => {}
            Err(NoMemory) => panic!(rt; "refused once more"),
        },
    }
}

// Whether this is the section of a session's run, its trace, and the days that were run again.
fn is_told(
    rt: &impl Abort,
    alloc: Global,
    basin: &Basin,
    batch: u32,
    session: &Session<'_>,
    want: &str,
) -> bool {
    let run = session.session.run();
    if basin.control().stamps.count() < run.closed {
        return false;
    }
    match section(
        alloc,
        basin,
        batch,
        run,
        Some(session.session.reran()),
        true,
        true,
    ) {
        Ok(text) => has_bytes(&text, want),
        Err(NoMemory) => panic!(rt; "memory"),
    }
}

fn check_batches<L: Ledger>(
    rt: &impl Abort,
    alloc: Global,
    basin: &Basin,
    session: &mut Session<'_>,
    batches: &[Batch],
    steps: &mut Steps<L>,
)
    requires basin { session.old.session.setup.basin.now ≡ basin.now }
    requires made { IsSessionOf session.old.session.setup.basin.now session.old.session.setup.policy.now
        session.old.session.state }
    requires order { AreInOrder
        (map (λ b. code (b.vtable, b.value)) session.old.session.setup.methods.now.methods.items) }
    requires batches { All (IsBatch basin.now) batches.now }
{
    assert!(rt; batches.len() == 4);
    apply(rt, basin, session, &batches[0], steps);
    assert!(rt; is_told(rt, alloc, basin, 1, session, SECOND_DAY));
    apply(rt, basin, session, &batches[1], steps);
    assert!(rt; is_told(rt, alloc, basin, 2, session, BOTH_DAYS));
    apply(rt, basin, session, &batches[2], steps);
    assert!(rt; is_told(rt, alloc, basin, 3, session, NO_DAY));
    apply(rt, basin, session, &batches[3], steps);
    assert!(rt; is_told(rt, alloc, basin, 4, session, OVERDRAWN));
}

fn check_session<L: Ledger>(
    rt: &impl Abort,
    alloc: Global,
    basin: &Basin,
    methods: &Catalogue,
    policy: &Verified,
    predefs: &Predefs,
    steps: &mut Steps<L>,
)
    requires fits { verified basin.now policy.now.blocks ≡ Ok policy.now }
    requires order { AreInOrder (map (λ b. code (b.vtable, b.value)) methods.now.methods.items) }
{
    let inputs = read_inputs(alloc, basin, INFLOWS.as_bytes()).expect(rt, "inputs");
    let batches = read_edits(alloc, basin, EDITS.as_bytes()).expect(rt, "edits");
    match run_all(alloc, basin, methods, policy, predefs, &inputs, steps) {
        Ok(run) => {
            assert!(rt; run.closed == 2);
            drop(run);
        }
        Err(NoMemory) => panic!(rt; "memory"),
    }
    match Session::start(alloc, basin, methods, policy, predefs, inputs, true, steps) {
        Ok(mut session) => {
            check_batches(rt, alloc, basin, &mut session, &batches, steps);
            drop(session);
        }
        Err(NoMemory) => panic!(rt; "memory"),
    }
    drop(batches);
}

fn check<L: Ledger>(
    rt: &impl Abort,
    alloc: Global,
    blank: Blank,
    methods: &Catalogue,
    predefs: &Predefs,
)
    requires name { blank.name ≡ L.name }
    requires parts { blank.parts ≡ L.parts }
    requires some { 0 < blank.parts }
    requires order { AreInOrder (map (λ b. code (b.vtable, b.value)) methods.now.methods.items) }
{
    let mut steps = Steps::<L>::of(blank);
    let basin = basin(rt, alloc, DAM);
    let policy = accepted(rt, alloc, basin, CAP_AND_BASE);
    check_session(rt, alloc, basin, methods, policy, predefs, &mut steps);
}

#[test]
fn a_refused_batch_is_applied_once_more(rt: HostRuntime) -> Result<(), Fail> {
    let methods = Catalogue::of(all_methods(rt.alloc())?).expect(&rt, "a catalogue");
    let predefs = predefs(rt.alloc())?;
    check::<Brand>(&rt, rt.alloc(), Blank::new(1), &methods, &predefs);
    Ok(())
}
