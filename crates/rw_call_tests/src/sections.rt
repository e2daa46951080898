//! Tests the sections of two gages: the faults that no run without rules ends in, and a run with values of each length.
use crate::shared::{Held, TWO_GAGES, basin, lasting, none_is_wrong, series_of};
use rw_base::{ObjectNo, RuleNo, SlotNo, StepNo};
use rw_model::Basin;
use rw_report::section;
use rw_run::{Run, RunEnd, RunFault, Trace};
use std::alloc::Global;
use std::process::Abort;

// What passes on the first two days.
const PASSING: &[Held<'static>] = &[
    ("Up", "GageInflow", 1, 70),
    ("Low", "GageInflow", 1, -5),
    ("Low", "GageOutflow", 2, 100_000_000_000_000_000),
];

fn run<'a>(rt: &impl Abort, alloc: Global, basin: &Basin, end: RunEnd, closed: u16) -> &'a Run {
    let run = Run {
        end,
        closed,
        series: series_of(rt, alloc, basin, PASSING),
        trace: Trace::new(alloc),
    };
    lasting(rt, alloc, run)
}

// Whether the section of the run begins with the text, and ends with it where it is to be whole.
fn is_written(
    alloc: Global,
    basin: &Basin,
    batch: u32,
    run: &Run,
    want: &str,
    whole: bool,
) -> bool {
    if basin.control().stamps.count() < run.closed {
        return false;
    }
    match section(alloc, basin, batch, run, None, false, false) {
        Ok(text) => {
            text.as_slice().starts_with(want.as_bytes()) && (!whole || text.len() == want.len())
        }
        Err(_) => false,
    }
}

const SETTLED: &str = "# batch 4294967295 settled
step,stamp,Up.GageInflow,Up.GageOutflow,Low.GageInflow,Low.GageOutflow
1,2020-02-02T00:00,70,-5,-5,
2,2020-02-03T00:00,,,,100000000000000000
3,2020-02-04T00:00,,,,
";

const STOPPED: &str = "# batch 1 fault limit rule 7 step 2 after 20
step,stamp,Up.GageInflow,Up.GageOutflow,Low.GageInflow,Low.GageOutflow
1,2020-02-02T00:00,70,-5,-5,
";

const RULE_LIMIT: RunFault = RunFault::RuleLimit {
    rule: RuleNo(7),
    step: StepNo(2),
    count: 20,
};

fn check_days(rt: &impl Abort, alloc: Global, basin: &Basin) {
    let settled = run(rt, alloc, basin, RunEnd::Settled, 3);
    assert!(rt; is_written(alloc, basin, 4_294_967_295, settled, SETTLED, true));
    let stopped = run(rt, alloc, basin, RunEnd::Fault(RULE_LIMIT), 1);
    assert!(rt; is_written(alloc, basin, 1, stopped, STOPPED, true));
}

// Faults, and the first lines of their sections.
const FAULTS: &[(RunFault, &str)] = &[
    (
        RunFault::Conflict {
            object: ObjectNo(2),
            slot: SlotNo(3),
            step: StepNo(1),
            held: -5,
            solved: 170_141_183_460_469_231_731_687_303_715_884_105_727,
        },
        "# batch 4 fault conflict object Low slot Low.GageInflow step 1 held -5 solved 170141183460469231731687303715884105727\n",
    ),
    (
        RunFault::ZeroDivisor {
            rule: RuleNo(12),
            step: StepNo(3),
        },
        "# batch 4 fault division by zero rule 12 step 3\n",
    ),
    (
        RunFault::RuleOutOfRange {
            rule: RuleNo(1),
            step: StepNo(2),
            value: 0,
        },
        "# batch 4 fault out of range rule 1 step 2 value 0\n",
    ),
    (
        RunFault::ObjectLimit {
            object: ObjectNo(2),
            step: StepNo(3),
            count: 50,
        },
        "# batch 4 fault limit object Low step 3 after 50\n",
    ),
    (
        RunFault::ObjectOutOfRange {
            object: ObjectNo(0),
            slot: SlotNo(5),
            step: StepNo(1),
            value: 1,
        },
        "# batch 4 fault out of range object  slot  step 1 value 1\n",
    ),
];

fn is_heading(rt: &impl Abort, alloc: Global, basin: &Basin, fault: RunFault, line: &str) -> bool {
    let run = run(rt, alloc, basin, RunEnd::Fault(fault), 0);
    is_written(alloc, basin, 4, run, line, false)
}

fn first_wrong_heading(
    rt: &impl Abort,
    alloc: Global,
    basin: &Basin,
    rows: &[(RunFault, &str)],
) -> Option<usize> {
    for k in 0..rows.len() {
        let (fault, line) = rows[k];
        if !is_heading(rt, alloc, basin, fault, line) {
            return Some(k);
        }
    }
    None
}

#[test]
fn sections_have_their_fault_and_the_closed_days(rt: HostRuntime) {
    let basin = basin(&rt, rt.alloc(), TWO_GAGES);
    check_days(&rt, rt.alloc(), basin);
    none_is_wrong(&rt, first_wrong_heading(&rt, rt.alloc(), basin, FAULTS));
}
