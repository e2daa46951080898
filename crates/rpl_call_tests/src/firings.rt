//! Tests rules of code that are fired in a basin of one reservoir. What they come to was worked out by hand.
ghost use Rattle.std.specs.Prelude.{◌≡◌, ◌≤◌, length, Ok};
ghost use Rattle.rpl_verify.specs.Verified.{verified};

use crate::written::the_later_is_written;
use rpl_code::read_code;
use rpl_fires::{Fired, Fires};
use rpl_machine::Machine;
use rpl_predef::{
    Predef, Predefs, absolute, clamped, greatest, least, mul_div, rounded_down, sign,
};
use rpl_verify::{Verified, verify};
use rw_base::{RuleNo, SlotNo, StepNo};
use rw_calendar::{Stamps, Start, StepLength};
use rw_firing::{FireEnd, RulePut};
use rw_model::{AgendaOrder, Basin, BasinBuilder, Kind, RunControl};
use rw_series::Series;
use rw_table::Rating;
use std::alloc::{AllocError, Global};
use std::mem::drop;
use std::process::Abort;
use std::test::Fail;

// What a firing of a rule comes to: how it ends, what it puts to the outflow, at how many cells it looks, and how much it counts.
struct Want {
    end: FireEnd,
    puts: &'static [i64],
    looks: usize,
    count: u64,
}

// Codes with one rule each.
const ROWS: [(&str, Want); 15] = [
    (
        "CODE 1\nRULE\nLOCALS N\nnum 7\nstore 0\nnum 50\nput Dam.Outflow 0\nEND\n",
        Want {
            end: FireEnd::Done,
            puts: &[50],
            looks: 0,
            count: 4,
        },
    ),
    // A loop over a list.
    (
        "CODE 1\nRULE\nLOCALS N\nnum 4\nnum 5\nlist 2\nforeach 0\nload 0\nput Dam.Outflow 0\nnext\nEND\n",
        Want {
            end: FireEnd::Done,
            puts: &[4, 5],
            looks: 0,
            count: 12,
        },
    ),
    // Whether a cell is known that isn't.
    (
        "CODE 1\nRULE\nLOCALS -\nslot Dam.Inflow\nnow\nknown\nnot\nbranch 7\nnum 1\nput Dam.Outflow 0\ntarget -\nEND\n",
        Want {
            end: FireEnd::Done,
            puts: &[1],
            looks: 1,
            count: 8,
        },
    ),
    // A cell that is unknown, behind a put.
    (
        "CODE 1\nRULE\nLOCALS -\nnum 3\nput Dam.Outflow 0\nslot Dam.Inflow\nnow\nread\nput Dam.Outflow 0\nEND\n",
        Want {
            end: FireEnd::Unknown,
            puts: &[],
            looks: 1,
            count: 5,
        },
    ),
    (
        "CODE 1\nRULE\nLOCALS -\nnum 1\nnum 0\ndiv\nput Dam.Outflow 0\nEND\n",
        Want {
            end: FireEnd::ZeroDivisor,
            puts: &[],
            looks: 0,
            count: 3,
        },
    ),
    // An item beyond the end.
    (
        "CODE 1\nRULE\nLOCALS -\nnum 4\nlist 1\nnum 2\nitem\nput Dam.Outflow 0\nEND\n",
        Want {
            end: FireEnd::OutOfRange(2),
            puts: &[],
            looks: 0,
            count: 5,
        },
    ),
    // A value that the slot can't have.
    (
        "CODE 1\nRULE\nLOCALS -\nnum 5\nput Dam.Outflow 0\nnum -1\nput Dam.Outflow 0\nEND\n",
        Want {
            end: FireEnd::OutOfRange(-1),
            puts: &[],
            looks: 0,
            count: 4,
        },
    ),
    // A loop that makes a list.
    (
        "CODE 1\nRULE\nLOCALS N\nnum 4\nnum 5\nlist 2\nmap 0\nload 0\nnum 10\nmul\nyield\nforeach 0\nload 0\nput Dam.Outflow 0\nnext\nEND\n",
        Want {
            end: FireEnd::Done,
            puts: &[40, 50],
            looks: 0,
            count: 21,
        },
    ),
    // A function with an argument.
    (
        "CODE 1\nFUNCTION N N\nLOCALS -\nload 0\nnum 1\nadd\nEND\nRULE\nLOCALS -\nnum 6\ninvoke 1\nput Dam.Outflow 0\nEND\n",
        Want {
            end: FireEnd::Done,
            puts: &[7],
            looks: 0,
            count: 7,
        },
    ),
    // A list that gets room and a word more.
    (
        "CODE 1\nRULE\nLOCALS N\nnum 1\nlist 1\nwiden 3\nnum 2\nappend\nforeach 0\nload 0\nput Dam.Outflow 0\nnext\nEND\n",
        Want {
            end: FireEnd::Done,
            puts: &[1, 2],
            looks: 0,
            count: 20,
        },
    ),
    // A list of slots, of which one holds a value before the run.
    (
        "CODE 1\nRULE\nLOCALS S\nslot Dam.Inflow\nslot Dam.Storage\nlist 2\nforeach 0\nload 0\nnow\nnum -1\nshift\nknown\nbranch 12\nnum 1\nput Dam.Outflow 0\ntarget -\nnext\nEND\n",
        Want {
            end: FireEnd::Done,
            puts: &[1],
            looks: 0,
            count: 24,
        },
    ),
    // What the storage is before the run.
    (
        "CODE 1\nRULE\nLOCALS -\nslot Dam.Storage\nnow\nnum -1\nshift\nread\nput Dam.Outflow 0\nEND\n",
        Want {
            end: FireEnd::Done,
            puts: &[1000],
            looks: 0,
            count: 6,
        },
    ),
    // Parts of the date.
    (
        "CODE 1\nRULE\nLOCALS -\nnow\nmonth\nput Dam.Outflow 0\nnow\nday\nput Dam.Outflow 0\nnow\nyear\nput Dam.Outflow 0\nEND\n",
        Want {
            end: FireEnd::Done,
            puts: &[5, 17, 2020],
            looks: 0,
            count: 9,
        },
    ),
    // A table, both ways.
    (
        "CODE 1\nRULE\nLOCALS -\nnum 1000\ntoelevation Dam\nput Dam.Outflow 0\nnum 250\ntostorage Dam\nput Dam.Outflow 0\nEND\n",
        Want {
            end: FireEnd::Done,
            puts: &[500, 500],
            looks: 0,
            count: 6,
        },
    ),
    // A predefined function, whose arguments aren't in order.
    (
        "CODE 1\nRULE\nLOCALS -\nnum 9\nnum 2\nnum 7\ncall Clamp\nput Dam.Outflow 0\nnum 7\nnum 3\ncall RoundDown\nput Dam.Outflow 0\nEND\n",
        Want {
            end: FireEnd::Done,
            puts: &[7, 6],
            looks: 0,
            count: 9,
        },
    ),
];

const NOTHING: Want = Want {
    end: FireEnd::Done,
    puts: &[],
    looks: 0,
    count: 0,
};

const START: Start = Start {
    year: 2020,
    month: 5,
    day: 17,
    hour: 0,
};

// A reservoir, for one day.
pub(crate) fn dam(rt: &impl Abort, alloc: Global) -> Basin {
    let control = RunControl {
        stamps: Stamps::of(alloc, START, StepLength::Hours(24), 1).expect(rt, "a day"),
        agenda: AgendaOrder::HighFirst,
        object_limit: 16,
        rule_limit: 1,
        ahead: 0,
    };
    let mut builder = BasinBuilder::begin(alloc, control).expect(rt, "limits in range");
    let rating = Rating::of(alloc, &[(0, 0), (1000, 2000)]).expect(rt, "a table");
    let kind = Kind::Reservoir {
        initial_storage: 1000,
        table: Some(rating),
        local_inflow: false,
        diversion: false,
        return_flow: false,
        evaporation: false,
        max_release: None,
    };
    builder.object("Dam", kind).expect(rt, "a reservoir");
    builder.finish().expect(rt, "a basin")
}

// The code that a text is read as, which is accepted.
pub(crate) fn accepted(rt: &impl Abort, alloc: Global, basin: &Basin, text: &str) -> Verified
    requires { length text.now ≤ 16_777_216 }
    ensures { verified basin.now result.blocks ≡ Ok result }
{
    let Ok(code) = read_code(alloc, text.as_bytes()) else {
        panic!(rt; "no code")
    };
    match verify(alloc, code, basin) {
        Ok(policy) => policy,
        Err(_) => panic!(rt; "refused"),
    }
}

// Whether these are puts of these values to the outflow, for this timestep.
fn are_puts(puts: &[RulePut], values: &[i64]) -> bool {
    if puts.len() != values.len() {
        return false;
    }
    for (put, value) in puts.iter().zip(values) {
        if put.slot != SlotNo(2) || put.value.get() != *value || put.ahead != 0 {
            return false;
        }
    }
    true
}

// A rule that does nothing, with as many locals as there may be.
fn long_locals(alloc: Global) -> Result<String, AllocError> {
    let mut text = String::from_str(alloc, "CODE 1\nRULE\nLOCALS N*4096")?;
    for _ in 0..243 {
        text.push_str(",N*4096")?;
    }
    text.push_str("\nEND\n")?;
    Ok(text)
}

// Whether a firing comes to what is wanted.
fn is_wanted(fired: &Fired<'_>, want: &Want) -> bool {
    fired.end == want.end
        && are_puts(fired.puts, want.puts)
        && fired.looked.len() == want.looks
        && fired.count == want.count
}

// Fires the rule of a code.
fn fire(
    rt: &impl Abort,
    alloc: Global,
    policy: &Verified,
    predefs: &Predefs,
    machine: &mut Machine,
    series: &Series,
    basin: &Basin,
    code: &str,
    want: &Want,
)
    requires { verified basin.now policy.now.blocks ≡ Ok policy.now }
{
    assert!(rt; policy.rule_count() == 1);
    let Ok(()) = machine.prepare(policy) else {
        panic!(rt; "no memory")
    };
    machine.fire(policy, predefs, basin, series, RuleNo(1), StepNo(1));
    let fired = machine.fired();
    assert!(rt; is_wanted(&fired, want), "{code}");
}

// Reads a code and fires its rule.
fn check(
    rt: &impl Abort,
    alloc: Global,
    predefs: &Predefs,
    machine: &mut Machine,
    series: &Series,
    basin: &Basin,
    code: &str,
    want: &Want,
) {
    assert!(rt; code.len() <= 16_777_216);
    let policy = accepted(rt, alloc, basin, code);
    fire(
        rt, alloc, &policy, predefs, machine, series, basin, code, want,
    );
    drop(policy);
}

fn check_all(
    rt: &impl Abort,
    alloc: Global,
    predefs: &Predefs,
    machine: &mut Machine,
    series: &Series,
    basin: &Basin,
) {
    for row in &ROWS {
        check(rt, alloc, predefs, machine, series, basin, row.0, &row.1);
    }
    let Ok(text) = long_locals(alloc) else {
        panic!(rt; "no memory")
    };
    check(
        rt,
        alloc,
        predefs,
        machine,
        series,
        basin,
        text.as_str(),
        &NOTHING,
    );
    drop(text);
    the_later_is_written(rt, alloc, predefs, machine, basin, series);
}

fn check_in(
    rt: &impl Abort,
    alloc: Global,
    predefs: &Predefs,
    machine: &mut Machine,
    basin: &Basin,
) {
    match Series::sized(alloc, basin) {
        Ok(series) => {
            check_all(rt, alloc, predefs, machine, &series, basin);
            drop(series);
        }
        Err(_) => panic!(rt; "no memory"),
    }
}

fn check_in_dam(rt: &impl Abort, alloc: Global, predefs: &Predefs, machine: &mut Machine) {
    let basin = dam(rt, alloc);
    check_in(rt, alloc, predefs, machine, &basin);
    drop(basin);
}

#[test]
fn rules_do_what_was_worked_out(rt: HostRuntime) -> Result<(), Fail> {
    let alloc = rt.alloc();
    let rows = vec![in alloc;
        Predef::of(1, least),
        Predef::of(2, greatest),
        Predef::of(3, absolute),
        Predef::of(4, clamped),
        Predef::of(5, rounded_down),
        Predef::of(6, sign),
        Predef::of(7, mul_div),
    ]?;
    let Ok(predefs) = Predefs::of(rows) else {
        return Err(Fail::from("no predefined functions"));
    };
    let mut machine = Machine::new(alloc);
    check_in_dam(&rt, alloc, &predefs, &mut machine);
    Ok(())
}
