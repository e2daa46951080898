//! Tests runs by rules: a dam on one day, into which 100 flow. Rule 2 lets 50 out, and the dam comes to hold 1050. Then rule 1
//! holds it at 1020, and the dam lets 80 out.
use crate::rows::runs::none_is_wrong;
use crate::rows::statuses::Text::Whole;
use crate::rows::statuses::{Simulation, runs_by};
use rw_base::NoMemory;
use std::alloc::Global;
use std::test::Fail;

const RUN: [&str; 4] = ["run", "m.toml", "p.rpl", "i.csv"];

const MODEL: &[u8] =
    b"format = 1\n[run]\nstart = \"2020-01-01T00:00\"\nstep = \"24h\"\nsteps = 1\n[[object]]\nname = \"Dam\"\nkind = \"reservoir\"\ninitial_storage = 1000\n";

const INFLOW: &[u8] = b"slot,step,value\nDam.Inflow,1,100\n";

const CAP_AND_BASE: &[u8] =
    b"RULE \"cap\": Dam.Storage[t] := Min(Dam.Storage[t], 1020 \"m3\"); ENDRULE\nRULE \"base\": Dam.Outflow[t] := 50 \"m3/step\"; ENDRULE\n";

const THEIR_CODE: &[u8] =
    b"CODE 1\nRULE\nLOCALS -\nslot Dam.Storage\nnow\nread\nnum 1020\ncall Min\nput Dam.Storage 0\nEND\nRULE\nLOCALS -\nnum 50\nput Dam.Outflow 0\nEND\n";

const BY_ZERO: &[u8] = b"RULE \"none\": Dam.Outflow[t] := 100 \"m3\" / 0 \"step\"; ENDRULE\n";

const CAPPED: Simulation<'static> = Simulation {
    model: MODEL,
    inputs: INFLOW,
    status: 0,
    out: Whole(
        b"# batch 0 settled\nstep,stamp,Dam.Inflow,Dam.Outflow,Dam.Storage\n1,2020-01-02T00:00,100,80,1020\n",
    ),
    err: Whole(b""),
};

const DIVIDED: Simulation<'static> = Simulation {
    model: MODEL,
    inputs: INFLOW,
    status: 1,
    out: Whole(
        b"# batch 0 fault division by zero rule 1 step 1\nstep,stamp,Dam.Inflow,Dam.Outflow,Dam.Storage\n",
    ),
    err: Whole(b""),
};

// Its inputs are no inputs either: the policy is judged before them.
const NO_RULESET: Simulation<'static> = Simulation {
    model: MODEL,
    inputs: b"",
    status: 7,
    out: Whole(b""),
    err: Whole(b"basin: rules: line 2: bad token\n"),
};

const NO_CODE: Simulation<'static> = Simulation {
    model: MODEL,
    inputs: b"",
    status: 9,
    out: Whole(b""),
    err: Whole(b"basin: code: truncated\n"),
};

const NO_INPUTS: Simulation<'static> = Simulation {
    model: MODEL,
    inputs: b"",
    status: 8,
    out: Whole(b""),
    err: Whole(b"basin: inputs: row 1 column 0: header\n"),
};

const TOO_FEW_WORDS: Simulation<'static> = Simulation {
    model: MODEL,
    inputs: INFLOW,
    status: 2,
    out: Whole(b""),
    err: Whole(b"basin: words refused\n"),
};

const RUNS: &[(&[u8], Simulation<'static>)] = &[
    (CAP_AND_BASE, CAPPED),
    (THEIR_CODE, CAPPED),
    (BY_ZERO, DIVIDED),
    (b"\n@\n", NO_RULESET),
    (b"CODE 1\nRULE\n", NO_CODE),
    (CAP_AND_BASE, NO_INPUTS),
];

// The first of the runs, counted from 0, that doesn't come to what is wanted.
fn first_unmet(alloc: Global, rows: &[(&[u8], Simulation<'_>)]) -> Result<Option<usize>, NoMemory> {
    for k in 0..rows.len() {
        let (policy, want) = rows[k];
        if !runs_by(alloc, &RUN, policy, b"", want)? {
            return Ok(Some(k));
        }
    }
    Ok(None)
}

#[test]
fn rules_fire_in_runs(rt: HostRuntime) -> Result<(), Fail> {
    assert!(rt;
        runs_by(
            rt.alloc(),
            &["run", "m.toml", "i.csv"],
            CAP_AND_BASE,
            b"",
            TOO_FEW_WORDS
        )?
    );
    none_is_wrong(&rt, first_unmet(rt.alloc(), RUNS)?);
    Ok(())
}

// Another 30 flow in, and so the dam lets out 30 more.
const EDITED: Simulation<'static> = Simulation {
    model: MODEL,
    inputs: INFLOW,
    status: 0,
    out: Whole(
        b"# batch 0 settled\nstep,stamp,Dam.Inflow,Dam.Outflow,Dam.Storage\n1,2020-01-02T00:00,100,80,1020\n# batch 1 settled\nstep,stamp,Dam.Inflow,Dam.Outflow,Dam.Storage\n1,2020-01-02T00:00,130,110,1020\n",
    ),
    err: Whole(b""),
};

const NO_EDITS: Simulation<'static> = Simulation {
    model: MODEL,
    inputs: INFLOW,
    status: 8,
    out: Whole(b""),
    err: Whole(b"basin: edits: row 2 column 1: batch order\n"),
};

const EDITS: &[(&[u8], Simulation<'static>)] = &[
    (b"batch,slot,step,value\n", CAPPED),
    (b"batch,slot,step,value\n1,Dam.Inflow,1,130\n", EDITED),
    (b"batch,slot,step,value\n2,Dam.Inflow,1,130\n", NO_EDITS),
];

// The first of the edits, counted from 0, with which the run doesn't come to what is wanted.
fn first_unedited(
    alloc: Global,
    rows: &[(&[u8], Simulation<'_>)],
) -> Result<Option<usize>, NoMemory> {
    let words = ["run", "m.toml", "p.rpl", "i.csv", "--edits", "e.csv"];
    for k in 0..rows.len() {
        let (edits, want) = rows[k];
        if !runs_by(alloc, &words, CAP_AND_BASE, edits, want)? {
            return Ok(Some(k));
        }
    }
    Ok(None)
}

const TOLD: Simulation<'static> = Simulation {
    model: MODEL,
    inputs: INFLOW,
    status: 0,
    out: Whole(
        b"# batch 0 settled\nstep,stamp,Dam.Inflow,Dam.Outflow,Dam.Storage\n1,2020-01-02T00:00,100,80,1020\n# flags\nstep,Dam.Inflow,Dam.Outflow,Dam.Storage\n1,I0,O1,R1\n# trace\nopen 1\nidle Dam\nfire 2 done 2\n  Dam.Outflow 1 50 R2\nsolve Dam\n  Dam.Storage 1 1050 O2\nfire 1 done 6\n  Dam.Storage 1 1020 R1\nsolve Dam\n  Dam.Outflow 1 80 O1\nfire 1 done 6\nclose 1\n",
    ),
    err: Whole(b""),
};

#[test]
fn edits_flags_and_traces_are_told(rt: HostRuntime) -> Result<(), Fail> {
    none_is_wrong(&rt, first_unedited(rt.alloc(), EDITS)?);
    let words = ["run", "--flags", "m.toml", "p.rpl", "i.csv", "--trace"];
    assert!(rt; runs_by(rt.alloc(), &words, CAP_AND_BASE, b"", TOLD)?);
    Ok(())
}

const WHY_OUTFLOW: Simulation<'static> = Simulation {
    model: MODEL,
    inputs: INFLOW,
    status: 0,
    out: Whole(b"step 1 rule 2 50 R2\nstep 1 object Dam 80 O1\nholds 80 O1\n"),
    err: Whole(b""),
};

const WHY_INFLOW: Simulation<'static> = Simulation {
    model: MODEL,
    inputs: INFLOW,
    status: 0,
    out: Whole(b"given 100\nholds 100 I0\n"),
    err: Whole(b""),
};

const NO_SUCH_CELL: Simulation<'static> = Simulation {
    model: MODEL,
    inputs: INFLOW,
    status: 8,
    out: Whole(b""),
    err: Whole(b"basin: why: no such cell\n"),
};

const CELLS: &[(&str, &str, Simulation<'static>)] = &[
    ("Dam.Outflow", "1", WHY_OUTFLOW),
    ("Dam.Inflow", "001", WHY_INFLOW),
    ("Dam.Outflow", "2", NO_SUCH_CELL),
    ("Dam.Outflow", "0", NO_SUCH_CELL),
    ("Dam.Level", "1", NO_SUCH_CELL),
    ("Dam", "1", NO_SUCH_CELL),
];

// The first of the cells, counted from 0, of which something else is told than is wanted.
fn first_untold(
    alloc: Global,
    rows: &[(&str, &str, Simulation<'_>)],
) -> Result<Option<usize>, NoMemory> {
    for k in 0..rows.len() {
        let (slot, step, want) = rows[k];
        let words = ["why", "m.toml", "p.rpl", "i.csv", slot, step];
        if !runs_by(alloc, &words, CAP_AND_BASE, b"", want)? {
            return Ok(Some(k));
        }
    }
    Ok(None)
}

#[test]
fn cells_are_told(rt: HostRuntime) -> Result<(), Fail> {
    none_is_wrong(&rt, first_untold(rt.alloc(), CELLS)?);
    Ok(())
}
