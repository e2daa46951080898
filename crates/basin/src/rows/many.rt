//! Tests water balances, many runs of a basin, and a model in format 2.
use crate::rows::runs::none_is_wrong;
use crate::rows::statuses::Text::Whole;
use crate::rows::statuses::{Failing, Simulation, all_methods, migrates, runs_with};
use rw_base::NoMemory;
use std::alloc::Global;
use std::test::Fail;

const DAM_OF_THREE: &[u8] =
    b"format = 1\n[run]\nstart = \"2020-01-01T00:00\"\nstep = \"24h\"\nsteps = 3\n[[object]]\nname = \"Dam\"\nkind = \"reservoir\"\ninitial_storage = 1000\n";

const DAM_OF_ONE: &[u8] =
    b"format = 1\n[run]\nstart = \"2020-01-01T00:00\"\nstep = \"24h\"\nsteps = 1\n[[object]]\nname = \"Dam\"\nkind = \"reservoir\"\ninitial_storage = 1000\n";

const ROUTED: &[u8] =
    b"format = 1\n[run]\nstart = \"2020-01-01T00:00\"\nstep = \"24h\"\nsteps = 3\n[[object]]\nname = \"W\"\nkind = \"routed_reach\"\ninitial_content = 1000\nrelease = 250\n";

const NOTHING_OUT: &[u8] = b"slot,step,value\nDam.Outflow,1,0\n";

const BALANCE: &[&str] = &["balance", "m.toml", "p.rpl", "i.csv"];

const MRM: &[&str] = &["mrm", "m.toml", "p.rpl", "i.csv", "e.csv"];

// The words, the model, the inputs and the traces that they name, what fails, and what the call comes to. No rule stands in its policy.
#[derive(Clone, Copy)]
struct Row<'a> {
    words: &'a [&'a str],
    model: &'a [u8],
    inputs: &'a [u8],
    traces: &'a [u8],
    failing: Failing,
    status: u8,
    out: &'a [u8],
    err: &'a [u8],
}

const ROWS: &[Row<'static>] = &[
    Row {
        words: BALANCE,
        model: ROUTED,
        inputs: b"slot,step,value\nW.Inflow,1,200\nW.Inflow,2-3,0\n",
        traces: b"",
        failing: Failing::Nothing,
        status: 0,
        out: b"# batch 0 settled\nW initial 1000 in 200 out 693 final 507\n",
        err: b"",
    },
    Row {
        words: BALANCE,
        model: DAM_OF_THREE,
        inputs: b"slot,step,value\nDam.Inflow,1-3,100\nDam.Outflow,1,50\nDam.Outflow,2,150\nDam.Outflow,3,100\n",
        traces: b"",
        failing: Failing::Nothing,
        status: 0,
        out: b"# batch 0 settled\nDam initial 1000 in 300 out 300 final 1000\n",
        err: b"",
    },
    Row {
        words: BALANCE,
        model: DAM_OF_ONE,
        inputs: b"slot,step,value\n",
        traces: b"",
        failing: Failing::Nothing,
        status: 0,
        out: b"# batch 0 settled\nDam unknown\n",
        err: b"",
    },
    // No timestep is closed, so that the book is what was held before.
    Row {
        words: BALANCE,
        model: DAM_OF_ONE,
        inputs: b"slot,step,value\nDam.Inflow,1,0\nDam.Outflow,1,1001\n",
        traces: b"",
        failing: Failing::Nothing,
        status: 1,
        out: b"# batch 0 fault out of range object Dam slot Dam.Storage step 1 value -1\nDam initial 1000 in 0 out 0 final 1000\n",
        err: b"",
    },
    // The second and the third trace begin anew from the inputs, and the fourth isn't counted.
    Row {
        words: MRM,
        model: DAM_OF_ONE,
        inputs: NOTHING_OUT,
        traces: b"trace,slot,step,value\n1,Dam.Inflow,1,10\n2,Dam.Inflow,1,30\n3,Dam.Inflow,1,20\n4,Dam.Inflow,1,20\n4,Dam.Outflow,1,1100\n",
        failing: Failing::Nothing,
        status: 1,
        out: b"# trace 1 settled\nstep,stamp,Dam.Inflow,Dam.Outflow,Dam.Storage\n1,2020-01-02T00:00,10,0,1010\n# trace 2 settled\nstep,stamp,Dam.Inflow,Dam.Outflow,Dam.Storage\n1,2020-01-02T00:00,30,0,1030\n# trace 3 settled\nstep,stamp,Dam.Inflow,Dam.Outflow,Dam.Storage\n1,2020-01-02T00:00,20,0,1020\n# trace 4 fault out of range object Dam slot Dam.Storage step 1 value -80\nstep,stamp,Dam.Inflow,Dam.Outflow,Dam.Storage\n# summary 3 of 4\nslot,step,known,min,median,max\nDam.Inflow,1,3,10,20,30\nDam.Outflow,1,3,0,0,0\nDam.Storage,1,3,1010,1020,1030\n",
        err: b"",
    },
    // The median of two is the lesser one; and what the first trace gave besides isn't there in the second.
    Row {
        words: MRM,
        model: DAM_OF_ONE,
        inputs: NOTHING_OUT,
        traces: b"trace,slot,step,value\n1,Dam.Inflow,1,10\n1,Dam.Outflow,1,5\n2,Dam.Inflow,1,30\n",
        failing: Failing::Nothing,
        status: 0,
        out: b"# trace 1 settled\nstep,stamp,Dam.Inflow,Dam.Outflow,Dam.Storage\n1,2020-01-02T00:00,10,5,1005\n# trace 2 settled\nstep,stamp,Dam.Inflow,Dam.Outflow,Dam.Storage\n1,2020-01-02T00:00,30,0,1030\n# summary 2 of 2\nslot,step,known,min,median,max\nDam.Inflow,1,2,10,10,30\nDam.Outflow,1,2,0,0,5\nDam.Storage,1,2,1005,1005,1030\n",
        err: b"",
    },
    // The first trace ends in a fault, and the last one settles.
    Row {
        words: MRM,
        model: DAM_OF_ONE,
        inputs: NOTHING_OUT,
        traces: b"trace,slot,step,value\n1,Dam.Inflow,1,20\n1,Dam.Outflow,1,1100\n2,Dam.Inflow,1,10\n",
        failing: Failing::Nothing,
        status: 1,
        out: b"# trace 1 fault out of range object Dam slot Dam.Storage step 1 value -80\nstep,stamp,Dam.Inflow,Dam.Outflow,Dam.Storage\n# trace 2 settled\nstep,stamp,Dam.Inflow,Dam.Outflow,Dam.Storage\n1,2020-01-02T00:00,10,0,1010\n# summary 1 of 2\nslot,step,known,min,median,max\nDam.Inflow,1,1,10,10,10\nDam.Outflow,1,1,0,0,0\nDam.Storage,1,1,1010,1010,1010\n",
        err: b"",
    },
    Row {
        words: MRM,
        model: DAM_OF_ONE,
        inputs: NOTHING_OUT,
        traces: b"trace,slot,step,value\n",
        failing: Failing::Nothing,
        status: 0,
        out: b"# summary 0 of 0\nslot,step,known,min,median,max\nDam.Inflow,1,0,,,\nDam.Outflow,1,0,,,\nDam.Storage,1,0,,,\n",
        err: b"",
    },
    // The output fails between two traces, and behind all of them.
    Row {
        words: MRM,
        model: DAM_OF_ONE,
        inputs: NOTHING_OUT,
        traces: b"trace,slot,step,value\n1,Dam.Inflow,1,10\n2,Dam.Inflow,1,30\n",
        failing: Failing::Out(2),
        status: 4,
        out: b"# trace 1 settled\nstep,stamp,Dam.Inflow,Dam.Outflow,Dam.Storage\n1,2020-01-02T00:00,10,0,1010\n",
        err: b"basin: cannot write\n",
    },
    Row {
        words: MRM,
        model: DAM_OF_ONE,
        inputs: NOTHING_OUT,
        traces: b"trace,slot,step,value\n1,Dam.Inflow,1,10\n",
        failing: Failing::Out(2),
        status: 4,
        out: b"# trace 1 settled\nstep,stamp,Dam.Inflow,Dam.Outflow,Dam.Storage\n1,2020-01-02T00:00,10,0,1010\n",
        err: b"basin: cannot write\n",
    },
    Row {
        words: MRM,
        model: DAM_OF_ONE,
        inputs: NOTHING_OUT,
        traces: b"trace,slot,step,value\n1,Dam.Inflow,2,10\n",
        failing: Failing::Nothing,
        status: 8,
        out: b"",
        err: b"basin: traces: row 2 column 3: step outside\n",
    },
];

// The first of the rows, counted from 0, that doesn't come to what is wanted.
fn first_wrong(alloc: Global, rows: &[Row<'_>]) -> Result<Option<usize>, NoMemory> {
    let methods = all_methods(alloc)?;
    for k in 0..rows.len() {
        let row = rows[k];
        let want = Simulation {
            model: row.model,
            inputs: row.inputs,
            status: row.status,
            out: Whole(row.out),
            err: Whole(row.err),
        };
        if !runs_with(
            alloc,
            &methods,
            row.words,
            row.failing,
            b"",
            row.traces,
            want,
        )? {
            return Ok(Some(k));
        }
    }
    Ok(None)
}

#[test]
fn books_and_traces_come_to_their_rows(rt: HostRuntime) -> Result<(), Fail> {
    none_is_wrong(&rt, first_wrong(rt.alloc(), ROWS)?);
    Ok(())
}

const TABLE_OF_THREE: Simulation<'static> = Simulation {
    model: DAM_OF_THREE,
    inputs: b"slot,step,value\nDam.Inflow,1-3,100\nDam.Outflow,1,50\nDam.Outflow,2,150\nDam.Outflow,3,100\n",
    status: 0,
    out: Whole(
        b"# batch 0 settled\nstep,stamp,Dam.Inflow,Dam.Outflow,Dam.Storage\n1,2020-01-02T00:00,100,50,1050\n2,2020-01-03T00:00,100,150,1000\n3,2020-01-04T00:00,100,100,1000\n",
    ),
    err: Whole(b""),
};

#[test]
fn a_migrated_model_runs_alike(rt: HostRuntime) -> Result<(), Fail> {
    assert!(rt; migrates(rt.alloc(), TABLE_OF_THREE)?);
    Ok(())
}
