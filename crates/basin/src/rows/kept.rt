//! Tests runs after edits, of which those timesteps are run again that an edit touches, and the others taken over.
ghost use Rattle.std.specs.Prelude.{◌≡◌, map};
ghost use Rattle.rw_method.specs.Catalogue.{AreInOrder};

use crate::rows::runs::none_is_wrong;
use crate::rows::statuses::Text::Whole;
use crate::rows::statuses::{Failing, Simulation, all_methods, runs_with};
use rw_base::NoMemory;
use rw_method::Catalogue;
use std::alloc::Global;
use std::test::Fail;

/// The words of such a run.
pub(crate) const RUN: [&str; 7] = [
    "run", "m.toml", "p.rpl", "i.csv", "--edits", "e.csv", "--reuse",
];

const TWO_NUMBERS: &[u8] =
    b"format = 1\n[run]\nstart = \"2020-01-01T00:00\"\nstep = \"24h\"\nsteps = 2\n[[object]]\nname = \"D\"\nkind = \"data\"\nslots = [{ name = \"X\", unit = \"\" }, { name = \"Y\", unit = \"\" }]\n";

const NUMBERS_AHEAD: &[u8] =
    b"format = 2\n[run]\nstart = \"2020-01-01T00:00\"\nstep = \"24h\"\nsteps = 3\n[[object]]\nname = \"D\"\nkind = \"data\"\nslots = [{ name = \"X\", unit = \"\" }, { name = \"Y\", unit = \"\" }]\n";

const DAM_OF_TWO: &[u8] =
    b"format = 1\n[run]\nstart = \"2020-01-01T00:00\"\nstep = \"24h\"\nsteps = 2\n[[object]]\nname = \"Dam\"\nkind = \"reservoir\"\ninitial_storage = 1000\n";

const DAM_OF_THREE: &[u8] =
    b"format = 1\n[run]\nstart = \"2020-01-01T00:00\"\nstep = \"24h\"\nsteps = 3\n[[object]]\nname = \"Dam\"\nkind = \"reservoir\"\ninitial_storage = 1000\n";

const DAM_AND_NUMBER: &[u8] =
    b"format = 1\n[run]\nstart = \"2020-01-01T00:00\"\nstep = \"24h\"\nsteps = 6\n[[object]]\nname = \"Dam\"\nkind = \"reservoir\"\ninitial_storage = 1000\n[[object]]\nname = \"D\"\nkind = \"data\"\nslots = [{ name = \"X\", unit = \"m3/step\" }]\n";

/// The policy of a run that faults.
pub(crate) const QUOTIENT: &[u8] = b"RULE \"a\": D.X[t] := 100 / D.Y[t]; ENDRULE\n";

const PASS: &[u8] = b"RULE \"pass\": Dam.Outflow[t] := Dam.Inflow[t]; ENDRULE\n";

const BASE: &[u8] = b"RULE \"base\": Dam.Outflow[t] := 50 \"m3/step\"; ENDRULE\n";

const LOOK_AHEAD: &[u8] =
    b"RULE \"pass\": Dam.Outflow[t] := Dam.Inflow[t]; ENDRULE\nRULE \"look\": D.X[t] := Dam.Inflow[t + 2 \"step\"]; ENDRULE\n";

const PUT_AHEAD: &[u8] =
    b"RULE \"a\": D.X[t + 1] := D.Y[t]; ENDRULE\nRULE \"b\": D.X[t] := 0; ENDRULE\n";

/// Its edits, which take a fault away, bring another, and take that away.
pub(crate) const MENDING: &[u8] = b"batch,slot,step,value\n1,D.Y,2,4\n2,D.Y,1,0\n3,D.Y,1,5\n";

/// The result of that run: no timestep is kept after a fault.
pub(crate) const MENDED: Simulation<'static> = Simulation {
    model: TWO_NUMBERS,
    inputs: b"slot,step,value\nD.Y,1,5\nD.Y,2,0\n",
    status: 0,
    out: Whole(
        b"# batch 0 fault division by zero rule 1 step 2\nstep,stamp,D.X,D.Y\n1,2020-01-02T00:00,20,5\n# batch 1 settled\n# reran 2\nstep,stamp,D.X,D.Y\n1,2020-01-02T00:00,20,5\n2,2020-01-03T00:00,25,4\n# batch 2 fault division by zero rule 1 step 1\n# reran 1\nstep,stamp,D.X,D.Y\n# batch 3 settled\n# reran 1 2\nstep,stamp,D.X,D.Y\n1,2020-01-02T00:00,20,5\n2,2020-01-03T00:00,25,4\n",
    ),
    err: Whole(b""),
};

const FLOWS: &[u8] = b"slot,step,value\nDam.Inflow,1-3,100\n";

// An edit of one day, and one that changes nothing.
const ONE_DAY: Simulation<'static> = Simulation {
    model: DAM_OF_THREE,
    inputs: FLOWS,
    status: 0,
    out: Whole(
        b"# batch 0 settled\nstep,stamp,Dam.Inflow,Dam.Outflow,Dam.Storage\n1,2020-01-02T00:00,100,100,1000\n2,2020-01-03T00:00,100,100,1000\n3,2020-01-04T00:00,100,100,1000\n# batch 1 settled\n# reran 2\nstep,stamp,Dam.Inflow,Dam.Outflow,Dam.Storage\n1,2020-01-02T00:00,100,100,1000\n2,2020-01-03T00:00,130,130,1000\n3,2020-01-04T00:00,100,100,1000\n# batch 2 settled\n# reran none\nstep,stamp,Dam.Inflow,Dam.Outflow,Dam.Storage\n1,2020-01-02T00:00,100,100,1000\n2,2020-01-03T00:00,130,130,1000\n3,2020-01-04T00:00,100,100,1000\n",
    ),
    err: Whole(b""),
};

// The second write fails, behind the first section.
const ONE_SECTION: Simulation<'static> = Simulation {
    model: DAM_OF_THREE,
    inputs: FLOWS,
    status: 4,
    out: Whole(
        b"# batch 0 settled\nstep,stamp,Dam.Inflow,Dam.Outflow,Dam.Storage\n1,2020-01-02T00:00,100,100,1000\n2,2020-01-03T00:00,100,100,1000\n3,2020-01-04T00:00,100,100,1000\n",
    ),
    err: Whole(b"basin: cannot write\n"),
};

// A rule that looks two days ahead is touched on the third day by an edit of the fifth.
const LOOKED_AHEAD: Simulation<'static> = Simulation {
    model: DAM_AND_NUMBER,
    inputs: b"slot,step,value\nDam.Inflow,1-6,100\n",
    status: 0,
    out: Whole(
        b"# batch 0 settled\nstep,stamp,Dam.Inflow,Dam.Outflow,Dam.Storage,D.X\n1,2020-01-02T00:00,100,100,1000,100\n2,2020-01-03T00:00,100,100,1000,100\n3,2020-01-04T00:00,100,100,1000,100\n4,2020-01-05T00:00,100,100,1000,100\n5,2020-01-06T00:00,100,100,1000,\n6,2020-01-07T00:00,100,100,1000,\n# batch 1 settled\n# reran 3 5\nstep,stamp,Dam.Inflow,Dam.Outflow,Dam.Storage,D.X\n1,2020-01-02T00:00,100,100,1000,100\n2,2020-01-03T00:00,100,100,1000,100\n3,2020-01-04T00:00,100,100,1000,130\n4,2020-01-05T00:00,100,100,1000,100\n5,2020-01-06T00:00,130,130,1000,\n6,2020-01-07T00:00,100,100,1000,\n",
    ),
    err: Whole(b""),
};

// What is put ahead on the first day stands on the second one, which is run again, too.
const GIVEN_AHEAD: Simulation<'static> = Simulation {
    model: NUMBERS_AHEAD,
    inputs: b"slot,step,value\nD.Y,1,5\nD.Y,2,6\nD.Y,3,7\n",
    status: 0,
    out: Whole(
        b"# batch 0 settled\nstep,stamp,D.X,D.Y\n1,2020-01-02T00:00,0,5\n2,2020-01-03T00:00,5,6\n3,2020-01-04T00:00,6,7\n# batch 1 settled\n# reran 1 2\nstep,stamp,D.X,D.Y\n1,2020-01-02T00:00,0,9\n2,2020-01-03T00:00,9,6\n3,2020-01-04T00:00,6,7\n",
    ),
    err: Whole(b""),
};

// The policy and the edits of a run, and what it comes to.
const RUNS: &[(Failing, &[u8], &[u8], Simulation<'static>)] = &[
    (Failing::Nothing, QUOTIENT, MENDING, MENDED),
    (
        Failing::Nothing,
        PASS,
        b"batch,slot,step,value\n1,Dam.Inflow,2,130\n2,Dam.Inflow,2,130\n",
        ONE_DAY,
    ),
    (
        Failing::Out(2),
        PASS,
        b"batch,slot,step,value\n1,Dam.Inflow,2,130\n",
        ONE_SECTION,
    ),
    (
        Failing::Nothing,
        LOOK_AHEAD,
        b"batch,slot,step,value\n1,Dam.Inflow,5,130\n",
        LOOKED_AHEAD,
    ),
    (
        Failing::Nothing,
        PUT_AHEAD,
        b"batch,slot,step,value\n1,D.Y,1,9\n",
        GIVEN_AHEAD,
    ),
];

// The first of the runs, counted from 0, that doesn't come to what is wanted.
fn first_unmet(
    alloc: Global,
    methods: &Catalogue,
    rows: &[(Failing, &[u8], &[u8], Simulation<'_>)],
) -> Result<Option<usize>, NoMemory>
    requires { AreInOrder (map (λ b. code (b.vtable, b.value)) methods.now.methods.items) }
{
    for k in 0..rows.len() {
        let (failing, policy, edits, want) = rows[k];
        if !runs_with(alloc, methods, &RUN, failing, policy, edits, want)? {
            return Ok(Some(k));
        }
    }
    Ok(None)
}

// What is measured on the first day is what a rule puts there once it is measured no more. The storage of that day then has another
// priority, and so the second day is run again, too.
const WITHOUT_MEASURED: Simulation<'static> = Simulation {
    model: DAM_OF_TWO,
    inputs: b"slot,step,value\nDam.Inflow,1-2,100\nDam.Outflow,1,50\n",
    status: 0,
    out: Whole(
        b"# batch 0 settled\nstep,stamp,Dam.Inflow,Dam.Outflow,Dam.Storage\n1,2020-01-02T00:00,100,50,1050\n2,2020-01-03T00:00,100,50,1100\n# flags\nstep,Dam.Inflow,Dam.Outflow,Dam.Storage\n1,I0,I0,O0\n2,I0,R1,O1\n# batch 1 settled\n# reran 1 2\nstep,stamp,Dam.Inflow,Dam.Outflow,Dam.Storage\n1,2020-01-02T00:00,100,50,1050\n2,2020-01-03T00:00,100,50,1100\n# flags\nstep,Dam.Inflow,Dam.Outflow,Dam.Storage\n1,I0,R1,O1\n2,I0,R1,O1\n",
    ),
    err: Whole(b""),
};

#[test]
fn timesteps_are_taken_over(rt: HostRuntime) -> Result<(), Fail> {
    let methods = all_methods(rt.alloc())?;
    none_is_wrong(&rt, first_unmet(rt.alloc(), &methods, RUNS)?);
    let words = [
        "run", "m.toml", "p.rpl", "i.csv", "--edits", "e.csv", "--reuse", "--flags",
    ];
    let edits = b"batch,slot,step,value\n1,Dam.Outflow,1,\n";
    assert!(rt;
        runs_with(
            rt.alloc(),
            &methods,
            &words,
            Failing::Nothing,
            BASE,
            edits,
            WITHOUT_MEASURED
        )?
    );
    Ok(())
}
