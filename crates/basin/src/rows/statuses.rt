//! Tests statuses, lines, and calls that fail.
ghost use Rattle.std.specs.Prelude.{◌≡◌, ◌<◌, IfOk, map};
ghost use Rattle.rw_method.specs.Catalogue.{AreInOrder};

use crate::rows::kinds::{ALL, methods};
use crate::rows::runs::none_is_wrong;
use crate::rows::statuses::Text::{Any, Front, Whole};
use rpl_predef::{
    Predef, Predefs, absolute, clamped, greatest, least, mul_div, rounded_down, sign,
};
use rw_base::NoMemory;
use rw_io::{MemShelf, MemSink};
use rw_method::Catalogue;
use rw_top::{Blank, Ledger, Steps, basin_main};
use std::alloc::Global;
use std::marker::Brand;
use std::test::Fail;

const SIMULATE: [&str; 3] = ["simulate", "m.toml", "i.csv"];

const MODEL_OF_THREE: &[u8] =
    b"format = 1\n[run]\nstart = \"2020-01-01T00:00\"\nstep = \"24h\"\nsteps = 3\n[[object]]\nname = \"Dam\"\nkind = \"reservoir\"\ninitial_storage = 1000\n";

const MODEL_OF_ONE: &[u8] =
    b"format = 1\n[run]\nstart = \"2020-01-01T00:00\"\nstep = \"24h\"\nsteps = 1\n[[object]]\nname = \"Dam\"\nkind = \"reservoir\"\ninitial_storage = 1000\n";

const MODEL_OF_NONE: &[u8] =
    b"format = 1\n[run]\nstart = \"2020-01-01T00:00\"\nstep = \"24h\"\nsteps = 0\n[[object]]\nname = \"Dam\"\nkind = \"reservoir\"\ninitial_storage = 1000\n";

const INPUTS_OF_THREE: &[u8] =
    b"slot,step,value\nDam.Inflow,1-3,100\nDam.Outflow,1,50\nDam.Outflow,2,150\nDam.Outflow,3,100\n";

const TABLE_OF_THREE: &[u8] =
    b"# batch 0 settled\nstep,stamp,Dam.Inflow,Dam.Outflow,Dam.Storage\n1,2020-01-02T00:00,100,50,1050\n2,2020-01-03T00:00,100,150,1000\n3,2020-01-04T00:00,100,100,1000\n";

const BAD_STEPS: &[u8] = b"basin: model: build run.steps: bad parameter\n";

/// The call that is to fail, of the shelf, the output or the error stream, by its number from 1.
#[derive(Clone, Copy)]
pub(crate) enum Failing {
    Nothing,
    Shelf(u64),
    Out(u64),
    Errors(u64),
}

/// What is to be written: anything, this, or a front of it.
#[derive(Clone, Copy)]
pub(crate) enum Text<'a> {
    Any,
    Whole(&'a [u8]),
    Front(&'a [u8]),
}

/// The texts of a model and of inputs, and the result of `simulate` with them.
#[derive(Clone, Copy)]
pub(crate) struct Simulation<'a> {
    pub(crate) model: &'a [u8],
    pub(crate) inputs: &'a [u8],
    pub(crate) status: u8,
    pub(crate) out: Text<'a>,
    pub(crate) err: Text<'a>,
}

/// Returns whether this is the text that is wanted.
pub(crate) fn is_text(written: &[u8], want: Text<'_>) -> bool {
    match want {
        Any => true,
        Whole(text) => written == text,
        Front(text) => text.starts_with(written),
    }
}

pub(crate) fn owned(alloc: Global, words: &[&str]) -> Result<Vec<String>, NoMemory> {
    let mut owned = Vec::new(alloc);
    for word in words {
        owned.push(String::from_str(alloc, *word)?)?;
    }
    Ok(owned)
}

fn file(alloc: Global, path: &str, text: &[u8]) -> Result<(String, Vec<u8>), NoMemory> {
    let path = String::from_str(alloc, path)?;
    let bytes = Vec::from_slice(alloc, text)?;
    Ok((path, bytes))
}

/// Returns files with these texts at these paths.
pub(crate) fn files(
    alloc: Global,
    rows: &[(&str, &[u8])],
) -> Result<Vec<(String, Vec<u8>)>, NoMemory> {
    let mut files = Vec::new(alloc);
    for (path, text) in rows {
        files.push(file(alloc, *path, *text)?)?;
    }
    Ok(files)
}

pub(crate) fn one_call(alloc: Global, number: u64) -> Result<Vec<u64>, NoMemory> {
    let mut calls = Vec::new(alloc);
    calls.push(number)?;
    Ok(calls)
}

fn sink(alloc: Global, failing: u64) -> Result<MemSink, NoMemory> {
    Ok(MemSink::of(alloc, one_call(alloc, failing)?))
}

// What a call reads and writes.
#[derive(Drop)]
pub(crate) struct Ends {
    pub(crate) shelf: MemShelf,
    pub(crate) out: MemSink,
    pub(crate) err: MemSink,
}

// The numbers of the calls that are to fail, where no call has the number 0.
fn numbers(failing: Failing) -> (u64, u64, u64) {
    match failing {
        Failing::Nothing => (0, 0, 0),
        Failing::Shelf(number) => (number, 0, 0),
        Failing::Out(number) => (0, number, 0),
        Failing::Errors(number) => (0, 0, number),
    }
}

fn ends_of(
    alloc: Global,
    files: Vec<(String, Vec<u8>)>,
    failing: Failing,
) -> Result<Ends, NoMemory> {
    let (shelf, out, err) = numbers(failing);
    Ok(Ends {
        shelf: MemShelf::of(alloc, files, one_call(alloc, shelf)?)?,
        out: sink(alloc, out)?,
        err: sink(alloc, err)?,
    })
}

fn call_counted<L: Ledger>(
    alloc: Global,
    blank: Blank,
    words: &[String],
    ends: &mut Ends,
    methods: &Catalogue,
    predefs: &Predefs,
) -> u8
    requires name { blank.name ≡ L.name }
    requires parts { blank.parts ≡ L.parts }
    requires some { 0 < blank.parts }
    requires order { AreInOrder (map (λ b. code (b.vtable, b.value)) methods.now.methods.items) }
{
    let mut steps = Steps::<L>::of(blank);
    basin_main(
        alloc,
        words,
        &mut ends.shelf,
        &mut ends.out,
        &mut ends.err,
        methods,
        predefs,
        &mut steps,
    )
}

pub(crate) fn call(
    alloc: Global,
    methods: &Catalogue,
    words: &[String],
    ends: &mut Ends,
) -> Result<u8, NoMemory>
    requires { AreInOrder (map (λ b. code (b.vtable, b.value)) methods.now.methods.items) }
{
    let predefs = all_functions(alloc)?;
    Ok(call_counted::<Brand>(alloc, Blank::new(1), words, ends, methods, &predefs))
}

/// Returns the predefined functions.
pub(crate) fn all_functions(alloc: Global) -> Result<Predefs, NoMemory> {
    let functions = vec![in alloc;
        Predef::of(1, least),
        Predef::of(2, greatest),
        Predef::of(3, absolute),
        Predef::of(4, clamped),
        Predef::of(5, rounded_down),
        Predef::of(6, sign),
        Predef::of(7, mul_div),
    ]?;
    match Predefs::of(functions) {
        Ok(predefs) => Ok(predefs),
        Err(_) => Err(NoMemory),
    }
}

/// Returns the methods of all kinds.
pub(crate) fn all_methods(alloc: Global) -> Result<Catalogue, NoMemory>
    ensures { IfOk result
        (λ methods. AreInOrder (map (λ b. code (b.vtable, b.value)) methods.methods.items)) }
{
    match Catalogue::of(methods(alloc, ALL)?) {
        Ok(methods) => Ok(methods),
        Err(_) => Err(NoMemory),
    }
}

// Whether the call answers and writes what is wanted.
fn comes_to(
    alloc: Global,
    methods: &Catalogue,
    words: &[&str],
    ends: &mut Ends,
    want: Simulation<'_>,
) -> Result<bool, NoMemory>
    requires { AreInOrder (map (λ b. code (b.vtable, b.value)) methods.now.methods.items) }
{
    let status = call(alloc, methods, &owned(alloc, words)?, ends)?;
    Ok(
        status == want.status
            && is_text(ends.out.held(), want.out)
            && is_text(ends.err.held(), want.err),
    )
}

// Whether a call with these words comes to what is wanted.
fn is_met(
    alloc: Global,
    words: &[&str],
    failing: Failing,
    want: Simulation<'_>,
) -> Result<bool, NoMemory> {
    let files = files(alloc, &[("m.toml", want.model), ("i.csv", want.inputs)])?;
    let mut ends = ends_of(alloc, files, failing)?;
    comes_to(alloc, &all_methods(alloc)?, words, &mut ends, want)
}

/// Returns whether these words, with this policy and these edits, give the result that is wanted, where objects solve by these
/// methods and this call fails.
pub(crate) fn runs_with(
    alloc: Global,
    methods: &Catalogue,
    words: &[&str],
    failing: Failing,
    policy: &[u8],
    edits: &[u8],
    want: Simulation<'_>,
) -> Result<bool, NoMemory>
    requires { AreInOrder (map (λ b. code (b.vtable, b.value)) methods.now.methods.items) }
{
    let files = files(
        alloc,
        &[
            ("m.toml", want.model),
            ("i.csv", want.inputs),
            ("p.rpl", policy),
            ("e.csv", edits),
        ],
    )?;
    let mut ends = ends_of(alloc, files, failing)?;
    comes_to(alloc, methods, words, &mut ends, want)
}

/// Returns whether these words, with this policy and these edits, give the result that is wanted by the methods of all kinds,
/// where no call fails.
pub(crate) fn runs_by(
    alloc: Global,
    words: &[&str],
    policy: &[u8],
    edits: &[u8],
    want: Simulation<'_>,
) -> Result<bool, NoMemory> {
    let methods = all_methods(alloc)?;
    runs_with(
        alloc,
        &methods,
        words,
        Failing::Nothing,
        policy,
        edits,
        want,
    )
}

/// Returns whether `migrate` writes another model, with which `simulate` gives the result that is wanted.
pub(crate) fn migrates(alloc: Global, want: Simulation<'_>) -> Result<bool, NoMemory> {
    let words = owned(alloc, &["migrate", "m.toml"])?;
    let files = files(alloc, &[("m.toml", want.model), ("i.csv", want.inputs)])?;
    let mut ends = ends_of(alloc, files, Failing::Nothing)?;
    let status = call(alloc, &all_methods(alloc)?, &words, &mut ends)?;
    let model = ends.out.held();
    let again = Simulation { model, ..want };
    Ok(status == 0 && model != want.model && simulates(alloc, Failing::Nothing, again)?)
}

/// Returns whether `simulate` gives the result that is wanted.
pub(crate) fn simulates(
    alloc: Global,
    failing: Failing,
    want: Simulation<'_>,
) -> Result<bool, NoMemory> {
    is_met(alloc, &SIMULATE, failing, want)
}

// The first of the simulations, counted from 0, that doesn't come to what is wanted.
fn first_unmet(
    alloc: Global,
    rows: &[(Failing, Simulation<'_>)],
) -> Result<Option<usize>, NoMemory> {
    for k in 0..rows.len() {
        let (failing, want) = rows[k];
        if !simulates(alloc, failing, want)? {
            return Ok(Some(k));
        }
    }
    Ok(None)
}

const THREE_DAYS: Simulation<'static> = Simulation {
    model: MODEL_OF_THREE,
    inputs: INPUTS_OF_THREE,
    status: 0,
    out: Whole(TABLE_OF_THREE),
    err: Whole(b""),
};

const OVERDRAWN: Simulation<'static> = Simulation {
    model: MODEL_OF_ONE,
    inputs: b"slot,step,value\nDam.Inflow,1,0\nDam.Outflow,1,1001\n",
    status: 1,
    out: Whole(
        b"# batch 0 fault out of range object Dam slot Dam.Storage step 1 value -1\nstep,stamp,Dam.Inflow,Dam.Outflow,Dam.Storage\n",
    ),
    err: Whole(b""),
};

const TOO_FEW_WORDS: Simulation<'static> = Simulation {
    model: MODEL_OF_THREE,
    inputs: INPUTS_OF_THREE,
    status: 2,
    out: Whole(b""),
    err: Whole(b"basin: words refused\n"),
};

const NO_STEPS: Simulation<'static> = Simulation {
    model: MODEL_OF_NONE,
    inputs: INPUTS_OF_THREE,
    status: 6,
    out: Whole(b""),
    err: Whole(BAD_STEPS),
};

const UNKNOWN_SLOT: Simulation<'static> = Simulation {
    model: MODEL_OF_THREE,
    inputs: b"slot,step,value\nDam.Inflow,1-3,100\nDam.Level,1,50\n",
    status: 8,
    out: Whole(b""),
    err: Whole(b"basin: inputs: row 3 column 1: unknown slot\n"),
};

const CALLS: &[(Failing, Simulation<'static>)] = &[
    (Failing::Nothing, THREE_DAYS),
    (Failing::Nothing, OVERDRAWN),
    (Failing::Nothing, NO_STEPS),
    (Failing::Nothing, UNKNOWN_SLOT),
];

#[test]
fn calls_have_their_status_and_line(rt: HostRuntime) -> Result<(), Fail> {
    assert!(rt;
        is_met(
            rt.alloc(),
            &["simulate", "m.toml"],
            Failing::Nothing,
            TOO_FEW_WORDS
        )?
    );
    none_is_wrong(&rt, first_unmet(rt.alloc(), CALLS)?);
    Ok(())
}

// Inputs of one day, and what is said of them.
const REFUSED: &[(&[u8], &[u8])] = &[
    (b"", b"basin: inputs: row 1 column 0: header\n"),
    (
        b"slot,step,value\nDam.Inflow,1\n",
        b"basin: inputs: row 2 column 0: ragged\n",
    ),
    (
        b"slot,step,value\nDam.Inflow,1,100000000000000001\n",
        b"basin: inputs: row 2 column 3: out of bounds\n",
    ),
    (
        b"slot,step,value\nDam.Inflow,2,5\n",
        b"basin: inputs: row 2 column 2: step outside\n",
    ),
    (
        b"slot,step,value\nDam.Inflow,1,5\nDam.Inflow,1,5\n",
        b"basin: inputs: row 3 column 0: twice\n",
    ),
];

fn first_not_refused<'a>(
    alloc: Global,
    rows: &[(&'a [u8], &'a [u8])],
) -> Result<Option<usize>, NoMemory> {
    for k in 0..rows.len() {
        let (inputs, line) = rows[k];
        let want = Simulation {
            model: MODEL_OF_ONE,
            inputs,
            status: 8,
            out: Whole(b""),
            err: Whole(line),
        };
        if !simulates(alloc, Failing::Nothing, want)? {
            return Ok(Some(k));
        }
    }
    Ok(None)
}

#[test]
fn inputs_are_refused_at_their_place(rt: HostRuntime) -> Result<(), Fail> {
    none_is_wrong(&rt, first_not_refused(rt.alloc(), REFUSED)?);
    Ok(())
}

const UNREAD_MODEL: Simulation<'static> = Simulation {
    model: MODEL_OF_THREE,
    inputs: INPUTS_OF_THREE,
    status: 3,
    out: Whole(b""),
    err: Whole(b"basin: cannot read m.toml\n"),
};

const UNREAD_INPUTS: Simulation<'static> = Simulation {
    model: MODEL_OF_THREE,
    inputs: INPUTS_OF_THREE,
    status: 3,
    out: Whole(b""),
    err: Whole(b"basin: cannot read i.csv\n"),
};

// A start, a read of the text and a read of the end for each of the two files.
const SHELF_CALLS: &[(Failing, Simulation<'static>)] = &[
    (Failing::Shelf(1), UNREAD_MODEL),
    (Failing::Shelf(2), UNREAD_MODEL),
    (Failing::Shelf(3), UNREAD_MODEL),
    (Failing::Shelf(4), UNREAD_INPUTS),
    (Failing::Shelf(5), UNREAD_INPUTS),
    (Failing::Shelf(6), UNREAD_INPUTS),
    (Failing::Shelf(7), THREE_DAYS),
];

#[test]
fn each_failing_shelf_call_is_a_read_fault(rt: HostRuntime) -> Result<(), Fail> {
    none_is_wrong(&rt, first_unmet(rt.alloc(), SHELF_CALLS)?);
    Ok(())
}

const UNWRITTEN: Simulation<'static> = Simulation {
    model: MODEL_OF_THREE,
    inputs: INPUTS_OF_THREE,
    status: 4,
    out: Front(TABLE_OF_THREE),
    err: Whole(b"basin: cannot write\n"),
};

const UNTOLD: Simulation<'static> = Simulation {
    model: MODEL_OF_NONE,
    inputs: INPUTS_OF_THREE,
    status: 6,
    out: Whole(b""),
    err: Front(BAD_STEPS),
};

// A failing write leaves a front, and a failing error stream changes no status.
const SINK_CALLS: &[(Failing, Simulation<'static>)] = &[
    (Failing::Out(1), UNWRITTEN),
    (Failing::Errors(1), UNTOLD),
    (Failing::Errors(2), UNTOLD),
    (Failing::Errors(3), UNTOLD),
];

#[test]
fn a_failing_write_leaves_a_front(rt: HostRuntime) -> Result<(), Fail> {
    none_is_wrong(&rt, first_unmet(rt.alloc(), SINK_CALLS)?);
    Ok(())
}

// As many equal signs, which are no TOML. The contract says nothing of them, so that no proof unfolds the list.
fn equal_signs(alloc: Global, count: usize) -> Result<Vec<u8>, NoMemory> {
    Ok(vec![in alloc; b'='; count]?)
}

// Whether a model of so many equal signs is refused with this status, and with the line that tells of its length where
// that is 10.
fn is_long_model(alloc: Global, count: usize, status: u8) -> Result<bool, NoMemory> {
    let model = equal_signs(alloc, count)?;
    let want = Simulation {
        model: &model,
        inputs: b"",
        status,
        out: Any,
        err: if status == 10 {
            Whole(b"basin: too long m.toml\n")
        } else {
            Any
        },
    };
    simulates(alloc, Failing::Nothing, want)
}

// Whether inputs of so many equal signs are too long.
fn are_too_long(alloc: Global, count: usize) -> Result<bool, NoMemory> {
    let inputs = equal_signs(alloc, count)?;
    let want = Simulation {
        model: MODEL_OF_ONE,
        inputs: &inputs,
        status: 10,
        out: Whole(b""),
        err: Whole(b"basin: too long i.csv\n"),
    };
    simulates(alloc, Failing::Nothing, want)
}

#[test]
fn a_file_is_too_long_past_its_greatest_length(rt: HostRuntime) -> Result<(), Fail> {
    let alloc = rt.alloc();
    assert!(rt; is_long_model(alloc, 16_777_216, 6)?);
    assert!(rt; is_long_model(alloc, 16_777_217, 10)?);
    assert!(rt; are_too_long(alloc, 16_777_217)?);
    Ok(())
}
