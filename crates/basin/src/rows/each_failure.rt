//! Lets each call of the shelf and of the output fail, one after the other, in every command, with the error stream and without
//! it.
ghost use Rattle.std.specs.Prelude.{◌≡◌, map};
ghost use Rattle.rw_method.specs.Catalogue.{AreInOrder};

use crate::rows::runs::none_is_wrong;
use crate::rows::statuses::{Ends, all_methods, call, files, one_call, owned};
use rw_base::NoMemory;
use rw_io::{MemShelf, MemSink};
use rw_method::Catalogue;
use std::alloc::Global;
use std::test::Fail;

const MODEL: &[u8] =
    b"format = 1\n[run]\nstart = \"2020-01-01T00:00\"\nstep = \"24h\"\nsteps = 2\n[[object]]\nname = \"Dam\"\nkind = \"reservoir\"\ninitial_storage = 1000\n";

const RULES: &[u8] = b"RULE \"pass\": Dam.Outflow[t] := Dam.Inflow[t]; ENDRULE\n";

const INPUTS: &[u8] = b"slot,step,value\nDam.Inflow,1-2,100\nDam.Outflow,1-2,100\n";

const TRACES: &[u8] = b"trace,slot,step,value\n1,Dam.Inflow,1,50\n2,Dam.Inflow,2,50\n";

const EDITS: &[u8] = b"batch,slot,step,value\n1,Dam.Inflow,2,130\n";

/// A command, how many calls of the shelf it makes, three for each file, and how many of the output, one for each section.
#[derive(Clone, Copy)]
struct Row {
    words: &'static [&'static str],
    reads: u64,
    writes: u64,
}

const ROWS: &[Row] = &[
    Row {
        words: &[
            "run", "m.toml", "p.rpl", "i.csv", "--edits", "e.csv", "--reuse",
        ],
        reads: 12,
        writes: 2,
    },
    Row {
        words: &["simulate", "m.toml", "i.csv"],
        reads: 6,
        writes: 1,
    },
    Row {
        words: &["check", "m.toml", "p.rpl"],
        reads: 6,
        writes: 1,
    },
    Row {
        words: &["compile", "m.toml", "p.rpl"],
        reads: 6,
        writes: 1,
    },
    Row {
        words: &["why", "m.toml", "p.rpl", "i.csv", "Dam.Storage", "1"],
        reads: 9,
        writes: 1,
    },
    Row {
        words: &["balance", "m.toml", "p.rpl", "i.csv"],
        reads: 9,
        writes: 1,
    },
    Row {
        words: &["mrm", "m.toml", "p.rpl", "i.csv", "t.csv"],
        reads: 12,
        writes: 3,
    },
    Row {
        words: &["migrate", "m.toml"],
        reads: 3,
        writes: 1,
    },
];

// It reads no file.
const SAMPLE: Row = Row {
    words: &["sample", "1"],
    reads: 0,
    writes: 1,
};

/// The numbers of the calls that are to fail, from 1. No call has the number 0.
#[derive(Clone, Copy)]
struct Failing {
    shelf: u64,
    out: u64,
    err: u64,
}

fn ends_of(alloc: Global, failing: Failing) -> Result<Ends, NoMemory> {
    let files = files(
        alloc,
        &[
            ("m.toml", MODEL),
            ("p.rpl", RULES),
            ("i.csv", INPUTS),
            ("e.csv", EDITS),
            ("t.csv", TRACES),
        ],
    )?;
    Ok(Ends {
        shelf: MemShelf::of(alloc, files, one_call(alloc, failing.shelf)?)?,
        out: MemSink::of(alloc, one_call(alloc, failing.out)?),
        err: MemSink::of(alloc, one_call(alloc, failing.err)?),
    })
}

// What a command comes to.
fn answer(
    alloc: Global,
    methods: &Catalogue,
    row: Row,
    failing: Failing,
) -> Result<(u8, Ends), NoMemory>
    requires { AreInOrder (map (λ b. code (b.vtable, b.value)) methods.now.methods.items) }
{
    let mut ends = ends_of(alloc, failing)?;
    let words = owned(alloc, row.words)?;
    let status = call(alloc, methods, &words, &mut ends)?;
    Ok((status, ends))
}

// Whether it answers 3 and writes nothing, where this call of the shelf fails: as many as it makes, and no more.
fn is_unread(
    alloc: Global,
    methods: &Catalogue,
    row: Row,
    number: u64,
    err: u64,
) -> Result<bool, NoMemory>
    requires { AreInOrder (map (λ b. code (b.vtable, b.value)) methods.now.methods.items) }
{
    let failing = Failing {
        shelf: number,
        out: 0,
        err,
    };
    let (status, ends) = answer(alloc, methods, row, failing)?;
    let untold = ends.err.held().is_empty();
    if number > row.reads {
        return Ok(status == 0 && untold);
    }
    Ok(status == 3 && ends.out.held().is_empty() && untold == (err == 1))
}

// Whether it answers 4 behind a front of its text, where this call of the output fails: as many as it makes, and no more.
fn is_cut(
    alloc: Global,
    methods: &Catalogue,
    row: Row,
    number: u64,
    err: u64,
    whole: &[u8],
) -> Result<bool, NoMemory>
    requires { AreInOrder (map (λ b. code (b.vtable, b.value)) methods.now.methods.items) }
{
    let failing = Failing {
        shelf: 0,
        out: number,
        err,
    };
    let (status, ends) = answer(alloc, methods, row, failing)?;
    let held = ends.out.held();
    let untold = ends.err.held().is_empty();
    if number > row.writes {
        return Ok(status == 0 && held == whole && untold);
    }
    Ok(status == 4 && held.len() < whole.len() && whole.starts_with(held) && untold == (err == 1))
}

// Whether each call that fails of a command is answered so.
fn is_right(alloc: Global, methods: &Catalogue, row: Row, err: u64) -> Result<bool, NoMemory>
    requires { AreInOrder (map (λ b. code (b.vtable, b.value)) methods.now.methods.items) }
{
    for before in 0..13 {
        if before <= row.reads && !is_unread(alloc, methods, row, before + 1, err)? {
            return Ok(false);
        }
    }
    let none = Failing {
        shelf: 0,
        out: 0,
        err: 0,
    };
    let (status, whole) = answer(alloc, methods, row, none)?;
    for before in 0..4 {
        if before <= row.writes
            && !is_cut(alloc, methods, row, before + 1, err, whole.out.held())?
        {
            return Ok(false);
        }
    }
    Ok(status == 0)
}

// The first of the commands, counted from 0, of which one isn't.
fn first_wrong(
    alloc: Global,
    methods: &Catalogue,
    rows: &[Row],
    err: u64,
) -> Result<Option<usize>, NoMemory>
    requires { AreInOrder (map (λ b. code (b.vtable, b.value)) methods.now.methods.items) }
{
    for k in 0..rows.len() {
        if !is_right(alloc, methods, rows[k], err)? {
            return Ok(Some(k));
        }
    }
    Ok(None)
}

#[test]
fn each_call_fails(rt: HostRuntime) -> Result<(), Fail> {
    let methods = all_methods(rt.alloc())?;
    none_is_wrong(&rt, first_wrong(rt.alloc(), &methods, ROWS, 0)?);
    none_is_wrong(&rt, first_wrong(rt.alloc(), &methods, ROWS, 1)?);
    Ok(())
}

#[test]
fn the_write_of_a_sample_fails(rt: HostRuntime) -> Result<(), Fail> {
    let methods = all_methods(rt.alloc())?;
    assert!(rt; is_right(rt.alloc(), &methods, SAMPLE, 0)?);
    Ok(())
}
