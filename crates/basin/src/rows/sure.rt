//! Tests a run after edits, with reuse, over files and texts in memory of which no call fails.
ghost use Rattle.std.specs.Prelude.{◌≡◌, ◌<◌, map};
ghost use Rattle.rw_method.specs.Catalogue.{AreInOrder};

use crate::rows::kept::{MENDED, MENDING, QUOTIENT, RUN};
use crate::rows::statuses::{all_functions, all_methods, files, is_text, owned};
use rpl_predef::Predefs;
use rw_base::NoMemory;
use rw_io::{SureShelf, SureSink};
use rw_method::Catalogue;
use rw_top::{Blank, Ledger, Steps, basin_main};
use std::alloc::Global;
use std::marker::Brand;
use std::test::Fail;

// More bytes than are written.
const ROOM: usize = 4096;

#[derive(Drop)]
struct SureEnds {
    shelf: SureShelf,
    out: SureSink,
    err: SureSink,
}

fn sure_ends(alloc: Global) -> Result<SureEnds, NoMemory> {
    let files = files(
        alloc,
        &[
            ("m.toml", MENDED.model),
            ("i.csv", MENDED.inputs),
            ("p.rpl", QUOTIENT),
            ("e.csv", MENDING),
        ],
    )?;
    Ok(SureEnds {
        shelf: SureShelf::of(files),
        out: SureSink::of(alloc, ROOM)?,
        err: SureSink::of(alloc, ROOM)?,
    })
}

fn call_counted<L: Ledger>(
    alloc: Global,
    blank: Blank,
    words: &[String],
    ends: &mut SureEnds,
    methods: &Catalogue,
    predefs: &Predefs,
) -> u8
    requires name { blank.name ≡ L.name }
    requires parts { blank.parts ≡ L.parts }
    requires some { 0 < blank.parts }
    requires order { AreInOrder (map (λ b. code (b.vtable, b.value)) methods.now.methods.items) }
{
    let mut steps = Steps::<L>::of(blank);
    basin_main(
        alloc,
        words,
        &mut ends.shelf,
        &mut ends.out,
        &mut ends.err,
        methods,
        predefs,
        &mut steps,
    )
}

// Whether the run answers and writes what it does over those that may fail.
fn is_mended(alloc: Global) -> Result<bool, NoMemory> {
    let (methods, predefs) = (all_methods(alloc)?, all_functions(alloc)?);
    let (words, mut ends) = (owned(alloc, &RUN)?, sure_ends(alloc)?);
    let blank = Blank::new(1);
    let status = call_counted::<Brand>(alloc, blank, &words, &mut ends, &methods, &predefs);
    Ok(
        status == MENDED.status
            && is_text(ends.out.held(), MENDED.out)
            && is_text(ends.err.held(), MENDED.err),
    )
}

#[test]
fn a_run_over_sure_files_writes_the_same(rt: HostRuntime) -> Result<(), Fail> {
    assert!(rt; is_mended(rt.alloc())?);
    Ok(())
}
