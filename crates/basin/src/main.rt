//! Starts the program `basin`: hands the words, the files, the standard streams, the methods of all kinds and the functions that
//! rules call by name to `basin_main`, and ends with its status.
#![tactic(auto)]

#[cfg(test)]
mod rows;

ghost use Rattle.std.specs.Prelude.{◌≡◌, ◌<◌, IfOk};
ghost use Rattle.rw_io.specs.Outside.{change};
ghost use Rattle.rw_commands.specs.Promise.{Promise};
ghost use Rattle.rw_words.specs.Command.{texts_of};

use rpl_predef::{
    Predef, Predefs, absolute, clamped, greatest, least, mul_div, rounded_down, sign,
};
use rw_base::NoMemory;
use rw_io::{FileShelf, Shelf, Sink, StdSink};
use rw_method::{Catalogue, Method};
use rw_power::PowerReservoirMethod;
use rw_reservoir::ReservoirMethod;
use rw_routing::RoutedReachMethod;
use rw_stream::{BifurcationMethod, ConfluenceMethod, GageMethod, ReachMethod};
use rw_top::{Blank, Ledger, Steps, basin_main, end_without_memory};
use rw_users::{CanalMethod, WaterUserMethod};
use std::alloc::Global;
use std::env;
use std::io::ErrorKind;
use std::marker::Brand;
use std::process::ExitCode;

// The words behind the program's name. Words that are no text are as none: they are refused.
fn words(rt: &HostRuntime) -> Result<Vec<String>, NoMemory> {
    let mut words = Vec::new(rt.alloc());
    match env::args(rt) {
        Ok(found) => {
            for word in found.skip(1) {
                words.push(word)?;
            }
        }
        Err(error) if error.kind() == ErrorKind::OutOfMemory => return Err(NoMemory),
        Err(_) => {}
    }
    Ok(words)
}

// The status of a call that has the methods of all kinds, and all predefined functions, each in the order of their numbers, and
// the promise of such a call with it. Were they in another order, they would be missing like memory: each run of the program
// shows that they aren't.
fn status<S: Shelf, K: Sink, E: Sink, L: Ledger>(
    alloc: Global,
    words: &[String],
    shelf: &mut S,
    out: &mut K,
    err: &mut E,
    steps: &mut Steps<L>,
) -> Result<u8, NoMemory>
    ensures { IfOk result (λ status. Promise (record {
      words = texts_of words.now;
      shelf = change (S.seen shelf.old) (S.seen shelf.new);
      out = change (K.seen out.old) (K.seen out.new);
      err = change (E.seen err.old) (E.seen err.new);
      steps = change steps.old steps.new;
    }) status) }
{
    let mut methods: Vec<Box<dyn Method>> = Vec::new(alloc);
    methods.push(Box::new(alloc, GageMethod)?)?;
    methods.push(Box::new(alloc, ConfluenceMethod)?)?;
    methods.push(Box::new(alloc, BifurcationMethod)?)?;
    methods.push(Box::new(alloc, ReachMethod)?)?;
    methods.push(Box::new(alloc, ReservoirMethod)?)?;
    methods.push(Box::new(alloc, WaterUserMethod)?)?;
    methods.push(Box::new(alloc, CanalMethod)?)?;
    methods.push(Box::new(alloc, PowerReservoirMethod)?)?;
    methods.push(Box::new(alloc, RoutedReachMethod)?)?;
    let Ok(methods) = Catalogue::of(methods) else {
        return Err(NoMemory);
    };
    let functions = vec![in alloc;
        Predef::of(1, least),
        Predef::of(2, greatest),
        Predef::of(3, absolute),
        Predef::of(4, clamped),
        Predef::of(5, rounded_down),
        Predef::of(6, sign),
        Predef::of(7, mul_div),
    ]?;
    let Ok(predefs) = Predefs::of(functions) else {
        return Err(NoMemory);
    };
    Ok(basin_main(alloc, words, shelf, out, err, &methods, &predefs, steps))
}

fn run<L: Ledger>(rt: HostRuntime, blank: Blank) -> ExitCode
    requires name { blank.name ≡ L.name }
    requires parts { blank.parts ≡ L.parts }
    requires some { 0 < blank.parts }
{
    let mut steps = Steps::<L>::of(blank);
    let mut out = StdSink::of(rt.stdout());
    let mut err = StdSink::of(rt.stderr());
    let alloc = rt.alloc();
    let ended = match words(&rt) {
        Ok(words) => {
            let mut shelf = FileShelf::of(rt);
            status(alloc, &words, &mut shelf, &mut out, &mut err, &mut steps)
        }
        Err(NoMemory) => Err(NoMemory),
    };
    match ended {
        Ok(status) => ExitCode::from(status),
        Err(NoMemory) => ExitCode::from(end_without_memory(&mut err)),
    }
}

fn main(rt: HostRuntime) -> ExitCode {
    run::<Brand>(rt, Blank::new(1))
}
