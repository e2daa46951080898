//! Does what the words ask for by the machine of `rpl_machine`: the top call `basin_main`.
ghost use Rattle.std.specs.Prelude.{map};
ghost use Rattle.rw_method.specs.Catalogue.{AreInOrder};
ghost use Rattle.rw_words.specs.Command.{texts_of};
ghost use Rattle.rw_io.specs.Outside.{change};
ghost use Rattle.rw_commands.specs.Promise.{Promise};

use rpl_machine::Machine;
use rpl_predef::Predefs;
use rw_base::{Ledger, Steps};
use rw_commands::perform_words;
use rw_io::{Shelf, Sink};
use rw_method::Catalogue;
use std::alloc::Global;

/// Does what the words ask for, and answers the status with which a program ends. The words don't include the
/// program's own name.
///
/// `simulate MODEL INPUTS` reads both files from the shelf, runs the basin that they describe, each object by the method of its
/// kind, and writes the table to `out`. The methods are one for each kind, in the order of the kinds' numbers. The status is 0
/// where the run settled and 1 where it ended in a fault. Of the objects that wait the one is dispatched that has waited longest,
/// with `--order newest` the one that has waited shortest. `run MODEL POLICY INPUTS` reads the three files, runs the basin as
/// `simulate` does, and lets the rules of the policy fire, by the functions that they call. With `--edits FILE` it reads batches of
/// edits, too, and writes one section more after each batch: that of the run from the inputs as they are then. With `--reuse` it
/// runs those timesteps alone again of which something at which they looked was changed, says which these are in the section's
/// second line, and counts a timestep for each that it runs. Each section is written as soon as it is made. The status is that of
/// the last section. With `--flags` either writes who put each value, with `--trace` what happened. `check MODEL POLICY` reads both
/// files, judges the ruleset, or the code where the policy's first line is `CODE 1`, with the basin, and writes what a firing of
/// each rule comes to at most. The status is 0. `compile MODEL RULES` reads both files, judges the ruleset with the basin, and
/// writes the text of its code. The status is 0. `why MODEL POLICY INPUTS SLOT STEP` reads the files that `run` reads, runs the
/// basin in the same way, and writes how the cell of that slot and timestep came to what it holds at the end, with the status of
/// that run. `sample SEED` reads no file: it makes the model, the ruleset and the inputs of the sample of that seed, runs them as
/// `run` does, and writes one line on the run. The status is 0. `balance MODEL POLICY INPUTS` reads and runs as `run` does, and writes
/// the books of each object that holds water, with the status of that run. `mrm MODEL POLICY INPUTS TRACES` reads traces, too, and
/// writes the table of the run of each, from the inputs as they were read with the trace's own values, as soon as it is made, and
/// then a summary of all. The status is 0 where all of these runs settled, and else 1. `migrate MODEL` reads the model, and writes
/// it in format 2. The status is 0.
///
/// With each other status one line on `err` says why: 2 the words, 3 a file that can't be read, 4 an output that can't be
/// written, 5 want of memory, 6 the model, 7 the ruleset, 8 the inputs, the edits, the traces or the cell, 9 the code, 10 a file of more than 16,777,216
/// bytes. A failure of `err` changes no status. What the files said isn't freed: the process that calls ends behind it.
pub fn basin_main<S: Shelf, K: Sink, E: Sink, L: Ledger>(
    alloc: Global,
    words: &[String],
    shelf: &mut S,
    out: &mut K,
    err: &mut E,
    methods: &Catalogue,
    predefs: &Predefs,
    steps: &mut Steps<L>,
) -> u8
    requires order { AreInOrder (map (λ b. code (b.vtable, b.value)) methods.now.methods.items) }
    ensures { Promise (record {
      words = texts_of words.now;
      shelf = change (S.seen shelf.old) (S.seen shelf.new);
      out = change (K.seen out.old) (K.seen out.new);
      err = change (E.seen err.old) (E.seen err.new);
      steps = change steps.old steps.new;
    }) result }
{
    let mut machine = Machine::new(alloc);
    perform_words(
        alloc,
        words,
        shelf,
        out,
        err,
        methods,
        predefs,
        &mut machine,
        steps,
    )
}
