//! Does what the arguments ask for, and returns the status: the top call, of any machine.
ghost use Rattle.std.specs.Prelude.{◌≡◌, ℕ, List, map};
ghost use Rattle.rw_method.specs.Catalogue.{AreInOrder};
ghost use Rattle.rw_words.specs.Command.{texts_of};
ghost use Rattle.rw_io.specs.Outside.{change};
ghost use Rattle.rw_commands.specs.Promise.{Promise};
ghost use Rattle.rw_commands.specs.Lines.{memory_line};
ghost use Rattle.rw_commands.specs.Written.{TellsLine};

use crate::Refusal;
use crate::command::Command;
use crate::perform::perform;
use crate::tell::{tell, tell_memory, tell_words};
use rpl_fires::Fires;
use rpl_predef::Predefs;
use rw_base::{Ledger, NoMemory, Steps};
use rw_io::{Shelf, Sink};
use rw_method::Catalogue;
use rw_words::read_words;
use std::alloc::Global;

/// Does what the words ask for, with a machine that fires the rules, and answers the status with which a program ends.
/// `basin_main` of `rw_top` says of each command and each status what it is. After want of memory nothing is said of the machine.
pub fn perform_words<S: Shelf, K: Sink, E: Sink, L: Ledger, M: Fires>(
    alloc: Global,
    words: &[String],
    shelf: &mut S,
    out: &mut K,
    err: &mut E,
    methods: &Catalogue,
    predefs: &Predefs,
    machine: &mut M,
    steps: &mut Steps<L>,
) -> u8
    requires order { AreInOrder (map (λ b. code (b.vtable, b.value)) methods.now.methods.items) }
    ensures { Promise (record {
      words = texts_of words.now;
      shelf = change (S.seen shelf.old) (S.seen shelf.new);
      out = change (K.seen out.old) (K.seen out.new);
      err = change (E.seen err.old) (E.seen err.new);
      steps = change steps.old steps.new;
    }) result }
{
    let command = match read_words(alloc, words) {
        Ok(Some(words)) => Command { words },
        Ok(None) => {
            tell_words(err);
            return Refusal::Words.status();
        }
        Err(NoMemory) => {
            tell_memory(err);
            return Refusal::NoMemory.status();
        }
    };
    match perform(
        alloc, &command, shelf, out, methods, predefs, machine, steps,
    ) {
        Ok(status) => status,
        Err(refusal) => {
            tell(err, &command, &refusal);
            refusal.status()
        }
    }
}

/// What a program does that has no memory to call `perform_words` with: writes the line on that, as far as `err` takes it, and answers
/// the status with which it ends. It takes no memory itself.
pub fn end_without_memory<E: Sink>(err: &mut E) -> u8
    ensures status { result ≡ 5 }
    ensures told { TellsLine (change (E.seen err.old) (E.seen err.new)) memory_line }
{
    tell_memory(err);
    Refusal::NoMemory.status()
}
