//! Reads the arguments of the command line as a command: its job, its paths and its options.
ghost use Rattle.std.specs.Prelude.{◌≡◌, IfOk, codes, false, map, option_and_then, option_map};
ghost use Rattle.std.specs.List.{list_any};
ghost use Rattle.std.specs.Option.{option_map_or};
ghost use Rattle.clap.specs.Words.{FailsBy, fault_of, first_of, found_of, rows_of, subcommand_of, subcommand_rows_of};
ghost use Rattle.rw_words.specs.Program.{program};
ghost use Rattle.rw_words.specs.Command.{cell_words_in, cell_seen, command_in, command_named, asked_command, asks_in_vain, is_empty, is_given, paths_in, seed_in, command_seen, taken_words, texts_of};

use crate::program::program;
use crate::seed::seed_of_text;
use crate::{Job, Order};
use clap::error::ErrorKind;
use clap::{ArgMatches, Error};
use rw_base::NoMemory;
use std::alloc::Global;

/// The arguments that name a cell: a slot and a timestep.
#[derive(Clone, Copy)]
pub struct CellWords<'w> {
    pub slot: &'w str,
    pub step: &'w str,
}

/// What the arguments ask for: a job, the paths that it needs, in its order, the words of its cell, where it asks for one, and
/// the options that were given.
#[derive(Drop)]
pub struct Command<'w> {
    pub job: Job,
    pub paths: Vec<&'w str>,
    pub cell: Option<CellWords<'w>>,
    pub edits: Option<&'w str>,
    pub order: Order,
    pub flags: bool,
    pub trace: bool,
    pub reuse: bool,
    pub asked: bool,
}

fn has_empty(words: &[String]) -> bool
    ensures { result ≡ list_any is_empty (texts_of words.now) }
{
    for word in words {
        if word.is_empty() {
            return true;
        }
    }
    false
}

// What was found for a name.
fn value<'w>(found: &ArgMatches<'w>, name: &str) -> Option<&'w str>
    ensures { option_map (λ text. text.now) result
        ≡ first_of name.now (rows_of (found_of found.now)) }
{
    found.get_str(name)
}

// Whether a flag was given.
fn is_given(found: &ArgMatches<'_>, name: &str) -> bool
    ensures { result ≡ is_given (rows_of (found_of found.now)) name.now }
{
    match value(found, name) {
        Some(text) => text == "true",
        None => false,
    }
}

// Whether a file of edits was given, without a path.
fn is_pathless(edits: Option<&str>) -> bool
    ensures { result ≡ option_map_or is_empty (option_map (λ path. path.now) edits.entry) false }
{
    match edits {
        Some(path) => path.is_empty(),
        None => false,
    }
}

// Whether what was asked for is to be told with no trace, or with timesteps that are taken over.
fn asks_in_vain(found: &ArgMatches<'_>) -> bool
    ensures { result ≡ asks_in_vain (rows_of (found_of found.now)) }
{
    let with_trace = is_given(found, "trace");
    let with_reuse = is_given(found, "reuse");
    is_given(found, "asked") && (!with_trace || with_reuse)
}

// The paths of these names.
#[tactic(auto, using(crate::proofs::Paths::path_more))]
fn paths_in<'w>(
    alloc: Global,
    found: &ArgMatches<'w>,
    names: &[&str],
) -> Result<Option<Vec<&'w str>>, NoMemory>
    ensures { IfOk result (λ paths. option_map (λ p. map (λ path. path.now) p.items) paths
        ≡ paths_in (rows_of (found_of found.now)) (map (λ name. name.now) names.now)) }
{
    let mut paths = Vec::new(alloc);
    for name in names {
        let Some(path) = value(found, name) else {
            return Ok(None);
        };
        paths.push(path)?;
    }
    Ok(Some(paths))
}

// The words of a cell, where both were found.
fn cell_in<'w>(found: &ArgMatches<'w>) -> Option<CellWords<'w>>
    ensures { option_map cell_seen result ≡ cell_words_in (rows_of (found_of found.now)) }
{
    let Some(slot) = value(found, "SLOT") else {
        return None;
    };
    match value(found, "STEP") {
        Some(step) => Some(CellWords { slot, step }),
        None => None,
    }
}

// The seed that was found.
fn seed_in(found: &ArgMatches<'_>) -> Option<u64>
    ensures { result ≡ seed_in (rows_of (found_of found.now)) }
{
    match value(found, "SEED") {
        Some(text) => seed_of_text(text.as_bytes()),
        None => None,
    }
}

// The command of a job, by what was found.
fn command_in<'w>(
    alloc: Global,
    found: &ArgMatches<'w>,
    job: Job,
) -> Result<Option<Command<'w>>, NoMemory>
    ensures { IfOk result (λ command. option_map command_seen command
        ≡ command_in (rows_of (found_of found.now)) job) }
{
    let edits = value(found, "edits");
    if is_pathless(edits) || asks_in_vain(found) {
        return Ok(None);
    }
    let Some(order) = Order::or_oldest(value(found, "order")) else {
        return Ok(None);
    };
    let Some(paths) = paths_in(alloc, found, job.paths())? else {
        return Ok(None);
    };
    Ok(Some(Command {
        job,
        paths,
        cell: cell_in(found),
        edits,
        order,
        flags: is_given(found, "flags"),
        trace: is_given(found, "trace"),
        reuse: is_given(found, "reuse"),
        asked: is_given(found, "asked"),
    }))
}

fn parse<'w>(alloc: Global, words: &'w [String]) -> Result<ArgMatches<'w>, Error>
    ensures fails { FailsBy (fault_of program (texts_of words.entry.now)) result }
    ensures found { IfOk result (λ found. subcommand_rows_of found
        ≡ subcommand_of program (texts_of words.entry.now)) }
{
    let told = program(alloc)?;
    told.try_get_matches_from(words)
}

// What `clap` finds, where it takes the words.
fn take<'w>(alloc: Global, words: &'w [String]) -> Result<Option<ArgMatches<'w>>, NoMemory>
    ensures { IfOk result (λ found. option_and_then subcommand_rows_of found
        ≡ taken_words (texts_of words.entry.now)) }
{
    match parse(alloc, words) {
        Ok(found) => Ok(Some(found)),
        Err(error) => match error.kind() {
            ErrorKind::OutOfMemory => Err(NoMemory),
            _ => Ok(None),
        },
    }
}

// The command that was found.
fn command_named<'w>(
    alloc: Global,
    matches: &ArgMatches<'w>,
) -> Result<Option<Command<'w>>, NoMemory>
    ensures { IfOk result (λ command. option_map command_seen command
        ≡ option_and_then command_named (subcommand_rows_of matches.now)) }
{
    let Some((name, found)) = matches.subcommand() else {
        return Ok(None);
    };
    let Some(job) = Job::named(name, seed_in(found)) else {
        return Ok(None);
    };
    command_in(alloc, found, job)
}

/// Returns the command that the arguments ask for; `None` where they ask for none. `docs/FORMATS.md` says under "Words" which of
/// them do. The one error is want of memory, which says nothing of the arguments.
pub fn read_words<'w>(alloc: Global, words: &'w [String]) -> Result<Option<Command<'w>>, NoMemory>
    ensures command { IfOk result (λ command. option_map command_seen command
        ≡ asked_command (texts_of words.entry.now)) }
{
    if has_empty(words) {
        return Ok(None);
    }
    match take(alloc, words)? {
        Some(found) => command_named(alloc, &found),
        None => Ok(None),
    }
}
