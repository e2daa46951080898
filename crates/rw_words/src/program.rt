//! Describes to `clap` the arguments that the program accepts.
ghost use Rattle.std.specs.Prelude.{◌≡◌, IfOk, false, map};
ghost use Rattle.clap.specs.Words.{app_of, rule_of};
ghost use Rattle.clap.specs.declared.builder.command.Command.TheViews.{out-Command};
ghost use Rattle.rw_words.specs.Program.{bare, option, program, required_word, usage_of, with_rules};

use crate::Job;
use clap::{Arg, ArgAction, Command};
use std::alloc::{AllocError, Global};

fn required<'a>(alloc: Global, name: &'a str) -> Arg<'a>
    ensures rule { rule_of result ≡ required_word name.entry.now }
    ensures local { result.global ≡ false }
{
    Arg::new(alloc, name).required(true).action(ArgAction::Set)
}

fn option<'a>(alloc: Global, action: ArgAction, name: &'a str) -> Arg<'a>
    ensures rule { rule_of result ≡ option action name.entry.now }
    ensures local { result.global ≡ false }
{
    Arg::new(alloc, name).long(name).action(action)
}

// The command, with these words that have to be there.
fn with_words<'a>(
    alloc: Global,
    command: Command<'a>,
    names: &'a [&'a str],
) -> Result<Command<'a>, AllocError>
    requires local { (out-Command command).has_globals ≡ false }
    ensures { IfOk result (λ c. (app_of c ≡ with_rules (app_of command.entry)
        (map required_word (map (λ name. name.now) names.entry.now)))
        × ((out-Command c).has_globals ≡ false)) }
{
    let mut told = command;
    for name in names {
        let word = required(alloc, name);
        let more = told.arg(word)?;
        told = more;
    }
    Ok(told)
}

// The command, with these options.
fn with_options<'a>(
    alloc: Global,
    command: Command<'a>,
    action: ArgAction,
    names: &'a [&'a str],
) -> Result<Command<'a>, AllocError>
    requires local { (out-Command command).has_globals ≡ false }
    ensures { IfOk result (λ c. (app_of c ≡ with_rules (app_of command.entry)
        (map (option action) (map (λ name. name.now) names.entry.now)))
        × ((out-Command c).has_globals ≡ false)) }
{
    let mut told = command;
    for name in names {
        let given = option(alloc, action, name);
        let more = told.arg(given)?;
        told = more;
    }
    Ok(told)
}

fn usage<'a>(alloc: Global, job: Job) -> Result<Command<'a>, AllocError>
    ensures { IfOk result (λ c. (app_of c ≡ usage_of job) × ((out-Command c).has_globals ≡ false)) }
{
    let named = Command::new(alloc, job.name());
    let paths = with_words(alloc, named, job.paths())?;
    let words = with_words(alloc, paths, job.others())?;
    let options = with_options(alloc, words, ArgAction::Set, job.options())?;
    let flags = with_options(alloc, options, ArgAction::SetTrue, job.flags())?;
    Ok(flags)
}

fn bare<'a>(alloc: Global) -> Command<'a>
    ensures app { app_of result ≡ bare }
{
    Command::new(alloc, "basin")
        .no_binary_name(true)
        .disable_help_flag(true)
        .disable_help_subcommand(true)
        .disable_version_flag(true)
        .subcommand_required(true)
}

/// Returns the arguments of the program, as `clap` needs them described.
pub(crate) fn program<'a>(alloc: Global) -> Result<Command<'a>, AllocError>
    ensures { IfOk result (λ c. app_of c ≡ program) }
{
    let bare = bare(alloc);
    let run = usage(alloc, Job::Run)?;
    let one = bare.subcommand(run)?;
    let simulate = usage(alloc, Job::Simulate)?;
    let two = one.subcommand(simulate)?;
    let check = usage(alloc, Job::Check)?;
    let three = two.subcommand(check)?;
    let compile = usage(alloc, Job::Compile)?;
    let four = three.subcommand(compile)?;
    let why = usage(alloc, Job::Why)?;
    let five = four.subcommand(why)?;
    let sample = usage(alloc, Job::Sample(0))?;
    let six = five.subcommand(sample)?;
    let balance = usage(alloc, Job::Balance)?;
    let seven = six.subcommand(balance)?;
    let mrm = usage(alloc, Job::Mrm)?;
    let eight = seven.subcommand(mrm)?;
    let migrate = usage(alloc, Job::Migrate)?;
    let nine = eight.subcommand(migrate)?;
    Ok(nine)
}
