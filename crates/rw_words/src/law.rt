//! Proves what the definitions of this crate mean in plain words. Each law is the `ensures` of a function that does nothing.
ghost use Rattle.std.specs.Prelude.{◌≡◌, [], ℕ, IsTrue, List, None, Some, length};
ghost use Rattle.std.specs.List.{list_any};
ghost use Rattle.rw_words.specs.Command.{Command, asked_command, is_empty};
ghost use Rattle.rw_words.specs.Job.{Text, paths_of};
ghost use Rattle.rw_words.specs.Plain.{PlainWords, plain_command};
ghost use Rattle.rw_words.specs.Worked.{AskWithOptions, AskForNothing};
ghost use Rattle.rw_words.specs.declared.job.Job.TheVariants as J;
ghost use Rattle.rw_words.specs.declared.seed.TheConstants.{DIGITS_MAX};

/// The name of a job, its paths and the words behind them ask for it with no option, where none is empty or begins with `-`.
pub fn plain_words()
    ensures { PlainWords }
{}

/// What is asked for has a path for each that its job needs.
#[tactic(auto, using(crate::proofs::Paths::words_paths))]
pub fn one_path_each()
    ensures { (words : List Text) (command : Command) → asked_command words ≡ Some command
        → length command.paths ≡ length (paths_of command.job) }
{}

/// Words that ask for the sample of a seed ask for nothing more, whatever stands behind its name.
pub fn sample_words()
    ensures { (words : List Text) (command : Command) (seed : ℕ)
        → asked_command words ≡ Some command → command.job ≡ J.Sample seed
        → command ≡ plain_command (J.Sample seed) [] }
{}

/// Where a word is empty, nothing is asked for.
pub fn empty_words()
    ensures { (words : List Text) → IsTrue (list_any is_empty words) → asked_command words ≡ None }
{}

/// Worked arguments, and what they ask for.
pub fn worked_words()
    ensures asked { AskWithOptions }
    ensures nothing { AskForNothing }
{}

/// How many digits a seed has at most.
pub fn limits_of_words()
    ensures digits { DIGITS_MAX ≡ 20 }
{}
