//! Lists the jobs of the program, each with the word that names it and the paths, other words and options that it takes.
ghost use Rattle.std.specs.Prelude.{◌≡◌, map, option_map};
ghost use Rattle.rw_words.specs.Job.{flags_of, job_named, job_name, job_options, others_of, paths_of};
ghost use Rattle.rw_words.specs.declared.job.Job.TheVariants as J;

/// The jobs of the program: what it does with the files that the arguments name, or with the sample of a seed.
#[derive(Clone, Copy)]
pub enum Job {
    Run,
    Simulate,
    Check,
    Compile,
    Why,
    Sample(u64),
    Balance,
    Mrm,
    Migrate,
}

static THREE: [&str; 3] = ["MODEL", "POLICY", "INPUTS"];

static SIMULATE: [&str; 2] = ["MODEL", "INPUTS"];

static CHECK: [&str; 2] = ["MODEL", "POLICY"];

static COMPILE: [&str; 2] = ["MODEL", "RULES"];

static TRACES: [&str; 4] = ["MODEL", "POLICY", "INPUTS", "TRACES"];

static MODEL: [&str; 1] = ["MODEL"];

static CELL: [&str; 2] = ["SLOT", "STEP"];

static SEED: [&str; 1] = ["SEED"];

static EDITS: [&str; 1] = ["edits"];

static ORDER: [&str; 1] = ["order"];

static RUN_FLAGS: [&str; 4] = ["flags", "trace", "reuse", "asked"];

static FLAGS: [&str; 3] = ["flags", "trace", "asked"];

static NONE: [&str; 0] = [];

fn sample_of(seed: Option<u64>) -> Option<Job>
    ensures { result ≡ option_map (λ number. J.Sample number) seed }
{
    match seed {
        Some(number) => Some(Job::Sample(number)),
        None => None,
    }
}

impl Job {
    // The job that a word names, with the seed that stands behind it.
    pub(crate) fn named(word: &str, seed: Option<u64>) -> Option<Job>
        ensures { result ≡ job_named word.now seed }
    {
        if word == "run" {
            Some(Job::Run)
        } else if word == "simulate" {
            Some(Job::Simulate)
        } else if word == "check" {
            Some(Job::Check)
        } else if word == "compile" {
            Some(Job::Compile)
        } else if word == "why" {
            Some(Job::Why)
        } else if word == "sample" {
            sample_of(seed)
        } else if word == "balance" {
            Some(Job::Balance)
        } else if word == "mrm" {
            Some(Job::Mrm)
        } else if word == "migrate" {
            Some(Job::Migrate)
        } else {
            None
        }
    }

    // The word that names it.
    pub(crate) fn name<'a>(self) -> &'a str
        ensures { result.now ≡ job_name self }
    {
        match self {
            Job::Run => "run",
            Job::Simulate => "simulate",
            Job::Check => "check",
            Job::Compile => "compile",
            Job::Why => "why",
            Job::Sample(_) => "sample",
            Job::Balance => "balance",
            Job::Mrm => "mrm",
            Job::Migrate => "migrate",
        }
    }

    // The paths that it wants, in order.
    pub(crate) fn paths<'a>(self) -> &'a [&'a str]
        ensures { map (λ name. name.now) result.now ≡ paths_of self }
    {
        match self {
            Job::Run | Job::Why | Job::Balance => THREE.as_slice(),
            Job::Simulate => SIMULATE.as_slice(),
            Job::Check => CHECK.as_slice(),
            Job::Compile => COMPILE.as_slice(),
            Job::Sample(_) => NONE.as_slice(),
            Job::Mrm => TRACES.as_slice(),
            Job::Migrate => MODEL.as_slice(),
        }
    }

    // The words that it wants behind them, which are no paths.
    pub(crate) fn others<'a>(self) -> &'a [&'a str]
        ensures { map (λ name. name.now) result.now ≡ others_of self }
    {
        match self {
            Job::Why => CELL.as_slice(),
            Job::Sample(_) => SEED.as_slice(),
            Job::Run | Job::Simulate | Job::Check | Job::Compile => NONE.as_slice(),
            Job::Balance | Job::Mrm | Job::Migrate => NONE.as_slice(),
        }
    }

    // Its options with a value.
    pub(crate) fn options<'a>(self) -> &'a [&'a str]
        ensures { map (λ name. name.now) result.now ≡ job_options self }
    {
        match self {
            Job::Run => EDITS.as_slice(),
            Job::Simulate => ORDER.as_slice(),
            Job::Check | Job::Compile | Job::Why | Job::Sample(_) => NONE.as_slice(),
            Job::Balance | Job::Mrm | Job::Migrate => NONE.as_slice(),
        }
    }

    // Its options without one.
    pub(crate) fn flags<'a>(self) -> &'a [&'a str]
        ensures { map (λ name. name.now) result.now ≡ flags_of self }
    {
        match self {
            Job::Run => RUN_FLAGS.as_slice(),
            Job::Simulate => FLAGS.as_slice(),
            Job::Check | Job::Compile | Job::Why | Job::Sample(_) => NONE.as_slice(),
            Job::Balance | Job::Mrm | Job::Migrate => NONE.as_slice(),
        }
    }
}
