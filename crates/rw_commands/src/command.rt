//! Names the files of a command: which it reads, and where the text of each comes from.
ghost use Rattle.std.specs.Prelude.{◌≡◌, map, option_map, slice_index_or, [], Some};
ghost use Rattle.rw_commands.specs.Command.{command_said, extras_of, files_of, named_source, path_in, path_of, place_among, seeks_cell, source_at, source_of, source_seen, takes_code, wants_text};
ghost use Rattle.rw_commands.specs.declared.refusal.File.TheVariants as F;

use crate::File;
use crate::extras::Extras;
use rw_words::{Command as Words, Job};

// In which place a file stands among those of a job, from 0 on, where the job reads it.
fn place(job: Job, file: File) -> Option<usize>
    ensures { result ≡ place_among (files_of job) file }
{
    match (job, file) {
        (_, File::Model) => Some(0),
        (Job::Check | Job::Compile | Job::Run | Job::Why | Job::Sample(_), File::Policy) => Some(1),
        (Job::Balance | Job::Mrm, File::Policy) => Some(1),
        (Job::Simulate, File::Inputs) => Some(1),
        (Job::Run | Job::Why | Job::Sample(_), File::Inputs) => Some(2),
        (Job::Balance | Job::Mrm, File::Inputs) => Some(2),
        (Job::Mrm, File::Traces) => Some(3),
        _ => None,
    }
}

// The path in a place, or the empty one.
fn path_at<'w>(paths: &[&'w str], place: usize) -> &'w str
    ensures { result.now ≡ slice_index_or (map (λ path. path.now) paths.entry.now) place [] }
{
    match paths.get(place) {
        Some(path) => path,
        None => "",
    }
}

/// Where the text of a file comes from.
#[derive(Clone, Copy)]
pub(crate) enum Source<'w> {
    /// The file of this path.
    Path(&'w str),
    /// The sample of this seed.
    Sample(u64),
}

impl<'w> Source<'w> {
    // The path, where it is one.
    fn path(self) -> Option<&'w str>
        ensures { option_map (λ path. path.now) result ≡ path_in (source_seen self.entry) }
    {
        match self {
            Source::Path(path) => Some(path),
            Source::Sample(_) => None,
        }
    }
}

// Where the text comes from that stands in a place among those of a job.
fn source_at<'w>(job: Job, paths: &[&'w str], place: usize) -> Source<'w>
    ensures { source_seen result ≡ source_at job (map (λ path. path.now) paths.entry.now) place }
{
    match job {
        Job::Sample(seed) => Source::Sample(seed),
        Job::Simulate | Job::Check | Job::Compile | Job::Run | Job::Why => {
            Source::Path(path_at(paths, place))
        }
        Job::Balance | Job::Mrm | Job::Migrate => Source::Path(path_at(paths, place)),
    }
}

/// A command, as the words ask for it.
#[derive(Drop)]
pub(crate) struct Command<'w> {
    pub(crate) words: Words<'w>,
}

impl<'w> Command<'w> {
    /// What its text tells besides the table, and how it is come to.
    pub(crate) fn extras(&self) -> Extras
        ensures { result ≡ extras_of (command_said self.now) }
    {
        Extras {
            flags: self.words.flags,
            trace: self.words.trace,
            asked: self.words.asked,
            reuse: self.words.reuse,
            order: self.words.order,
        }
    }

    /// Whether its policy may be code.
    pub(crate) fn takes_code(&self) -> bool
        ensures { result ≡ takes_code self.now.words.job }
    {
        match self.words.job {
            Job::Simulate | Job::Check | Job::Run | Job::Why => true,
            Job::Balance | Job::Mrm | Job::Migrate => true,
            Job::Compile | Job::Sample(_) => false,
        }
    }

    /// Whether it asks for a cell.
    pub(crate) fn seeks_cell(&self) -> bool
        ensures { result ≡ seeks_cell self.now.words.job }
    {
        match self.words.job {
            Job::Why => true,
            Job::Simulate | Job::Check | Job::Run | Job::Compile | Job::Sample(_) => false,
            Job::Balance | Job::Mrm | Job::Migrate => false,
        }
    }

    /// Whether it wants the text of its model, too.
    pub(crate) fn wants_text(&self) -> bool
        ensures { result ≡ wants_text self.now.words.job }
    {
        match self.words.job {
            Job::Migrate => true,
            Job::Simulate | Job::Check | Job::Run | Job::Compile | Job::Sample(_) => false,
            Job::Why | Job::Balance | Job::Mrm => false,
        }
    }

    /// Where the text of the model comes from.
    pub(crate) fn model(&self) -> Source<'w>
        ensures { Some (source_seen result) ≡ source_of (command_said self.now) F.Model }
    {
        source_at(self.words.job, &self.words.paths, 0)
    }

    // Where that of a file comes from that its job reads.
    fn named(&self, file: File) -> Option<Source<'w>>
        ensures { option_map source_seen result ≡ named_source (command_said self.now) file }
    {
        match place(self.words.job, file) {
            Some(place) => Some(source_at(self.words.job, &self.words.paths, place)),
            None => None,
        }
    }

    fn edits(&self) -> Option<Source<'w>>
        ensures { option_map source_seen result ≡ source_of (command_said self.now) F.Edits }
    {
        match self.words.edits {
            Some(path) => Some(Source::Path(path)),
            None => None,
        }
    }

    /// Where that of a file comes from, where the command reads it.
    pub(crate) fn source(&self, file: File) -> Option<Source<'w>>
        ensures { option_map source_seen result ≡ source_of (command_said self.now) file }
    {
        match file {
            File::Model => self.named(File::Model),
            File::Policy => self.named(File::Policy),
            File::Inputs => self.named(File::Inputs),
            File::Edits => self.edits(),
            File::Traces => self.named(File::Traces),
        }
    }

    /// The path of a file, where the command reads it from one.
    pub(crate) fn path(&self, file: File) -> Option<&'w str>
        ensures { option_map (λ path. path.now) result ≡ path_of (command_said self.now) file }
    {
        match self.source(file) {
            Some(source) => source.path(),
            None => None,
        }
    }
}
