//! Reads or makes the files of a command, and judges each before the next.
ghost use Rattle.std.specs.Prelude.{◌≡◌, ℕ, ◌≤◌, List, MatchResult, IfOk, IfSome, IsSome, IsSomeAnd, IsTrue, Ok, Some, length, option_map};
ghost use Rattle.rw_base.specs.declared.limits.TheConstants.{TEXT_MAX};
ghost use Rattle.rw_model.specs.Draft.{IsSlot};
ghost use Rattle.rw_io.specs.Causes.{NoneFell};
ghost use Rattle.rw_io.specs.Outside.{Change, ShelfView, change};
ghost use Rattle.rw_commands.specs.Command.{AtPath, OfSample, command_said, seeks_cell, source_of, source_seen, wants_text};
ghost use Rattle.rw_commands.specs.Reading.{AreRead, IsCellRead, Reaches, ReadsInputs, ReadsModel, ReadsModelText, SaysAt, WasRead, reads_code, text_wanted};
ghost use Rattle.rw_commands.specs.Refusal.{FileCause, IsPolicyRefusal};
ghost use Rattle.rw_commands.specs.Ready.{AreBehind, AreEdits, AreReadAs, IsFit, IsMadeOf, IsReadAs};
ghost use Rattle.rw_commands.specs.Seen.{files_seen};
ghost use Rattle.rw_commands.specs.declared.refusal.File.TheVariants as F;

use crate::cell::find_cell;
use crate::command::{Command, Source};
use crate::judging::{is_code, judge_edits, judge_inputs, judge_model, judge_policy, judge_traces};
use crate::policy::Policy;
use crate::sample::sample_text;
use crate::{File, Refusal};
use rw_base::{Cell, NoMemory};
use rw_inputs::{Batch, Inputs};
use rw_io::{Shelf, read_all};
use rw_model::Basin;
use std::alloc::Global;
use std::mem::drop;

/// What the files of a command say: the policy, the inputs, the edits and the scenarios, where it names them; the cell that it asks
/// for; and the text of its model, where it wants that.
#[derive(Drop)]
pub(crate) struct Files {
    pub(crate) basin: Basin,
    pub(crate) policy: Option<Policy>,
    pub(crate) inputs: Option<Inputs>,
    pub(crate) edits: Option<Vec<Batch>>,
    pub(crate) scenarios: Option<Vec<Batch>>,
    pub(crate) cell: Option<Cell>,
    pub(crate) text: Option<Vec<u8>>,
}

// The whole of a file that the command reads from a path, where each file before it is accepted.
fn read_file<S: Shelf>(
    alloc: Global,
    command: &Command<'_>,
    file: File,
    path: &str,
    shelf: &mut S,
) -> Result<Vec<u8>, Refusal>
    requires named { source_of (command_said command.now) file ≡ Some (AtPath path.now) }
    requires reached { Reaches (command_said command.now) (S.seen shelf.old).holds file }
    ensures read { MatchResult result
        (λ text. WasRead (command_said command.now) (S.seen shelf.old).holds file text.items)
        (FileCause (command_said command.now) (change (S.seen shelf.old) (S.seen shelf.new))) }
    ensures held { (p : List ℕ) → (S.seen shelf.new).holds p ≡ (S.seen shelf.old).holds p }
    ensures later { NoneFell (S.seen shelf.old).faults (S.seen shelf.new).faults }
{
    match read_all(alloc, shelf, path) {
        Ok(text) => Ok(text),
        Err(end) => Err(Refusal::after(end, file)),
    }
}

// The text of a file that the command makes itself.
fn make_text(
    alloc: Global,
    command: &Command<'_>,
    file: File,
    seed: u64,
) -> Result<Vec<u8>, Refusal>
    requires named { source_of (command_said command.now) file ≡ Some (OfSample seed) }
    ensures { (shelf : Change ShelfView) → MatchResult result
        (λ text. WasRead (command_said command.now) shelf.before.holds file text.items)
        (FileCause (command_said command.now) shelf) }
{
    match sample_text(alloc, seed, file) {
        Ok(text) => Ok(text),
        Err(NoMemory) => Err(Refusal::NoMemory),
    }
}

// The text of a file of the command, from where it comes.
fn read_text<S: Shelf>(
    alloc: Global,
    command: &Command<'_>,
    file: File,
    source: Source<'_>,
    shelf: &mut S,
) -> Result<Vec<u8>, Refusal>
    requires named { source_of (command_said command.now) file ≡ Some (source_seen source) }
    requires reached { Reaches (command_said command.now) (S.seen shelf.old).holds file }
    ensures read { MatchResult result
        (λ text. WasRead (command_said command.now) (S.seen shelf.old).holds file text.items)
        (FileCause (command_said command.now) (change (S.seen shelf.old) (S.seen shelf.new))) }
    ensures held { (p : List ℕ) → (S.seen shelf.new).holds p ≡ (S.seen shelf.old).holds p }
    ensures later { NoneFell (S.seen shelf.old).faults (S.seen shelf.new).faults }
{
    match source {
        Source::Path(path) => read_file(alloc, command, file, path, shelf),
        Source::Sample(seed) => make_text(alloc, command, file, seed),
    }
}

// The text of a model, where the command wants it.
fn wanted(command: &Command<'_>, text: Vec<u8>) -> Option<Vec<u8>>
    ensures { option_map (λ bytes. bytes.items) result
        ≡ text_wanted (command_said command.now).job text.items }
{
    if command.wants_text() {
        Some(text)
    } else {
        None
    }
}

// Reads and judges the model of the command, and keeps its text where that is wanted.
fn read_basin<S: Shelf>(
    alloc: Global,
    command: &Command<'_>,
    shelf: &mut S,
) -> Result<(Basin, Option<Vec<u8>>), Refusal>
    ensures read { MatchResult result
        (λ pair. ReadsModelText (command_said command.now) (S.seen shelf.old).holds pair.0
        (option_map (λ bytes. bytes.items) pair.1))
        (FileCause (command_said command.now) (change (S.seen shelf.old) (S.seen shelf.new))) }
    ensures held { (p : List ℕ) → (S.seen shelf.new).holds p ≡ (S.seen shelf.old).holds p }
    ensures later { NoneFell (S.seen shelf.old).faults (S.seen shelf.new).faults }
{
    match read_text(alloc, command, File::Model, command.model(), shelf) {
        Ok(text) => match judge_model(alloc, &text) {
            Ok(basin) => Ok((basin, wanted(command, text))),
            Err(refusal) => Err(refusal),
        },
        Err(refusal) => Err(refusal),
    }
}

// The policy of a text, which is read as the command takes it.
fn judge_for(
    alloc: Global,
    command: &Command<'_>,
    basin: &Basin,
    text: &[u8],
) -> Result<Policy, Refusal>
    requires { length text.now ≤ TEXT_MAX }
    ensures { MatchResult result
        (IsMadeOf (reads_code (command_said command.now) text.now) basin.now text.now)
        (IsPolicyRefusal (reads_code (command_said command.now) text.now) basin.now text.now) }
{
    judge_policy(alloc, basin, text, command.takes_code() && is_code(text))
}

// Reads and judges the policy, where the command names one, for the basin of its model.
fn read_policy<S: Shelf>(
    alloc: Global,
    command: &Command<'_>,
    basin: &Basin,
    shelf: &mut S,
) -> Result<Option<Policy>, Refusal>
    requires model { ReadsModel (command_said command.now) (S.seen shelf.old).holds basin.now }
    ensures read { MatchResult result (λ found. SaysAt (command_said command.now) F.Policy found
        (IsReadAs (command_said command.now) (S.seen shelf.old).holds basin.now))
        (FileCause (command_said command.now) (change (S.seen shelf.old) (S.seen shelf.new))) }
    ensures held { (p : List ℕ) → (S.seen shelf.new).holds p ≡ (S.seen shelf.old).holds p }
    ensures later { NoneFell (S.seen shelf.old).faults (S.seen shelf.new).faults }
{
    let Some(source) = command.source(File::Policy) else {
        return Ok(None);
    };
    match read_text(alloc, command, File::Policy, source, shelf) {
        Ok(text) => match judge_for(alloc, command, basin, &text) {
            Ok(policy) => Ok(Some(policy)),
            Err(refusal) => Err(refusal),
        },
        Err(refusal) => Err(refusal),
    }
}

// Reads and judges the inputs, where the command names them, for the basin of its model.
fn read_given<S: Shelf>(
    alloc: Global,
    command: &Command<'_>,
    basin: &Basin,
    shelf: &mut S,
) -> Result<Option<Inputs>, Refusal>
    requires model { ReadsModel (command_said command.now) (S.seen shelf.old).holds basin.now }
    requires reached { Reaches (command_said command.now) (S.seen shelf.old).holds F.Inputs }
    ensures read { MatchResult result (λ found. SaysAt (command_said command.now) F.Inputs found
        (ReadsInputs (command_said command.now) (S.seen shelf.old).holds basin.now))
        (FileCause (command_said command.now) (change (S.seen shelf.old) (S.seen shelf.new))) }
    ensures held { (p : List ℕ) → (S.seen shelf.new).holds p ≡ (S.seen shelf.old).holds p }
    ensures later { NoneFell (S.seen shelf.old).faults (S.seen shelf.new).faults }
{
    let Some(source) = command.source(File::Inputs) else {
        return Ok(None);
    };
    match read_text(alloc, command, File::Inputs, source, shelf) {
        Ok(text) => match judge_inputs(alloc, basin, &text) {
            Ok(inputs) => Ok(Some(inputs)),
            Err(refusal) => Err(refusal),
        },
        Err(refusal) => Err(refusal),
    }
}

// Reads and judges the edits, where the command names them, for the basin of its model.
fn read_changes<S: Shelf>(
    alloc: Global,
    command: &Command<'_>,
    basin: &Basin,
    shelf: &mut S,
) -> Result<Option<Vec<Batch>>, Refusal>
    requires model { ReadsModel (command_said command.now) (S.seen shelf.old).holds basin.now }
    requires reached { Reaches (command_said command.now) (S.seen shelf.old).holds F.Edits }
    ensures read { MatchResult result (λ found. SaysAt (command_said command.now) F.Edits found
        (λ batches. AreReadAs (command_said command.now)
        (S.seen shelf.old).holds F.Edits basin.now batches.items))
        (FileCause (command_said command.now) (change (S.seen shelf.old) (S.seen shelf.new))) }
    ensures held { (p : List ℕ) → (S.seen shelf.new).holds p ≡ (S.seen shelf.old).holds p }
    ensures later { NoneFell (S.seen shelf.old).faults (S.seen shelf.new).faults }
{
    let Some(source) = command.source(File::Edits) else {
        return Ok(None);
    };
    match read_text(alloc, command, File::Edits, source, shelf) {
        Ok(text) => match judge_edits(alloc, basin, &text) {
            Ok(batches) => Ok(Some(batches)),
            Err(refusal) => Err(refusal),
        },
        Err(refusal) => Err(refusal),
    }
}

// Reads and judges the scenarios, where the command names a file of traces, for the basin of its model.
fn read_scenarios<S: Shelf>(
    alloc: Global,
    command: &Command<'_>,
    basin: &Basin,
    shelf: &mut S,
) -> Result<Option<Vec<Batch>>, Refusal>
    requires model { ReadsModel (command_said command.now) (S.seen shelf.old).holds basin.now }
    requires reached { Reaches (command_said command.now) (S.seen shelf.old).holds F.Traces }
    ensures read { MatchResult result (λ found. SaysAt (command_said command.now) F.Traces found
        (λ batches. AreReadAs (command_said command.now)
        (S.seen shelf.old).holds F.Traces basin.now batches.items))
        (FileCause (command_said command.now) (change (S.seen shelf.old) (S.seen shelf.new))) }
    ensures held { (p : List ℕ) → (S.seen shelf.new).holds p ≡ (S.seen shelf.old).holds p }
{
    let Some(source) = command.source(File::Traces) else {
        return Ok(None);
    };
    match read_text(alloc, command, File::Traces, source, shelf) {
        Ok(text) => match judge_traces(alloc, basin, &text) {
            Ok(batches) => Ok(Some(batches)),
            Err(refusal) => Err(refusal),
        },
        Err(refusal) => Err(refusal),
    }
}

// Reads and judges the edits, and then the scenarios.
fn read_batches<S: Shelf>(
    alloc: Global,
    command: &Command<'_>,
    basin: &Basin,
    shelf: &mut S,
) -> Result<(Option<Vec<Batch>>, Option<Vec<Batch>>), Refusal>
    requires model { ReadsModel (command_said command.now) (S.seen shelf.old).holds basin.now }
    requires reached { Reaches (command_said command.now) (S.seen shelf.old).holds F.Edits }
    ensures read { MatchResult result (λ found. SaysAt (command_said command.now) F.Edits found.0
        (λ batches. AreReadAs (command_said command.now)
        (S.seen shelf.old).holds F.Edits basin.now batches.items)
        × SaysAt (command_said command.now) F.Traces found.1
        (λ batches. AreReadAs (command_said command.now)
        (S.seen shelf.old).holds F.Traces basin.now batches.items))
        (FileCause (command_said command.now) (change (S.seen shelf.old) (S.seen shelf.new))) }
    ensures held { (p : List ℕ) → (S.seen shelf.new).holds p ≡ (S.seen shelf.old).holds p }
{
    let edits = match read_changes(alloc, command, basin, shelf) {
        Ok(edits) => edits,
        Err(refusal) => return Err(refusal),
    };
    match read_scenarios(alloc, command, basin, shelf) {
        Ok(scenarios) => Ok((edits, scenarios)),
        Err(refusal) => Err(refusal),
    }
}

// Reads and judges the policy and the inputs.
fn read_behind<S: Shelf>(
    alloc: Global,
    command: &Command<'_>,
    basin: &Basin,
    shelf: &mut S,
) -> Result<(Option<Policy>, Option<Inputs>), Refusal>
    requires model { ReadsModel (command_said command.now) (S.seen shelf.old).holds basin.now }
    ensures read { MatchResult result (λ found. SaysAt (command_said command.now) F.Policy found.0
        (IsReadAs (command_said command.now) (S.seen shelf.old).holds basin.now)
        × SaysAt (command_said command.now) F.Inputs found.1
        (ReadsInputs (command_said command.now) (S.seen shelf.old).holds basin.now))
        (FileCause (command_said command.now) (change (S.seen shelf.old) (S.seen shelf.new))) }
    ensures held { (p : List ℕ) → (S.seen shelf.new).holds p ≡ (S.seen shelf.old).holds p }
    ensures later { NoneFell (S.seen shelf.old).faults (S.seen shelf.new).faults }
{
    let policy = match read_policy(alloc, command, basin, shelf) {
        Ok(policy) => policy,
        Err(refusal) => return Err(refusal),
    };
    match read_given(alloc, command, basin, shelf) {
        Ok(inputs) => Ok((policy, inputs)),
        Err(refusal) => Err(refusal),
    }
}

// What the files behind the model say.
#[derive(Drop)]
struct Behind {
    policy: Option<Policy>,
    inputs: Option<Inputs>,
    edits: Option<Vec<Batch>>,
    scenarios: Option<Vec<Batch>>,
}

// Reads and judges the files behind the model: the policy, the inputs, the edits and the scenarios.
fn read_others<S: Shelf>(
    alloc: Global,
    command: &Command<'_>,
    basin: &Basin,
    shelf: &mut S,
) -> Result<Behind, Refusal>
    requires model { ReadsModel (command_said command.now) (S.seen shelf.old).holds basin.now }
    ensures read { MatchResult result
        (AreBehind (command_said command.now) (S.seen shelf.old).holds basin.now)
        (FileCause (command_said command.now) (change (S.seen shelf.old) (S.seen shelf.new))) }
    ensures held { (p : List ℕ) → (S.seen shelf.new).holds p ≡ (S.seen shelf.old).holds p }
{
    let (policy, inputs) = match read_behind(alloc, command, basin, shelf) {
        Ok(pair) => pair,
        Err(refusal) => return Err(refusal),
    };
    match read_batches(alloc, command, basin, shelf) {
        Ok((edits, scenarios)) => Ok(Behind {
            policy,
            inputs,
            edits,
            scenarios,
        }),
        Err(refusal) => Err(refusal),
    }
}

// Reads and judges the files behind the model, and finds the cell that the command asks for.
fn read_rest<S: Shelf>(
    alloc: Global,
    command: &Command<'_>,
    basin: &Basin,
    shelf: &mut S,
) -> Result<(Behind, Option<Cell>), Refusal>
    requires model { ReadsModel (command_said command.now) (S.seen shelf.old).holds basin.now }
    ensures read { MatchResult result (λ pair.
        AreBehind (command_said command.now) (S.seen shelf.old).holds basin.now pair.0
        × IsCellRead (command_said command.now) basin.now (Ok pair.1))
        (FileCause (command_said command.now) (change (S.seen shelf.old) (S.seen shelf.new))) }
    ensures held { (p : List ℕ) → (S.seen shelf.new).holds p ≡ (S.seen shelf.old).holds p }
{
    let behind = match read_others(alloc, command, basin, shelf) {
        Ok(behind) => behind,
        Err(refusal) => return Err(refusal),
    };
    match find_cell(command, basin) {
        Ok(cell) => Ok((behind, cell)),
        Err(refusal) => {
            drop(behind);
            Err(refusal)
        }
    }
}

/// Reads and judges the files of the command: its model, its policy, its inputs, its edits and its traces, in this order, where it
/// names them, and finds the cell that it asks for.
pub(crate) fn read_files<S: Shelf>(
    alloc: Global,
    command: &Command<'_>,
    shelf: &mut S,
) -> Result<Files, Refusal>
    ensures read { MatchResult result
        (λ files. AreRead (command_said command.now) (S.seen shelf.old).holds (files_seen files))
        (FileCause (command_said command.now) (change (S.seen shelf.old) (S.seen shelf.new))) }
    ensures fits { IfOk result (λ files. IfSome files.policy (IsFit files.basin)) }
    ensures edits { IfOk result (λ files. IfSome files.edits
        (λ batches. AreEdits files.basin batches.items)) }
    ensures scenarios { IfOk result (λ files. IfSome files.scenarios
        (λ batches. AreEdits files.basin batches.items)) }
    ensures cell { IfOk result (λ files. IsTrue (seeks_cell (command_said command.now).job)
        → IsSomeAnd files.cell (λ cell. IsSlot files.basin.objects cell.slot.0)) }
    ensures text { IfOk result (λ files. IsTrue (wants_text (command_said command.now).job)
        → IsSome files.text) }
    ensures held { (p : List ℕ) → (S.seen shelf.new).holds p ≡ (S.seen shelf.old).holds p }
{
    let (basin, text) = match read_basin(alloc, command, shelf) {
        Ok(pair) => pair,
        Err(refusal) => return Err(refusal),
    };
    match read_rest(alloc, command, &basin, shelf) {
        Ok((behind, cell)) => Ok(Files {
            basin,
            policy: behind.policy,
            inputs: behind.inputs,
            edits: behind.edits,
            scenarios: behind.scenarios,
            cell,
            text,
        }),
        Err(refusal) => {
            drop(basin);
            drop(text);
            Err(refusal)
        }
    }
}
