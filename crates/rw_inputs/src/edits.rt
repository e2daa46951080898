//! Reads batches of edits, and traces, from a text of comma-separated fields.
ghost use Rattle.rw_inputs.specs.declared.limits.TheConstants.{BATCHES_MAX, EDITS_MAX};
ghost use Rattle.std.specs.Prelude.{◌≡◌, ◌+◌, ◌≤◌, [], ◌∷◌, true, Some, Ok, IfErr, IfOk, OnOk, length};
ghost use Rattle.std.specs.List.{All, list_any};
ghost use Rattle.csv.specs.Records.{fields_of};
ghost use Rattle.rw_base.specs.Answers.{Answers, IsWhy};
ghost use Rattle.rw_model.specs.Draft.{Draft};
ghost use Rattle.rw_inputs.specs.declared.fault.InputFault.TheVariants as InputFault;
ghost use Rattle.rw_inputs.specs.EditRows.{at_row, batch_at, batches_with, edit_column, edits_of, four_fields, is_header_of, meets, more_batches, batches_opened, read_under, scenarios_of, with_edit, wrong_among};
ghost use Rattle.rw_inputs.specs.Edits.{IsBatch, IsEdit};
ghost use Rattle.rw_inputs.specs.Records.{Fields};
ghost use Rattle.rw_inputs.specs.Refusal.{input_refusal_of};

use crate::batch::Batch;
use crate::edit::Edit;
use crate::edit_row::{four_fields, read_batch, read_edit};
use crate::limits::EDITS_MAX;
use crate::reading::no_header;
use crate::records::Records;
use crate::wrong::{Part, Wrong};
use crate::{InputFault, InputKind};
use csv::ByteRecord;
use rw_base::NoMemory;
use rw_model::Basin;
use std::alloc::Global;

// In which column a part of a row stands.
fn column(part: Part) -> u8
    ensures { result ≡ edit_column part }
{
    match part {
        Part::Row => 0,
        Part::Batch => 1,
        Part::Slot => 2,
        Part::Step => 3,
        Part::Value => 4,
    }
}

// The refusal of the row of a number.
fn refused(number: u32, wrong: Wrong) -> InputFault
    ensures { result ≡ InputFault.Refused wrong.kind number (edit_column wrong.part) }
{
    InputFault::Refused {
        kind: wrong.kind,
        row: number,
        column: column(wrong.part),
    }
}

// Whether the row names the columns, the first of them by this word.
fn is_header(row: &ByteRecord, word: &str) -> bool
    ensures { result ≡ is_header_of word.now (fields_of row.now) }
{
    match four_fields(row) {
        Some((batch, slot, step, value)) => batch == word.as_bytes()
            && (slot == b"slot".as_slice()
                && (step == b"step".as_slice() && value == b"value".as_slice())),
        None => false,
    }
}

// Whether an edit of the batch of this number names a cell that the edit names.
fn is_named(batches: &[Batch], number: usize, edit: &Edit) -> bool
    requires { 1 ≤ number }
    ensures { result ≡ list_any (meets edit.now) (batch_at batches.now number) }
{
    match batches.get(number - 1) {
        Some(batch) => batch.has_named(edit),
        None => false,
    }
}

// What is wrong with the edit of a row, behind the rows before it.
fn judge(batches: &[Batch], row: u32, number: usize, edit: &Edit) -> Option<Wrong>
    requires { 1 ≤ number }
    ensures { result ≡ wrong_among row batches.now number edit.now }
{
    if is_named(batches, number, edit) {
        return Some(Wrong {
            kind: InputKind::Twice,
            part: Part::Row,
        });
    }
    if row <= EDITS_MAX + 1 {
        None
    } else {
        Some(Wrong {
            kind: InputKind::TooMany,
            part: Part::Row,
        })
    }
}

// Opens the batch of this number, if it isn't there yet.
fn open(alloc: Global, batches: &mut Vec<Batch>, number: usize) -> Result<(), NoMemory>
    requires { number ≤ length batches.old.items + 1 }
    ensures opened { OnOk result (batches.new.items ≡ batches_opened batches.old.items number) }
    ensures there { OnOk result (number ≤ length batches.new.items) }
{
    if number <= batches.len() {
        Ok(())
    } else {
        batches.push(Batch::none(alloc))?;
        Ok(())
    }
}

// Takes one more edit into the batch of this number.
fn add(alloc: Global, batches: &mut Vec<Batch>, number: usize, edit: &Edit) -> Result<(), NoMemory>
    requires first { 1 ≤ number }
    requires next { number ≤ length batches.old.items + 1 }
    ensures { OnOk result (batches.new.items ≡ with_edit batches.old.items number edit.now) }
{
    open(alloc, batches, number)?;
    batches[number - 1].push(edit)
}

// Takes what the fields of the row of a number say, or answers what is wrong with it.
fn take_fields(
    alloc: Global,
    basin: &Basin,
    number: u32,
    batches: &mut Vec<Batch>,
    fields: (&[u8], &[u8], &[u8], &[u8]),
) -> Result<(), InputFault>
    requires { length batches.old.items ≤ BATCHES_MAX }
    ensures taken { Answers InputFault.NoMemory input_refusal_of (λ _. batches.new.items) result
        (at_row number (batches_with basin.now number batches.old.items (Some
        (fields.entry.0.now, fields.entry.1.now, fields.entry.2.now, fields.entry.3.now))) Ok) }
    ensures made { OnOk result (All (IsBatch basin.now) batches.old.items
        → All (IsBatch basin.now) batches.new.items) }
    ensures few { OnOk result (length batches.new.items ≤ BATCHES_MAX) }
    ensures within { OnOk result (number ≤ EDITS_MAX + 1) }
{
    let batch = match read_batch(batches.len() as u64, fields.0) {
        Ok(batch) => batch as usize,
        Err(wrong) => return Err(refused(number, wrong)),
    };
    let edit = match read_edit(basin, fields.1, fields.2, fields.3) {
        Ok(edit) => edit,
        Err(wrong) => return Err(refused(number, wrong)),
    };
    match judge(batches.as_slice(), number, batch, &edit) {
        Some(wrong) => Err(refused(number, wrong)),
        None => match add(alloc, batches, batch, &edit) {
            Ok(()) => Ok(()),
            Err(NoMemory) => Err(InputFault::NoMemory),
        },
    }
}

// Takes what the row of a number says, or answers what is wrong with it.
fn take_row(
    alloc: Global,
    basin: &Basin,
    number: u32,
    batches: &mut Vec<Batch>,
    row: &ByteRecord,
) -> Result<(), InputFault>
    requires { length batches.old.items ≤ BATCHES_MAX }
    ensures taken { Answers InputFault.NoMemory input_refusal_of (λ _. batches.new.items) result
        (at_row number (batches_with basin.now number batches.old.items
        (four_fields (fields_of row.now))) Ok) }
    ensures made { OnOk result (All (IsBatch basin.now) batches.old.items
        → All (IsBatch basin.now) batches.new.items) }
    ensures few { OnOk result (length batches.new.items ≤ BATCHES_MAX) }
    ensures within { OnOk result (number ≤ EDITS_MAX + 1) }
{
    match four_fields(row) {
        Some(fields) => take_fields(alloc, basin, number, batches, fields),
        None => Err(refused(
            number,
            Wrong {
                kind: InputKind::Ragged,
                part: Part::Row,
            },
        )),
    }
}

// Takes what the rows behind the header say, one after another, up to the first one that is refused.
fn take_rows(
    alloc: Global,
    basin: &Basin,
    batches: &mut Vec<Batch>,
    rows: &mut Records<'_>,
) -> Result<(), InputFault>
    requires { batches.old.items ≡ [] }
    ensures taken { Answers InputFault.NoMemory input_refusal_of (λ _. batches.new.items) result
        (more_batches basin.now 2 [] rows.old) }
    ensures made { OnOk result (All (IsBatch basin.now) batches.new.items) }
{
    let mut row = ByteRecord::new(alloc);
    for number in 2..EDITS_MAX + 3 {
        match rows.read(&mut row) {
            Ok(true) => take_row(alloc, basin, number, batches, &row)?,
            Ok(false) => return Ok(()),
            Err(NoMemory) => return Err(InputFault::NoMemory),
        }
    }
    unreachable!()
}

// Reads the row that names the columns, the first of them by this word.
fn read_header(alloc: Global, word: &str, records: &mut Records<'_>) -> Result<(), InputFault>
    ensures named { OnOk result ((header : Fields) × (records.old ≡ header ∷ records.new)
        × (is_header_of word.now header ≡ true)) }
    ensures refused { IfErr result
        (λ fault. (basin : Draft) → IsWhy InputFault.NoMemory input_refusal_of
        (read_under word.now basin records.old) fault) }
{
    let mut row = ByteRecord::new(alloc);
    match records.read(&mut row) {
        Ok(true) => if is_header(&row, word) {
            Ok(())
        } else {
            Err(no_header())
        },
        Ok(false) => Err(no_header()),
        Err(NoMemory) => Err(InputFault::NoMemory),
    }
}

// The batches that the records give, or the first refusal.
fn read_batches(
    alloc: Global,
    word: &str,
    basin: &Basin,
    records: &mut Records<'_>,
) -> Result<Vec<Batch>, InputFault>
    ensures answers { Answers InputFault.NoMemory input_refusal_of (λ batches. batches.items) result
        (read_under word.now basin.now records.old) }
    ensures made { IfOk result (λ batches. All (IsBatch basin.now) batches.items) }
{
    read_header(alloc, word, records)?;
    let mut batches = Vec::new(alloc);
    take_rows(alloc, basin, &mut batches, records)?;
    Ok(batches)
}

/// Reads the batches of edits of a basin's inputs from a text of comma-separated fields.
///
/// The first row is `batch,slot,step,value`. Each later one is in the batch of the row before it or in the next, the first one in
/// batch 1, and sets a value as a row of inputs does, or removes what is given where its value is empty. The first row with which
/// something is wrong is refused, for the first thing that is wrong with it: `Ragged` where it does not have four fields;
/// `NotANumber`, `BatchOrder`, or `TooMany` past batch 64; then slot, timesteps and value as in `read_inputs`; `Twice` where an
/// earlier row of its batch names one of its cells; `TooMany` from the 10,001st row on. `NoMemory` says nothing of the text.
/// `docs/FORMATS.md` has the rows under "Edits".
pub fn read_edits(alloc: Global, basin: &Basin, text: &[u8]) -> Result<Vec<Batch>, InputFault>
    ensures answers { Answers InputFault.NoMemory input_refusal_of (λ batches. batches.items) result
        (edits_of basin.now text.now) }
    ensures made { IfOk result (λ batches. All (IsBatch basin.now) batches.items) }
{
    let mut records = Records::of(alloc, text);
    read_batches(alloc, "batch", basin, &mut records)
}

/// Reads the traces of a basin's inputs from a text of comma-separated fields, each as the batch of edits by which it differs
/// from the inputs.
///
/// The first row is `trace,slot,step,value`. Each later one is read or refused as a row of edits is, with traces in place of
/// batches.
pub fn read_traces(alloc: Global, basin: &Basin, text: &[u8]) -> Result<Vec<Batch>, InputFault>
    ensures answers { Answers InputFault.NoMemory input_refusal_of (λ batches. batches.items) result
        (scenarios_of basin.now text.now) }
    ensures made { IfOk result (λ batches. All (IsBatch basin.now) batches.items) }
{
    let mut records = Records::of(alloc, text);
    read_batches(alloc, "trace", basin, &mut records)
}
