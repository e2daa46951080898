//! Reads the inputs of a basin from a text of comma-separated fields.
ghost use Rattle.std.specs.Prelude.{◌≡◌, [], ◌∷◌, true, None, IfOk, IfErr, OnOk};
ghost use Rattle.rw_base.specs.Answers.{Answers, IsWhy};
ghost use Rattle.csv.specs.Records.{fields_of};
ghost use Rattle.rw_inputs.specs.declared.fault.InputFault.TheVariants as InputFault;
ghost use Rattle.rw_inputs.specs.declared.fault.InputKind.TheVariants as InputKind;
ghost use Rattle.rw_model.specs.Draft.{Draft};
ghost use Rattle.rw_inputs.specs.Records.{Fields};
ghost use Rattle.rw_inputs.specs.Inputs.{IsInputsOf, Keeps, value_at};
ghost use Rattle.rw_inputs.specs.Reading.{column, row_values, first_refusal, inputs_of, is_header, read_records, values_read};
ghost use Rattle.rw_inputs.specs.Refusal.{input_refusal_of, TellsInput};
ghost use Rattle.rw_inputs.specs.Taking.{TakesRow, RefusesRow};
ghost use Rattle.rw_inputs.specs.LastSlot.{IsLastSlot};

use crate::inputs::Inputs;
use crate::last_slot::LastSlot;
use crate::records::Records;
use crate::row::{read_row, three_fields};
use crate::wrong::{Part, Wrong};
use crate::{InputFault, InputKind};
use csv::ByteRecord;
use rw_base::NoMemory;
use rw_model::Basin;
use std::alloc::Global;

/// Returns the fault of a text whose first row does not name the columns.
pub(crate) fn no_header() -> InputFault
    ensures { result ≡ InputFault.Refused InputKind.Header 1 0 }
{
    InputFault::Refused {
        kind: InputKind::Header,
        row: 1,
        column: 0,
    }
}

// Whether the row names the columns.
fn is_header(row: &ByteRecord) -> bool
    ensures { result ≡ is_header (fields_of row.now) }
{
    match three_fields(row) {
        Some((slot, step, value)) => slot == b"slot".as_slice()
            && (step == b"step".as_slice() && value == b"value".as_slice()),
        None => false,
    }
}

// In which column a part of a row stands.
fn column(part: Part) -> u8
    ensures { result ≡ column part }
{
    match part {
        Part::Row | Part::Batch => 0,
        Part::Slot => 1,
        Part::Step => 2,
        Part::Value => 3,
    }
}

// The refusal of the row of a number.
fn refused(number: u32, wrong: Wrong) -> InputFault
    ensures { result ≡ InputFault.Refused wrong.kind number (column wrong.part) }
{
    InputFault::Refused {
        kind: wrong.kind,
        row: number,
        column: column(wrong.part),
    }
}

// Takes what the row of a number gives, or answers what is wrong with it.
fn take_row(
    last: &mut LastSlot,
    inputs: &mut Inputs,
    basin: &Basin,
    number: u32,
    row: &ByteRecord,
) -> Result<(), InputFault>
    requires made { IsInputsOf basin.now inputs.old }
    requires last { IsLastSlot basin.now last.old }
    ensures made { IsInputsOf basin.now inputs.new }
    ensures last { IsLastSlot basin.now last.new }
    ensures taken { OnOk result (TakesRow basin.now (fields_of row.now) inputs.old inputs.new) }
    ensures refused { IfErr result (RefusesRow basin.now number (fields_of row.now) inputs.old) }
{
    let row_value = match read_row(last, basin, row) {
        Ok(row_value) => row_value,
        Err(wrong) => return Err(refused(number, wrong)),
    };
    match inputs.take(basin, &row_value) {
        Ok(true) => Ok(()),
        Ok(false) => Err(refused(
            number,
            Wrong {
                kind: InputKind::Twice,
                part: Part::Row,
            },
        )),
        Err(NoMemory) => Err(InputFault::NoMemory),
    }
}

// Takes what the rows behind the header give, one after another, up to the first one that is refused.
fn take_rows(
    alloc: Global,
    inputs: &mut Inputs,
    basin: &Basin,
    rows: &mut Records<'_>,
) -> Result<(), InputFault>
    requires { Keeps basin.now [] inputs.old }
    ensures taken { OnOk result (first_refusal basin.now 2 [] rows.old ≡ None) }
    ensures kept { OnOk result (Keeps basin.now (row_values basin.now rows.old) inputs.new) }
    ensures refused { IfErr result
        (λ fault. TellsInput fault (first_refusal basin.now 2 [] rows.old)) }
{
    let mut row = ByteRecord::new(alloc);
    let mut last = LastSlot::none(alloc);
    for number in 2..u32::MAX {
        match rows.read(&mut row) {
            Ok(true) => take_row(&mut last, inputs, basin, number, &row)?,
            Ok(false) => return Ok(()),
            Err(NoMemory) => return Err(InputFault::NoMemory),
        }
    }
    // There are more rows than numbers for them.
    Err(InputFault::NoMemory)
}

// Reads the row that names the columns.
fn read_header(alloc: Global, records: &mut Records<'_>) -> Result<(), InputFault>
    ensures named { OnOk result ((header : Fields) × (records.old ≡ header ∷ records.new)
        × (is_header header ≡ true)) }
    ensures refused { IfErr result
        (λ fault. (basin : Draft) → IsWhy InputFault.NoMemory input_refusal_of
        (read_records basin records.old) fault) }
{
    let mut row = ByteRecord::new(alloc);
    match records.read(&mut row) {
        Ok(true) => if is_header(&row) {
            Ok(())
        } else {
            Err(no_header())
        },
        Ok(false) => Err(no_header()),
        Err(NoMemory) => Err(InputFault::NoMemory),
    }
}

// What the records give, or the first refusal.
fn read_records(
    alloc: Global,
    basin: &Basin,
    records: &mut Records<'_>,
) -> Result<Inputs, InputFault>
    ensures answers { Answers InputFault.NoMemory input_refusal_of value_at result
        (values_read basin.now (read_records basin.now records.old)) }
    ensures made { IfOk result (IsInputsOf basin.now) }
{
    read_header(alloc, records)?;
    let Ok(mut inputs) = Inputs::none(alloc, basin) else {
        return Err(InputFault::NoMemory);
    };
    take_rows(alloc, &mut inputs, basin, records)?;
    Ok(inputs)
}

/// Reads the inputs of a basin from a text of comma-separated fields.
///
/// The first row is `slot,step,value`. Each later one gives a value, a whole number in the base units of the slot's dimension, to
/// a slot, `Object.Slot`, at a timestep, `a`, or at each of a range of timesteps, `a-b`, counted from 1. The first row with which
/// something is wrong is refused, for the first thing that is wrong with it: `Ragged` where it does not have three fields;
/// `UnknownSlot` or `NotSettable`; `NotANumber` or `StepOutside`; `NotANumber` or `OutOfBounds`; `Twice` where an earlier row
/// gives a value to one of its cells, or to one of a slot that carries one value with its slot. `NoMemory` says nothing of the
/// text. `docs/FORMATS.md` has the rows under "Inputs".
pub fn read_inputs(alloc: Global, basin: &Basin, text: &[u8]) -> Result<Inputs, InputFault>
    ensures answers { Answers InputFault.NoMemory input_refusal_of value_at result
        (inputs_of basin.now text.now) }
    ensures made { IfOk result (IsInputsOf basin.now) }
{
    let mut records = Records::of(alloc, text);
    read_records(alloc, basin, &mut records)
}
