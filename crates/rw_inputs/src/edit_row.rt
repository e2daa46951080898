//! Reads the fields of a row of edits: batch, slot, timesteps and value.
ghost use Rattle.rw_inputs.specs.declared.limits.TheConstants.{BATCHES_MAX};
ghost use Rattle.std.specs.Prelude.{◌≡◌, ◌+◌, ◌≤◌, IfOk, IfSome, option_map};
ghost use Rattle.csv.specs.Records.{fields_of};
ghost use Rattle.rw_model.specs.Draft.{IsSlot};
ghost use Rattle.rw_model.specs.Links.{IsBetween, bounds_in};
ghost use Rattle.rw_inputs.specs.EditRows.{batch_follows, four_fields, read_batch, read_change, read_edit};
ghost use Rattle.rw_inputs.specs.Edits.{IsEdit};

use crate::InputKind;
use crate::edit::Edit;
use crate::inputs::kept_slot;
use crate::limits::BATCHES_MAX;
use crate::number::read_number;
use crate::row::{read_slot, read_span, read_value, wrong};
use crate::wrong::{Part, Wrong};
use csv::ByteRecord;
use rw_base::Qty;
use rw_model::Basin;

// Whether the number can stand behind a row of the last batch, whose number is 0 where there is none.
fn follows(last: u64, batch: u64) -> bool
    requires { last ≤ BATCHES_MAX }
    ensures { result ≡ batch_follows last batch }
{
    if last == 0 {
        batch == 1
    } else {
        batch == last || batch == last + 1
    }
}

/// Returns the number of the last batch, or of the one after it.
pub(crate) fn read_batch(last: u64, text: &[u8]) -> Result<u64, Wrong>
    requires { last ≤ BATCHES_MAX }
    ensures read { result ≡ read_batch last text.now }
    ensures first { IfOk result (λ batch. 1 ≤ batch) }
    ensures next { IfOk result (λ batch. batch ≤ last + 1) }
    ensures most { IfOk result (λ batch. batch ≤ BATCHES_MAX) }
{
    let Some(batch) = read_number(text) else {
        return Err(wrong(InputKind::NotANumber, Part::Batch));
    };
    if !follows(last, batch) {
        return Err(wrong(InputKind::BatchOrder, Part::Batch));
    }
    if batch <= BATCHES_MAX {
        Ok(batch)
    } else {
        Err(wrong(InputKind::TooMany, Part::Batch))
    }
}

// Nothing, or a value that the slot can have.
fn read_change(basin: &Basin, slot: u16, text: &[u8]) -> Result<Option<Qty>, Wrong>
    requires { IsSlot basin.now.objects slot }
    ensures read { result ≡ read_change basin.now slot text.now }
    ensures within { IfOk result (λ value. IfSome value
        (IsBetween (bounds_in basin.now.objects basin.now.links basin.now.bounds slot))) }
{
    if text.len() == 0 {
        return Ok(None);
    }
    match read_value(basin, slot, text) {
        Ok(value) => Ok(Some(value)),
        Err(wrong) => Err(wrong),
    }
}

/// Returns a slot, timesteps, and a value or nothing.
pub(crate) fn read_edit(
    basin: &Basin,
    slot: &[u8],
    span: &[u8],
    value: &[u8],
) -> Result<Edit, Wrong>
    ensures read { result ≡ read_edit basin.now slot.now span.now value.now }
    ensures sound { IfOk result (IsEdit basin.now) }
{
    let slot = read_slot(basin, slot)?;
    let span = read_span(basin, span)?;
    let value = read_change(basin, slot, value)?;
    Ok(Edit {
        slot: kept_slot(basin, slot),
        first: span.first,
        last: span.last,
        value,
    })
}

/// Returns the fields of a record of four.
pub(crate) fn four_fields(row: &ByteRecord) -> Option<(&[u8], &[u8], &[u8], &[u8])>
    ensures { option_map (λ fields. (fields.0.now, fields.1.now, fields.2.now, fields.3.now)) result
        ≡ four_fields (fields_of row.now) }
{
    let Some(first) = row.get(0) else {
        return None;
    };
    let Some(second) = row.get(1) else {
        return None;
    };
    let Some(third) = row.get(2) else {
        return None;
    };
    let Some(fourth) = row.get(3) else {
        return None;
    };
    match row.get(4) {
        Some(_) => None,
        None => Some((first, second, third, fourth)),
    }
}
