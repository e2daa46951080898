//! Reads the fields of a row of inputs: slot, timesteps and value.
ghost use Rattle.std.specs.Prelude.{◌≡◌, ◌&&◌, true, false, int_le, if◌then◌else◌, Some, None, IfOk, MatchOption, option_map};
ghost use Rattle.std.specs.Str.{is_utf8};
ghost use Rattle.std.specs.Option.{ForSome};
ghost use Rattle.csv.specs.Records.{fields_of};
ghost use Rattle.rw_model.specs.Draft.{IsSlot};
ghost use Rattle.rw_model.specs.Slot.{IsInside, all_quantities};
ghost use Rattle.rw_inputs.specs.Number.{read_number, byte_position};
ghost use Rattle.rw_inputs.specs.Row.{slot_of_names, slot_of_text, read_slot, span_of, span_in, read_span, read_value, three_fields, row_of, read_row};
ghost use Rattle.rw_inputs.specs.Sound.{IsRowValue};
ghost use Rattle.rw_model.specs.Links.{IsBetween, bounds_in};
ghost use Rattle.rw_inputs.specs.LastSlot.{IsLastSlot};

use crate::InputKind;
use crate::last_slot::LastSlot;
use crate::number::{position_of, read_number, read_signed};
use crate::row_value::RowValue;
use crate::span::Span;
use crate::wrong::{Part, Wrong};
use csv::ByteRecord;
use rw_base::{Qty, SlotNo};
use rw_model::Basin;

/// Names what is wrong, with a part of a row.
pub(crate) fn wrong(kind: InputKind, part: Part) -> Wrong
    ensures { result ≡ record { kind = kind; part = part } }
{
    Wrong { kind, part }
}

// The text that the bytes are, if they are UTF-8.
fn text_of(bytes: &[u8]) -> Option<&str>
    ensures { MatchOption result (is_utf8 bytes.now ≡ false)
        (λ text. (is_utf8 bytes.now ≡ true) × (text.now ≡ bytes.now)) }
{
    match str::from_utf8(bytes) {
        Ok(text) => Some(text),
        Err(_) => None,
    }
}

// The slot of these names, which are UTF-8.
fn slot_of_names(basin: &Basin, object: &[u8], slot: &[u8]) -> Option<SlotNo>
    ensures number { option_map (λ number. number.0) result
        ≡ slot_of_names basin.now object.now slot.now }
    ensures known { ForSome result (λ number. IsSlot basin.now.objects number.0) }
{
    let object = text_of(object)?;
    let slot = text_of(slot)?;
    basin.find_slot(object, slot)
}

/// Returns the slot that a text names, as `Object.Slot`. `None` exactly where it names none.
pub fn slot_of_text(basin: &Basin, text: &[u8]) -> Option<SlotNo>
    ensures number { option_map (λ number. number.0) result ≡ slot_of_text basin.now text.now }
    ensures known { ForSome result (λ number. IsSlot basin.now.objects number.0) }
{
    let dot = position_of(b'.', text)?;
    slot_of_names(basin, &text[..dot], &text[dot + 1..])
}

/// Returns the slot of the model that a text names, which inputs can set.
pub(crate) fn read_slot(basin: &Basin, text: &[u8]) -> Result<u16, Wrong>
    ensures read { result ≡ read_slot basin.now text.now }
    ensures known { IfOk result (IsSlot basin.now.objects) }
{
    let Some(slot) = slot_of_text(basin, text) else {
        return Err(wrong(InputKind::UnknownSlot, Part::Slot));
    };
    if basin.settable(slot) {
        Ok(slot.0)
    } else {
        Err(wrong(InputKind::NotSettable, Part::Slot))
    }
}

// The two numbers of a range.
fn span_of(first: &[u8], last: &[u8]) -> Option<(u64, u64)>
    ensures { result ≡ span_of (read_number first.now) (read_number last.now) }
{
    let first = read_number(first)?;
    let last = read_number(last)?;
    Some((first, last))
}

// Two numbers round the first `-`.
fn span_between(text: &[u8]) -> Option<(u64, u64)>
    requires { read_number text.now ≡ None }
    ensures { result ≡ span_in text.now (byte_position 45 text.now) }
{
    match position_of(b'-', text) {
        Some(dash) => span_of(&text[..dash], &text[dash + 1..]),
        None => None,
    }
}

// One number, or two numbers round the first `-`.
fn span_in(text: &[u8]) -> Option<(u64, u64)>
    ensures { result ≡ span_in text.now (byte_position 45 text.now) }
{
    match read_number(text) {
        Some(number) => Some((number, number)),
        None => span_between(text),
    }
}

/// Returns a timestep of the run, or a range of timesteps of the run.
pub(crate) fn read_span(basin: &Basin, text: &[u8]) -> Result<Span, Wrong>
    ensures { result ≡ read_span basin.now text.now }
{
    let Some((first, last)) = span_in(text) else {
        return Err(wrong(InputKind::NotANumber, Part::Step));
    };
    if 1 <= first && first <= last && last <= u64::from(basin.control().stamps.count()) {
        Ok(Span {
            first: first as u16,
            last: last as u16,
        })
    } else {
        Err(wrong(InputKind::StepOutside, Part::Step))
    }
}

// The value, where it is within the bounds.
fn within_bounds(bounds: (i64, i64), value: i64) -> Option<Qty>
    requires { IsInside bounds all_quantities }
    ensures within { ForSome result (IsBetween bounds) }
    ensures value { result
        ≡ (if int_le bounds.0 value && int_le value bounds.1 then Some value else None) }
{
    if bounds.0 <= value && value <= bounds.1 {
        Qty::of(value)
    } else {
        None
    }
}

/// Returns a value that the slot can have.
pub(crate) fn read_value(basin: &Basin, slot: u16, text: &[u8]) -> Result<Qty, Wrong>
    requires { IsSlot basin.now.objects slot }
    ensures read { result ≡ read_value basin.now slot text.now }
    ensures within { IfOk result
        (IsBetween (bounds_in basin.now.objects basin.now.links basin.now.bounds slot)) }
{
    let Some(value) = read_signed(text) else {
        return Err(wrong(InputKind::NotANumber, Part::Value));
    };
    match within_bounds(basin.bounds(SlotNo(slot)), value) {
        Some(value) => Ok(value),
        None => Err(wrong(InputKind::OutOfBounds, Part::Value)),
    }
}

// What the three fields of a row give.
fn read_fields(
    last: &mut LastSlot,
    basin: &Basin,
    slot: &[u8],
    span: &[u8],
    value: &[u8],
) -> Result<RowValue, Wrong>
    requires last { IsLastSlot basin.now last.old }
    ensures last { IsLastSlot basin.now last.new }
    ensures read { result ≡ row_of basin.now (Some (slot.now, span.now, value.now)) }
    ensures sound { IfOk result (IsRowValue basin.now) }
{
    let slot = last.read(basin, slot)?;
    let span = read_span(basin, span)?;
    let value = read_value(basin, slot, value)?;
    Ok(RowValue {
        slot,
        first: span.first,
        last: span.last,
        value,
    })
}

/// Returns the fields of a record of three.
pub(crate) fn three_fields(row: &ByteRecord) -> Option<(&[u8], &[u8], &[u8])>
    ensures { option_map (λ fields. (fields.0.now, fields.1.now, fields.2.now)) result
        ≡ three_fields (fields_of row.now) }
{
    let Some(first) = row.get(0) else {
        return None;
    };
    let Some(second) = row.get(1) else {
        return None;
    };
    let Some(third) = row.get(2) else {
        return None;
    };
    match row.get(3) {
        Some(_) => None,
        None => Some((first, second, third)),
    }
}

/// Returns what a row gives: three fields, a slot, timesteps and a value.
pub(crate) fn read_row(
    last: &mut LastSlot,
    basin: &Basin,
    row: &ByteRecord,
) -> Result<RowValue, Wrong>
    requires last { IsLastSlot basin.now last.old }
    ensures last { IsLastSlot basin.now last.new }
    ensures read { result ≡ read_row basin.now (fields_of row.now) }
    ensures sound { IfOk result (IsRowValue basin.now) }
{
    match three_fields(row) {
        Some((slot, span, value)) => read_fields(last, basin, slot, span, value),
        None => Err(wrong(InputKind::Ragged, Part::Row)),
    }
}
