//! Finds the types of what the basin and the table of units name.
ghost use Rattle.std.specs.Prelude.{◌≡◌, ◌*ℤ◌, None, option_and_then, option_map, is_some};
ghost use Rattle.std.specs.Option.{ForSome};
ghost use Rattle.rw_base.specs.Unit.{length, unit_in, units, volume};
ghost use Rattle.rw_model.specs.Draft.{IsObject, IsSlot};
ghost use Rattle.rw_model.specs.Objects.{object_at, object_named, slot_named};
ghost use Rattle.rpl_tree.specs.Operators.{is_quantity};
ghost use Rattle.rpl_tree.specs.World.{table_in, table_named};
ghost use Rattle.rpl_types.specs.Forms.{answers, asks, convert_type, literal_in_unit, literal_type, slot_type, table_type};

use crate::TypeKind;
use crate::fits::misfit;
use crate::forms::{plain_number, unless_refused};
use rpl_scope::is_same_name;
use rpl_tree::{ConvertWord, RplType};
use rw_base::{Dim, ObjectNo, QUANTITY_MAX, SlotNo, unit_of};
use rw_model::{Basin, Kind};
use std::str;

/// Returns the dimension and the factor of a unit.
#[tactic(auto, using(crate::proofs::Texts::no_unit))]
pub(crate) fn unit_named(word: &[u8]) -> Option<(Dim, i64)>
    ensures { result ≡ unit_in units word.now }
{
    match str::from_utf8(word) {
        Ok(text) => unit_of(text),
        Err(_) => None,
    }
}

/// Returns whether a number is a quantity.
fn is_quantity(number: i64) -> bool
    ensures { result ≡ is_quantity number }
{
    -QUANTITY_MAX <= number && number <= QUANTITY_MAX
}

/// Returns whether a number of units is a quantity.
fn is_quantity_of(number: i64, factor: i64) -> bool
    ensures { result ≡ is_quantity (number *ℤ factor) }
{
    match number.checked_mul(factor) {
        Some(exact) => is_quantity(exact),
        None => false,
    }
}

fn in_unit(number: i64, unit: Option<(Dim, i64)>) -> Result<RplType, TypeKind>
    ensures { result ≡ literal_in_unit number unit }
{
    let Some((dim, factor)) = unit else {
        return Err(TypeKind::UnknownUnit);
    };
    if is_quantity_of(number, factor) {
        Ok(RplType::Numeric(dim))
    } else {
        Err(TypeKind::LiteralRange)
    }
}

/// Returns the type of a number that is written, with the unit if there is one.
pub(crate) fn literal_type(number: i64, unit: &Option<Vec<u8>>) -> Result<RplType, TypeKind>
    ensures { result ≡ literal_type number (option_map (λ word. word.items) unit.now) }
{
    match unit {
        Some(word) => in_unit(number, unit_named(word)),
        None => in_unit(number, Some((plain_number(), 1))),
    }
}

/// Returns the number of the slot of these names.
#[tactic(auto, using(crate::proofs::Texts::no_slot, crate::proofs::Texts::no_owner))]
pub(crate) fn slot_named(basin: &Basin, object: &[u8], slot: &[u8]) -> Option<SlotNo>
    ensures number { option_map (λ found. found.0) result
        ≡ slot_named basin.now.objects object.now slot.now }
    ensures known { ForSome result (λ found. IsSlot basin.now.objects found.0) }
{
    let _objects = basin.object_count();
    let Ok(object) = str::from_utf8(object) else {
        return None;
    };
    let Ok(slot) = str::from_utf8(slot) else {
        return None;
    };
    basin.find_slot(object, slot)
}

/// Returns the type of the slot of these names.
pub(crate) fn slot_type(basin: &Basin, object: &[u8], slot: &[u8]) -> Result<RplType, TypeKind>
    ensures { result ≡ slot_type basin.now object.now slot.now }
{
    match slot_named(basin, object, slot) {
        Some(found) => Ok(RplType::Slot(basin.dim(found))),
        None => Err(TypeKind::UnknownSlot),
    }
}

/// Returns the number of the object of this name.
#[tactic(auto, using(crate::proofs::Searching::found_here, crate::proofs::Searching::found_later, crate::proofs::Searching::found_nowhere))]
fn object_named(basin: &Basin, name: &[u8]) -> Option<ObjectNo>
    ensures number { option_map (λ found. found.0) result
        ≡ object_named basin.now.objects name.now }
    ensures known { ForSome result (λ found. IsObject basin.now.objects found.0) }
{
    for before in 0..basin.object_count() {
        let object = ObjectNo(before + 1);
        if is_same_name(name, basin.object_name(object).as_bytes()) {
            return Some(object);
        }
    }
    None
}

/// Returns whether an object has a table.
fn has_table(basin: &Basin, object: ObjectNo) -> bool
    requires { IsObject basin.now.objects object.0 }
    ensures { result ≡ is_some (option_and_then (λ found. table_in found.kind)
        (object_at basin.now.objects object.0)) }
{
    is_with_table(basin.kind(object))
}

fn is_with_table(kind: &Kind) -> bool
    ensures { result ≡ is_some (table_in kind.now) }
{
    match kind {
        Kind::Reservoir { table, .. } => table.is_some(),
        _ => false,
    }
}

/// Returns what a table is asked for.
fn asks(word: ConvertWord) -> Dim
    ensures { result ≡ asks word }
{
    match word {
        ConvertWord::StorageToElevation => volume(),
        ConvertWord::ElevationToStorage => length(),
    }
}

/// Returns what a table gives.
fn answers(word: ConvertWord) -> Dim
    ensures { result ≡ answers word }
{
    match word {
        ConvertWord::StorageToElevation => length(),
        ConvertWord::ElevationToStorage => volume(),
    }
}

fn volume() -> Dim
    ensures { result ≡ volume }
{
    Dim {
        volume: 1,
        ..plain_number()
    }
}

fn length() -> Dim
    ensures { result ≡ length }
{
    Dim {
        length: 1,
        ..plain_number()
    }
}

fn table_type(word: ConvertWord, table: bool, t: &RplType) -> Result<RplType, TypeKind>
    ensures { result ≡ table_type word table t.now }
{
    if !table {
        return Err(TypeKind::NoTable);
    }
    unless_refused(
        misfit(t, &RplType::Numeric(asks(word))),
        RplType::Numeric(answers(word)),
    )
}

/// Returns the type of what is read from an object's table, at a value of that type.
pub(crate) fn convert_type(
    basin: &Basin,
    word: ConvertWord,
    object: &[u8],
    t: &RplType,
) -> Result<RplType, TypeKind>
    ensures { result ≡ convert_type word (is_some (object_named basin.now.objects object.now))
        (is_some (table_named basin.now object.now)) t.now }
{
    match object_named(basin, object) {
        Some(found) => table_type(word, has_table(basin, found), t),
        None => Err(TypeKind::UnknownName),
    }
}
