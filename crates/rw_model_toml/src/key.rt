//! Reads the value at a key of a table as a text, a truth value, a number, an array or a table.
ghost use Rattle.std.specs.Prelude.{◌≡◌, ◌≤◌, ◌≤ℤ◌, false, IfOk, None, option_map};
ghost use Rattle.toml.specs.Data.{get_member, no_items};
ghost use Rattle.toml.specs.View.{view, items_view, table_view};
ghost use Rattle.rw_model_toml.specs.Fault.{Gives};
ghost use Rattle.rw_model_toml.specs.Value.{integer_of, text_of, truth_of, items_of, members_of, number_read, count_read, given_number};
ghost use Rattle.rw_model_toml.specs.Key.{required, optional};

use crate::ModelFault;
use crate::path::key_path;
use crate::value::{count, integer, items, number, table, text, truth};
use std::alloc::Global;
use toml::{Table, Value};

/// Returns the value at a key.
pub(crate) fn member<'a>(members: &'a Table, key: &str) -> Option<&'a Value>
    ensures { option_map (λ value. view value.now) result
        ≡ get_member key.now (table_view members.now) }
{
    members.get(key)
}

/// Returns the text at a key that has to be there.
pub(crate) fn required_text<'a>(
    alloc: Global,
    at: &str,
    key: &str,
    members: &'a Table,
) -> Result<&'a str, ModelFault>
    ensures { Gives (λ text. text.now) result
        (required text_of at.now key.now (table_view members.now)) }
{
    let path = key_path(alloc, at, key)?;
    match member(members, key) {
        Some(value) => text(path, value),
        None => Err(ModelFault::Missing(path)),
    }
}

/// Returns the text at a key, or the default.
pub(crate) fn optional_text<'a>(
    alloc: Global,
    at: &str,
    key: &str,
    members: &'a Table,
    default: &'a str,
) -> Result<&'a str, ModelFault>
    ensures { Gives (λ text. text.now) result
        (optional default.now text_of at.now key.now (table_view members.now)) }
{
    match member(members, key) {
        Some(value) => text(key_path(alloc, at, key)?, value),
        None => Ok(default),
    }
}

/// Returns the truth value at a key, and false where the key is not there.
pub(crate) fn choice(
    alloc: Global,
    at: &str,
    key: &str,
    members: &Table,
) -> Result<bool, ModelFault>
    ensures { Gives (λ b. b) result
        (optional false truth_of at.now key.now (table_view members.now)) }
{
    match member(members, key) {
        Some(value) => truth(key_path(alloc, at, key)?, value),
        None => Ok(false),
    }
}

/// Returns the items of the array at a key that has to be there.
pub(crate) fn required_items<'a>(
    alloc: Global,
    at: &str,
    key: &str,
    members: &'a Table,
) -> Result<&'a [Value], ModelFault>
    ensures { Gives (λ items. items_view items.now) result
        (required items_of at.now key.now (table_view members.now)) }
{
    let path = key_path(alloc, at, key)?;
    match member(members, key) {
        Some(value) => items(path, value),
        None => Err(ModelFault::Missing(path)),
    }
}

/// Returns the items of the array at a key, or none.
pub(crate) fn optional_items<'a>(
    alloc: Global,
    at: &str,
    key: &str,
    members: &'a Table,
) -> Result<&'a [Value], ModelFault>
    ensures { Gives (λ items. items_view items.now) result
        (optional no_items items_of at.now key.now (table_view members.now)) }
{
    match member(members, key) {
        Some(value) => items(key_path(alloc, at, key)?, value),
        None => Ok(&[]),
    }
}

/// Returns the table at a key that has to be there.
pub(crate) fn required_table<'a>(
    alloc: Global,
    at: &str,
    key: &str,
    members: &'a Table,
) -> Result<&'a Table, ModelFault>
    ensures { Gives (λ table. table_view table.now) result
        (required members_of at.now key.now (table_view members.now)) }
{
    let path = key_path(alloc, at, key)?;
    match member(members, key) {
        Some(value) => table(alloc, path.as_str(), value),
        None => Err(ModelFault::Missing(path)),
    }
}

/// Returns the integer at a key that has to be there.
pub(crate) fn required_integer(
    alloc: Global,
    at: &str,
    key: &str,
    members: &Table,
) -> Result<i64, ModelFault>
    ensures { Gives (λ z. z) result (required integer_of at.now key.now (table_view members.now)) }
{
    let path = key_path(alloc, at, key)?;
    match member(members, key) {
        Some(value) => integer(path, value),
        None => Err(ModelFault::Missing(path)),
    }
}

/// Returns the whole number from low to high at a key that has to be there.
pub(crate) fn required_number(
    alloc: Global,
    at: &str,
    key: &str,
    members: &Table,
    low: i64,
    high: i64,
) -> Result<i64, ModelFault>
    ensures read { Gives (λ z. z) result
        (required (number_read low high) at.now key.now (table_view members.now)) }
    ensures least { IfOk result (λ z. low ≤ℤ z) }
    ensures most { IfOk result (λ z. z ≤ℤ high) }
{
    let path = key_path(alloc, at, key)?;
    match member(members, key) {
        Some(value) => number(path, value, low, high),
        None => Err(ModelFault::Missing(path)),
    }
}

/// Returns the whole number from low to high at a key, or the default.
pub(crate) fn optional_number(
    alloc: Global,
    at: &str,
    key: &str,
    members: &Table,
    default: i64,
    low: i64,
    high: i64,
) -> Result<i64, ModelFault>
    ensures { Gives (λ z. z) result
        (optional default (number_read low high) at.now key.now (table_view members.now)) }
{
    match member(members, key) {
        Some(value) => number(key_path(alloc, at, key)?, value, low, high),
        None => Ok(default),
    }
}

/// Returns the count from low to high at a key that has to be there.
pub(crate) fn required_count(
    alloc: Global,
    at: &str,
    key: &str,
    members: &Table,
    low: u16,
    high: u16,
) -> Result<u16, ModelFault>
    ensures read { Gives (λ n. n) result
        (required (count_read low high) at.now key.now (table_view members.now)) }
    ensures least { IfOk result (λ n. low ≤ n) }
    ensures most { IfOk result (λ n. n ≤ high) }
{
    let path = key_path(alloc, at, key)?;
    match member(members, key) {
        Some(value) => count(path, value, low, high),
        None => Err(ModelFault::Missing(path)),
    }
}

/// Returns the count from low to high at a key, or the default.
pub(crate) fn optional_count(
    alloc: Global,
    at: &str,
    key: &str,
    members: &Table,
    default: u16,
    low: u16,
    high: u16,
) -> Result<u16, ModelFault>
    requires least { low ≤ default }
    requires most { default ≤ high }
    ensures read { Gives (λ n. n) result
        (optional default (count_read low high) at.now key.now (table_view members.now)) }
    ensures least { IfOk result (λ n. low ≤ n) }
    ensures most { IfOk result (λ n. n ≤ high) }
{
    match member(members, key) {
        Some(value) => count(key_path(alloc, at, key)?, value, low, high),
        None => Ok(default),
    }
}

/// Returns the whole number from low to high at a key, if there is one.
pub(crate) fn number_if_given(
    alloc: Global,
    at: &str,
    key: &str,
    members: &Table,
    low: i64,
    high: i64,
) -> Result<Option<i64>, ModelFault>
    ensures { Gives (λ z. z) result
        (optional None (given_number low high) at.now key.now (table_view members.now)) }
{
    match member(members, key) {
        Some(value) => {
            let z = number(key_path(alloc, at, key)?, value, low, high)?;
            Ok(Some(z))
        }
        None => Ok(None),
    }
}
