//! Reads a value as the type that is asked for, or refuses it by its path.
ghost use Rattle.std.specs.Prelude.{◌≤◌, ◌≤ℤ◌, IfOk, string_bytes};
ghost use Rattle.toml.specs.View.{view, items_view, table_view};
ghost use Rattle.rw_model_toml.specs.Fault.{Gives};
ghost use Rattle.rw_model_toml.specs.Value.{integer_of, text_of, truth_of, items_of, members_of, number_read, count_read};

use crate::ModelFault;
use rw_model::BuildFault;
use std::alloc::Global;
use toml::{Table, Value};

/// Returns the integer that the value at the path is.
pub(crate) fn integer(path: String, value: &Value) -> Result<i64, ModelFault>
    ensures { Gives (λ z. z) result (integer_of (string_bytes path) (view value.now)) }
{
    match value {
        Value::Integer(z) => Ok(*z),
        _ => Err(ModelFault::WrongKind(path)),
    }
}

/// Returns the text that it is.
pub(crate) fn text(path: String, value: &Value) -> Result<&str, ModelFault>
    ensures { Gives (λ text. text.now) result (text_of (string_bytes path) (view value.now)) }
{
    match value {
        Value::String(text) => Ok(text.as_str()),
        _ => Err(ModelFault::WrongKind(path)),
    }
}

/// Returns the truth value that it is.
pub(crate) fn truth(path: String, value: &Value) -> Result<bool, ModelFault>
    ensures { Gives (λ b. b) result (truth_of (string_bytes path) (view value.now)) }
{
    match value {
        Value::Boolean(b) => Ok(*b),
        _ => Err(ModelFault::WrongKind(path)),
    }
}

/// Returns the items of the array that it is.
pub(crate) fn items(path: String, value: &Value) -> Result<&[Value], ModelFault>
    ensures { Gives (λ items. items_view items.now) result
        (items_of (string_bytes path) (view value.now)) }
{
    match value {
        Value::Array(items) => Ok(items.as_slice()),
        _ => Err(ModelFault::WrongKind(path)),
    }
}

/// Returns the table that it is.
pub(crate) fn table<'a>(
    alloc: Global,
    path: &str,
    value: &'a Value,
) -> Result<&'a Table, ModelFault>
    ensures { Gives (λ table. table_view table.now) result (members_of path.now (view value.now)) }
{
    match value {
        Value::Table(table) => Ok(table),
        _ => Err(ModelFault::WrongKind(String::from_str(alloc, path)?)),
    }
}

/// Returns the whole number from low to high that it is.
pub(crate) fn number(path: String, value: &Value, low: i64, high: i64) -> Result<i64, ModelFault>
    ensures read { Gives (λ z. z) result
        (number_read low high (string_bytes path) (view value.now)) }
    ensures least { IfOk result (λ z. low ≤ℤ z) }
    ensures most { IfOk result (λ z. z ≤ℤ high) }
{
    match value {
        Value::Integer(z) => {
            if *z < low || *z > high {
                return Err(ModelFault::Build(path, BuildFault::BadParameter));
            }
            Ok(*z)
        }
        _ => Err(ModelFault::WrongKind(path)),
    }
}

/// Returns the whole number from low to high that it is, where these are counts.
pub(crate) fn count(path: String, value: &Value, low: u16, high: u16) -> Result<u16, ModelFault>
    ensures read { Gives (λ n. n) result
        (count_read low high (string_bytes path) (view value.now)) }
    ensures least { IfOk result (λ n. low ≤ n) }
    ensures most { IfOk result (λ n. n ≤ high) }
{
    let z = number(path, value, i64::from(low), i64::from(high))?;
    Ok(z as u16)
}
