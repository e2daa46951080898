//! Reads the elevation-volume table of a reservoir.
ghost use Rattle.std.specs.Prelude.{◌≡◌, codes, None, string_bytes};
ghost use Rattle.toml.specs.View.{view, items_view, table_view};
ghost use Rattle.rw_model_toml.specs.Fault.{Gives};
ghost use Rattle.rw_model_toml.specs.Key.{required, optional};
ghost use Rattle.rw_model_toml.specs.ListOf.{list_read};
ghost use Rattle.rw_model_toml.specs.Kinds.{row_in, row_read, rated, rating_of, given_rating};

use crate::ModelFault;
use crate::key::member;
use crate::path::{element_path, key_path};
use crate::value::items;
use rw_table::{Rating, TableFault};
use std::alloc::Global;
use toml::{Table, Value};

// An elevation and a volume.
fn row_in(pair: &[Value]) -> Option<(i64, i64)>
    ensures { result ≡ row_in (items_view pair.now) }
{
    if pair.len() != 2 {
        return None;
    }
    match (pair[0].as_integer(), pair[1].as_integer()) {
        (Some(elevation), Some(volume)) => Some((elevation, volume)),
        _ => None,
    }
}

fn read_row(path: String, value: &Value) -> Result<(i64, i64), ModelFault>
    ensures { Gives (λ row. row) result (row_read (string_bytes path) (view value.now)) }
{
    let Value::Array(pair) = value else {
        return Err(ModelFault::WrongKind(path));
    };
    match row_in(pair.as_slice()) {
        Some(row) => Ok(row),
        None => Err(ModelFault::WrongKind(path)),
    }
}

fn read_rows(alloc: Global, path: &str, items: &[Value]) -> Result<Vec<(i64, i64)>, ModelFault>
    ensures { Gives (λ rows. rows.items) result
        (list_read row_read path.now 1 (items_view items.now)) }
{
    let mut rows = Vec::new(alloc);
    for place in 0..items.len() {
        let at = element_path(alloc, path, place + 1)?;
        let row = read_row(at, &items[place])?;
        rows.push(row)?;
    }
    Ok(rows)
}

// The table of these rows.
fn rate(alloc: Global, path: String, rows: &[(i64, i64)]) -> Result<Rating, ModelFault>
    ensures { Gives (λ rating. rating) result (rated (string_bytes path) rows.now) }
{
    let fault = match Rating::of(alloc, rows) {
        Ok(rating) => return Ok(rating),
        Err(fault) => fault,
    };
    match fault {
        TableFault::NoMemory => Err(ModelFault::NoMemory),
        _ => Err(ModelFault::Table(path, fault)),
    }
}

// The table of elevations and volumes that the value is.
fn rating(alloc: Global, path: String, value: &Value) -> Result<Rating, ModelFault>
    ensures { Gives (λ rating. rating) result (rating_of (string_bytes path) (view value.now)) }
{
    let items = items(path.clone()?, value)?;
    let rows = read_rows(alloc, path.as_str(), items)?;
    rate(alloc, path, rows.as_slice())
}

/// Returns the elevation-volume table, which has to be there.
pub(crate) fn required_rating(alloc: Global, at: &str, table: &Table) -> Result<Rating, ModelFault>
    ensures { Gives (λ rating. rating) result
        (required rating_of at.now (codes "table") (table_view table.now)) }
{
    let path = key_path(alloc, at, "table")?;
    match member(table, "table") {
        Some(value) => rating(alloc, path, value),
        None => Err(ModelFault::Missing(path)),
    }
}

/// Returns the elevation-volume table, if there is one.
pub(crate) fn rating_if_given(
    alloc: Global,
    at: &str,
    table: &Table,
) -> Result<Option<Rating>, ModelFault>
    ensures { Gives (λ rating. rating) result
        (optional None given_rating at.now (codes "table") (table_view table.now)) }
{
    match member(table, "table") {
        Some(value) => {
            let rating = rating(alloc, key_path(alloc, at, "table")?, value)?;
            Ok(Some(rating))
        }
        None => Ok(None),
    }
}
