//! Decides whether rows are an elevation-volume table, and finds the first fault of rows that are none.
ghost use Rattle.rw_table.specs.declared.fault.TheConstants.{ROWS_MAX};
ghost use Rattle.std.specs.Prelude.{◌≡◌, ◌<◌, ◌≤◌, length, None};
ghost use Rattle.rw_base.specs.Answers.{Finds};
ghost use Rattle.rw_table.specs.Table.{IsTable, rows_refusal_of, is_within_bounds, is_above, row_refusal, rows_refusal, table_refusal};

use thiserror::Error;

// The most rows that a table has.
const ROWS_MAX: usize = 200;

/// The greatest elevation of a table, in mm.
pub const ELEVATION_MAX: i64 = 10_000_000;

// The greatest volume, in m3.
const VOLUME_MAX: i64 = 10_000_000_000_000;

/// The reasons why rows are no table. Rows are counted from 1.
#[derive(Clone, Copy, Debug, PartialEq, Eq, Error)]
pub enum TableFault {
    /// There are fewer than 2 rows.
    #[error("a table has at least 2 rows")]
    TooFewRows,
    /// There are more than 200 rows.
    #[error("a table has at most 200 rows")]
    TooManyRows,
    /// The elevation of this row is outside 0 to 10^7 mm, or its volume outside 0 to 10^13 m3.
    #[error("row {0} is out of bounds")]
    OutOfBounds(u32),
    /// This row is not above the row before it in both columns.
    #[error("row {0} is not above the row before it")]
    NotRising(u32),
    /// There was no memory for the table.
    #[error("out of memory")]
    NoMemory,
}

fn is_within_bounds(row: (i64, i64)) -> bool
    ensures { result ≡ is_within_bounds row }
{
    let (elevation, volume) = row;
    (0 <= elevation && elevation <= ELEVATION_MAX) && (0 <= volume && volume <= VOLUME_MAX)
}

fn is_above(row: (i64, i64), before: (i64, i64)) -> bool
    ensures { result ≡ is_above row before }
{
    before.0 < row.0 && before.1 < row.1
}

// What is wrong with the row in this place, if something is.
fn judge_row(rows: &[(i64, i64)], place: usize) -> Option<TableFault>
    requires few { length rows.now ≤ ROWS_MAX }
    requires within { place < length rows.now }
    ensures { Finds rows_refusal_of result (row_refusal rows.now place) }
{
    let row = rows[place];
    let number = place as u32 + 1;
    if !is_within_bounds(row) {
        return Some(TableFault::OutOfBounds(number));
    }
    if place > 0 && !is_above(row, rows[place - 1]) {
        return Some(TableFault::NotRising(number));
    }
    None
}

// The first fault of a row.
fn judge_rows(rows: &[(i64, i64)]) -> Option<TableFault>
    requires few { length rows.now ≤ ROWS_MAX }
    ensures { Finds rows_refusal_of result (rows_refusal rows.now (length rows.now)) }
{
    for place in 0..rows.len() {
        if let Some(fault) = judge_row(rows, place) {
            return Some(fault);
        }
    }
    None
}

/// Returns the first fault of the rows; `None` where they have none.
pub(crate) fn judge(rows: &[(i64, i64)]) -> Option<TableFault>
    ensures fault { Finds rows_refusal_of result (table_refusal rows.now) }
    ensures table { result ≡ None → IsTable rows.now }
{
    if rows.len() < 2 {
        return Some(TableFault::TooFewRows);
    }
    if rows.len() > ROWS_MAX {
        return Some(TableFault::TooManyRows);
    }
    judge_rows(rows)
}
