//! Tests tables of reservoirs: volumes and elevations, and which rows are no table.
use crate::shared::{lasting, none_is_wrong};
use rw_table::{Rating, TableFault};
use std::alloc::{AllocError, Global};
use std::process::Abort;

// Half a cubic metre to a millimetre up to the second row, and from there on a whole one.
const ROWS: &[(i64, i64)] = &[(0, 0), (1000, 500), (3000, 2500)];

// Elevations, and the volumes there.
const VOLUMES: &[(i64, Option<i64>)] = &[
    (-1, None),
    (0, Some(0)),
    (1, Some(0)),
    (500, Some(250)),
    (2000, Some(1500)),
    (3000, Some(2500)),
    (3001, None),
];

fn first_wrong_volume(rating: &Rating, rows: &[(i64, Option<i64>)]) -> Option<usize> {
    for k in 0..rows.len() {
        let (e, want) = rows[k];
        if rating.vol(e) != want {
            return Some(k);
        }
    }
    None
}

// Volumes, and the elevations at which they lie.
const ELEVATIONS: &[(i64, Option<i64>)] = &[
    (-1, None),
    (0, Some(1)),
    (250, Some(501)),
    (2500, Some(3000)),
    (2501, None),
];

fn first_wrong_elevation(rating: &Rating, rows: &[(i64, Option<i64>)]) -> Option<usize> {
    for k in 0..rows.len() {
        let (s, want) = rows[k];
        if rating.elev(s) != want {
            return Some(k);
        }
    }
    None
}

fn rating<'a>(rt: &impl Abort, alloc: Global, rows: &[(i64, i64)]) -> &'a Rating {
    match Rating::of(alloc, rows) {
        Ok(rating) => lasting(rt, alloc, rating),
        Err(_) => panic!(rt; "no table"),
    }
}

#[test]
fn worked_values(rt: HostRuntime) {
    let rising = rating(&rt, rt.alloc(), ROWS);
    let raised = rating(&rt, rt.alloc(), &[(700, 0), (1000, 500)]);
    none_is_wrong(&rt, first_wrong_volume(rising, VOLUMES));
    none_is_wrong(&rt, first_wrong_elevation(rising, ELEVATIONS));
    assert!(rt; rising.lowest() == 0 && raised.lowest() == 700);
}

// Rows that are no table, and why.
const FAULTS: &[(&[(i64, i64)], TableFault)] = &[
    (&[(0, 0), (0, 5)], TableFault::NotRising(2)),
    (&[(0, 0), (5, 0)], TableFault::NotRising(2)),
    (&[(-1, 0), (5, 5)], TableFault::OutOfBounds(1)),
    (&[(0, 0), (10_000_001, 5)], TableFault::OutOfBounds(2)),
    (
        &[(0, 0), (5, 10_000_000_000_001)],
        TableFault::OutOfBounds(2),
    ),
    (&[(0, 0), (0, -1)], TableFault::OutOfBounds(2)),
    (&[(0, 0), (0, 5), (-1, 6)], TableFault::NotRising(2)),
];

// Whether that is what becomes of the rows, where a table has no fault.
fn ends_with(alloc: Global, rows: &[(i64, i64)], want: Option<TableFault>) -> bool {
    Rating::of(alloc, rows).err() == want
}

fn first_wrong_fault(alloc: Global, cases: &[(&[(i64, i64)], TableFault)]) -> Option<usize> {
    for k in 0..cases.len() {
        let (rows, fault) = cases[k];
        if !ends_with(alloc, rows, Some(fault)) {
            return Some(k);
        }
    }
    None
}

#[test]
fn faults(rt: HostRuntime) {
    none_is_wrong(&rt, first_wrong_fault(rt.alloc(), FAULTS));
}

// That many rows, a millimetre and a cubic metre apart.
fn even_rows(alloc: Global, count: i64) -> Result<Vec<(i64, i64)>, AllocError> {
    let mut rows = Vec::new(alloc);
    for step in 0..count {
        rows.push((step, step))?;
    }
    Ok(rows)
}

// Counts of rows, and why they are no table.
const COUNTS: &[(i64, Option<TableFault>)] = &[
    (0, Some(TableFault::TooFewRows)),
    (1, Some(TableFault::TooFewRows)),
    (2, None),
    (200, None),
    (201, Some(TableFault::TooManyRows)),
];

fn is_counted(alloc: Global, count: i64, want: Option<TableFault>) -> bool {
    match even_rows(alloc, count) {
        Ok(rows) => ends_with(alloc, &rows, want),
        Err(_) => false,
    }
}

fn first_wrong_count(alloc: Global, cases: &[(i64, Option<TableFault>)]) -> Option<usize> {
    for k in 0..cases.len() {
        let (count, want) = cases[k];
        if !is_counted(alloc, count, want) {
            return Some(k);
        }
    }
    None
}

#[test]
fn counts(rt: HostRuntime) {
    none_is_wrong(&rt, first_wrong_count(rt.alloc(), COUNTS));
}

// Faults, and what is said of them.
const MESSAGES: &[(TableFault, &str)] = &[
    (TableFault::TooFewRows, "a table has at least 2 rows"),
    (TableFault::TooManyRows, "a table has at most 200 rows"),
    (TableFault::OutOfBounds(7), "row 7 is out of bounds"),
    (
        TableFault::NotRising(2),
        "row 2 is not above the row before it",
    ),
    (TableFault::NoMemory, "out of memory"),
];

fn is_said(alloc: Global, fault: TableFault, want: &str) -> bool {
    match format!(in alloc; "{fault}") {
        Ok(text) => text.as_str() == want,
        Err(_) => false,
    }
}

fn first_wrong_message(alloc: Global, cases: &[(TableFault, &str)]) -> Option<usize> {
    for k in 0..cases.len() {
        let (fault, want) = cases[k];
        if !is_said(alloc, fault, want) {
            return Some(k);
        }
    }
    None
}

#[test]
fn messages(rt: HostRuntime) {
    none_is_wrong(&rt, first_wrong_message(rt.alloc(), MESSAGES));
}
