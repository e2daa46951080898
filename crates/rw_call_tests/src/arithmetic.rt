//! Tests what calls on quantities, dimensions and words for units return.
use crate::shared::none_is_wrong;
use rw_base::{ArithFault, Dim, Qty, unit_of};

const Q: i64 = 100_000_000_000_000_000;

#[derive(Clone, Copy)]
enum Op {
    Add,
    Sub,
    Mul,
    Div,
}

fn answer(op: Op, a: Qty, b: Qty) -> Result<Qty, ArithFault> {
    match op {
        Op::Add => a.add(b),
        Op::Sub => a.sub(b),
        Op::Mul => a.mul(b),
        Op::Div => a.div(b),
    }
}

// Whether that is what the operation answers of the two quantities.
fn is_answer(op: Op, a: i64, b: i64, want: Result<i64, ArithFault>) -> bool {
    let (Some(first), Some(second)) = (Qty::of(a), Qty::of(b)) else {
        return false;
    };
    match (answer(op, first, second), want) {
        (Ok(found), Ok(value)) => found.get() == value,
        (Err(found), Err(fault)) => found == fault,
        _ => false,
    }
}

// An operation, its two quantities, and its answer.
const ANSWERS: &[(Op, i64, i64, Result<i64, ArithFault>)] = &[
    (Op::Div, 7, 2, Ok(3)),
    (Op::Div, -7, 2, Ok(-4)),
    (Op::Div, 7, -2, Ok(-4)),
    (Op::Div, -7, -2, Ok(3)),
    (Op::Div, 6, -3, Ok(-2)),
    (Op::Div, Q, -1, Ok(-Q)),
    (Op::Div, -1, Q, Ok(-1)),
    (Op::Div, 5, 0, Err(ArithFault::ZeroDivisor)),
    (Op::Div, 0, 0, Err(ArithFault::ZeroDivisor)),
    (Op::Mul, Q, 1, Ok(Q)),
    (
        Op::Mul,
        Q,
        2,
        Err(ArithFault::OutOfRange(200_000_000_000_000_000)),
    ),
    (
        Op::Mul,
        -Q,
        Q,
        Err(ArithFault::OutOfRange(-10_000_000_000_000_000_000_000_000_000_000_000)),
    ),
    (
        Op::Mul,
        316_227_766,
        316_227_766,
        Ok(99_999_999_989_350_756),
    ),
    (
        Op::Mul,
        316_227_767,
        316_227_767,
        Err(ArithFault::OutOfRange(100_000_000_621_806_289)),
    ),
    (Op::Mul, 1_000_000_000, 100_000_000, Ok(Q)),
    (
        Op::Mul,
        1_000_000_001,
        100_000_000,
        Err(ArithFault::OutOfRange(100_000_000_100_000_000)),
    ),
    (Op::Add, 99_999_999_999_999_999, 1, Ok(Q)),
    (
        Op::Add,
        Q,
        1,
        Err(ArithFault::OutOfRange(100_000_000_000_000_001)),
    ),
    (
        Op::Add,
        -Q,
        -Q,
        Err(ArithFault::OutOfRange(-200_000_000_000_000_000)),
    ),
    (Op::Sub, -99_999_999_999_999_999, 1, Ok(-Q)),
    (
        Op::Sub,
        -Q,
        1,
        Err(ArithFault::OutOfRange(-100_000_000_000_000_001)),
    ),
    (
        Op::Sub,
        Q,
        -Q,
        Err(ArithFault::OutOfRange(200_000_000_000_000_000)),
    ),
];

fn first_wrong_answer(rows: &[(Op, i64, i64, Result<i64, ArithFault>)]) -> Option<usize> {
    for k in 0..rows.len() {
        let (op, a, b, want) = rows[k];
        if !is_answer(op, a, b, want) {
            return Some(k);
        }
    }
    None
}

#[test]
fn answers_are_exact_or_have_no_place(rt: HostRuntime) {
    none_is_wrong(&rt, first_wrong_answer(ANSWERS));
}

// Values, and whether they are quantities.
const BOUNDS: &[(i64, bool)] = &[
    (0, true),
    (Q, true),
    (-Q, true),
    (100_000_000_000_000_001, false),
    (-100_000_000_000_000_001, false),
    (i64::MAX, false),
    (i64::MIN, false),
];

fn is_bounded(value: i64, is_quantity: bool) -> bool {
    match Qty::of(value) {
        Some(found) => is_quantity && found.get() == value,
        None => !is_quantity,
    }
}

fn first_wrong_bound(rows: &[(i64, bool)]) -> Option<usize> {
    for k in 0..rows.len() {
        let (value, is_quantity) = rows[k];
        if !is_bounded(value, is_quantity) {
            return Some(k);
        }
    }
    None
}

#[test]
fn quantities_end_at_their_bounds(rt: HostRuntime) {
    none_is_wrong(&rt, first_wrong_bound(BOUNDS));
}

// Words for units, and their exponents of volume, length, step and energy and their factors.
const UNITS: &[(&str, Option<(i8, i8, i8, i8, i64)>)] = &[
    ("m3", Some((1, 0, 0, 0, 1))),
    ("dam3", Some((1, 0, 0, 0, 1000))),
    ("Mm3", Some((1, 0, 0, 0, 1_000_000))),
    ("mm", Some((0, 1, 0, 0, 1))),
    ("m", Some((0, 1, 0, 0, 1000))),
    ("step", Some((0, 0, 1, 0, 1))),
    ("m3/step", Some((1, 0, -1, 0, 1))),
    ("dam3/step", Some((1, 0, -1, 0, 1000))),
    ("mm/step", Some((0, 1, -1, 0, 1))),
    ("m3/mm", Some((1, -1, 0, 0, 1))),
    ("kWh", Some((0, 0, 0, 1, 1))),
    ("", Some((0, 0, 0, 0, 1))),
    ("m2", None),
    ("M3", None),
    (" m3", None),
];

fn is_unit(word: &str, want: Option<(i8, i8, i8, i8, i64)>) -> bool {
    match (unit_of(word), want) {
        (Some((dim, factor)), Some(row)) => {
            (dim.volume, dim.length, dim.step, dim.energy, factor) == row
        }
        (None, None) => true,
        _ => false,
    }
}

fn first_wrong_unit(rows: &[(&str, Option<(i8, i8, i8, i8, i64)>)]) -> Option<usize> {
    for k in 0..rows.len() {
        let (word, want) = rows[k];
        if !is_unit(word, want) {
            return Some(k);
        }
    }
    None
}

#[test]
fn unit_words_have_their_rows(rt: HostRuntime) {
    none_is_wrong(&rt, first_wrong_unit(UNITS));
}

// Exponents of 1, and exponents that are too far from 0.
const ONES: &[(i8, i8, i8, i8)] = &[(1, 0, 0, 0), (0, 1, 0, 0), (0, 0, 1, 0), (0, 0, 0, 1)];

const OVER: &[i8] = &[-128, -7, 7, 127];

fn ends_have_products() -> bool {
    let (Some(most), Some(least), Some(plain)) = (
        Dim::of(6, 6, 6, 6),
        Dim::of(-6, -6, -6, -6),
        Dim::of(0, 0, 0, 0),
    ) else {
        return false;
    };
    most.times(least) == Some(plain)
        && plain.per(most) == Some(least)
        && plain.per(least) == Some(most)
}

#[test]
fn products_and_quotients_have_exponents(rt: HostRuntime) {
    assert!(rt; ends_have_products());
}

// Whether these exponents can neither be added to the greatest ones nor taken from the least ones.
fn leads_beyond_ends(volume: i8, length: i8, step: i8, energy: i8) -> bool {
    let (Some(most), Some(least), Some(one)) = (
        Dim::of(6, 6, 6, 6),
        Dim::of(-6, -6, -6, -6),
        Dim::of(volume, length, step, energy),
    ) else {
        return false;
    };
    most.times(one).is_none() && least.per(one).is_none()
}

fn first_within_ends(rows: &[(i8, i8, i8, i8)]) -> Option<usize> {
    for k in 0..rows.len() {
        let (volume, length, step, energy) = rows[k];
        if !leads_beyond_ends(volume, length, step, energy) {
            return Some(k);
        }
    }
    None
}

#[test]
fn exponents_end_at_six(rt: HostRuntime) {
    none_is_wrong(&rt, first_within_ends(ONES));
}

// Whether no dimension has that for one of its exponents.
fn is_no_exponent(over: i8) -> bool {
    Dim::of(over, 0, 0, 0).is_none()
        && Dim::of(0, over, 0, 0).is_none()
        && Dim::of(0, 0, over, 0).is_none()
        && Dim::of(0, 0, 0, over).is_none()
}

fn first_exponent(rows: &[i8]) -> Option<usize> {
    for k in 0..rows.len() {
        if !is_no_exponent(rows[k]) {
            return Some(k);
        }
    }
    None
}

#[test]
fn each_exponent_is_bounded(rt: HostRuntime) {
    none_is_wrong(&rt, first_exponent(OVER));
}
