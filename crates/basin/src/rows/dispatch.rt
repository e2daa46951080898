//! Holds what the tests of methods share: a table of what an object knows, and what its dispatch is to answer.
ghost use Rattle.std.specs.Prelude.{◌≡◌, map};
ghost use Rattle.rw_method.specs.Catalogue.{AreInOrder};

use crate::rows::is_view::is_view_of;
use rw_base::{ObjectNo, Qty, RuleNo};
use rw_method::{Catalogue, Put, Solved, View};
use rw_model::{Content, Kind, Writer};

/// Who wrote a value, with its number where it has one other than 0.
#[derive(Clone, Copy)]
pub(crate) enum By {
    Input,
    Rule(u16),
    Own(u16),
}

/// The answer that is wanted of a dispatch: puts have their place, value and number.
#[derive(Clone, Copy)]
pub(crate) enum Want<'a> {
    Idle,
    Puts(&'a [(u8, i64, u16)]),
    Conflict(u8, i128, i128),
    OutOfRange(u8, i128),
}

/// The values in the slots, each with its place, and what is to be answered.
#[derive(Clone, Copy)]
pub(crate) struct TableRow<'a>(pub(crate) &'a [(u8, i64, By)], pub(crate) Want<'a>);

/// An object's storage before or its inflow as long ago as its lag, its bounds other than the usual ones, each with its place,
/// and the answers that are wanted of it.
#[derive(Clone, Copy)]
pub(crate) struct Table<'a> {
    pub(crate) past: Option<i64>,
    pub(crate) bounds: &'a [(u8, i64, i64)],
    pub(crate) rows: &'a [TableRow<'a>],
}

const OWN: ObjectNo = ObjectNo(1);

fn content(value: i64, by: By) -> Option<Content> {
    let (writer, number) = match by {
        By::Input => (Writer::Input, 0),
        By::Rule(number) => (Writer::Rule(RuleNo(number)), number),
        By::Own(number) => (Writer::Object(OWN), number),
    };
    match Qty::of(value) {
        Some(value) => Some(Content {
            value,
            number,
            writer,
        }),
        None => None,
    }
}

fn bounds_of(kind: &Kind, given: &[(u8, i64, i64)]) -> [(i64, i64); 12] {
    let mut bounds = [(0, 0); 12];
    for place in 0..12 {
        if let Some(slot) = kind.slot(place) {
            bounds[usize::from(place)] = slot.usual();
        }
    }
    for k in 0..given.len() {
        let (place, low, high) = given[k];
        if let Some(bound) = bounds.get_mut(usize::from(place)) {
            *bound = (low, high);
        }
    }
    bounds
}

fn view_of(kind: &Kind, table: Table<'_>, known: &[(u8, i64, By)]) -> View {
    let mut now = [None; 12];
    for k in 0..known.len() {
        let (place, value, by) = known[k];
        if let Some(slot) = now.get_mut(usize::from(place)) {
            *slot = content(value, by);
        }
    }
    let past = match table.past {
        Some(past) => Qty::of(past),
        None => None,
    };
    View {
        own: OWN,
        now,
        past,
        bounds: bounds_of(kind, table.bounds),
    }
}

fn is_put(put: Put, want: (u8, i64, u16)) -> bool {
    put.place == want.0 && put.value.get() == want.1 && put.number == want.2
}

fn are_puts(puts: &[Put], want: &[(u8, i64, u16)]) -> bool {
    if puts.len() != want.len() {
        return false;
    }
    for k in 0..want.len() {
        if !is_put(puts[k], want[k]) {
            return false;
        }
    }
    true
}

fn is_wanted(solved: &Solved, want: Want<'_>) -> bool {
    match (solved, want) {
        (Solved::Idle, Want::Idle) => true,
        (Solved::Puts(puts), Want::Puts(want)) => are_puts(puts.as_slice(), want),
        (
            Solved::Conflict {
                place,
                held,
                solved,
            },
            Want::Conflict(slot, was, becomes),
        ) => *place == slot && *held == was && *solved == becomes,
        (Solved::OutOfRange { place, value }, Want::OutOfRange(slot, wanted)) => {
            *place == slot && *value == wanted
        }
        _ => false,
    }
}

fn is_right(catalogue: &Catalogue, kind: &Kind, table: Table<'_>, row: TableRow<'_>) -> bool
    requires { AreInOrder (map (λ b. code (b.vtable, b.value)) catalogue.now.methods.items) }
{
    let view = view_of(kind, table, row.0);
    if kind.code() == 0 || !is_view_of(kind, &view) {
        return false;
    }
    is_wanted(&catalogue.solve(kind, &view), row.1)
}

// Whether each row of the table is answered as it wants.
fn is_met(catalogue: &Catalogue, kind: &Kind, table: Table<'_>) -> bool
    requires { AreInOrder (map (λ b. code (b.vtable, b.value)) catalogue.now.methods.items) }
{
    for k in 0..table.rows.len() {
        if !is_right(catalogue, kind, table, table.rows[k]) {
            return false;
        }
    }
    true
}

/// Returns the first of the tables, counted from 0, of which a row is not answered as it has to be.
pub(crate) fn first_unmet(catalogue: &Catalogue, kind: &Kind, tables: &[Table<'_>]) -> Option<usize>
    requires { AreInOrder (map (λ b. code (b.vtable, b.value)) catalogue.now.methods.items) }
{
    for k in 0..tables.len() {
        if !is_met(catalogue, kind, tables[k]) {
            return Some(k);
        }
    }
    None
}
