//! Adds up what flowed in and out of an object over the closed timesteps.
ghost use Rattle.std.specs.Prelude.{◌≡◌, ◌+ℤ◌};
ghost use Rattle.rw_model.specs.Draft.{IsObject};
ghost use Rattle.rw_series.specs.Series.{held};
ghost use Rattle.rw_books.specs.Book as specs;
ghost use Rattle.rw_books.specs.Turnover.{IsOfThreeFlows, IsNoLarger};

use crate::turnover::{Slots, Turnover, turnover_of};
use rw_base::{ObjectNo, StepNo};
use rw_model::{Basin, Kind};
use rw_series::Series;

/// The water balance of an object: the sums of what flowed in and out, and what it holds at the end.
#[derive(Clone, Copy, Drop)]
pub struct Book {
    /// The sum of what flowed in, in m3.
    pub inflow: i128,
    /// The sum of what flowed out, in m3.
    pub outflow: i128,
    /// What it holds at the end, in m3.
    pub held: i128,
}

// Before the first timestep.
fn opening_book(initial: i64) -> Book
    ensures { result ≡ specs.opening_book initial }
{
    Book {
        inflow: 0,
        outflow: 0,
        held: i128::from(initial),
    }
}

// A sum of flows, and the flow of one timestep more: timesteps are at most 65,535.
fn add(sum: i128, flow: i128) -> i128
    requires sum { IsNoLarger 20000000000000000000000 sum }
    requires flow { IsNoLarger 300000000000000000 flow }
    ensures { result ≡ sum +ℤ flow }
{
    sum + flow
}

fn with_turnover(book: Book, turn: Turnover) -> Book
    requires inflow { IsNoLarger 20000000000000000000000 book.inflow }
    requires outflow { IsNoLarger 20000000000000000000000 book.outflow }
    requires turn { IsOfThreeFlows turn }
    ensures { result ≡ specs.with_turnover book turn }
{
    Book {
        inflow: add(book.inflow, turn.inflow),
        outflow: add(book.outflow, turn.outflow),
        held: turn.held,
    }
}

/// Returns the water balance of an object of this kind over the first `closed` timesteps, if all is known.
pub(crate) fn book_of(
    basin: &Basin,
    series: &Series,
    closed: u16,
    object: ObjectNo,
    kind: &Kind,
    initial: i64,
) -> Option<Book>
    requires { IsObject basin.now.objects object.0 }
    ensures { result
        ≡ specs.book_of basin.now (held series.now) closed object.0 kind.now initial }
{
    let mut book = opening_book(initial);
    for before in 0..closed {
        let slots = Slots {
            basin,
            series,
            object,
            step: StepNo(before + 1),
        };
        match turnover_of(&slots, kind) {
            Some(turn) => book = with_turnover(book, turn),
            None => return None,
        }
    }
    Some(book)
}
