//! Writes the water balance of a run, a line for each object that holds water.
ghost use Rattle.std.specs.Prelude.{◌≡◌, ◌++◌, IfOk, OnOk, codes, string_bytes};
ghost use Rattle.rw_model.specs.Draft.{IsObject};
ghost use Rattle.rw_model.specs.Objects.{object_at};
ghost use Rattle.rw_series.specs.Series.{held};
ghost use Rattle.rw_report.specs.Outcome.{outcome_of};
ghost use Rattle.rw_books.specs.Text as specs;
ghost use Rattle.rw_books.specs.Turnover as turnover;

use crate::book::{Book, book_of};
use crate::turnover::initial_of;
use rw_base::{NoMemory, ObjectNo};
use rw_model::{Basin, Kind};
use rw_report::{object_words, push_heading};
use rw_run::Run;
use rw_series::Series;
use std::alloc::Global;
use std::fmt::Write;

// Appends the line of an object of this name of which all is known.
fn push_known(
    text: &mut String,
    name: &str,
    initial: i64,
    inflow: i128,
    outflow: i128,
    held: i128,
) -> Result<(), NoMemory>
    ensures { OnOk result
        (string_bytes text.new ≡ string_bytes text.old ++ (name.now ++ specs.known_words initial
        (record { inflow = inflow; outflow = outflow; held = held }))) }
{
    write!(
        text,
        "{name} initial {initial} in {inflow} out {outflow} final {held}\n"
    )?;
    Ok(())
}

// Appends the line of an object of this name of which something isn't known.
fn push_unknown(text: &mut String, name: &str) -> Result<(), NoMemory>
    ensures { OnOk result
        (string_bytes text.new ≡ string_bytes text.old ++ (name.now ++ codes " unknown\n")) }
{
    write!(text, "{name} unknown\n")?;
    Ok(())
}

// Appends the line of an object.
fn push_book(
    text: &mut String,
    basin: &Basin,
    object: ObjectNo,
    initial: i64,
    book: Option<Book>,
) -> Result<(), NoMemory>
    ensures { OnOk result (string_bytes text.new
        ≡ string_bytes text.old ++ specs.book_words basin.now object.0 initial book) }
{
    let name = object_words(basin, object);
    match book {
        Some(book) => push_known(text, name, initial, book.inflow, book.outflow, book.held),
        None => push_unknown(text, name),
    }
}

// Appends the line of an object of a kind, if it holds water.
fn push_object(
    text: &mut String,
    basin: &Basin,
    series: &Series,
    closed: u16,
    object: ObjectNo,
    kind: &Kind,
) -> Result<(), NoMemory>
    requires { IsObject basin.now.objects object.0 }
    ensures { OnOk result (string_bytes text.new ≡ string_bytes text.old
        ++ specs.book_if basin.now (held series.now) closed object.0 kind.now
        (turnover.initial_of kind.now)) }
{
    match initial_of(kind) {
        Some(initial) => {
            let book = book_of(basin, series, closed, object, kind, initial);
            push_book(text, basin, object, initial, book)
        }
        None => Ok(()),
    }
}

fn push_line(
    text: &mut String,
    basin: &Basin,
    series: &Series,
    closed: u16,
    object: ObjectNo,
) -> Result<(), NoMemory>
    requires { IsObject basin.now.objects object.0 }
    ensures { OnOk result (string_bytes text.new ≡ string_bytes text.old
        ++ specs.book_line basin.now (held series.now) closed object.0
        (object_at basin.now.objects object.0)) }
{
    push_object(text, basin, series, closed, object, basin.kind(object))
}

// Appends the lines of all objects that hold water.
fn push_lines(
    text: &mut String,
    basin: &Basin,
    series: &Series,
    closed: u16,
) -> Result<(), NoMemory>
    ensures { OnOk result (string_bytes text.new
        ≡ string_bytes text.old ++ specs.book_lines basin.now (held series.now) closed) }
{
    for before in 0..basin.object_count() {
        push_line(text, basin, series, closed, ObjectNo(before + 1))?;
    }
    Ok(())
}

/// Returns the water balance of a run: how it ended, and a line for each reservoir, power reservoir and routed reach with what it
/// held before the run, what flowed in and out in the timesteps that were closed, and what it holds at the end; `unknown` where
/// one of these is not known. The one error is want of memory.
pub fn balance(alloc: Global, basin: &Basin, run: &Run) -> Result<Vec<u8>, NoMemory>
    ensures text { IfOk result
        (λ text. text.items ≡ specs.balance_of_run basin.now (outcome_of run.now)) }
{
    let mut text = String::new(alloc);
    push_heading(&mut text, basin, 0, &run.end)?;
    push_lines(&mut text, basin, &run.series, run.closed)?;
    Ok(text.into_bytes())
}
