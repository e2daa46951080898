//! Decides which of the puts of a firing are written.
ghost use Rattle.std.specs.Prelude.{◌≡◌, ◌≤◌, ◌<◌, ◌+◌, ◌++◌, ◌∷◌, drop, length};
ghost use Rattle.rw_dispatch.specs.Writes.{AreWrites, CanWrite};
ghost use Rattle.rw_series.specs.Series.{held};
ghost use Rattle.rw_run.specs.Dispatch.{end_in, is_written};
ghost use Rattle.rw_run.specs.Next.{is_put_again};
ghost use Rattle.rw_writes.specs.Writes.{written_puts};

use rw_base::Cell;
use rw_model::{Basin, PutEnd, put_end};
use rw_run::Write;
use rw_series::{Series, is_shared};

// The cell of a put. Its fields were written one by one just before, and are read so too: one load of both would wait.
#[inline(always)]
fn cell_of(write: &Write) -> Cell
    ensures { result ≡ write.now.cell }
{
    Cell {
        slot: write.cell.slot,
        step: write.cell.step,
    }
}

// Whether a later one is to a cell that shares its value with that of this one.
#[inline(never)]
fn is_reached(basin: &Basin, write: &Write, later: &[Write]) -> bool
    requires { CanWrite basin.now write.now }
    ensures { result ≡ is_put_again basin.now write.now later.now }
{
    for other in later {
        if is_shared(basin, cell_of(write), other.cell) {
            return true;
        }
    }
    false
}

// The same. Most firings have one put.
#[inline(always)]
fn is_put_again(basin: &Basin, write: &Write, later: &[Write]) -> bool
    requires { CanWrite basin.now write.now }
    ensures { result ≡ is_put_again basin.now write.now later.now }
{
    if later.is_empty() {
        false
    } else {
        is_reached(basin, write, later)
    }
}

// Whether it is written, by what the cells hold.
fn is_written(series: &Series, write: &Write) -> bool
    ensures { result ≡ is_written (end_in (held series.now) write.now) }
{
    match put_end(series.get(cell_of(write)), write.content) {
        PutEnd::Written => true,
        _ => false,
    }
}

// Adds a put that is written and isn't put again.
fn keep_one(
    written: &mut Vec<Write>,
    basin: &Basin,
    series: &Series,
    write: &Write,
    later: &[Write],
)
    requires can { CanWrite basin.now write.now }
    requires room { length written.old.items < written.old.cap }
    ensures room { written.new.cap ≡ written.old.cap }
    ensures more { length written.new.items ≤ length written.old.items + 1 }
    ensures kept { written.new.items
        ++ written_puts basin.now (held series.now) later.now
        ≡ written.old.items
        ++ written_puts basin.now (held series.now) (write.now ∷ later.now) }
{
    if is_written(series, write) {
        if !is_put_again(basin, write, later) {
            written.push_reserved(*write);
        }
    }
}

// Those behind a place.
fn behind(asked: &[Write], place: usize) -> &[Write]
    requires { place < length asked.now }
    ensures { result.now ≡ drop (place + 1) asked.now }
{
    &asked[place + 1..]
}

/// Adds those that are written, by what the cells hold before the first of them.
pub(crate) fn keep_written(
    written: &mut Vec<Write>,
    basin: &Basin,
    series: &Series,
    asked: &[Write],
)
    requires can { AreWrites basin.now asked.now }
    requires room { length asked.now ≤ written.old.cap }
    ensures room { written.new.cap ≡ written.old.cap }
    ensures few { length written.new.items ≤ length asked.now }
    ensures kept { written.new.items
        ≡ written_puts basin.now (held series.now) asked.now }
{
    written.clear();
    for place in 0..asked.len() {
        keep_one(written, basin, series, &asked[place], behind(asked, place));
    }
}
