//! Decides what became of a put that was asked for.
ghost use Rattle.std.specs.Prelude.{◌≡◌, Some};
ghost use Rattle.rw_model.specs.declared.put.PutEnd.TheVariants as End;
ghost use Rattle.rw_model.specs.Draft.{IsSlot};
ghost use Rattle.rw_model.specs.Put.{end_of_put};
ghost use Rattle.rw_series.specs.Series.{held};
ghost use Rattle.rw_run.specs.Next.{is_put_again};
ghost use Rattle.rw_asked.specs.Asked.{by_end, fate_of, fate_over};

use rw_model::{Basin, Content, PutEnd, put_end};
use rw_run::Write;
use rw_series::{Series, is_shared};

/// The outcomes of a put that was asked for.
#[derive(Clone, Copy, Debug, PartialEq, Eq)]
pub enum Fate {
    /// The cell holds the new content. It was unknown, or held the same value.
    Written,
    /// The cell holds the new content in the place of this one, of another value.
    Over(Content),
    /// The cell holds the value already, in this content.
    Kept(Content),
    /// The held content, which is this one, remains.
    Denied(Content),
    /// A later put of the same firing is to the same cell, or to one that shares its value with it.
    Again,
    /// Its cell is after the last timestep.
    Late,
}

// What became of a put that is written to a cell that holds this.
fn written_over(held: &Content, put: &Write) -> Fate
    ensures { result ≡ by_end held.now put.now.content End.Written }
{
    if held.value == put.content.value {
        Fate::Written
    } else {
        Fate::Over(*held)
    }
}

// How a put to a cell that holds this ends.
#[inline(always)]
fn end_over(held: &Content, put: &Write) -> PutEnd
    ensures { result ≡ end_of_put (Some held.now) put.now.content }
{
    put_end(Some(*held), put.content)
}

// What became of a put to a cell that holds this.
#[inline(always)]
fn fate_by(held: &Content, put: &Write) -> Fate
    ensures { result ≡ by_end held.now put.now.content
        (end_of_put (Some held.now) put.now.content) }
{
    match end_over(held, put) {
        PutEnd::Written => written_over(held, put),
        PutEnd::Kept => Fate::Kept(*held),
        PutEnd::Denied(shown) => Fate::Denied(shown),
    }
}

/// Returns what becomes of a put of a dispatch by what its cell holds. It takes no memory.
#[inline(always)]
pub fn fate_alone(series: &Series, put: &Write) -> Fate
    ensures { result ≡ fate_over (held series.now put.now.cell) put.now.content }
{
    match series.get(put.cell) {
        None => Fate::Written,
        Some(held) => fate_by(&held, put),
    }
}

// Whether a later one is to a cell that shares its value with that of this one.
fn is_put_again(basin: &Basin, put: &Write, later: &[Write]) -> bool
    requires { IsSlot basin.now.objects put.now.cell.slot.0 }
    ensures { result ≡ is_put_again basin.now put.now later.now }
{
    for other in later {
        if is_shared(basin, put.cell, other.cell) {
            return true;
        }
    }
    false
}

/// Returns what becomes of a put of a firing, by what the cells hold before the firing and the puts that follow it there. It
/// takes no memory.
pub fn fate_of(basin: &Basin, series: &Series, put: &Write, later: &[Write]) -> Fate
    requires { IsSlot basin.now.objects put.now.cell.slot.0 }
    ensures { result ≡ fate_of basin.now (held series.now) put.now later.now }
{
    if put.cell.step.0 > basin.control().stamps.count() {
        return Fate::Late;
    }
    if is_put_again(basin, put, later) {
        Fate::Again
    } else {
        fate_alone(series, put)
    }
}
