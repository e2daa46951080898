//! Finds the timestep from which on cells are reached.
ghost use Rattle.std.specs.Prelude.{◌≤◌};
ghost use Rattle.rw_rerun.specs.Touched.{AreFrom, AreKeptOf, IsFrom, ReachFrom};

use rw_base::Cell;
use rw_engine::KeptStep;

/// The lesser of two timesteps.
#[inline(always)]
pub(crate) fn lesser(one: u16, other: u16) -> u16
    ensures { (result ≤ one) × (result ≤ other) }
{
    if one < other { one } else { other }
}

// The least timestep at which one of these cells is.
fn least_named(cells: &[Cell]) -> u16
    ensures { AreFrom result cells.now }
{
    let mut least = u16::MAX;
    for cell in cells {
        least = lesser(least, cell.step.0);
    }
    least
}

// The least timestep at which a timestep holds a cell as it is kept, which is 0 where it isn't.
fn least_in(entry: &Option<KeptStep>) -> u16
    ensures { IsFrom result entry.now }
{
    match entry {
        None => 0,
        Some(kept) => kept.first().0,
    }
}

// So of all that is kept from this place on.
fn least_kept(kept: &[Option<KeptStep>], behind: u16) -> u16
    ensures { AreKeptOf result behind kept.now }
{
    let mut least = u16::MAX;
    for place in usize::from(behind)..kept.len() {
        least = lesser(least, least_in(&kept[place]));
    }
    least
}

/// A timestep before which none of these cells is, nor one that is held by what is kept from this place on.
pub(crate) fn least_reached(cells: &[Cell], kept: &[Option<KeptStep>], behind: u16) -> u16
    ensures { ReachFrom cells.now kept.now behind result }
{
    lesser(least_named(cells), least_kept(kept, behind))
}
