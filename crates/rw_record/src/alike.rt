//! Decides whether cells hold again what they held when they were noted.
ghost use Rattle.std.specs.Prelude.{◌≡◌, ◌↔◌, true};
ghost use Rattle.rw_series.specs.Series.{held};
ghost use Rattle.rw_record.specs.Noted.{AreHeld};

use crate::HeldList;
use rw_run::Held;
use rw_series::Series;

/// Returns whether each of the cells holds what it held then.
pub fn is_alike(series: &Series, looked: &[Held]) -> bool
    ensures { (result ≡ true) ↔ AreHeld (held series.now) looked.now }
{
    for one in looked {
        if !is_one_alike(series, one) {
            return false;
        }
    }
    true
}

/// Returns whether each of the cells of a kept list holds what it held then.
pub fn is_kept_alike(series: &Series, looked: &HeldList) -> bool
    ensures { (result ≡ true) ↔ AreHeld (held series.now) looked.now }
{
    for place in 0..looked.len() {
        if !is_one_alike(series, &looked.get(place)) {
            return false;
        }
    }
    true
}

// Whether a cell holds what it held then.
#[inline(always)]
fn is_one_alike(series: &Series, one: &Held) -> bool
    ensures { (result ≡ true) ↔ (held series.now one.now.cell ≡ one.now.content) }
{
    series.get(one.cell) == one.content
}
