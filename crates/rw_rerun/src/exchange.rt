//! Exchanges what is kept of timesteps before a run for what is kept after it.
ghost use Rattle.std.specs.Prelude.{◌≡◌, ℕ, IfOk, None, length, replicate};
ghost use Rattle.rw_rerun.specs.Kept.{changed};
ghost use Rattle.rw_rerun.specs.Touched.{ReachFrom};

use crate::reach::{least_reached, lesser};
use rw_base::{Cell, NoMemory};
use rw_engine::KeptStep;
use std::alloc::Global;

/// Nothing is kept of so many timesteps.
pub(crate) fn nothing_kept(alloc: Global, count: u16) -> Result<Vec<Option<KeptStep>>, NoMemory>
    ensures { IfOk result (λ kept. kept.items ≡ replicate count None) }
{
    let mut kept = Vec::new(alloc);
    for _step in 0..count {
        kept.push(None)?;
    }
    Ok(kept)
}

/// Each change takes the place of what was kept. It takes no memory.
pub(crate) fn exchange(kept: &mut Vec<Option<KeptStep>>, mut changes: Vec<Option<Option<KeptStep>>>)
    requires { length changes.items ≡ length kept.old.items }
    ensures { kept.new.items ≡ changed kept.old.items changes.items }
{
    while let Some(change) = changes.pop() {
        let place = changes.len();
        if let Some(record) = change {
            kept[place] = record;
        }
    }
}

/// Each change takes its place, and the answer is a timestep before which none of these cells is, nor one that is held by what is
/// kept from this place on, before the changes or after them.
pub(crate) fn exchange_for(
    kept: &mut Vec<Option<KeptStep>>,
    changes: Vec<Option<Option<KeptStep>>>,
    cells: &[Cell],
    behind: u16,
) -> u16
    requires { length changes.items ≡ length kept.old.items }
    ensures kept { kept.new.items ≡ changed kept.old.items changes.items }
    ensures before { ReachFrom cells.now kept.old.items behind result }
    ensures after { ReachFrom cells.now kept.new.items behind result }
{
    let before = least_reached(cells, kept.as_slice(), behind);
    exchange(kept, changes);
    lesser(before, least_reached(cells, kept.as_slice(), behind))
}
