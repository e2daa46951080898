//! Adds up what all reservoirs store at a timestep.
ghost use Rattle.std.specs.Prelude.{◌≡◌, ◌+ℤ◌, option_map};
ghost use Rattle.rw_model.specs.Draft.{IsSlot};
ghost use Rattle.rw_model.specs.declared.content.Content.{Content};
ghost use Rattle.rw_series.specs.Series.{held};
ghost use Rattle.rw_sample.specs.Line.{IsSumOf, is_storage, known_or_0, storage_in, stored_in};

use rw_base::{Cell, SlotNo, StepNo};
use rw_model::{Basin, Content};
use rw_series::Series;

fn is_storage(basin: &Basin, slot: SlotNo) -> bool
    requires { IsSlot basin.now.objects slot.0 }
    ensures { result ≡ is_storage basin.now slot.0 }
{
    basin.slot_name(slot) == "Storage"
}

// A value, and 0 where it is unknown.
fn known_or_0(content: Option<Content>) -> i128
    ensures value { result ≡ known_or_0 (option_map (λ (held : Content). held.value) content) }
    ensures bound { IsSumOf 1 result }
{
    match content {
        Some(content) => i128::from(content.value.get()),
        None => 0,
    }
}

// What a slot adds to the sum.
fn stored(basin: &Basin, series: &Series, step: StepNo, slot: SlotNo) -> i128
    requires { IsSlot basin.now.objects slot.0 }
    ensures amount { result ≡ stored_in basin.now (held series.now) step.0 slot.0 }
    ensures bound { IsSumOf 1 result }
{
    if is_storage(basin, slot) {
        known_or_0(series.get(Cell { slot, step }))
    } else {
        0
    }
}

fn plus(sum: i128, more: i128) -> i128
    requires sum { IsSumOf 65536 sum }
    requires more { IsSumOf 1 more }
    ensures { result ≡ sum +ℤ more }
{
    sum + more
}

/// Returns the sum of what reservoirs store at a timestep, where it is known, in m3.
pub(crate) fn storage_in(basin: &Basin, series: &Series, step: StepNo) -> i128
    ensures { result ≡ storage_in basin.now (held series.now) step.0 }
{
    let mut sum = 0i128;
    for before in 0..basin.slot_count() {
        sum = plus(sum, stored(basin, series, step, SlotNo(before + 1)));
    }
    sum
}
