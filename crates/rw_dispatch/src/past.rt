//! Finds the earlier value at which a dispatch looks, in the run or before it.
ghost use Rattle.std.specs.Prelude.{◌≡◌, ◌≤◌, ℕ, length, option_map, IfSome};
ghost use Rattle.rw_base.specs.declared.number.SlotNo.{SlotNo};
ghost use Rattle.rw_model.specs.Draft.{IsObject, IsSlot};
ghost use Rattle.rw_model.specs.Turn.{IsTurn};
ghost use Rattle.rw_series.specs.Series.{held, IsCell, IsSeriesOf};
ghost use Rattle.rw_run.specs.Dispatch.{past_of, past_cell_of, cell_of_past, value_of_past, past_value};
ghost use Rattle.rw_run.specs.Log.{value_in};
ghost use Rattle.rw_dispatch.specs.Past.{past_seen};

use rw_base::{Cell, ObjectNo, Qty, SlotNo, StepNo};
use rw_method::past_in;
use rw_model::Basin;
use rw_series::Series;

// The slot whose earlier value an object looks at, and how many timesteps ago.
fn past_of(basin: &Basin, object: ObjectNo) -> Option<(SlotNo, u16)>
    requires { IsObject basin.now.objects object.0 }
    ensures past { option_map (λ (past : SlotNo × ℕ). past_seen past) result
        ≡ past_of basin.now object.0 }
    ensures known { IfSome result (λ past. IsSlot basin.now.objects past.0.0) }
{
    let Some((place, ago)) = past_in(basin.kind(object)) else {
        return None;
    };
    let Some(slot) = basin.slot_at(object, place) else {
        return None;
    };
    Some((slot, ago))
}

/// Returns the cell of the earlier timestep at which a dispatch of an object looks: the storage of a reservoir or the content of
/// a routed reach at the timestep before, or the inflow of a reach as many timesteps ago as its lag. Timesteps count from 1.
/// `None` exactly where it looks at none, or at one that is before the run.
pub fn past_cell(basin: &Basin, object: ObjectNo, step: StepNo) -> Option<Cell>
    requires object { IsObject basin.now.objects object.0 }
    requires first { 1 ≤ step.0 }
    requires last { step.0 ≤ basin.now.control.stamps.count }
    ensures cell { result ≡ past_cell_of basin.now object.0 step.0 }
    ensures known { IfSome result (IsCell basin.now) }
{
    let Some((slot, ago)) = past_of(basin, object) else {
        return None;
    };
    cell_of_past(step, slot, ago)
}

// The cell of a slot so many timesteps ago, where that isn't before the run.
fn cell_of_past(step: StepNo, slot: SlotNo, ago: u16) -> Option<Cell>
    ensures cell { result ≡ cell_of_past step.0 (past_seen (slot, ago)) }
    ensures slot { IfSome result (λ cell. cell.slot.0 ≡ slot.0) }
    ensures within { IfSome result (λ cell. (1 ≤ cell.step.0) × (cell.step.0 ≤ step.0)) }
{
    if ago < step.0 {
        Some(Cell {
            slot,
            step: StepNo(step.0 - ago),
        })
    } else {
        None
    }
}

// The value of a cell that is known to be there.
fn value_in(series: &Series, cell: Cell) -> Option<Qty>
    requires slot { (1 ≤ cell.slot.0) × (cell.slot.0 ≤ length series.now.columns) }
    requires step { (1 ≤ cell.step.0) × (cell.step.0 ≤ series.now.steps) }
    ensures { result ≡ value_in (held series.now) cell }
{
    let cells = series.at_step(cell.step);
    match cells.content(cell.slot) {
        Some(content) => Some(content.value),
        None => None,
    }
}

// The value of a slot so many timesteps ago, which may be before the run.
fn value_of_past(
    basin: &Basin,
    series: &Series,
    step: StepNo,
    slot: SlotNo,
    ago: u16,
) -> Option<Qty>
    requires slot { IsSlot basin.now.objects slot.0 }
    requires column { slot.0 ≤ length series.now.columns }
    requires last { step.0 ≤ series.now.steps }
    ensures { result ≡ value_of_past basin.now (held series.now) step.0 (past_seen (slot, ago)) }
{
    match cell_of_past(step, slot, ago) {
        Some(cell) => value_in(series, cell),
        None => basin.before(slot, i64::from(step.0) - i64::from(ago)),
    }
}

/// Returns the earlier value at which a dispatch of an object looks. `None` where it looks at none, or where it is unknown.
#[inline(always)]
#[tactic(auto, using(crate::proofs::Filling::column_there, crate::proofs::Filling::step_there))]
pub(crate) fn past_value(
    basin: &Basin,
    series: &Series,
    object: ObjectNo,
    step: StepNo,
) -> Option<Qty>
    requires turn { IsTurn basin.now object.0 step.0 }
    requires made { IsSeriesOf basin.now series.now }
    ensures { result ≡ past_value basin.now (held series.now) object.0 step.0 }
{
    let Some((slot, ago)) = past_of(basin, object) else {
        return None;
    };
    value_of_past(basin, series, step, slot, ago)
}
