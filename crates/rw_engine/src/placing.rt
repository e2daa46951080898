//! Places the inputs of a run.
ghost use Rattle.std.specs.Prelude.{◌≡◌, ◌≤◌, ◌<◌, IfSome, length, option_map};
ghost use Rattle.rw_model.specs.Draft.{IsSlot};
ghost use Rattle.rw_model.specs.Objects.{all_slots};
ghost use Rattle.rw_series.specs.Series.{IsCell, held};
ghost use Rattle.rw_inputs.specs.Inputs.{IsInputsOf, IsKeptValue};
ghost use Rattle.rw_run.specs.Log.{Log, input_content};
ghost use Rattle.rw_run.specs.Runs.{with_inputs};
ghost use Rattle.rw_dispatch.specs.Stage.{IsHeldIn};
ghost use Rattle.rw_inputs.specs.Placings.{if_placed, placings};
ghost use Rattle.rw_engine.specs.Held.{HoldsAll};
ghost use Rattle.rw_engine.specs.Placed.{PlacesAtSteps, if_in_block, placing_at, row_placings};

use rw_base::{Cell, Qty, SlotNo, StepNo};
use rw_inputs::{Inputs, value_in};
use rw_model::{Basin, Content, Writer};
use rw_series::Series;

/// What a cell holds of which this is given, if anything is.
pub(crate) fn input(value: Option<Qty>) -> Option<Content>
    ensures { result ≡ option_map input_content value }
{
    match value {
        Some(value) => Some(Content {
            value,
            number: 0,
            writer: Writer::Input,
        }),
        None => None,
    }
}

// Places what is given to a cell, if something is.
fn place_cell(basin: &Basin, series: &mut Series, cell: Cell, value: Option<Qty>)
    requires value { IfSome value (IsKeptValue basin.now cell.slot.0) }
    requires cell { IsCell basin.now cell }
    requires made { IsHeldIn basin.now series.old }
    ensures made { IsHeldIn basin.now series.new }
    ensures placed { PlacesAtSteps basin.now (λ step. if_placed cell.slot.0 cell.step.0 value)
        (held series.old) (held series.new) }
{
    if let Some(value) = value {
        let content = Content {
            value,
            number: 0,
            writer: Writer::Input,
        };
        series.restore(basin, cell, Some(content));
    }
}

// Places what is given to a slot, timestep by timestep, behind the first ones of these.
fn place_slot(
    basin: &Basin,
    inputs: &Inputs,
    series: &mut Series,
    slot: SlotNo,
    first: u16,
    last: u16,
)
    requires inputs { IsInputsOf basin.now inputs.now }
    requires slot { IsSlot basin.now.objects slot.0 }
    requires order { first ≤ last }
    requires steps { last ≤ basin.now.control.stamps.count }
    requires made { IsHeldIn basin.now series.old }
    ensures made { IsHeldIn basin.now series.new }
    ensures placed { PlacesAtSteps basin.now
        (λ step. if_in_block first last step (placing_at inputs.now slot.0 step))
        (held series.old) (held series.new) }
{
    let column = inputs.column(slot);
    if column.len() <= usize::from(last) {
        return;
    }
    for before in first..last {
        let cell = Cell {
            slot,
            step: StepNo(before + 1),
        };
        place_cell(basin, series, cell, value_in(column, before + 1));
    }
}

// Places what is given at the timesteps of a block, slot by slot.
fn place_block(basin: &Basin, inputs: &Inputs, series: &mut Series, first: u16, last: u16)
    requires inputs { IsInputsOf basin.now inputs.now }
    requires order { first ≤ last }
    requires steps { last ≤ basin.now.control.stamps.count }
    requires made { IsHeldIn basin.now series.old }
    ensures made { IsHeldIn basin.now series.new }
    ensures placed { PlacesAtSteps basin.now
        (λ step. if_in_block first last step
        (row_placings inputs.now (length (all_slots basin.now.objects)) step))
        (held series.old) (held series.new) }
{
    for before in 0..basin.slot_count() {
        place_slot(basin, inputs, series, SlotNo(before + 1), first, last);
    }
}

// How many timesteps are placed together: few, so that their cells stay near, but the more, the more slots each block goes over.
fn block_for(slots: u16) -> u16
    ensures { 1 ≤ result }
{
    8 + slots / 16
}

// The last timestep of the block that comes behind the first ones.
fn last_of_steps(first: u16, steps: u16, block: u16) -> u16
    requires order { first < steps }
    requires some { 1 ≤ block }
    ensures more { first < result }
    ensures within { result ≤ steps }
{
    if steps - first < block {
        steps
    } else {
        first + block
    }
}

/// Places all inputs: block by block of timesteps, for each block slot by slot, and for each slot timestep by timestep.
pub(crate) fn place(basin: &Basin, inputs: &Inputs, series: &mut Series)
    requires inputs { IsInputsOf basin.now inputs.now }
    requires made { IsHeldIn basin.now series.old }
    ensures made { IsHeldIn basin.now series.new }
    ensures placed { (log : Log) → HoldsAll basin.now series.old log
        → HoldsAll basin.now series.new (with_inputs log (placings basin.now inputs.now)) }
{
    let steps = basin.control().stamps.count();
    let block = block_for(basin.slot_count());
    let mut first = 0;
    while first < steps {
        let last = last_of_steps(first, steps, block);
        place_block(basin, inputs, series, first, last);
        first = last;
    }
}
