//! Finds what flowed in and out of an object in a timestep, and what it held at the end of it.
ghost use Rattle.std.specs.Prelude.{◌≡◌, ◌+ℤ◌, pos, IfSome, Some};
ghost use Rattle.rw_base.specs.Quantity.{IsQuantity};
ghost use Rattle.rw_model.specs.Draft.{IsObject};
ghost use Rattle.rw_method.specs.Balance.{known_sum};
ghost use Rattle.rw_series.specs.Series.{held};
ghost use Rattle.rw_books.specs.Turnover as specs;
ghost use Rattle.rw_books.specs.Turnover.{IsOfThreeFlows, IsNoLarger, values_at};

use rw_base::{Cell, ObjectNo, Qty, StepNo};
use rw_method::places::{
    CONTENT, EVAPORATION, EVAPORATION_RATE, INFLOW, OUTFLOW, RESERVOIR_SIDE, STORAGE,
};
use rw_model::{Basin, Kind};
use rw_series::Series;

/// What flowed in and out of an object in a timestep, and what it held at the end of it.
#[derive(Clone, Copy, Drop)]
pub struct Turnover {
    /// What flowed in, in m3.
    pub inflow: i128,
    /// What flowed out, in m3.
    pub outflow: i128,
    /// What it held, in m3.
    pub held: i128,
}

// The slots of an object at a timestep.
#[derive(Clone, Copy, Drop)]
pub(crate) struct Slots<'a> {
    pub(crate) basin: &'a Basin,
    pub(crate) series: &'a Series,
    pub(crate) object: ObjectNo,
    pub(crate) step: StepNo,
}

// The value of the slot in a place.
fn value_at(slots: &Slots<'_>, place: u8) -> Option<Qty>
    requires { IsObject slots.now.basin.now.objects slots.now.object.0 }
    ensures { result ≡ values_at slots.now.basin.now (held slots.now.series.now)
        slots.now.object.0 slots.now.step.0 place }
{
    match slots.basin.slot_at(slots.object, place) {
        Some(slot) => match slots.series.get(Cell {
            slot,
            step: slots.step,
        }) {
            Some(content) => Some(content.value),
            None => None,
        },
        None => None,
    }
}

fn no_flow() -> Qty
    ensures { result ≡ pos 0 }
{
    Qty::of(0).unwrap()
}

// What flows by a slot, and 0 where that isn't chosen.
fn if_chosen(choice: bool, value: Option<Qty>) -> Option<Qty>
    ensures { result ≡ specs.if_chosen choice value }
{
    if choice { value } else { Some(no_flow()) }
}

fn wide(value: Qty) -> i128
    ensures is { result ≡ value }
    ensures small { IsQuantity result }
{
    i128::from(value.get())
}

fn sum(one: i128, other: i128, third: i128) -> i128
    requires one { IsQuantity one }
    requires other { IsQuantity other }
    requires third { IsQuantity third }
    ensures is { result ≡ one +ℤ other +ℤ third }
    ensures small { IsNoLarger 300000000000000000 result }
{
    one + other + third
}

// The sum of three flows, where all are known.
fn known_flows(one: Option<Qty>, other: Option<Qty>, third: Option<Qty>) -> Option<i128>
    ensures is { result ≡ known_sum (known_sum one other) third }
    ensures small { IfSome result (IsNoLarger 300000000000000000) }
{
    let Some(one) = one else { return None };
    let Some(other) = other else { return None };
    let Some(third) = third else { return None };
    Some(sum(wide(one), wide(other), wide(third)))
}

// A flow as it is.
fn known_flow(flow: Option<Qty>) -> Option<i128>
    ensures is { result ≡ flow }
    ensures small { IfSome result (IsNoLarger 300000000000000000) }
{
    match flow {
        Some(flow) => Some(wide(flow)),
        None => None,
    }
}

// Where all is known.
fn made_of(inflow: Option<i128>, outflow: Option<i128>, held: Option<Qty>) -> Option<Turnover>
    requires inflow { IfSome inflow (IsNoLarger 300000000000000000) }
    requires outflow { IfSome outflow (IsNoLarger 300000000000000000) }
    ensures is { result ≡ specs.turnover inflow outflow held }
    ensures small { IfSome result IsOfThreeFlows }
{
    let Some(inflow) = inflow else { return None };
    let Some(outflow) = outflow else { return None };
    let Some(held) = held else { return None };
    Some(Turnover {
        inflow,
        outflow,
        held: wide(held),
    })
}

// Of a reservoir with these options.
fn reservoir_turnover(
    slots: &Slots<'_>,
    local_inflow: bool,
    diversion: bool,
    return_flow: bool,
    evaporation: bool,
) -> Option<Turnover>
    requires { IsObject slots.now.basin.now.objects slots.now.object.0 }
    ensures is { result ≡ specs.reservoir_turnover local_inflow diversion return_flow evaporation
        (values_at slots.now.basin.now (held slots.now.series.now)
        slots.now.object.0 slots.now.step.0) }
    ensures small { IfSome result IsOfThreeFlows }
{
    let Some(_) = if_chosen(evaporation, value_at(slots, EVAPORATION_RATE)) else {
        return None;
    };
    let inflow = known_flows(
        value_at(slots, INFLOW),
        if_chosen(local_inflow, value_at(slots, RESERVOIR_SIDE)),
        if_chosen(return_flow, value_at(slots, RESERVOIR_SIDE + 2)),
    );
    let outflow = known_flows(
        value_at(slots, OUTFLOW),
        if_chosen(diversion, value_at(slots, RESERVOIR_SIDE + 1)),
        if_chosen(evaporation, value_at(slots, EVAPORATION)),
    );
    made_of(inflow, outflow, value_at(slots, STORAGE))
}

// Of an object with no other flows, which holds water in this place.
fn plain_turnover(slots: &Slots<'_>, place: u8) -> Option<Turnover>
    requires { IsObject slots.now.basin.now.objects slots.now.object.0 }
    ensures is { result ≡ specs.turnover
        (values_at slots.now.basin.now (held slots.now.series.now) slots.now.object.0
        slots.now.step.0 INFLOW)
        (values_at slots.now.basin.now (held slots.now.series.now) slots.now.object.0
        slots.now.step.0 OUTFLOW)
        (values_at slots.now.basin.now (held slots.now.series.now) slots.now.object.0
        slots.now.step.0 place) }
    ensures small { IfSome result IsOfThreeFlows }
{
    let inflow = known_flow(value_at(slots, INFLOW));
    let outflow = known_flow(value_at(slots, OUTFLOW));
    made_of(inflow, outflow, value_at(slots, place))
}

/// Returns what the timestep adds to the water balance of an object of this kind, if all of it is known.
pub(crate) fn turnover_of(slots: &Slots<'_>, kind: &Kind) -> Option<Turnover>
    requires { IsObject slots.now.basin.now.objects slots.now.object.0 }
    ensures is { result ≡ specs.turnover_of kind.now
        (values_at slots.now.basin.now (held slots.now.series.now)
        slots.now.object.0 slots.now.step.0) }
    ensures small { IfSome result IsOfThreeFlows }
{
    match kind {
        Kind::Reservoir {
            local_inflow,
            diversion,
            return_flow,
            evaporation,
            ..
        } => reservoir_turnover(slots, *local_inflow, *diversion, *return_flow, *evaporation),
        Kind::PowerReservoir { .. } => plain_turnover(slots, STORAGE),
        Kind::RoutedReach { .. } => plain_turnover(slots, CONTENT),
        _ => None,
    }
}

/// Returns what an object of the kind held before the run, if it is one that holds water.
pub(crate) fn initial_of(kind: &Kind) -> Option<i64>
    ensures { result ≡ specs.initial_of kind.now }
{
    match kind {
        Kind::Reservoir {
            initial_storage,
            ..
        } => Some(*initial_storage),
        Kind::PowerReservoir {
            initial_storage,
            ..
        } => Some(*initial_storage),
        Kind::RoutedReach {
            initial_content,
            ..
        } => Some(*initial_content),
        _ => None,
    }
}
