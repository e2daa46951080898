//! Lists the kinds of objects with their parameters, and decides whether these are in range.
ghost use Rattle.std.specs.Prelude.{◌≡◌, ◌↔◌, ◌≤◌, IsTrue, All, IsSome};
ghost use Rattle.rw_model.specs.Code.{code_of};
ghost use Rattle.std.specs.Option.{ForSome};
ghost use Rattle.rw_base.specs.Quantity.{IsQuantity};
ghost use Rattle.rw_table.specs.Curve.{IsVolumeInside};
ghost use Rattle.rw_model.specs.declared.data_slots.DataSlot.{DataSlot as Slot};
ghost use Rattle.rw_model.specs.Name.{IsName};
ghost use Rattle.rw_model.specs.Kind.{IsAmount, IsDataSlots, IsLagged, IsPlant, IsPowered, IsRouted, IsStored, IsKind, is_kind};

use crate::limits::{DATA_SLOTS_MAX, LAG_MAX, PARTS, POWER_MAX, SEEPAGE_MAX};
use crate::{DataSlot, DataSlots, History, is_name};
use rw_base::QUANTITY_MAX;
use rw_table::law::elevation_is_greatest;
use rw_table::{ELEVATION_MAX, Rating};

/// The ways in which a water user's diversion is set.
#[derive(Clone, Copy, Debug, PartialEq, Eq)]
pub enum Supply {
    /// The user asks for its request, which is an input, and diverts what it gets.
    Request,
    /// A rule sets what the user diverts.
    Rule,
}

/// A kind of object, with its parameters.
#[derive(Debug, Drop)]
pub enum Kind {
    /// A data object: slots that no equation ties together.
    DataObject {
        /// Its 1 to 8 slots.
        slots: DataSlots,
    },
    /// A gage: what flows in flows out, and is measured.
    Gage,
    /// A confluence: two flows become one.
    Confluence,
    /// A bifurcation: one flow becomes two.
    Bifurcation,
    /// A reach: water that flows in flows out a number of timesteps later.
    Reach {
        /// The lag: after how many timesteps, 0 to 30.
        lag: u8,
        /// The inflows of the steps 1 - lag to 0, in m3/step.
        history: History,
        /// Whether it has a slot for a local inflow.
        local_inflow: bool,
        /// Whether it has a slot for a diversion.
        diversion: bool,
        /// Whether it has a slot for a return flow.
        return_flow: bool,
    },
    /// A reservoir: water is stored.
    Reservoir {
        /// The storage at the start of the run, in m3.
        initial_storage: i64,
        /// The elevation-volume table, if there is one.
        table: Option<Rating>,
        /// Whether it has a slot for a local inflow.
        local_inflow: bool,
        /// Whether it has a slot for a diversion.
        diversion: bool,
        /// Whether it has a slot for a return flow.
        return_flow: bool,
        /// Whether water evaporates from the reservoir, which needs a table.
        evaporation: bool,
        /// The maximum release in m3/step, above which water spills.
        max_release: Option<i64>,
    },
    /// A water user: water is diverted, and part of it consumed.
    WaterUser {
        /// The depletion: how many of a thousand parts diverted are consumed, 0 to 1000.
        depletion: u16,
        /// Who sets the diversion.
        supply: Supply,
    },
    /// A canal: water is conveyed, and part of it seeps away.
    Canal {
        /// How many of a thousand parts seep away, 0 to 999.
        seepage: u16,
    },
    /// A power reservoir: water is stored, and what is released drives turbines.
    PowerReservoir {
        /// The storage at the start of the run, in m3.
        initial_storage: i64,
        /// The elevation-volume table.
        table: Rating,
        /// The maximum release in m3/step, above which water spills past the turbines.
        max_release: i64,
        /// The tailwater: the elevation of the water below the plant, in mm.
        tailwater: i64,
        /// The power: how many kWh 10^9 m3 give that fall by 1 mm, 1 to 10,000.
        power: u16,
    },
    /// A routed reach: water is held back, and a share of it flows out in each timestep.
    RoutedReach {
        /// The content at the start of the run, in m3.
        initial_content: i64,
        /// How many of a thousand parts flow out in a timestep, 1 to 1000.
        release: u16,
    },
}

impl Kind {
    /// Returns the number of the kind: data object 0, gage 1, confluence 2, bifurcation 3, reach 4, reservoir 5, water user 6,
    /// canal 7, power reservoir 8, routed reach 9.
    pub fn code(&self) -> u8
        ensures { result ≡ code_of self.now }
    {
        match self {
            Kind::DataObject { .. } => 0,
            Kind::Gage => 1,
            Kind::Confluence => 2,
            Kind::Bifurcation => 3,
            Kind::Reach { .. } => 4,
            Kind::Reservoir { .. } => 5,
            Kind::WaterUser { .. } => 6,
            Kind::Canal { .. } => 7,
            Kind::PowerReservoir { .. } => 8,
            Kind::RoutedReach { .. } => 9,
        }
    }
}

fn is_quantity(z: i64) -> bool
    ensures { IsTrue result ↔ IsQuantity z }
{
    -QUANTITY_MAX <= z && z <= QUANTITY_MAX
}

fn is_amount(z: i64) -> bool
    ensures { IsTrue result ↔ IsAmount z }
{
    0 <= z && z <= QUANTITY_MAX
}

fn are_data_slots(slots: &[DataSlot]) -> bool
    ensures { IsTrue result ↔ IsDataSlots slots.now }
{
    !slots.is_empty()
        && slots.len() <= DATA_SLOTS_MAX
        && slots.iter().all(|slot| is_name(slot.name.as_str()))
}

fn is_lagged(lag: u8, history: &[i64]) -> bool
    ensures { IsTrue result ↔ IsLagged lag history.now }
{
    lag <= LAG_MAX && history.len() == usize::from(lag) && history.iter().all(|z| is_quantity(*z))
}

fn is_in_table(rating: &Rating, volume: i64) -> bool
    ensures { IsTrue result ↔ IsVolumeInside rating.now volume }
{
    elevation_is_greatest();
    rating.elev(volume).is_some()
}

// Whether the table, if there is one, has the volume.
fn is_inside(table: &Option<Rating>, volume: i64) -> bool
    ensures { IsTrue result ↔ ForSome table.now (λ rows. IsVolumeInside rows volume) }
{
    match table {
        Some(rating) => is_in_table(rating, volume),
        None => true,
    }
}

fn is_release(max_release: Option<i64>) -> bool
    ensures { IsTrue result ↔ ForSome max_release IsAmount }
{
    match max_release {
        Some(most) => is_amount(most),
        None => true,
    }
}

fn is_stored(
    initial_storage: i64,
    table: &Option<Rating>,
    evaporation: bool,
    max_release: Option<i64>,
) -> bool
    ensures { IsTrue result ↔ IsStored initial_storage table.now evaporation max_release }
{
    is_amount(initial_storage)
        && is_inside(table, initial_storage)
        && (!evaporation || table.is_some())
        && is_release(max_release)
}

// Whether it is an amount that the table has.
fn is_volume(rating: &Rating, volume: i64) -> bool
    ensures { IsTrue result ↔ (IsAmount volume × IsVolumeInside rating.now volume) }
{
    is_amount(volume) && is_in_table(rating, volume)
}

fn is_plant(tailwater: i64, power: u16) -> bool
    ensures { IsTrue result ↔ IsPlant tailwater power }
{
    0 <= tailwater && tailwater <= ELEVATION_MAX && 1 <= power && power <= POWER_MAX
}

fn is_powered(
    initial_storage: i64,
    rating: &Rating,
    max_release: i64,
    tailwater: i64,
    power: u16,
) -> bool
    ensures { IsTrue result ↔ IsPowered initial_storage rating.now max_release tailwater power }
{
    is_volume(rating, initial_storage) && is_amount(max_release) && is_plant(tailwater, power)
}

fn is_routed(initial_content: i64, release: u16) -> bool
    ensures { IsTrue result ↔ IsRouted initial_content release }
{
    is_amount(initial_content) && 1 <= release && release <= PARTS
}

/// Returns whether the parameters of the kind are in range, in their base units. Evaporation needs a table, and an initial
/// storage has to be one that the table has. `docs/FORMATS.md` has the ranges under "`object`".
pub fn is_kind(kind: &Kind) -> bool
    ensures kind { IsTrue result ↔ IsKind kind.now }
    ensures test { result ≡ is_kind kind.now }
{
    match kind {
        Kind::DataObject { slots } => are_data_slots(slots.as_slice()),
        Kind::Gage | Kind::Confluence | Kind::Bifurcation => true,
        Kind::Reach { lag, history, .. } => is_lagged(*lag, history.as_slice()),
        Kind::Reservoir {
            initial_storage,
            table,
            evaporation,
            max_release,
            ..
        } => is_stored(*initial_storage, table, *evaporation, *max_release),
        Kind::WaterUser { depletion, .. } => *depletion <= PARTS,
        Kind::Canal { seepage } => *seepage <= SEEPAGE_MAX,
        Kind::PowerReservoir {
            initial_storage,
            table,
            max_release,
            tailwater,
            power,
        } => is_powered(*initial_storage, table, *max_release, *tailwater, *power),
        Kind::RoutedReach {
            initial_content,
            release,
        } => is_routed(*initial_content, *release),
    }
}
