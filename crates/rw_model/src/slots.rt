//! Lists the slots of each kind of object, place by place.
ghost use Rattle.std.specs.Prelude.{◌≡◌, pos, [], None};
ghost use Rattle.rw_model.specs.declared.kind.Kind.TheVariants as Kind;
ghost use Rattle.rw_model.specs.Slots.{slot_in, where_chosen};

use crate::slot::Slot;
use crate::{DataSlot, Kind, Role, Supply};
use rw_table::Rating;

// The slot, where it is chosen.
fn where_chosen<'a>(chosen: bool, slot: Slot<'a>) -> Option<Slot<'a>>
    ensures { result ≡ where_chosen chosen slot.entry }
{
    if chosen { Some(slot) } else { None }
}

// A data object's slot in a place.
fn of_data(slots: &[DataSlot], place: u8) -> Option<Slot<'_>>
    ensures { result ≡ slot_in (Kind.DataObject slots.now) place }
{
    match slots.get(usize::from(place)) {
        Some(slot) => Some(Slot::data(slot.name.as_str(), slot.dim)),
        None => None,
    }
}

fn of_gage<'a>(place: u8) -> Option<Slot<'a>>
    ensures { result ≡ slot_in Kind.Gage place }
{
    match place {
        0 => Some(Slot::flow("GageInflow", Role::Solvable)),
        1 => Some(Slot::flow("GageOutflow", Role::Solvable)),
        _ => None,
    }
}

fn of_confluence<'a>(place: u8) -> Option<Slot<'a>>
    ensures { result ≡ slot_in Kind.Confluence place }
{
    match place {
        0 => Some(Slot::flow("Inflow1", Role::Solvable)),
        1 => Some(Slot::flow("Inflow2", Role::Solvable)),
        2 => Some(Slot::flow("Outflow", Role::Solvable)),
        _ => None,
    }
}

fn of_bifurcation<'a>(place: u8) -> Option<Slot<'a>>
    ensures { result ≡ slot_in Kind.Bifurcation place }
{
    match place {
        0 => Some(Slot::flow("Inflow", Role::Solvable)),
        1 => Some(Slot::flow("Outflow1", Role::Solvable)),
        2 => Some(Slot::flow("Outflow2", Role::Solvable)),
        _ => None,
    }
}

fn of_reach<'a>(
    lag: u8,
    local_inflow: bool,
    diversion: bool,
    return_flow: bool,
    place: u8,
) -> Option<Slot<'a>>
    ensures { result ≡ slot_in (Kind.Reach lag [] local_inflow diversion return_flow) place }
{
    let inflow = if lag == 0 {
        Role::Solvable
    } else {
        Role::Neither
    };
    match place {
        0 => Some(Slot::flow("Inflow", inflow)),
        1 => Some(Slot::flow("Outflow", Role::Solvable)),
        2 => where_chosen(local_inflow, Slot::flow("LocalInflow", Role::Fixed)),
        3 => where_chosen(diversion, Slot::flow("Diversion", Role::Fixed)),
        4 => where_chosen(return_flow, Slot::flow("ReturnFlow", Role::Fixed)),
        _ => None,
    }
}

fn of_reservoir<'a>(
    table: &Option<Rating>,
    local_inflow: bool,
    diversion: bool,
    return_flow: bool,
    evaporation: bool,
    max_release: Option<i64>,
    place: u8,
) -> Option<Slot<'a>>
    ensures { result
        ≡ slot_in
        (Kind.Reservoir (pos 0) table.now local_inflow diversion return_flow evaporation
        max_release) place }
{
    let evaporates = evaporation && table.is_some();
    let spills = max_release.is_some();
    match place {
        0 => Some(Slot::flow("Inflow", Role::Solvable)),
        1 => Some(Slot::flow("Outflow", Role::Solvable)),
        2 => Some(Slot::volume("Storage", Role::Neither)),
        3 => where_chosen(table.is_some(), Slot::elevation("PoolElevation")),
        4 => where_chosen(local_inflow, Slot::flow("LocalInflow", Role::Fixed)),
        5 => where_chosen(diversion, Slot::flow("Diversion", Role::Fixed)),
        6 => where_chosen(return_flow, Slot::flow("ReturnFlow", Role::Fixed)),
        7 => where_chosen(evaporation, Slot::rate("EvaporationRate")),
        8 => where_chosen(evaporates, Slot::flow("Evaporation", Role::Derived)),
        9 => where_chosen(spills, Slot::flow("Release", Role::Derived)),
        10 => where_chosen(spills, Slot::flow("Spill", Role::Derived)),
        _ => None,
    }
}

fn of_user<'a>(supply: Supply, place: u8) -> Option<Slot<'a>>
    ensures { result ≡ slot_in (Kind.WaterUser 0 supply) place }
{
    let (request, diversion) = match supply {
        Supply::Request => (Role::Fixed, Role::Solvable),
        Supply::Rule => (Role::Neither, Role::Fixed),
    };
    match place {
        0 => Some(Slot::flow("DiversionRequest", request)),
        1 => Some(Slot::flow("Diversion", diversion)),
        2 => Some(Slot::flow("Depletion", Role::Derived)),
        3 => Some(Slot::flow("ReturnFlow", Role::Derived)),
        _ => None,
    }
}

fn of_canal<'a>(place: u8) -> Option<Slot<'a>>
    ensures { result ≡ slot_in (Kind.Canal 0) place }
{
    match place {
        0 => Some(Slot::flow("Inflow", Role::Solvable)),
        1 => Some(Slot::flow("Outflow", Role::Solvable)),
        2 => Some(Slot::flow("Seepage", Role::Derived)),
        _ => None,
    }
}

fn of_power_reservoir<'a>(place: u8) -> Option<Slot<'a>>
    ensures { result ≡ slot_in (Kind.PowerReservoir (pos 0) [] (pos 0) (pos 0) 0) place }
{
    match place {
        0 => Some(Slot::flow("Inflow", Role::Solvable)),
        1 => Some(Slot::flow("Outflow", Role::Solvable)),
        2 => Some(Slot::volume("Storage", Role::Neither)),
        3 => Some(Slot::elevation("PoolElevation")),
        4 => Some(Slot::energy("EnergyRequest", Role::Neither)),
        5 => Some(Slot::energy("Energy", Role::Derived)),
        6 => Some(Slot::flow("Release", Role::Derived)),
        7 => Some(Slot::flow("Spill", Role::Derived)),
        _ => None,
    }
}

fn of_routed_reach<'a>(place: u8) -> Option<Slot<'a>>
    ensures { result ≡ slot_in (Kind.RoutedReach (pos 0) 0) place }
{
    match place {
        0 => Some(Slot::flow("Inflow", Role::Solvable)),
        1 => Some(Slot::flow("Outflow", Role::Solvable)),
        2 => Some(Slot::volume("Content", Role::Derived)),
        _ => None,
    }
}

impl Kind {
    /// Returns the kind's slot in a place, counted from 0. `None` exactly where the kind has none there. `docs/DEFINITIONS.md`
    /// has the table of slots under "Slots".
    pub fn slot(&self, place: u8) -> Option<Slot<'_>>
        ensures { result ≡ slot_in self.now place }
    {
        match self {
            Kind::DataObject { slots } => of_data(slots.as_slice(), place),
            Kind::Gage => of_gage(place),
            Kind::Confluence => of_confluence(place),
            Kind::Bifurcation => of_bifurcation(place),
            Kind::Reach {
                lag,
                local_inflow,
                diversion,
                return_flow,
                ..
            } => of_reach(*lag, *local_inflow, *diversion, *return_flow, place),
            Kind::Reservoir {
                table,
                local_inflow,
                diversion,
                return_flow,
                evaporation,
                max_release,
                ..
            } => of_reservoir(
                table,
                *local_inflow,
                *diversion,
                *return_flow,
                *evaporation,
                *max_release,
                place,
            ),
            Kind::WaterUser { supply, .. } => of_user(*supply, place),
            Kind::Canal { .. } => of_canal(place),
            Kind::PowerReservoir { .. } => of_power_reservoir(place),
            Kind::RoutedReach { .. } => of_routed_reach(place),
        }
    }
}
