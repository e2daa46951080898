//! Reads the kind of an object with its parameters.
ghost use Rattle.std.specs.Prelude.{pos};
ghost use Rattle.toml.specs.View.{table_view};
ghost use Rattle.rw_model.specs.declared.kind.Kind.TheVariants as Kind;
ghost use Rattle.rw_model_toml.specs.Fault.{Gives};
ghost use Rattle.rw_model_toml.specs.Kinds.{bare_of, reach_of, reservoir_of, power_reservoir_of, routed_reach_of, supply_of, water_user_of, canal_of, kind_read};

use crate::ModelFault;
use crate::data::read_data;
use crate::history::read_history;
use crate::key::{
    choice, number_if_given, optional_count, optional_number, optional_text, required_count,
    required_number,
};
use crate::listed::only_listed;
use crate::options::read_options;
use crate::path::key_path;
use crate::rating::{rating_if_given, required_rating};
use crate::word::supply_in;
use rw_base::QUANTITY_MAX;
use rw_model::limits::{PARTS, POWER_MAX, SEEPAGE_MAX};
use rw_model::{BuildFault, History, Kind, Supply, limits};
use rw_table::ELEVATION_MAX;
use std::alloc::Global;
use toml::Table;

// The greatest lag of a reach, in timesteps.
const LAG_MAX: u16 = limits::LAG_MAX as u16;

// The keys of a reach.
const REACH_KEYS: [&str; 7] = [
    "name",
    "kind",
    "lag",
    "history",
    "local_inflow",
    "diversion",
    "return_flow",
];

// The keys of a reservoir.
const RESERVOIR_KEYS: [&str; 9] = [
    "name",
    "kind",
    "initial_storage",
    "table",
    "local_inflow",
    "diversion",
    "return_flow",
    "evaporation",
    "max_release",
];

// The keys of a power reservoir.
const POWER_RESERVOIR_KEYS: [&str; 7] = [
    "name",
    "kind",
    "initial_storage",
    "table",
    "max_release",
    "tailwater",
    "power",
];

fn read_bare(alloc: Global, kind: Kind, at: &str, table: &Table) -> Result<Kind, ModelFault>
    ensures { Gives (λ kind. kind) result (bare_of kind at.now (table_view table.now)) }
{
    only_listed(alloc, &["name", "kind"], at, table)?;
    Ok(kind)
}

#[tactic(auto, unfolding(crate::specs::Kinds::reach_of))]
fn read_reach(alloc: Global, at: &str, table: &Table) -> Result<Kind, ModelFault>
    ensures { Gives (λ kind. kind) result (reach_of at.now (table_view table.now)) }
{
    let lag = optional_count(alloc, at, "lag", table, 0, 0, LAG_MAX)?;
    let history = read_history(alloc, at, lag, table)?;
    let options = read_options(alloc, at, table)?;
    only_listed(alloc, &REACH_KEYS, at, table)?;
    Ok(Kind::Reach {
        lag: lag as u8,
        history: History::of(history),
        local_inflow: options.local_inflow,
        diversion: options.diversion,
        return_flow: options.return_flow,
    })
}

#[tactic(auto, unfolding(crate::specs::Kinds::reservoir_of))]
fn read_reservoir(alloc: Global, at: &str, table: &Table) -> Result<Kind, ModelFault>
    ensures { Gives (λ kind. kind) result (reservoir_of at.now (table_view table.now)) }
{
    let initial_storage = required_number(alloc, at, "initial_storage", table, 0, QUANTITY_MAX)?;
    let rating = rating_if_given(alloc, at, table)?;
    let options = read_options(alloc, at, table)?;
    let evaporation = choice(alloc, at, "evaporation", table)?;
    let max_release = number_if_given(alloc, at, "max_release", table, 0, QUANTITY_MAX)?;
    only_listed(alloc, &RESERVOIR_KEYS, at, table)?;
    Ok(Kind::Reservoir {
        initial_storage,
        table: rating,
        local_inflow: options.local_inflow,
        diversion: options.diversion,
        return_flow: options.return_flow,
        evaporation,
        max_release,
    })
}

#[tactic(auto, unfolding(crate::specs::Kinds::power_reservoir_of))]
fn read_power_reservoir(alloc: Global, at: &str, table: &Table) -> Result<Kind, ModelFault>
    ensures { Gives (λ kind. kind) result (power_reservoir_of at.now (table_view table.now)) }
{
    let initial_storage = required_number(alloc, at, "initial_storage", table, 0, QUANTITY_MAX)?;
    let rating = required_rating(alloc, at, table)?;
    let max_release = required_number(alloc, at, "max_release", table, 0, QUANTITY_MAX)?;
    let tailwater = optional_number(alloc, at, "tailwater", table, 0, 0, ELEVATION_MAX)?;
    let power = required_count(alloc, at, "power", table, 1, POWER_MAX)?;
    only_listed(alloc, &POWER_RESERVOIR_KEYS, at, table)?;
    Ok(Kind::PowerReservoir {
        initial_storage,
        table: rating,
        max_release,
        tailwater,
        power,
    })
}

#[tactic(auto, unfolding(crate::specs::Kinds::routed_reach_of))]
fn read_routed_reach(alloc: Global, at: &str, table: &Table) -> Result<Kind, ModelFault>
    ensures { Gives (λ kind. kind) result (routed_reach_of at.now (table_view table.now)) }
{
    let initial_content = required_number(alloc, at, "initial_content", table, 0, QUANTITY_MAX)?;
    let release = required_count(alloc, at, "release", table, 1, PARTS)?;
    only_listed(
        alloc,
        &["name", "kind", "initial_content", "release"],
        at,
        table,
    )?;
    Ok(Kind::RoutedReach {
        initial_content,
        release,
    })
}

fn read_supply(alloc: Global, at: &str, table: &Table) -> Result<Supply, ModelFault>
    ensures { Gives (λ supply. supply) result (supply_of at.now (table_view table.now)) }
{
    let word = optional_text(alloc, at, "supply", table, "request")?;
    match supply_in(word) {
        Some(supply) => Ok(supply),
        None => Err(ModelFault::Build(key_path(alloc, at, "supply")?, BuildFault::BadParameter)),
    }
}

#[tactic(auto, unfolding(crate::specs::Kinds::water_user_of))]
fn read_water_user(alloc: Global, at: &str, table: &Table) -> Result<Kind, ModelFault>
    ensures { Gives (λ kind. kind) result (water_user_of at.now (table_view table.now)) }
{
    let depletion = required_count(alloc, at, "depletion", table, 0, PARTS)?;
    let supply = read_supply(alloc, at, table)?;
    only_listed(alloc, &["name", "kind", "depletion", "supply"], at, table)?;
    Ok(Kind::WaterUser { depletion, supply })
}

#[tactic(auto, unfolding(crate::specs::Kinds::canal_of))]
fn read_canal(alloc: Global, at: &str, table: &Table) -> Result<Kind, ModelFault>
    ensures { Gives (λ kind. kind) result (canal_of at.now (table_view table.now)) }
{
    let seepage = required_count(alloc, at, "seepage", table, 0, SEEPAGE_MAX)?;
    only_listed(alloc, &["name", "kind", "seepage"], at, table)?;
    Ok(Kind::Canal { seepage })
}

/// Returns the kind that the word names, with the keys of the table at the path.
#[tactic(auto, unfolding(crate::specs::Kinds::kind_read))]
pub(crate) fn read_kind(
    alloc: Global,
    at: &str,
    word: &str,
    table: &Table,
) -> Result<Kind, ModelFault>
    ensures { Gives (λ kind. kind) result (kind_read at.now word.now (table_view table.now)) }
{
    match word {
        "data" => read_data(alloc, at, table),
        "gage" => read_bare(alloc, Kind::Gage, at, table),
        "confluence" => read_bare(alloc, Kind::Confluence, at, table),
        "bifurcation" => read_bare(alloc, Kind::Bifurcation, at, table),
        "reach" => read_reach(alloc, at, table),
        "reservoir" => read_reservoir(alloc, at, table),
        "water_user" => read_water_user(alloc, at, table),
        "canal" => read_canal(alloc, at, table),
        "power_reservoir" => read_power_reservoir(alloc, at, table),
        "routed_reach" => read_routed_reach(alloc, at, table),
        _ => Err(ModelFault::UnknownKind(key_path(alloc, at, "kind")?)),
    }
}
