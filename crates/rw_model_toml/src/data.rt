//! Reads the slots of a data object.
ghost use Rattle.std.specs.Prelude.{◌≤◌, length, string_bytes};
ghost use Rattle.toml.specs.View.{view, items_view, table_view};
ghost use Rattle.rw_model_toml.specs.Fault.{Gives};
ghost use Rattle.rw_model_toml.specs.ListOf.{list_read};
ghost use Rattle.rw_model_toml.specs.Kinds.{unit_of, data_slot_read, data_of};

use crate::ModelFault;
use crate::key::{required_items, required_text};
use crate::listed::only_listed;
use crate::name::read_name;
use crate::path::{element_path, key_path};
use crate::value::table;
use rw_base::Dim;
use rw_model::limits::DATA_SLOTS_MAX;
use rw_model::{BuildFault, DataSlot, DataSlots, Kind, Name};
use std::alloc::Global;
use toml::{Table, Value};

fn read_unit(alloc: Global, at: &str, table: &Table) -> Result<Dim, ModelFault>
    ensures { Gives (λ dim. dim) result (unit_of at.now (table_view table.now)) }
{
    let word = required_text(alloc, at, "unit", table)?;
    match rw_base::unit_of(word) {
        Some((dim, _)) => Ok(dim),
        None => Err(ModelFault::Build(key_path(alloc, at, "unit")?, BuildFault::BadParameter)),
    }
}

// The slot that the value at the path says.
#[tactic(auto, unfolding(crate::specs::Kinds::data_slot_read))]
fn read_slot(alloc: Global, at: &str, value: &Value) -> Result<DataSlot, ModelFault>
    ensures { Gives (λ slot. slot) result (data_slot_read at.now (view value.now)) }
{
    let members = table(alloc, at, value)?;
    let name = read_name(alloc, at, members)?;
    let dim = read_unit(alloc, at, members)?;
    only_listed(alloc, &["name", "unit"], at, members)?;
    let name = Name::of(String::from_str(alloc, name)?);
    Ok(DataSlot { name, dim })
}

fn read_slots(alloc: Global, path: &str, items: &[Value]) -> Result<Vec<DataSlot>, ModelFault>
    ensures { Gives (λ slots. slots.items) result
        (list_read data_slot_read path.now 1 (items_view items.now)) }
{
    let mut slots = Vec::new(alloc);
    for place in 0..items.len() {
        let at = element_path(alloc, path, place + 1)?;
        let slot = read_slot(alloc, at.as_str(), &items[place])?;
        slots.push(slot)?;
    }
    Ok(slots)
}

/// Returns what the table at the path says of a data object.
#[tactic(auto, unfolding(crate::specs::Kinds::data_of))]
pub(crate) fn read_data(alloc: Global, at: &str, table: &Table) -> Result<Kind, ModelFault>
    ensures { Gives (λ kind. kind) result (data_of at.now (table_view table.now)) }
{
    let items = required_items(alloc, at, "slots", table)?;
    let path = key_path(alloc, at, "slots")?;
    let slots = read_slots(alloc, path.as_str(), items)?;
    if slots.is_empty() || slots.len() > DATA_SLOTS_MAX {
        return Err(ModelFault::Build(path, BuildFault::BadParameter));
    }
    only_listed(alloc, &["name", "kind", "slots"], at, table)?;
    Ok(Kind::DataObject {
        slots: DataSlots::of(slots),
    })
}
