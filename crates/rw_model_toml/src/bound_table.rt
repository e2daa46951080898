//! Reads the bounds of slots from a model's file, and gives them to a builder.
ghost use Rattle.std.specs.Prelude.{codes};
ghost use Rattle.toml.specs.View.{view, items_view, table_view};
ghost use Rattle.rw_model_toml.specs.Fault.{Gives};
ghost use Rattle.rw_model_toml.specs.Told.{bound_told, bound_read};
ghost use Rattle.rw_model_toml.specs.Model.{in_turn, bounds_from};

use crate::ModelFault;
use crate::key::{optional_items, required_integer, required_text};
use crate::listed::only_listed;
use crate::path::element_path;
use crate::slot_text::slot_number;
use crate::told::told;
use crate::value::table;
use rw_base::SlotNo;
use rw_model::BasinBuilder;
use std::alloc::Global;
use toml::{Table, Value};

#[tactic(auto, unfolding(crate::specs::Told::bound_told))]
fn add_bound(
    alloc: Global,
    builder: &mut BasinBuilder,
    at: &str,
    slot: SlotNo,
    min: i64,
    max: i64,
) -> Result<(), ModelFault>
    ensures { Gives (λ _. builder.new) result (bound_told at.now builder.old slot.0 (min, max)) }
{
    match builder.bound(slot, min, max) {
        Ok(()) => Ok(()),
        Err(fault) => Err(told(alloc, at, fault)),
    }
}

#[tactic(auto, unfolding(crate::specs::Told::bound_read))]
fn read_bound(
    alloc: Global,
    builder: &mut BasinBuilder,
    at: &str,
    value: &Value,
) -> Result<(), ModelFault>
    ensures { Gives (λ _. builder.new) result (bound_read at.now (view value.now) builder.old) }
{
    let table = table(alloc, at, value)?;
    let text = required_text(alloc, at, "slot", table)?;
    let min = required_integer(alloc, at, "min", table)?;
    let max = required_integer(alloc, at, "max", table)?;
    only_listed(alloc, &["slot", "min", "max"], at, table)?;
    let slot = slot_number(builder, text);
    add_bound(alloc, builder, at, slot, min, max)
}

// Gives slots the bounds that the items say, one after another.
fn add_bounds(alloc: Global, builder: &mut BasinBuilder, items: &[Value]) -> Result<(), ModelFault>
    ensures { Gives (λ _. builder.new) result
        (in_turn bound_read (codes "bound") 1 (items_view items.now) builder.old) }
{
    for place in 0..items.len() {
        let at = element_path(alloc, "bound", place + 1)?;
        read_bound(alloc, builder, at.as_str(), &items[place])?;
    }
    Ok(())
}

/// Gives slots the bounds of the file, one after another.
pub(crate) fn read_bounds(
    alloc: Global,
    builder: &mut BasinBuilder,
    table: &Table,
) -> Result<(), ModelFault>
    ensures { Gives (λ _. builder.new) result (bounds_from (table_view table.now) builder.old) }
{
    let items = optional_items(alloc, "", "bound", table)?;
    add_bounds(alloc, builder, items)
}
