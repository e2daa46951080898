//! Reads the objects from a model's file, and adds them to a builder.
ghost use Rattle.std.specs.Prelude.{codes};
ghost use Rattle.toml.specs.View.{view, items_view, table_view};
ghost use Rattle.rw_model_toml.specs.Fault.{Gives};
ghost use Rattle.rw_model_toml.specs.Told.{object_told, object_read};
ghost use Rattle.rw_model_toml.specs.Model.{in_turn, objects_from};

use crate::ModelFault;
use crate::key::{required_items, required_text};
use crate::name::read_name;
use crate::object_kind::read_kind;
use crate::path::element_path;
use crate::told::told;
use crate::value::table;
use rw_model::{BasinBuilder, Kind};
use std::alloc::Global;
use toml::{Table, Value};

#[tactic(auto, unfolding(crate::specs::Told::object_told))]
fn add_object(
    alloc: Global,
    builder: &mut BasinBuilder,
    at: &str,
    name: &str,
    kind: Kind,
) -> Result<(), ModelFault>
    ensures { Gives (λ _. builder.new) result
        (object_told at.now builder.old (record { name = name.now; kind = kind })) }
{
    match builder.object(name, kind) {
        Ok(_) => Ok(()),
        Err(fault) => Err(told(alloc, at, fault)),
    }
}

#[tactic(auto, unfolding(crate::specs::Told::object_read))]
fn read_object(
    alloc: Global,
    builder: &mut BasinBuilder,
    at: &str,
    value: &Value,
) -> Result<(), ModelFault>
    ensures { Gives (λ _. builder.new) result (object_read at.now (view value.now) builder.old) }
{
    let table = table(alloc, at, value)?;
    let name = read_name(alloc, at, table)?;
    let word = required_text(alloc, at, "kind", table)?;
    let kind = read_kind(alloc, at, word, table)?;
    add_object(alloc, builder, at, name, kind)
}

// Adds the objects that the items say, one after another.
fn add_objects(alloc: Global, builder: &mut BasinBuilder, items: &[Value]) -> Result<(), ModelFault>
    ensures { Gives (λ _. builder.new) result
        (in_turn object_read (codes "object") 1 (items_view items.now) builder.old) }
{
    for place in 0..items.len() {
        let at = element_path(alloc, "object", place + 1)?;
        read_object(alloc, builder, at.as_str(), &items[place])?;
    }
    Ok(())
}

/// Adds the objects of the file, one after another.
pub(crate) fn read_objects(
    alloc: Global,
    builder: &mut BasinBuilder,
    table: &Table,
) -> Result<(), ModelFault>
    ensures { Gives (λ _. builder.new) result (objects_from (table_view table.now) builder.old) }
{
    let items = required_items(alloc, "", "object", table)?;
    add_objects(alloc, builder, items)
}
