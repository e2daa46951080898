//! Reads the links between slots from a model's file, and adds them to a builder.
ghost use Rattle.std.specs.Prelude.{string_bytes, ◌≤◌, codes, length};
ghost use Rattle.toml.specs.View.{view, items_view, table_view};
ghost use Rattle.rw_model.specs.Kept.{numbers_of};
ghost use Rattle.rw_model_toml.specs.Fault.{Gives};
ghost use Rattle.rw_model_toml.specs.ListOf.{list_read};
ghost use Rattle.rw_model_toml.specs.Told.{slot_read, link_told, link_read};
ghost use Rattle.rw_model_toml.specs.Model.{in_turn, links_from};

use crate::ModelFault;
use crate::key::{optional_items, required_items};
use crate::listed::only_listed;
use crate::path::{element_path, key_path};
use crate::slot_text::slot_number;
use crate::told::told;
use crate::value::{table, text};
use rw_base::SlotNo;
use rw_model::limits::LINK_MAX;
use rw_model::{BasinBuilder, BuildFault};
use std::alloc::Global;
use toml::{Table, Value};

// The slot that the value at the path names.
fn read_slot(path: String, builder: &BasinBuilder, value: &Value) -> Result<SlotNo, ModelFault>
    ensures { Gives (λ slot. slot.0) result
        (slot_read builder.now.objects (string_bytes path) (view value.now)) }
{
    let text = text(path, value)?;
    Ok(slot_number(builder, text))
}

fn read_slots(
    alloc: Global,
    path: &str,
    builder: &BasinBuilder,
    items: &[Value],
) -> Result<Vec<SlotNo>, ModelFault>
    ensures { Gives (λ slots. numbers_of slots.items) result
        (list_read (slot_read builder.now.objects) path.now 1 (items_view items.now)) }
{
    let mut slots = Vec::new(alloc);
    for place in 0..items.len() {
        let at = element_path(alloc, path, place + 1)?;
        let slot = read_slot(at, builder, &items[place])?;
        slots.push(slot)?;
    }
    Ok(slots)
}

#[tactic(auto, unfolding(crate::specs::Told::link_told))]
fn add_link(
    alloc: Global,
    builder: &mut BasinBuilder,
    at: &str,
    slots: &[SlotNo],
) -> Result<(), ModelFault>
    ensures { Gives (λ _. builder.new) result
        (link_told at.now builder.old (numbers_of slots.now)) }
{
    match builder.link(slots) {
        Ok(()) => Ok(()),
        Err(fault) => Err(told(alloc, at, fault)),
    }
}

#[tactic(auto, unfolding(crate::specs::Told::link_read))]
fn read_link(
    alloc: Global,
    builder: &mut BasinBuilder,
    at: &str,
    value: &Value,
) -> Result<(), ModelFault>
    ensures { Gives (λ _. builder.new) result (link_read at.now (view value.now) builder.old) }
{
    let table = table(alloc, at, value)?;
    let items = required_items(alloc, at, "slots", table)?;
    let path = key_path(alloc, at, "slots")?;
    let slots = read_slots(alloc, path.as_str(), builder, items)?;
    if slots.len() < 2 || slots.len() > LINK_MAX {
        return Err(ModelFault::Build(path, BuildFault::BadParameter));
    }
    only_listed(alloc, &["slots"], at, table)?;
    add_link(alloc, builder, at, slots.as_slice())
}

// Links the slots that the items say, one link after another.
fn add_links(alloc: Global, builder: &mut BasinBuilder, items: &[Value]) -> Result<(), ModelFault>
    ensures { Gives (λ _. builder.new) result
        (in_turn link_read (codes "link") 1 (items_view items.now) builder.old) }
{
    for place in 0..items.len() {
        let at = element_path(alloc, "link", place + 1)?;
        read_link(alloc, builder, at.as_str(), &items[place])?;
    }
    Ok(())
}

/// Links the slots that the file links, one link after another.
pub(crate) fn read_links(
    alloc: Global,
    builder: &mut BasinBuilder,
    table: &Table,
) -> Result<(), ModelFault>
    ensures { Gives (λ _. builder.new) result (links_from (table_view table.now) builder.old) }
{
    let items = optional_items(alloc, "", "link", table)?;
    add_links(alloc, builder, items)
}
