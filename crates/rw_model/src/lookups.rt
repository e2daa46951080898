//! Holds the tables of a finished basin, so that slots, groups and bounds are not computed again.
ghost use Rattle.std.specs.Prelude.{◌≡◌, ◌*◌, All, IfOk, length, map};
ghost use Rattle.rw_model.specs.Kept.{numbers_of, links_of, KeepsGroups, numbers_up_to};
ghost use Rattle.rw_model.specs.Links.{bounds_in, slot_numbers};
ghost use Rattle.rw_model.specs.Basin.{IsLink};
ghost use Rattle.rw_model.specs.Objects.{all_slots};

use crate::bounds::all_bounds;
use crate::groups::{groups_of, slots_up_to};
use crate::links::Links;
use crate::numbers::all_numbers;
use crate::objects::Objects;
use crate::own_bounds::OwnBounds;
use rw_base::{NoMemory, SlotNo};
use std::alloc::Global;

/// What a basin keeps besides what it was told: its slots, the groups that links make of them, and what bounds leave each.
#[derive(Drop)]
pub(crate) struct Tables {
    pub(crate) slots: Vec<SlotNo>,
    pub(crate) groups: Vec<Vec<SlotNo>>,
    pub(crate) bounds: Vec<(i64, i64)>,
    pub(crate) numbers: Vec<Option<u16>>,
}

impl Tables {
    /// Returns the tables of these objects, links and bounds.
    pub(crate) fn of(
        alloc: Global,
        objects: &Objects,
        links: &Links,
        own: &OwnBounds,
    ) -> Result<Tables, NoMemory>
        requires { All (IsLink objects.now) links.now }
        ensures slots { IfOk result
            (λ tables. numbers_of tables.slots.items ≡ slot_numbers objects.now) }
        ensures groups { IfOk result
            (λ tables.
            KeepsGroups links.now (length (all_slots objects.now)) (links_of tables.groups.items)) }
        ensures bounds { IfOk result
            (λ tables.
            tables.bounds.items
            ≡ map (bounds_in objects.now links.now own.now) (slot_numbers objects.now)) }
        ensures numbers { IfOk result
            (λ tables. tables.numbers.items ≡ numbers_up_to objects.now (length objects.now * 12)) }
    {
        let count = objects.slot_count();
        let slots = slots_up_to(alloc, count)?;
        let groups = groups_of(alloc, links, count)?;
        let bounds = all_bounds(alloc, objects, links, own)?;
        let numbers = all_numbers(alloc, objects)?;
        Ok(Tables {
            slots,
            groups,
            bounds,
            numbers,
        })
    }
}
