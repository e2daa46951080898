//! Collects the slots of each link in the order of their numbers.
ghost use Rattle.rw_model.specs.declared.limits.TheConstants.{SLOTS_MAX};
ghost use Rattle.std.specs.Prelude.{◌≡◌, ◌+◌, ◌<◌, ◌≤◌, length, [], ◌∷◌, ◌++◌, IfOk, OnOk, slice_index_or, slice_set, vec_len};
ghost use Rattle.std.specs.List.{range_with_len};
ghost use Rattle.rw_model.specs.Kept.{numbers_of, links_of, KeepsGroups};

use crate::links::Links;
use rw_base::{NoMemory, SlotNo};
use std::alloc::Global;

/// Returns the numbers of the first `count` slots, rising.
pub(crate) fn slots_up_to(alloc: Global, count: u16) -> Result<Vec<SlotNo>, NoMemory>
    ensures { IfOk result (λ slots. numbers_of slots.items ≡ range_with_len 1 count) }
{
    let mut slots = Vec::new(alloc);
    for before in 0..count {
        slots.push(SlotNo(before + 1))?;
    }
    Ok(slots)
}

// A group for each link that has no slot yet.
fn empty_groups(alloc: Global, links: &Links) -> Result<Vec<Vec<SlotNo>>, NoMemory>
    ensures { IfOk result (λ groups. KeepsGroups links.now 0 (links_of groups.items)) }
{
    let mut groups = Vec::new(alloc);
    for _ in 0..links.count() {
        groups.push(Vec::new(alloc))?;
    }
    Ok(groups)
}

fn join(groups: &mut Vec<Vec<SlotNo>>, place: usize, slot: SlotNo) -> Result<(), NoMemory>
    requires { place < length (links_of groups.old.items) }
    ensures { OnOk result (links_of groups.new.items
        ≡ slice_set (links_of groups.old.items) place
        (slice_index_or (links_of groups.old.items) place [] ++ slot.0 ∷ [])) }
{
    groups[place].push(slot)?;
    Ok(())
}

// A slot joins the group of its link, if it has one.
fn join_link(groups: &mut Vec<Vec<SlotNo>>, links: &Links, before: u16) -> Result<(), NoMemory>
    requires kept { KeepsGroups links.now before (links_of groups.old.items) }
    requires few { before < SLOTS_MAX }
    ensures { OnOk result (KeepsGroups links.now (before + 1) (links_of groups.new.items)) }
{
    match links.place(before + 1) {
        Some(place) => join(groups, place, SlotNo(before + 1)),
        None => Ok(()),
    }
}

/// Returns the slots of each link, rising, of a basin with `count` slots.
pub(crate) fn groups_of(
    alloc: Global,
    links: &Links,
    count: u16,
) -> Result<Vec<Vec<SlotNo>>, NoMemory>
    requires { count ≤ SLOTS_MAX }
    ensures { IfOk result (λ groups. KeepsGroups links.now count (links_of groups.items)) }
{
    let mut groups = empty_groups(alloc, links)?;
    for before in 0..count {
        join_link(&mut groups, links, before)?;
    }
    Ok(groups)
}
