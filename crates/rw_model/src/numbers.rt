//! Lists the slots of each object by place, so that a slot is found without a search.
ghost use Rattle.rw_model.specs.declared.limits.TheConstants.{OBJECTS_MAX};
ghost use Rattle.std.specs.Prelude.{◌≡◌, ◌+◌, ◌*◌, ◌<◌, IfOk, OnOk, length};
ghost use Rattle.rw_model.specs.Kept.{numbers_up_to};

use crate::objects::Objects;
use rw_base::NoMemory;
use std::alloc::Global;

// Adds the slots of one more object, place by place.
fn push_numbers(all: &mut Vec<Option<u16>>, objects: &Objects, before: u16) -> Result<(), NoMemory>
    requires few { before < OBJECTS_MAX }
    requires object { before < length objects.now }
    requires all { all.old.items ≡ numbers_up_to objects.now (before * 12) }
    ensures { OnOk result (all.new.items ≡ numbers_up_to objects.now ((before + 1) * 12)) }
{
    for place in 0..12u8 {
        all.push(objects.slot_in_place(before + 1, place))?;
    }
    Ok(())
}

/// Returns the slots in the places of all objects, twelve places for each object.
pub(crate) fn all_numbers(alloc: Global, objects: &Objects) -> Result<Vec<Option<u16>>, NoMemory>
    ensures { IfOk result
        (λ numbers. numbers.items ≡ numbers_up_to objects.now (length objects.now * 12)) }
{
    let mut all = Vec::new(alloc);
    for before in 0..objects.count() {
        push_numbers(&mut all, objects, before)?;
    }
    Ok(all)
}
