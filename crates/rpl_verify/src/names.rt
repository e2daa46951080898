//! Looks up the names that instructions use, in the basin, the predefined functions and the blocks.
ghost use Rattle.std.specs.Prelude.{◌≡◌, ◌<◌, ℕ, List, Some, length, map, slice_get, bytes_eq, option_map, IfOk};
ghost use Rattle.std.specs.Option.{ForSome};
ghost use Rattle.rw_model.specs.Draft.{IsObject};
ghost use Rattle.rw_model.specs.Objects.{numbered, object_named, slot_named};
ghost use Rattle.rpl_code.specs.declared.kind.ValueKind.{ValueKind};
ghost use Rattle.rpl_tree.specs.Mean.{predefined_functions};
ghost use Rattle.rpl_tree.specs.World.{table_in, table_named};
ghost use Rattle.rpl_verify.specs.Fits.{heads_of};
ghost use Rattle.rpl_verify.specs.Names.{call_misfit, name_misfit, put_misfit, put_step_misfit, slot_seen, unless_there};
ghost use Rattle.rpl_verify.specs.Places.{Spot};
ghost use Rattle.rpl_verify.specs.Steps.{scope_in, takes_count};
ghost use Rattle.rpl_verify.specs.Table.{function_named};
ghost use Rattle.rpl_verify.specs.Resolved.{call_of, object_or_none, slot_or_first};

use crate::{Resolved, VerifyKind};
use rpl_code::{Block, BlockHead, Instruction};
use rw_base::{NoMemory, ObjectNo};
use rw_model::{Basin, Kind, Name};
use std::alloc::Global;

// Whether a name is this text.
fn is_called(name: &Name, text: &str) -> bool
    ensures { result ≡ bytes_eq text.now name.now }
{
    text == name.as_str()
}

/// Returns how many numbers a predefined function takes, if there is one of this name.
pub(crate) fn predefined_count(name: &Name) -> Option<u8>
    ensures { result ≡ option_map takes_count (function_named predefined_functions name.now) }
{
    if is_called(name, "Min") {
        Some(2)
    } else if is_called(name, "Max") {
        Some(2)
    } else if is_called(name, "Abs") {
        Some(1)
    } else if is_called(name, "Clamp") {
        Some(3)
    } else if is_called(name, "RoundDown") {
        Some(2)
    } else if is_called(name, "Sign") {
        Some(1)
    } else if is_called(name, "MulDiv") {
        Some(3)
    } else {
        None
    }
}

/// Returns the call of a predefined function, by its row, or of row 0 if there is none of this name.
pub(crate) fn call_of(name: &Name) -> Resolved
    ensures { result ≡ call_of 1 predefined_functions name.now }
{
    if is_called(name, "Min") {
        Resolved::Call { row: 1, takes: 2 }
    } else if is_called(name, "Max") {
        Resolved::Call { row: 2, takes: 2 }
    } else if is_called(name, "Abs") {
        Resolved::Call { row: 3, takes: 1 }
    } else if is_called(name, "Clamp") {
        Resolved::Call { row: 4, takes: 3 }
    } else if is_called(name, "RoundDown") {
        Resolved::Call { row: 5, takes: 2 }
    } else if is_called(name, "Sign") {
        Resolved::Call { row: 6, takes: 1 }
    } else if is_called(name, "MulDiv") {
        Resolved::Call { row: 7, takes: 3 }
    } else {
        Resolved::Call { row: 0, takes: 0 }
    }
}

/// Returns the block of a number, counted from 1.
pub(crate) fn block_numbered(blocks: &[Block], number: u32) -> Option<&Block>
    ensures { option_map (λ block. block.now) result ≡ numbered blocks.now number }
{
    if number == 0 {
        return None;
    }
    blocks.get(number as usize - 1)
}

// The number of the object of this name, if there is one.
fn find_object(basin: &Basin, name: &Name) -> Option<ObjectNo>
    ensures number { option_map (λ object. object.0) result
        ≡ object_named basin.now.objects name.now }
    ensures known { ForSome result (λ object. IsObject basin.now.objects object.0) }
{
    for place in 0..basin.object_count() {
        let object = ObjectNo(place + 1);
        if name.as_str() == basin.object_name(object) {
            return Some(object);
        }
    }
    None
}

/// Returns the number of the object of this name, or 0 if there is none.
pub(crate) fn object_number(basin: &Basin, name: &Name) -> u16
    ensures { result ≡ object_or_none (object_named basin.now.objects name.now) }
{
    match find_object(basin, name) {
        None => 0,
        Some(object) => object.0,
    }
}

// The number of the slot of these names, if there is one.
fn slot_found(basin: &Basin, object: &Name, slot: &Name) -> Option<u16>
    ensures { result ≡ slot_named basin.now.objects object.now slot.now }
{
    match basin.find_slot(object.as_str(), slot.as_str()) {
        None => None,
        Some(number) => Some(number.0),
    }
}

// The slot that an instruction names as an operand, if there is one.
fn slot_seen(basin: &Basin, instruction: &Instruction) -> Option<u16>
    ensures { result ≡ slot_seen basin.now instruction.now }
{
    match instruction {
        Instruction::Slot { object, slot } => slot_found(basin, object, slot),
        _ => None,
    }
}

/// Returns the slot that each of these lines names as an operand, if there is one. It is looked up once, for judging and for
/// resolving.
pub(crate) fn slots_seen(
    alloc: Global,
    basin: &Basin,
    lines: &[Instruction],
) -> Result<Vec<Option<u16>>, NoMemory>
    ensures { IfOk result (λ slots. slots.items ≡ map (slot_seen basin.now) lines.now) }
{
    let mut slots = Vec::with_capacity(alloc, lines.len())?;
    for place in 0..lines.len() {
        let line = &lines[place];
        slots.push(slot_seen(basin, line))?;
    }
    Ok(slots)
}

/// Returns the slot that the line of a place names, of those of all lines.
pub(crate) fn slot_at(slots: &[Option<u16>], place: usize) -> Option<u16>
    requires { place < length slots.now }
    ensures { slice_get slots.now place ≡ Some result }
{
    slots[place]
}

/// Returns the slot that is there, or 1 if there is none.
pub(crate) fn slot_or_first(slot: Option<u16>) -> u16
    ensures { result ≡ slot_or_first slot }
{
    match slot {
        None => 1,
        Some(number) => number,
    }
}

/// Returns the number of the slot of these names, or 1 if there is none.
pub(crate) fn slot_number(basin: &Basin, object: &Name, slot: &Name) -> u16
    ensures { result ≡ slot_or_first (slot_named basin.now.objects object.now slot.now) }
{
    slot_or_first(slot_found(basin, object, slot))
}

// A reservoir of this name has to be there, with a table.
fn table_misfit(basin: &Basin, name: &Name) -> Option<VerifyKind>
    ensures { result ≡ unless_there (table_named basin.now name.now) }
{
    match find_object(basin, name) {
        None => Some(VerifyKind::NoSuchName),
        Some(object) => unless_tabled(basin.kind(object)),
    }
}

// An object of this kind has to have a table.
fn unless_tabled(kind: &Kind) -> Option<VerifyKind>
    ensures { result ≡ unless_there (table_in kind.now) }
{
    match kind {
        Kind::Reservoir { table: Some(_), .. } => None,
        _ => Some(VerifyKind::NoSuchName),
    }
}

// A slot has to be there.
fn slot_misfit(slot: Option<u16>) -> Option<VerifyKind>
    ensures { result ≡ unless_there slot }
{
    match slot {
        None => Some(VerifyKind::NoSuchName),
        Some(_) => None,
    }
}

// A predefined function of this name has to be there.
fn predefined_misfit(name: &Name) -> Option<VerifyKind>
    ensures { result ≡ unless_there (function_named predefined_functions name.now) }
{
    match predefined_count(name) {
        None => Some(VerifyKind::NoSuchName),
        Some(_) => None,
    }
}

// A rule puts at most so many timesteps ahead, and a function never.
fn put_step_misfit(most: u8, head: &BlockHead, ahead: u8) -> Option<VerifyKind>
    ensures { result ≡ put_step_misfit most head.now ahead }
{
    match head {
        BlockHead::Function { .. } => Some(VerifyKind::PutInFunction),
        BlockHead::Rule => {
            if ahead <= most {
                None
            } else {
                Some(VerifyKind::TargetStep)
            }
        }
    }
}

// A put of a slot, in a block with this head.
fn put_misfit(
    basin: &Basin,
    head: &BlockHead,
    object: &Name,
    slot: &Name,
    ahead: u8,
) -> Option<VerifyKind>
    ensures { (blocks : List Block) (number : ℕ) (locals : List ValueKind) (spots : List Spot)
        → result ≡ put_misfit (scope_in basin.now blocks number head.now locals spots)
        (slot_named basin.now.objects object.now slot.now) ahead }
{
    match basin.find_slot(object.as_str(), slot.as_str()) {
        None => Some(VerifyKind::NoSuchName),
        Some(number) => {
            if basin.settable(number) {
                put_step_misfit(basin.control().ahead, head, ahead)
            } else {
                Some(VerifyKind::NotSettable)
            }
        }
    }
}

// A call of a block, from the block of a number.
fn call_misfit(blocks: &[Block], here: u32, called: u32) -> Option<VerifyKind>
    ensures { result ≡ call_misfit here called (numbered (heads_of blocks.now) called) }
{
    match block_numbered(blocks, called) {
        None => Some(VerifyKind::NoSuchName),
        Some(block) => match block.head {
            BlockHead::Rule => Some(VerifyKind::NoSuchName),
            BlockHead::Function { .. } => {
                if called < here {
                    None
                } else {
                    Some(VerifyKind::LaterCall)
                }
            }
        },
    }
}

/// Returns what is refused of the names that an instruction uses, in a block of this number and head, where this is the slot that
/// it names; `None` where nothing is.
pub(crate) fn name_misfit(
    basin: &Basin,
    blocks: &[Block],
    number: u32,
    head: &BlockHead,
    seen: Option<u16>,
    instruction: &Instruction,
) -> Option<VerifyKind>
    requires { seen ≡ slot_seen basin.now instruction.now }
    ensures { (locals : List ValueKind) (spots : List Spot) → result ≡ name_misfit
        (scope_in basin.now blocks.now number head.now locals spots) instruction.now }
{
    match instruction {
        Instruction::Slot { .. } => slot_misfit(seen),
        Instruction::ToElevation(object) => table_misfit(basin, object),
        Instruction::ToStorage(object) => table_misfit(basin, object),
        Instruction::Call(name) => predefined_misfit(name),
        Instruction::Invoke(called) => call_misfit(blocks, number, *called),
        Instruction::Put {
            object,
            slot,
            ahead,
        } => put_misfit(basin, head, object, slot, *ahead),
        _ => None,
    }
}
