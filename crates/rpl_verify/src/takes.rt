//! Takes operands for an instruction, and leaves what it makes in their place.
ghost use Rattle.std.specs.Prelude.{◌≡◌, ◌≤◌, [], ◌∷◌, length, reverse};
ghost use Rattle.rpl_code.specs.declared.kind.ValueKind.TheVariants as K;
ghost use Rattle.rpl_verify.specs.Kinds.{list_value_kind};
ghost use Rattle.rpl_verify.specs.Places.{loop_of};
ghost use Rattle.rpl_verify.specs.Table.{takes, goes_by, appended, listed, of_list, element_picked, widened_list};
ghost use Rattle.rpl_verify.specs.Fits.{shut};
ghost use Rattle.rpl_verify.specs.Walked.{Goes};
ghost use Rattle.rpl_verify.specs.Steps.{TakesOne, TakesTwo, closed_behind, gathered_into, opened_over, run_taken, taken_by};

use crate::VerifyKind;
use crate::kinds::{
    appended, element_of, is_kind, is_same_kind, list_kind, picked, room_of, widened,
};
use crate::list_loop::Loop;
use crate::place_fault::PlaceFault;
use crate::walk::Walk;
use rpl_code::ValueKind;

/// Takes operands of these kinds, the last one first.
#[inline(always)]
pub(crate) fn take(walk: &mut Walk, needs: &[ValueKind]) -> Result<(), PlaceFault>
    ensures { Goes (taken_by (takes (reverse needs.now) []) walk.old.before)
        walk.old walk.new result }
{
    if (walk.height() as usize) < needs.len() {
        return Err(PlaceFault::Misfit(VerifyKind::MissingOperand));
    }
    let mut left = needs.len();
    while left > 0 {
        left -= 1;
        match walk.top() {
            None => return Err(PlaceFault::Misfit(VerifyKind::MissingOperand)),
            Some(kind) => {
                if !is_same_kind(needs[left], kind) {
                    return Err(PlaceFault::Misfit(VerifyKind::WrongOperand));
                }
                walk.pop();
            }
        }
    }
    Ok(())
}

/// Takes operands of these kinds, the last one first, and leaves one in their place.
#[inline(always)]
pub(crate) fn pass(
    walk: &mut Walk,
    needs: &[ValueKind],
    leaves: ValueKind,
) -> Result<(), PlaceFault>
    ensures { Goes (taken_by (takes (reverse needs.now) (leaves ∷ [])) walk.old.before)
        walk.old walk.new result }
{
    take(walk, needs)?;
    walk.push(leaves)?;
    Ok(())
}

// Takes so many operands of one kind.
fn take_run(walk: &mut Walk, kind: ValueKind, count: u16) -> Result<(), PlaceFault>
    requires { count ≤ length walk.old.before.kinds }
    ensures { Goes (run_taken kind count walk.old.before) walk.old walk.new result }
{
    let mut left = count;
    while left > 0 {
        left -= 1;
        match walk.top() {
            None => return Err(PlaceFault::Misfit(VerifyKind::WrongOperand)),
            Some(next) => {
                if !is_same_kind(kind, next) {
                    return Err(PlaceFault::Misfit(VerifyKind::WrongOperand));
                }
                walk.pop();
            }
        }
    }
    Ok(())
}

/// Makes a list of `count` operands.
pub(crate) fn gather(walk: &mut Walk, count: u16) -> Result<(), PlaceFault>
    ensures { Goes (taken_by (goes_by count (listed count)) walk.old.before)
        walk.old walk.new result }
{
    if walk.height() < u32::from(count) {
        return Err(PlaceFault::Misfit(VerifyKind::MissingOperand));
    }
    if count == 0 {
        return Err(PlaceFault::Misfit(VerifyKind::WrongOperand));
    }
    match walk.top() {
        None => Err(PlaceFault::Misfit(VerifyKind::MissingOperand)),
        Some(kind) => match take_run(walk, kind, count) {
            Err(fault) => Err(fault),
            Ok(()) => leave_list(walk, count, kind),
        },
    }
}

// Leaves the list of so many operands of a kind, if there are such lists.
fn leave_list(walk: &mut Walk, count: u16, kind: ValueKind) -> Result<(), PlaceFault>
    ensures { Goes (gathered_into (list_value_kind count kind) walk.old.before) walk.old
        walk.new result }
{
    match list_kind(count, kind) {
        None => Err(PlaceFault::Misfit(VerifyKind::WrongOperand)),
        Some(list) => {
            walk.push(list)?;
            Ok(())
        }
    }
}

// Takes the operand on top.
fn take_one(walk: &mut Walk) -> Result<ValueKind, PlaceFault>
    ensures { TakesOne walk.old walk.new result }
{
    match walk.top() {
        None => Err(PlaceFault::Misfit(VerifyKind::MissingOperand)),
        Some(kind) => {
            walk.pop();
            Ok(kind)
        }
    }
}

// Takes the two operands on top, the last one first.
fn take_two(walk: &mut Walk) -> Result<(ValueKind, ValueKind), PlaceFault>
    ensures { TakesTwo walk.old walk.new result }
{
    let last = take_one(walk)?;
    let other = take_one(walk)?;
    Ok((last, other))
}

/// Appends an element to the list below it.
pub(crate) fn append(walk: &mut Walk) -> Result<(), PlaceFault>
    ensures { Goes (taken_by (goes_by 2 appended) walk.old.before) walk.old walk.new result }
{
    let (element, list) = take_two(walk)?;
    match appended(element, list) {
        None => Err(PlaceFault::Misfit(VerifyKind::WrongOperand)),
        Some(longer) => {
            walk.push(longer)?;
            Ok(())
        }
    }
}

/// Picks an element by a place from the list below that.
pub(crate) fn pick(walk: &mut Walk) -> Result<(), PlaceFault>
    ensures { Goes (taken_by (goes_by 2 element_picked) walk.old.before) walk.old walk.new result }
{
    let (place, list) = take_two(walk)?;
    match picked(place, list) {
        None => Err(PlaceFault::Misfit(VerifyKind::WrongOperand)),
        Some(element) => {
            walk.push(element)?;
            Ok(())
        }
    }
}

/// Gives the list on top room for `room` elements.
pub(crate) fn widen(walk: &mut Walk, room: u16) -> Result<(), PlaceFault>
    ensures { Goes (taken_by (goes_by 1 (widened_list room)) walk.old.before) walk.old
        walk.new result }
{
    let list = take_one(walk)?;
    match widened(room, list) {
        None => Err(PlaceFault::Misfit(VerifyKind::WrongOperand)),
        Some(wider) => {
            walk.push(wider)?;
            Ok(())
        }
    }
}

/// Counts the elements of the list on top.
pub(crate) fn measure(walk: &mut Walk) -> Result<(), PlaceFault>
    ensures { Goes (taken_by (goes_by 1 (of_list (K.N ∷ []))) walk.old.before)
        walk.old walk.new result }
{
    let list = take_one(walk)?;
    match element_of(list) {
        None => Err(PlaceFault::Misfit(VerifyKind::WrongOperand)),
        Some(_) => {
            walk.push(ValueKind::N)?;
            Ok(())
        }
    }
}

/// Begins a loop over the list on top, whose elements become those of a local of this kind, if there
/// is one.
pub(crate) fn open(
    walk: &mut Walk,
    place: u32,
    sort: Loop,
    local: Option<ValueKind>,
) -> Result<(), PlaceFault>
    ensures { Goes (opened_over place (loop_of sort) local walk.old.before)
        walk.old walk.new result }
{
    let list = take_one(walk)?;
    match element_of(list) {
        None => Err(PlaceFault::Misfit(VerifyKind::WrongOperand)),
        Some(element) => {
            if !is_kind(local, Some(element)) {
                return Err(PlaceFault::Misfit(VerifyKind::WrongShape));
            }
            walk.open(place, sort, room_of(list))?;
            Ok(())
        }
    }
}

// Ends the innermost loop, and leaves the list that a mapping makes.
fn end_loop(walk: &mut Walk, sort: Loop) -> Result<(), PlaceFault>
    ensures { Goes (shut (loop_of sort) walk.old.before.kinds walk.old.before.loops)
        walk.old walk.new result }
{
    let room = walk.close(sort)?;
    match sort {
        Loop::Visiting => {}
        Loop::Mapping => walk.push(ValueKind::NList(room))?,
    }
    Ok(())
}

/// Takes operands of these kinds, the last one first, and ends the innermost loop.
pub(crate) fn close(walk: &mut Walk, needs: &[ValueKind], sort: Loop) -> Result<(), PlaceFault>
    ensures { Goes (closed_behind (takes (reverse needs.now) []) (loop_of sort) walk.old.before)
        walk.old walk.new result }
{
    take(walk, needs)?;
    end_loop(walk, sort)
}
