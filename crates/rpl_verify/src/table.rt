//! Computes the most of all ways through a block, from its end back.
ghost use Rattle.std.specs.Prelude.{◌≡◌, ◌<◌, ◌+◌, ◌-◌, ◌^◌, ℕ, suc, ◌∷◌, List, drop, length, reverse, set, slice_index, IfOk};
ghost use Rattle.rpl_code.specs.declared.instruction.Instruction.{Instruction};
ghost use Rattle.rpl_tree.specs.Budget.{capped};
ghost use Rattle.rpl_verify.specs.Places.{bracket, ends_before, loop_end};
ghost use Rattle.rpl_verify.specs.Budget.{most_from, going_of};
ghost use Rattle.rpl_verify.specs.Notes.{budget_noted, limit_of, numbers_seen, part_joined, price_in, repeated, stopping};

use crate::Budget;
use crate::notes::{Note, Part, cap_of};
use rpl_code::Instruction;
use rw_base::NoMemory;
use std::alloc::Global;

/// Returns the note of a place.
pub(crate) fn note_at(notes: &[Note], place: usize) -> Note
    requires { place < length notes.now }
    ensures { drop place notes.now ≡ result ∷ drop (place + 1) notes.now }
{
    notes[place]
}

// A part of a note.
fn price_in(part: Part, note: &Note) -> u32
    ensures { result ≡ price_in part note.now }
{
    match part {
        Part::Count => note.count,
        Part::Looks => note.looks,
        Part::Puts => note.puts,
        Part::Words => note.words,
    }
}

// How much one thing and another behind it come to.
#[inline(always)]
fn join(part: Part, a: u32, b: u32) -> u32
    ensures { result ≡ capped (limit_of part) (part_joined part a b) }
{
    match part {
        Part::Words => a.max(b).min(cap_of(Part::Words)),
        _ => a.saturating_add(b).min(cap_of(part)),
    }
}

// How much so many turns come to.
#[inline(always)]
fn repeat(part: Part, room: u16, a: u32) -> u32
    ensures { result ≡ capped (limit_of part) (repeated part room a) }
{
    match part {
        Part::Words => a.min(cap_of(Part::Words)),
        _ => (u64::from(room) * u64::from(a)).min(u64::from(cap_of(part))) as u32,
    }
}

// What stands at a place, or 0.
fn read(numbers: &[u32], at: usize) -> u32
    ensures { result ≡ slice_index numbers.now at }
{
    if at < numbers.len() { numbers[at] } else { 0 }
}

// The most from a place on that a place before it goes to, or else from the next place on.
#[inline(always)]
fn look(most: &[u32], place: usize, to: usize) -> u32
    requires { place < length most.now }
    ensures { result ≡ slice_index (drop (suc place) most.now) (to - suc place) }
{
    if to > place {
        read(most, to)
    } else {
        read(most, place + 1)
    }
}

// The most from a place on, where the list of a loop that begins here has room for so many, and
// the loop ends before that place.
#[inline(always)]
fn most_from(
    part: Part,
    most: &[u32],
    place: usize,
    price: u32,
    room: u16,
    end: usize,
    instruction: &Instruction,
) -> u32
    requires { place < length most.now }
    ensures { (is : List Instruction) → loop_end (suc place) is ≡ end → result
        ≡ most_from (stopping part) place (going_of instruction.now) price room is
        (λ to. slice_index (drop (suc place) most.now) (to - suc place)) }
{
    match instruction {
        Instruction::Jump(to) => join(part, price, look(most, place, *to as usize)),
        Instruction::Branch(to) => join(
            part,
            price,
            look(most, place, place + 1).max(look(most, place, *to as usize)),
        ),
        Instruction::Foreach(_) | Instruction::Map(_) => join(
            part,
            price,
            join(
                part,
                repeat(part, room, look(most, place, place + 1)),
                look(most, place, end),
            ),
        ),
        Instruction::Next | Instruction::Yield => price,
        _ => join(part, price, look(most, place, place + 1)),
    }
}

/// Returns where the code goes on after the innermost loop.
pub(crate) fn loop_end(ends: &[usize]) -> usize
    ensures { result ≡ slice_index (reverse ends.now) 0 }
{
    ends.last().copied().unwrap_or(0)
}

/// Follows, from the end back, the loops that are open.
pub(crate) fn follow_back(
    ends: &mut Vec<usize>,
    place: usize,
    instruction: &Instruction,
) -> Result<(), NoMemory>
    requires { place < 2 ^ 63 }
    ensures { IfOk result (λ _. reverse ends.new.items
        ≡ ends_before (bracket instruction.now) place (reverse ends.old.items)) }
{
    match instruction {
        Instruction::Foreach(_) | Instruction::Map(_) => {
            let _ = ends.pop();
        }
        Instruction::Next | Instruction::Yield => ends.push(place + 1)?,
        _ => {}
    }
    Ok(())
}

// Fills in a place of a table, from those behind it.
#[inline(always)]
fn fill_place(
    part: Part,
    most: &mut Vec<u32>,
    place: usize,
    note: &Note,
    end: usize,
    instruction: &Instruction,
)
    requires { place < length most.old.items }
    ensures { (is : List Instruction) → loop_end (suc place) is ≡ end → most.new.items
        ≡ set most.old.items place (most_from (stopping part) place (going_of instruction.now)
        (price_in part note.now) note.now.room is
        (λ to. slice_index (drop (suc place) most.old.items) (to - suc place))) }
{
    let price = price_in(part, note);
    let found = most_from(part, most, place, price, note.room, end, instruction);
    most[place] = found;
}

/// Returns the budget of a block, by the notes of its places and of its end: the most of all ways through it, each number up to
/// the first one above its limit. All four tables are filled in one pass.
pub(crate) fn budget_noted(
    alloc: Global,
    notes: &[Note],
    lines: &[Instruction],
) -> Result<Budget, NoMemory>
    requires { length notes.now ≡ length lines.now + 1 }
    ensures { IfOk result (λ budget. numbers_seen budget ≡ budget_noted notes.now lines.now) }
{
    let mut counts = Vec::from_elem(alloc, 0, notes.len())?;
    let mut looks = Vec::from_elem(alloc, 0, notes.len())?;
    let mut puts = Vec::from_elem(alloc, 0, notes.len())?;
    let mut words = Vec::from_elem(alloc, 0, notes.len())?;
    let mut ends = Vec::new(alloc);
    let mut place = lines.len();
    let last = note_at(notes, place);
    counts[place] = last.count;
    looks[place] = last.looks;
    puts[place] = last.puts;
    words[place] = last.words;
    while place > 0 {
        place -= 1;
        let line = &lines[place];
        let note = note_at(notes, place);
        let end = loop_end(&ends);
        fill_place(Part::Count, &mut counts, place, &note, end, line);
        fill_place(Part::Looks, &mut looks, place, &note, end, line);
        fill_place(Part::Puts, &mut puts, place, &note, end, line);
        fill_place(Part::Words, &mut words, place, &note, end, line);
        follow_back(&mut ends, place, line)?;
    }
    Ok(Budget {
        instructions: u64::from(read(&counts, 0)),
        reads: u64::from(read(&looks, 0)),
        puts: u64::from(read(&puts, 0)),
        words: u64::from(read(&words, 0)),
    })
}
