//! Walks through a block, place by place, and keeps the kinds of the operands and the open loops.
ghost use Rattle.std.specs.Prelude.{◌≡◌, ◌<◌, ◌+◌, ◌^◌, ◌&&◌, ℕ, [], ◌∷◌, length, map, reverse, IfOk, is_some, slice_get};
ghost use Rattle.rpl_tree.specs.Budget.{capped, limits};
ghost use Rattle.rpl_verify.specs.Kinds.{are_same_kinds, top_of, words_of_all};
ghost use Rattle.rpl_verify.specs.Places.{Opener, bracket, closed, declared_by, is_same_loop, loop_of, openers_behind, rest_of, spots, start_of};
ghost use Rattle.rpl_verify.specs.Fits.{before, innermost, is_same_place, landing, room_on_top};
ghost use Rattle.rpl_verify.specs.Budget.{words_of_loop, words_of_loops};
ghost use Rattle.rpl_verify.specs.Stacks.{at, Grows};
ghost use Rattle.rpl_verify.specs.Walks.{IsRooted, IsNumberOf, IsDeclared, opener_of, openers_of};
ghost use Rattle.rpl_verify.specs.Walked.{Closes, Lands, are_shut, declares, is_declared, landed, with_kinds, with_loop, without_top};

use crate::VerifyKind;
use crate::kinds::room_of;
use crate::list_loop::Loop;
use crate::place_fault::PlaceFault;
use crate::stacks::{Stacks, WORDS_CAP};
use rpl_code::{Instruction, OperandKinds, ValueKind};
use rw_base::NoMemory;
use std::alloc::Global;
use std::marker::Model;

/// A loop that is open: the place where it begins, its sort, for how many elements its list has room, and the number of the
/// operands under that list.
#[derive(Clone, Copy)]
pub(crate) struct OpenLoop {
    start: u32,
    sort: Loop,
    room: u16,
    under: u32,
}

/// What jumps have to know of a place: where the innermost loop begins, and the number of the kinds that are declared.
#[derive(Clone, Copy)]
pub(crate) struct Landing {
    innermost: Option<u32>,
    declares: Option<u32>,
}

/// Where a loop begins, and its sort.
#[derive(Clone, Copy)]
pub(crate) struct Beginning {
    start: u32,
    sort: Loop,
}

/// What is before a place of a block, and what jumps have to know of each place.
#[derive(Drop)]
pub(crate) struct Walk {
    stacks: Stacks,
    kinds: u32,
    opens: Vec<OpenLoop>,
    landings: Vec<Landing>,
    loop_words: u64,
}

impl Model for Walk {
    ghost use Rattle.rpl_verify.specs.Walked.{Walked};
    ghost use Rattle.rpl_verify.specs.Walks.{walked, IsSoundWalk};

    ghost Value = { Walked };

    ghost view = { λ w. walked w.stacks w.kinds w.opens.items w.landings.items };

    ghost invariant = { λ w.
        IsSoundWalk w.stacks w.kinds w.opens.items w.landings.items w.loop_words };
}

// Whether two loops are the same.
fn is_same_place(a: Option<u32>, b: Option<u32>) -> bool
    ensures { result ≡ is_same_place a b }
{
    match (a, b) {
        (None, None) => true,
        (Some(x), Some(y)) => x == y,
        _ => false,
    }
}

// The words that an open loop takes.
fn loop_words(sort: Loop, room: u16) -> u64
    ensures words { result ≡ words_of_loop (loop_of sort) room }
    ensures few { result < 2 ^ 18 }
{
    match sort {
        Loop::Visiting => u64::from(room) + 3,
        Loop::Mapping => 2 * u64::from(room) + 4,
    }
}

// The number of these kinds, the last on top.
fn number_of(stacks: &mut Stacks, kinds: &[ValueKind]) -> Result<u32, NoMemory>
    requires { IsRooted stacks.old }
    ensures grows { Grows stacks.old stacks.new }
    ensures made { IfOk result (λ n. IsNumberOf stacks.new n (reverse kinds.now)) }
{
    let mut number = 0;
    for kind in kinds {
        number = stacks.push(number, *kind)?;
    }
    Ok(number)
}

// The number of the kinds of operands.
fn number_of_all(stacks: &mut Stacks, kinds: &OperandKinds) -> Result<u32, NoMemory>
    requires { IsRooted stacks.old }
    ensures grows { Grows stacks.old stacks.new }
    ensures made { IfOk result (λ n. IsNumberOf stacks.new n (reverse kinds.now)) }
{
    match kinds.as_slice() {
        Some(kinds) => number_of(stacks, kinds),
        None => {
            let kinds = kinds.to_vec()?;
            number_of(stacks, kinds.as_slice())
        }
    }
}

// The number of the kinds that an instruction declares.
fn declare(stacks: &mut Stacks, instruction: &Instruction) -> Result<Option<u32>, NoMemory>
    requires { IsRooted stacks.old }
    ensures grows { Grows stacks.old stacks.new }
    ensures made { IfOk result (λ n. IsDeclared stacks.new n (declared_by instruction.now)) }
{
    match instruction {
        Instruction::Target(kinds) => {
            let number = number_of_all(stacks, kinds)?;
            Ok(Some(number))
        }
        _ => Ok(None),
    }
}

// Closes the innermost loop, if it is of this sort.
fn leave(openers: &mut Vec<Beginning>, sort: Loop)
    ensures { openers_of openers.new.items
        ≡ closed (loop_of sort) (openers_of openers.old.items) }
{
    match openers.last().copied() {
        None => {}
        Some(last) => {
            if is_same_loop(sort, last.sort) {
                let _ = openers.pop();
            }
        }
    }
}

// Follows the loops that are open.
fn follow(
    openers: &mut Vec<Beginning>,
    place: u32,
    instruction: &Instruction,
) -> Result<(), NoMemory>
    ensures { IfOk result (λ _. openers_of openers.new.items
        ≡ openers_behind (bracket instruction.now) place (openers_of openers.old.items)) }
{
    match instruction {
        Instruction::Foreach(_) => openers.push(Beginning {
            start: place,
            sort: Loop::Visiting,
        })?,
        Instruction::Map(_) => openers.push(Beginning {
            start: place,
            sort: Loop::Mapping,
        })?,
        Instruction::Next => leave(openers, Loop::Visiting),
        Instruction::Yield => leave(openers, Loop::Mapping),
        _ => {}
    }
    Ok(())
}

// Whether a loop is of this sort, and these are the operands under its list.
fn ends_here(stacks: &Stacks, last: &OpenLoop, sort: Loop, kinds: u32) -> bool
    requires under_in { last.now.under < length stacks.now }
    requires kinds_in { kinds < length stacks.now }
    ensures { result ≡ (is_same_loop (loop_of sort) (loop_of last.now.sort)
        && are_same_kinds (at stacks.now last.now.under) (at stacks.now kinds)) }
{
    is_same_loop(sort, last.sort) && stacks.same(last.under, kinds)
}

// Whether two loops are of one sort.
fn is_same_loop(a: Loop, b: Loop) -> bool
    ensures { result ≡ is_same_loop (loop_of a) (loop_of b) }
{
    match (a, b) {
        (Loop::Visiting, Loop::Visiting) => true,
        (Loop::Mapping, Loop::Mapping) => true,
        _ => false,
    }
}

// Where the innermost loop begins.
fn start_of(openers: &[Beginning]) -> Option<u32>
    ensures { result ≡ start_of (top_of (openers_of openers.now)) }
{
    match openers.last() {
        None => None,
        Some(last) => Some(last.start),
    }
}

impl Walk {
    /// Returns a walk before the first place of a block.
    pub(crate) fn of(alloc: Global, lines: &[Instruction]) -> Result<Walk, NoMemory>
        requires { length lines.now < 2 ^ 32 }
        ensures { IfOk result (λ walk. walk
            ≡ record { before = before [] []; spots = spots lines.now }) }
    {
        let mut landings = Vec::with_capacity(alloc, lines.len())?;
        let mut stacks = Stacks::new(alloc);
        let mut openers = Vec::new(alloc);
        for place in 0..lines.len() {
            let innermost = start_of(&openers);
            let line = &lines[place];
            let declares = declare(&mut stacks, line)?;
            landings.push(Landing {
                innermost,
                declares,
            })?;
            follow(&mut openers, place as u32, line)?;
        }
        Ok(Walk {
            stacks,
            kinds: 0,
            opens: Vec::new(alloc),
            landings,
            loop_words: 0,
        })
    }

    /// Returns the number of operands.
    pub(crate) fn height(&self) -> u32
        ensures { result ≡ length self.now.before.kinds }
    {
        self.stacks.height(self.kinds)
    }

    /// Returns the words of the operands and the open loops, up to the first number above the limit.
    pub(crate) fn words(&self) -> u32
        ensures { result ≡ capped limits.words
            (words_of_all self.now.before.kinds + words_of_loops self.now.before.loops) }
    {
        let words = u64::from(self.stacks.words(self.kinds)).saturating_add(self.loop_words);
        words.min(u64::from(WORDS_CAP)) as u32
    }

    /// Returns the kind on top.
    pub(crate) fn top(&self) -> Option<ValueKind>
        ensures { result ≡ top_of self.now.before.kinds }
    {
        self.stacks.top(self.kinds)
    }

    /// Returns for how many elements the list on top has room.
    pub(crate) fn room(&self) -> u16
        ensures { result ≡ room_on_top self.now.before.kinds }
    {
        match self.top() {
            None => 0,
            Some(kind) => room_of(kind),
        }
    }

    /// Returns for how many elements the list below the top has room.
    pub(crate) fn room_below(&self) -> u16
        ensures { result ≡ room_on_top (rest_of self.now.before.kinds) }
    {
        match self.stacks.top(self.stacks.below(self.kinds)) {
            None => 0,
            Some(kind) => room_of(kind),
        }
    }

    /// Removes the top.
    pub(crate) fn pop(&mut self)
        ensures { self.new ≡ without_top self.old }
    {
        self.kinds = self.stacks.below(self.kinds);
    }

    /// Puts a kind on top.
    pub(crate) fn push(&mut self, kind: ValueKind) -> Result<(), NoMemory>
        ensures { IfOk result (λ _. self.new
            ≡ with_kinds self.old (kind ∷ self.old.before.kinds)) }
    {
        let kinds = self.stacks.push(self.kinds, kind)?;
        self.kinds = kinds;
        Ok(())
    }

    /// Begins a loop at a place, over a list that is no longer among the operands.
    pub(crate) fn open(&mut self, start: u32, sort: Loop, room: u16) -> Result<(), NoMemory>
        ensures { IfOk result (λ _. self.new ≡ with_loop start (loop_of sort) room self.old) }
    {
        let Some(words) = self.loop_words.checked_add(loop_words(sort, room)) else {
            return Err(NoMemory);
        };
        self.opens.push(OpenLoop {
            start,
            sort,
            room,
            under: self.kinds,
        })?;
        self.loop_words = words;
        Ok(())
    }

    /// Ends the innermost loop, where the operands are those under its list, and returns for how many elements that has room.
    pub(crate) fn close(&mut self, sort: Loop) -> Result<u16, PlaceFault>
        ensures { Closes (loop_of sort) self.old self.new result }
    {
        let Some(last) = self.opens.pop() else {
            return Err(PlaceFault::Misfit(VerifyKind::WrongShape));
        };
        self.loop_words -= loop_words(last.sort, last.room);
        if !ends_here(&self.stacks, &last, sort, self.kinds) {
            return Err(PlaceFault::Misfit(VerifyKind::WrongShape));
        }
        Ok(last.room)
    }

    /// Returns where the innermost loop begins.
    pub(crate) fn innermost(&self) -> Option<u32>
        ensures { result ≡ innermost self.now.before.loops }
    {
        match self.opens.last() {
            None => None,
            Some(last) => Some(last.start),
        }
    }

    /// Refuses a jump to a place that is no target, or is in another loop.
    pub(crate) fn find(&self, to: u32) -> Result<(), PlaceFault>
        ensures { Lands (landing (innermost self.now.before.loops) (slice_get self.now.spots to))
            (declares self.now.spots to) result }
    {
        let here = self.innermost();
        let Some(landing) = self.landings.get(to as usize) else {
            return Err(PlaceFault::Misfit(VerifyKind::JumpOutside));
        };
        if landing.declares.is_none() {
            return Err(PlaceFault::Misfit(VerifyKind::JumpOutside));
        }
        if !is_same_place(here, landing.innermost) {
            return Err(PlaceFault::Misfit(VerifyKind::JumpOutside));
        }
        Ok(())
    }

    /// Returns whether the operands are those that are declared at a place.
    pub(crate) fn carries(&self, to: u32) -> bool
        ensures { result ≡ is_declared (declares self.now.spots to) self.now.before.kinds }
    {
        match self.landings.get(to as usize) {
            None => false,
            Some(landing) => match landing.declares {
                None => false,
                Some(kinds) => self.stacks.same(kinds, self.kinds),
            },
        }
    }

    /// Makes the operands those that are declared at a place, if any are, and returns whether any are.
    pub(crate) fn land(&mut self, to: u32) -> bool
        ensures landed { self.new ≡ landed (declares self.old.spots to) self.old }
        ensures told { result ≡ is_some (declares self.old.spots to) }
    {
        let kinds = match self.landings.get(to as usize) {
            None => None,
            Some(landing) => landing.declares,
        };
        match kinds {
            None => false,
            Some(number) => {
                self.kinds = number;
                true
            }
        }
    }

    /// Returns whether no loop is open.
    pub(crate) fn is_shut(&self) -> bool
        ensures { result ≡ are_shut self.now.before.loops }
    {
        self.opens.is_empty()
    }
}
