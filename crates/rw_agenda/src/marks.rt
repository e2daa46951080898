//! Holds which rules are marked, and finds the first of them in the agenda's order.
ghost use Rattle.std.specs.Prelude.{◌≡◌, ◌≤◌, ◌<◌, ◌/◌, ◌%◌, ◌==◌, IfOk, None, Some, if◌then◌else◌, nat_lt, true, false, length, replicate, set, vec_len};
ghost use Rattle.rw_agenda.specs.Marks.{IsFirstBit, IsFirstMarked, IsFirstOf, all_marked, with_mark};

use crate::limits::{RULES_MAX, TURN_WORDS};
use crate::turns::turn_of;
use rw_base::{NoMemory, clear_bit, set_bit};
use rw_model::AgendaOrder;
use std::alloc::Global;
use std::marker::Model;

/// The rules that are marked. Their turns are kept as bits too, so that the first of them is found without looking at the others.
#[derive(Drop)]
pub(crate) struct Marks {
    order: AgendaOrder,
    flags: Vec<bool>,
    turns: Vec<u64>,
}

impl Model for Marks {
    ghost use Rattle.rw_agenda.specs.Marks as specs;

    ghost Value = { specs.Marks };

    ghost view = { λ marks. record { order = marks.order; flags = marks.flags.items } };

    ghost invariant = { λ marks. specs.AreTurns marks.order marks.flags.items marks.turns.items };
}

impl Marks {
    /// Returns the marks of `rules` rules, each of which is marked. No other call takes memory.
    pub(crate) fn of_all(alloc: Global, order: AgendaOrder, rules: usize) -> Result<Marks, NoMemory>
        requires { rules ≤ RULES_MAX }
        ensures { IfOk result (λ marks. marks ≡ all_marked order rules) }
    {
        let flags = Vec::from_elem(alloc, true, rules)?;
        let turns = Vec::from_elem(alloc, u64::MAX, TURN_WORDS)?;
        Ok(Marks {
            order,
            flags,
            turns,
        })
    }

    /// Returns the order in which rules are taken.
    pub(crate) fn order(&self) -> AgendaOrder
        ensures { result ≡ self.now.order }
    {
        self.order
    }

    /// Marks each rule.
    pub(crate) fn set_all(&mut self)
        ensures { self.new ≡ all_marked self.old.order (length self.old.flags) }
    {
        self.flags.fill(true);
        self.turns.fill(u64::MAX);
    }

    /// Marks the rule in a place, if there is one.
    pub(crate) fn set(&mut self, place: u16)
        ensures { self.new ≡ with_mark self.old place true }
    {
        if usize::from(place) < self.flags.len() {
            let turn = turn_of(self.order, self.flags.len() as u16, place);
            self.flags[usize::from(place)] = true;
            set_bit(self.turns.as_mut_slice(), turn);
        }
    }

    /// Removes the mark of the rule in a place.
    pub(crate) fn clear(&mut self, place: u16)
        requires { place < length self.old.flags }
        ensures { self.new ≡ with_mark self.old place false }
    {
        let turn = turn_of(self.order, self.flags.len() as u16, place);
        self.flags[usize::from(place)] = false;
        clear_bit(self.turns.as_mut_slice(), turn);
    }

    /// Returns the first turn of a marked rule from this one on.
    pub(crate) fn first_from(&self, turn: u16) -> Option<u16>
        ensures { IsFirstMarked self.now turn result }
    {
        match first_turn(self.turns.as_slice(), turn) {
            Some(first) => within(first, self.flags.len()),
            None => None,
        }
    }
}

// The first turn from this one on.
fn first_turn(words: &[u64], from: u16) -> Option<u16>
    requires { length words.now ≡ TURN_WORDS }
    ensures { IsFirstOf words.now from result }
{
    for place in usize::from(from / 64)..words.len() {
        if let Some(bit) = first_bit(words[place], low_bit(from, place)) {
            return Some(place as u16 * 64 + bit);
        }
    }
    None
}

// The bit in this word from which on turns count.
fn low_bit(from: u16, place: usize) -> u16
    ensures { result ≡ (if from / 64 == place then from % 64 else 0) }
{
    if usize::from(from / 64) == place {
        from % 64
    } else {
        0
    }
}

// The first bit of a word that is set, from this one on.
fn first_bit(word: u64, from: u16) -> Option<u16>
    requires { from < 64 }
    ensures { IsFirstBit word from result }
{
    let left = word >> from;
    if left == 0 {
        None
    } else {
        Some(from + left.trailing_zeros() as u16)
    }
}

// The turn, if it is one of so many rules.
fn within(turn: u16, rules: usize) -> Option<u16>
    ensures { result ≡ (if nat_lt turn rules then Some turn else None) }
{
    if usize::from(turn) < rules {
        Some(turn)
    } else {
        None
    }
}
