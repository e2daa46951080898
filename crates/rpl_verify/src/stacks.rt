//! Holds lists of kinds, each once: equal lists have one number.
ghost use Rattle.std.specs.Prelude.{◌≡◌, ◌<◌, ◌+◌, suc, [], ◌∷◌, length, IfOk};
ghost use Rattle.rpl_code.specs.Weight.{words_of};
ghost use Rattle.rpl_tree.specs.Budget.{capped, limits};
ghost use Rattle.rpl_verify.specs.Kinds.{are_same_kinds, top_of, words_of_all};
ghost use Rattle.rpl_verify.specs.Stacks.{at, key_of, kind_code, is_next, Grows, IsPushed, IsListBelow};

use crate::kinds::is_same_kind;
use rpl_code::ValueKind;
use rw_base::NoMemory;
use rw_base::limits::WORDS_MAX;
use std::alloc::Global;
use std::collections::BTreeMap;
use std::marker::Model;

/// The maximum number of words that is told apart: one above the limit of words.
pub(crate) const WORDS_CAP: u32 = WORDS_MAX as u32 + 1;

/// A list that is not empty: the kind on top, the number of the list below, how many kinds the list has, and how many words these
/// take, up to the first number above the limit.
#[derive(Clone, Copy)]
pub(crate) struct Node {
    kind: ValueKind,
    below: u32,
    height: u32,
    words: u32,
}

/// Lists of kinds, the last one first, each by its number. Number 0 is the empty list. A list that was made on the newest has the
/// next number, and is found by that; all others are found in the map.
#[derive(Drop)]
pub(crate) struct Stacks {
    nodes: Vec<Node>,
    numbers: BTreeMap<u64, u32>,
}

impl Model for Stacks {
    ghost use Rattle.std.specs.Prelude.{List};
    ghost use Rattle.rpl_code.specs.declared.kind.ValueKind.{ValueKind};
    ghost use Rattle.rpl_verify.specs.Stacks.{lists, IsKept};

    ghost Value = { List (List ValueKind) };

    ghost view = { λ s. lists s.nodes.items };

    ghost invariant = { λ s. IsKept s.nodes.items s.numbers };
}

// The number by which a list is looked up.
fn key(below: u32, kind: ValueKind) -> u64
    ensures key { result ≡ key_of below kind }
    ensures small { kind_code kind < 262144 }
{
    let code: u64 = match kind {
        ValueKind::N => 0,
        ValueKind::B => 1,
        ValueKind::D => 2,
        ValueKind::S => 3,
        ValueKind::NList(room) => 4 + 2 * u64::from(room),
        ValueKind::SList(room) => 5 + 2 * u64::from(room),
    };
    u64::from(below) * 262144 + code
}

// The words of a kind and of those below it.
fn words_above(kind: ValueKind, below: u32) -> u32
    requires { below < 1000002 }
    ensures { result ≡ capped limits.words (words_of kind + below) }
{
    (kind.words() + below).min(WORDS_CAP)
}

// Whether the list of the next number is this one, with this kind on top.
#[inline(always)]
fn is_next(nodes: &[Node], below: u32, kind: ValueKind) -> bool
    ensures { result ≡ is_next nodes.now below kind }
{
    match nodes.get(below as usize) {
        None => false,
        Some(node) => node.below == below && is_same_kind(node.kind, kind),
    }
}

impl Stacks {
    /// Returns the empty list alone.
    pub(crate) fn new(alloc: Global) -> Stacks
        ensures { result ≡ [] ∷ [] }
    {
        Stacks {
            nodes: Vec::new(alloc),
            numbers: BTreeMap::new(alloc),
        }
    }

    // The number of the newest list with one kind more.
    fn push_newest(&mut self, below: u32, kind: ValueKind) -> Result<u32, NoMemory>
        requires newest { length self.old ≡ suc below }
        requires few { suc below < 4294967296 }
        requires small { kind_code kind < 262144 }
        ensures grows { Grows self.old self.new }
        ensures made { IfOk result (λ n. IsPushed self.old self.new kind below n) }
    {
        let height = self.height(below) + 1;
        let words = words_above(kind, self.words(below));
        self.nodes.push(Node {
            kind,
            below,
            height,
            words,
        })?;
        Ok(below + 1)
    }

    /// Returns the number of a list with one kind more. The next one is looked at in place, since it mostly is that one.
    #[inline(always)]
    pub(crate) fn push(&mut self, below: u32, kind: ValueKind) -> Result<u32, NoMemory>
        requires { below < length self.old }
        ensures grows { Grows self.old self.new }
        ensures made { IfOk result (λ n. IsPushed self.old self.new kind below n) }
    {
        if self.nodes.len() >= 4294967295 {
            return Err(NoMemory);
        }
        if is_next(&self.nodes, below, kind) {
            return Ok(below + 1);
        }
        self.push_found(below, kind)
    }

    // The number of a list with one kind more, wherever it is found.
    #[inline(never)]
    fn push_found(&mut self, below: u32, kind: ValueKind) -> Result<u32, NoMemory>
        requires { below < length self.old }
        ensures grows { Grows self.old self.new }
        ensures made { IfOk result (λ n. IsPushed self.old self.new kind below n) }
    {
        if self.nodes.len() >= 4294967295 {
            return Err(NoMemory);
        }
        let at = key(below, kind);
        if below as usize == self.nodes.len() {
            return self.push_newest(below, kind);
        }
        if is_next(&self.nodes, below, kind) {
            return Ok(below + 1);
        }
        match self.numbers.get(&at).copied() {
            Some(number) => Ok(number),
            None => {
                let height = self.height(below) + 1;
                let words = words_above(kind, self.words(below));
                self.nodes.push(Node {
                    kind,
                    below,
                    height,
                    words,
                })?;
                let number = self.nodes.len() as u32;
                match self.numbers.insert(at, number) {
                    Ok(_) => Ok(number),
                    Err(_) => {
                        self.nodes.truncate(number as usize - 1);
                        Err(NoMemory)
                    }
                }
            }
        }
    }

    /// Returns the last kind of a list.
    pub(crate) fn top(&self, n: u32) -> Option<ValueKind>
        requires { n < length self.now }
        ensures { result ≡ top_of (at self.now n) }
    {
        let _nodes = &self.nodes;
        if n == 0 {
            return None;
        }
        Some(self.nodes[n as usize - 1].kind)
    }

    /// Returns a list without its last kind.
    pub(crate) fn below(&self, n: u32) -> u32
        requires { n < length self.now }
        ensures { IsListBelow self.now n result }
    {
        let _nodes = &self.nodes;
        if n == 0 {
            return 0;
        }
        self.nodes[n as usize - 1].below
    }

    /// Returns the number of kinds in a list.
    pub(crate) fn height(&self, n: u32) -> u32
        requires { n < length self.now }
        ensures { result ≡ length (at self.now n) }
    {
        let _nodes = &self.nodes;
        if n == 0 {
            return 0;
        }
        self.nodes[n as usize - 1].height
    }

    /// Returns the number of words that the kinds of a list take, up to the first number above the limit.
    pub(crate) fn words(&self, n: u32) -> u32
        requires { n < length self.now }
        ensures { result ≡ capped limits.words (words_of_all (at self.now n)) }
    {
        let _nodes = &self.nodes;
        if n == 0 {
            return 0;
        }
        self.nodes[n as usize - 1].words
    }

    /// Returns whether two lists are the same.
    pub(crate) fn same(&self, a: u32, b: u32) -> bool
        requires a_in { a < length self.now }
        requires b_in { b < length self.now }
        ensures { result ≡ are_same_kinds (at self.now a) (at self.now b) }
    {
        let _nodes = &self.nodes;
        if a == b {
            return true;
        }
        false
    }
}
