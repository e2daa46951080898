//! Holds the names in scope, of which an inner one hides the outer ones of the same name.
ghost use Rattle.std.specs.Prelude.{◌≡◌, ◌∷◌, [], OnErr, OnOk, length};
ghost use Rattle.rpl_scope.specs.Scope.{first_named, outer_entries};

use rw_base::NoMemory;
use std::alloc::Global;
use std::collections::BTreeMap;
use std::marker::Model;

/// A name, what it stands for, and the place of the next outer entry of the name.
#[derive(Drop)]
pub(crate) struct Entry<'a, T: Copy> {
    pub(crate) name: &'a [u8],
    pub(crate) means: T,
    pub(crate) outer: Option<usize>,
}

/// Names that stand for something, the innermost of each found first.
#[derive(Drop)]
pub struct Scope<'a, T: Copy> {
    entries: Vec<Entry<'a, T>>,
    innermost: BTreeMap<&'a [u8], usize>,
}

impl<'a, T: Copy> Model for Scope<'a, T> {
    ghost use Rattle.std.specs.Prelude.{ℕ, List, reverse};
    ghost use Rattle.rpl_scope.specs.Scope.{IsKept, entries_of};

    ghost Value = { List (List ℕ × T) };

    ghost view = { λ s. entries_of (reverse s.entries.items) };

    ghost invariant = { λ s. IsKept (reverse s.entries.items) s.innermost };
}

impl<'a, T: Copy> Scope<'a, T> {
    /// Returns the scope of no names.
    pub fn new(alloc: Global) -> Scope<'a, T>
        ensures { result ≡ [] }
    {
        Scope {
            entries: Vec::new(alloc),
            innermost: BTreeMap::new(alloc),
        }
    }

    /// Returns what the innermost entry of a name stands for. `None` exactly where there is no such name.
    pub fn find(&self, name: &'a [u8]) -> Option<T>
        ensures { result ≡ first_named self.now name.entry.now }
    {
        match self.innermost.get(name).copied() {
            None => None,
            Some(place) => Some(self.entries[place].means),
        }
    }

    /// Adds a name, which becomes the innermost of all. The one error is want of memory, after which the names are those that
    /// were there.
    pub fn push(&mut self, name: &'a [u8], means: T) -> Result<(), NoMemory>
        ensures ok { OnOk result (self.new ≡ (name.entry.now, means) ∷ self.old) }
        ensures err { OnErr result (self.new ≡ self.old) }
    {
        let outer = self.innermost.get(name).copied();
        let place = self.entries.len();
        self.entries.push(Entry { name, means, outer })?;
        match self.innermost.insert(name, place) {
            Ok(_) => Ok(()),
            Err(_) => {
                let _ = self.entries.pop();
                Err(NoMemory)
            }
        }
    }

    /// Removes the innermost name, if there is one.
    pub fn pop(&mut self)
        ensures { self.new ≡ outer_entries self.old }
    {
        let Some(entry) = self.entries.pop() else {
            return;
        };
        match entry.outer {
            None => {
                let _ = self.innermost.remove(entry.name);
            }
            // The name is there, so that this takes no memory.
            Some(place) => match self.innermost.insert(entry.name, place) {
                Ok(_) => {}
                Err(_) => {}
            },
        }
    }
}
