//! Holds the functions that can be called, and finds them by their names.
ghost use Rattle.std.specs.Prelude.{◌≡◌, ◌∷◌, [], OnErr, OnOk, option_map, slice_get};
ghost use Rattle.rpl_budget.specs.Pass as Pass;
ghost use Rattle.rpl_budget.specs.Seen.{priced_or_none, priced_seen};

use crate::known::Known;
use rpl_scope::Scope;
use rw_base::NoMemory;
use std::alloc::Global;
use std::marker::Model;

/// Functions in the order in which they were declared, and the place of each by its name.
#[derive(Drop)]
pub(crate) struct Functions<'a> {
    known: Vec<Known<'a>>,
    places: Scope<'a, usize>,
}

impl<'a> Model for Functions<'a> {
    ghost use Rattle.std.specs.Prelude.{◌≡◌, List, reverse};
    ghost use Rattle.rpl_budget.specs.Pass.{Priced};
    ghost use Rattle.rpl_budget.specs.Seen.{functions_of, places_of};

    ghost Value = { List Priced };

    ghost view = { λ f. functions_of f.known.items };

    ghost invariant = { λ f. f.places ≡ places_of (reverse f.known.items) };
}

// The function at a place, if there is one.
fn function_at<'a, 'k>(known: &'k [Known<'a>], place: usize) -> Option<&'k Known<'a>>
    ensures { option_map (λ function. function.now) result ≡ slice_get known.now place }
{
    known.get(place)
}

impl<'a> Functions<'a> {
    /// Returns no functions.
    pub(crate) fn new(alloc: Global) -> Functions<'a>
        ensures { result ≡ [] }
    {
        Functions {
            known: Vec::new(alloc),
            places: Scope::new(alloc),
        }
    }

    /// Returns the function of a name that was declared last.
    pub(crate) fn find(&self, name: &'a [u8]) -> Option<&Known<'a>>
        ensures { priced_or_none (option_map (λ f. f.now) result)
            ≡ Pass.priced_named self.now name.entry.now }
    {
        match self.places.find(name) {
            None => None,
            Some(place) => function_at(self.known.as_slice(), place),
        }
    }

    /// Adds a function, which is then the last. The one error is want of memory, after which the functions are those that were
    /// there.
    pub(crate) fn push(&mut self, function: Known<'a>) -> Result<(), NoMemory>
        ensures ok { OnOk result (self.new ≡ priced_seen function.entry ∷ self.old) }
        ensures err { OnErr result (self.new ≡ self.old) }
    {
        self.known.reserve(1)?;
        self.places.push(function.name, self.known.len())?;
        self.known.push_reserved(function);
        Ok(())
    }
}
