//! Holds the bounds that a model gives to its slots.
ghost use Rattle.std.specs.Prelude.{◌≡◌, [], ◌∷◌, ◌++◌, None, OnOk, OnErr};
ghost use Rattle.rw_model.specs.Draft.{bound_of};

use indexmap::IndexMap;
use rw_base::NoMemory;
use std::alloc::Global;
use std::marker::Model;

/// The bounds of their own that slots have, in the order of the calls.
#[derive(Drop)]
pub(crate) struct OwnBounds {
    bounds: IndexMap<u16, (i64, i64)>,
}

impl Model for OwnBounds {
    ghost use Rattle.std.specs.Prelude.{List};
    ghost use Rattle.rw_model.specs.Draft.{Bound};
    ghost use Rattle.rw_model.specs.Kept.{bounds_of};

    ghost Value = { List Bound };

    ghost view = { λ b. bounds_of b.bounds.entries };
}

impl OwnBounds {
    /// Returns the list in which no slot has bounds.
    pub(crate) fn new(alloc: Global) -> OwnBounds
        ensures { result ≡ [] }
    {
        OwnBounds {
            bounds: IndexMap::new(alloc),
        }
    }

    /// Returns the bounds of its own that the slot has, if it has any.
    pub(crate) fn get(&self, slot: u16) -> Option<(i64, i64)>
        ensures { result ≡ bound_of self.now slot }
    {
        self.bounds.get(&slot).copied()
    }

    /// Gives a slot bounds.
    pub(crate) fn add(&mut self, slot: u16, bounds: (i64, i64)) -> Result<(), NoMemory>
        requires { bound_of self.old slot ≡ None }
        ensures ok { OnOk result
            (self.new ≡ self.old ++ record { slot = slot; bounds = bounds } ∷ []) }
        ensures err { OnErr result (self.new ≡ self.old) }
    {
        self.bounds.insert(slot, bounds)?;
        Ok(())
    }
}
