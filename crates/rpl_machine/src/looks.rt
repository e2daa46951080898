//! Keeps the looks of a firing.
ghost use Rattle.std.specs.Prelude.{◌≡◌, ◌≤◌, ◌<◌, ◌∷◌, ◌++◌, [], length, vec_capacity, IfOk};
ghost use Rattle.rpl_machine.specs.Steps.{looks_max};

use rw_base::limits::LOOKS_MAX;
use rw_base::{Cell, NoMemory, Qty};
use rw_firing::Look;
use std::alloc::Global;
use std::marker::Model;

// For how many looks there is room: one more than a budget allows.
const ROOM: usize = LOOKS_MAX as usize + 1;

/// The looks of a firing, with room for 20,001 of them, seen as their list. Only `with_room` takes memory.
#[derive(Drop)]
pub(crate) struct Looks {
    looks: Vec<Look>,
}

impl Model for Looks {
    ghost use Rattle.std.specs.Prelude.{List, ◌≤◌};
    ghost use Rattle.rw_firing.specs.declared.look.Look.{Look};
    ghost use Rattle.rpl_machine.specs.Steps.{looks_max};

    ghost Value = { List Look };

    ghost view = { λ s. s.looks.items };

    ghost invariant = { λ s. looks_max ≤ s.looks.cap };
}

impl Looks {
    /// No looks.
    pub(crate) fn with_room(alloc: Global) -> Result<Looks, NoMemory>
        ensures { IfOk result (λ s. s ≡ []) }
    {
        let looks = Vec::with_capacity(alloc, ROOM)?;
        Ok(Looks { looks })
    }

    /// Takes out all looks.
    pub(crate) fn clear(&mut self)
        ensures { self.new ≡ [] }
    {
        self.looks.clear();
    }

    /// A look more behind all others.
    pub(crate) fn push(&mut self, look: Look)
        requires { length self.old < looks_max }
        ensures { self.new ≡ self.old ++ look ∷ [] }
    {
        push(&mut self.looks, look.cell, look.seen);
    }

    /// The looks, first one first.
    pub(crate) fn as_slice(&self) -> &[Look]
        ensures { result.now ≡ self.now }
    {
        self.looks.as_slice()
    }
}

// Adds a look behind all others, for which there is room.
fn push(looks: &mut Vec<Look>, cell: Cell, seen: Option<Qty>)
    requires { length looks.old.items < vec_capacity looks.old }
    ensures items { looks.new.items ≡ looks.old.items ++ record { cell = cell; seen = seen } ∷ [] }
    ensures room { vec_capacity looks.new ≡ vec_capacity looks.old }
{
    looks.push_reserved(Look { cell, seen });
}
