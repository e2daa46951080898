//! Keeps the puts of a firing.
ghost use Rattle.std.specs.Prelude.{◌≡◌, ◌<◌, ◌++◌, ◌∷◌, [], length, IfOk};
ghost use Rattle.rpl_machine.specs.Steps.{puts_max};

use rw_base::NoMemory;
use rw_base::limits::PUTS_MAX;
use rw_firing::RulePut;
use std::alloc::Global;
use std::marker::Model;

// For how many there is room: one more than a budget allows.
const ROOM: usize = PUTS_MAX as usize + 1;

/// The puts of a firing, seen as their list. Only `with_room` takes memory.
#[derive(Drop)]
pub(crate) struct Puts {
    puts: Vec<RulePut>,
}

impl Model for Puts {
    ghost use Rattle.std.specs.Prelude.{List, ◌≤◌};
    ghost use Rattle.rw_firing.specs.declared.fire.RulePut.{RulePut};
    ghost use Rattle.rpl_machine.specs.Steps.{puts_max};

    ghost Value = { List RulePut };

    ghost view = { λ s. s.puts.items };

    ghost invariant = { λ s. puts_max ≤ s.puts.cap };
}

impl Puts {
    /// None.
    pub(crate) fn with_room(alloc: Global) -> Result<Puts, NoMemory>
        ensures { IfOk result (λ s. s ≡ []) }
    {
        let puts = Vec::with_capacity(alloc, ROOM)?;
        Ok(Puts { puts })
    }

    /// Takes out all.
    pub(crate) fn clear(&mut self)
        ensures { self.new ≡ [] }
    {
        self.puts.clear();
    }

    /// One more, behind all others.
    pub(crate) fn push(&mut self, put: RulePut)
        requires { length self.old < puts_max }
        ensures { self.new ≡ self.old ++ put ∷ [] }
    {
        self.puts.push_reserved(put);
    }

    /// All of them, in order.
    pub(crate) fn as_slice(&self) -> &[RulePut]
        ensures { result.now ≡ self.now }
    {
        &self.puts
    }
}
