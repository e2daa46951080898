//! Keeps the blocks that wait for one that they called.
ghost use Rattle.std.specs.Prelude.{◌≡◌, ◌<◌, ◌∷◌, [], length, IfOk, MatchOption};
ghost use Rattle.rpl_machine.specs.Steps.{calls_max};

use crate::call::Call;
use rw_base::NoMemory;
use rw_base::limits::RULES_MAX;
use std::alloc::Global;
use std::marker::Model;

// For how many there is room: for each block that there can be.
const CALLS_MAX: usize = 2 * RULES_MAX as usize;

/// The blocks that wait, seen as their list with the last caller first. Only `with_room` takes memory.
#[derive(Drop)]
pub(crate) struct Calls {
    calls: Vec<Call>,
}

impl Model for Calls {
    ghost use Rattle.std.specs.Prelude.{List, reverse, ◌≤◌};
    ghost use Rattle.rpl_machine.specs.declared.call.Call.{Call};
    ghost use Rattle.rpl_machine.specs.Steps.{calls_max};

    ghost Value = { List Call };

    ghost view = { λ s. reverse s.calls.items };

    ghost invariant = { λ s. calls_max ≤ s.calls.cap };
}

impl Calls {
    /// None.
    pub(crate) fn with_room(alloc: Global) -> Result<Calls, NoMemory>
        ensures { IfOk result (λ s. s ≡ []) }
    {
        let calls = Vec::with_capacity(alloc, CALLS_MAX)?;
        Ok(Calls { calls })
    }

    /// Takes out all.
    pub(crate) fn clear(&mut self)
        ensures { self.new ≡ [] }
    {
        self.calls.clear();
    }

    /// One more.
    pub(crate) fn push(&mut self, call: Call)
        requires { length self.old < calls_max }
        ensures { self.new ≡ call ∷ self.old }
    {
        self.calls.push_reserved(call);
    }

    /// Takes out the one that came last.
    pub(crate) fn pop(&mut self) -> Option<Call>
        ensures { MatchOption result ((self.old ≡ []) × (self.new ≡ []))
            (λ call. self.old ≡ call ∷ self.new) }
    {
        self.calls.pop()
    }
}
