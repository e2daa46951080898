//! Decides which calls of a shelf or a sink in memory fail.
ghost use Rattle.std.specs.Prelude.{◌≡◌, ◌+◌, ◌-◌, ◌^◌, ◌↔◌, min, IsTrue, Contains};

/// Calls, counted from 1, of which those with given numbers are to fail.
#[derive(Drop)]
pub(crate) struct Plan {
    pub(crate) failing: Vec<u64>,
    pub(crate) calls: u64,
}

impl Plan {
    /// Counts one more call, up to 2^64 - 1, and returns whether it is to fail.
    pub(crate) fn next_fails(&mut self) -> bool
        ensures failing { self.new.failing ≡ self.old.failing }
        ensures calls { self.new.calls ≡ min (self.old.calls + 1) (2 ^ 64 - 1) }
        ensures fails { IsTrue result ↔ Contains self.old.failing.items self.new.calls }
    {
        self.calls = self.calls.saturating_add(1);
        self.failing.contains(&self.calls)
    }
}
