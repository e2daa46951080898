//! Keeps written text in memory as a sink, and lets given calls fail.
ghost use Rattle.std.specs.Prelude.{◌≡◌, ◌+◌, ◌-◌, ◌^◌, ◌<◌, ◌≤◌, [], Some, length, min, Contains, IsErr, IfOk, OnOk, OnErr};

use crate::plan::Plan;
use crate::{Sink, SinkFault};
use std::alloc::Global;

/// Text in memory, which contracts know. Each piece is taken whole. The calls of `write` are counted from 1, and those with given
/// numbers fail, unless the piece is empty. Where there is no memory for a piece, that is a fault.
#[derive(Drop)]
pub struct MemSink {
    bytes: Vec<u8>,
    plan: Plan,
    faults: u64,
}

impl MemSink {
    ghost use Rattle.rw_io.specs.MemSink.{calls_of, failing_of, seen_of};

    /// Returns an empty sink, of which the calls with the given numbers, counted from 1, are to fail.
    pub fn of(alloc: Global, failing: Vec<u64>) -> MemSink
        ensures empty { (seen_of result).contents ≡ Some [] }
        ensures no_faults { (seen_of result).faults ≡ 0 }
        ensures failing { failing_of result ≡ failing.items }
        ensures no_calls { calls_of result ≡ 0 }
    {
        MemSink {
            bytes: Vec::new(alloc),
            plan: Plan { failing, calls: 0 },
            faults: 0,
        }
    }

    /// Returns the text that was kept.
    pub fn held(&self) -> &[u8]
        ensures { (seen_of self.now).contents ≡ Some result.now }
    {
        &self.bytes
    }
}

impl Sink for MemSink {
    ghost use Rattle.rw_io.specs.MemSink.{calls_of, failing_of, seen_of};
    ghost use Rattle.rw_io.specs.Calls.{TakesWrite};
    ghost use Rattle.rw_io.specs.Outside.{change};

    ghost seen = { seen_of };

    fn write(&mut self, piece: &[u8]) -> Result<usize, SinkFault>
        ensures takes { TakesWrite piece.now (change (seen_of self.old) (seen_of self.new)) result }

        // A piece is taken whole, and a call that is to fail does.
        ensures whole { IfOk result (λ n. n ≡ length piece.now) }
        ensures no_fault { OnOk result ((seen_of self.new).faults ≡ (seen_of self.old).faults) }
        ensures fails { Contains (failing_of self.old) (calls_of self.new)
            → 0 < length piece.now → IsErr result }
        ensures calls { calls_of self.new ≡ min (calls_of self.old + 1) (2 ^ 64 - 1) }
        ensures plan { failing_of self.new ≡ failing_of self.old }
    {
        let fails = self.plan.next_fails();
        if piece.is_empty() {
            return Ok(0);
        }
        if fails || self.bytes.extend_from_slice(piece).is_err() {
            self.faults = self.faults.saturating_add(1);
            return Err(SinkFault);
        }
        Ok(piece.len())
    }
}
