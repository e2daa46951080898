//! Writes text to a standard stream as a sink.
ghost use Rattle.std.specs.Prelude.{◌≡◌, None, OnOk};
ghost use Rattle.rw_io.specs.Calls.{TakesWrite};
ghost use Rattle.rw_io.specs.Outside.{change};

use crate::again::{flush_again, write_again};
use crate::{Sink, SinkFault};
use std::io::Write;

/// A standard stream, of whose bytes contracts say nothing. What was written is flushed, and a flush that fails is a fault; so is
/// a write that takes no byte of a piece that is not empty.
#[derive(Drop)]
pub struct StdSink<W: Write + Drop> {
    stream: W,
    faults: u64,
}

impl<W: Write + Drop> StdSink<W> {
    /// Returns a sink that writes to that stream.
    pub fn of(stream: W) -> StdSink<W>
        ensures no_faults { (⟦<StdSink<W> as Sink>⟧.seen result).faults ≡ 0 }
        ensures untold { (⟦<StdSink<W> as Sink>⟧.seen result).contents ≡ None }
    {
        StdSink { stream, faults: 0 }
    }
}

impl<W: Write + Drop> Sink for StdSink<W> {
    ghost seen = { λ s. record { contents = None; faults = s.faults } };

    fn write(&mut self, piece: &[u8]) -> Result<usize, SinkFault>
        ensures takes { let seen = ⟦<StdSink<W> as Sink>⟧.seen in
            TakesWrite piece.now (change (seen self.old) (seen self.new)) result }

        // The count rises in failing calls alone.
        ensures no_fault { let seen = ⟦<StdSink<W> as Sink>⟧.seen in
            OnOk result ((seen self.new).faults ≡ (seen self.old).faults) }
    {
        if piece.is_empty() {
            return Ok(0);
        }
        match write_again(&mut self.stream, piece) {
            Ok(count) if count > 0 && flush_again(&mut self.stream) => Ok(count),
            _ => {
                self.faults = self.faults.saturating_add(1);
                Err(SinkFault)
            }
        }
    }
}
