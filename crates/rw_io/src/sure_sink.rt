//! Keeps written text in memory as a sink of which no call fails. All of its memory is taken at the beginning.
ghost use Rattle.std.specs.Prelude.{◌≡◌, ◌+◌, ◌++◌, ◌≤◌, ◌<◌, ℕ, List, [], Ok, Some, None, length, IfOk, IfSome, IsOk};

use crate::{Sink, SinkFault};
use rw_base::NoMemory;
use std::alloc::Global;

/// Text in memory, which contracts know, for which there is room from the beginning on. Each piece is taken whole. From the first
/// piece on that does not fit, nothing more is kept, and what is held is not told any more.
#[derive(Drop)]
pub struct SureSink {
    bytes: Vec<u8>,
    room: usize,
    told: bool,
    ghost fits: { length bytes.items ≤ room },
    ghost has_room: { room ≤ bytes.cap },
}

// Adds a piece for which there is room.
fn add(bytes: &mut Vec<u8>, piece: &[u8])
    requires { length bytes.old.items + length piece.now ≤ bytes.old.cap }
    ensures items { bytes.new.items ≡ bytes.old.items ++ piece.now }
    ensures room { bytes.old.cap ≤ bytes.new.cap }
{
    match bytes.extend_from_slice(piece) {
        Ok(()) => {}
        Err(_) => unreachable!(),
    }
}

impl SureSink {
    ghost use Rattle.rw_io.specs.Sure.{sink_kept, sink_room, sink_seen};

    /// Returns an empty sink with room for `room` bytes. The one error is want of memory.
    pub fn of(alloc: Global, room: usize) -> Result<SureSink, NoMemory>
        ensures empty { IfOk result (λ sink. (sink_seen sink).contents ≡ Some []) }
        ensures room { IfOk result (λ sink. sink_room sink ≡ room) }
    {
        let bytes = Vec::with_capacity(alloc, room)?;
        Ok(SureSink {
            bytes,
            room,
            told: true,
        })
    }

    /// Returns the text that was kept.
    pub fn held(&self) -> &[u8]
        ensures kept { result.now ≡ sink_kept self.now }
        ensures told { IfSome (sink_seen self.now).contents (λ held. held ≡ result.now) }
    {
        &self.bytes
    }
}

impl Sink for SureSink {
    ghost use Rattle.rw_io.specs.Sure.{sink_kept, sink_room, sink_seen};
    ghost use Rattle.rw_io.specs.Calls.{TakesWrite};
    ghost use Rattle.rw_io.specs.Outside.{change};

    ghost seen = { sink_seen };

    fn write(&mut self, piece: &[u8]) -> Result<usize, SinkFault>
        ensures takes { TakesWrite piece.now
            (change (sink_seen self.old) (sink_seen self.new)) result }
        ensures whole { result ≡ Ok (length piece.now) }
        ensures kept { (held : List ℕ) → (sink_seen self.old).contents ≡ Some held
            → length held + length piece.now ≤ sink_room self.old
            → (sink_seen self.new).contents ≡ Some (held ++ piece.now) }
        ensures full { sink_room self.old < length (sink_kept self.old) + length piece.now
            → ((sink_seen self.new).contents ≡ None) × (sink_kept self.new ≡ sink_kept self.old) }
        ensures lost { (sink_seen self.old).contents ≡ None
            → ((sink_seen self.new).contents ≡ None) × (sink_kept self.new ≡ sink_kept self.old) }
        ensures room { sink_room self.new ≡ sink_room self.old }
    {
        if piece.is_empty() {
            return Ok(0);
        }
        if !self.told || piece.len() > self.room - self.bytes.len() {
            self.told = false;
            return Ok(piece.len());
        }
        add(&mut self.bytes, piece);
        Ok(piece.len())
    }
}
