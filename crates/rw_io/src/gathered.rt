//! Gathers short pieces of text, so that a sink gets a few long writes.
ghost use Rattle.std.specs.Prelude.{◌≡◌, ◌≤◌, ◌+◌, ◌++◌, [], IfOk, IsTrue, length, OnOk, vec_capacity};
ghost use Rattle.rw_io.specs.Handed.{PassesOn};

use crate::{Sink, WriteFault, write_all};
use rw_base::NoMemory;
use std::alloc::Global;
use std::marker::Model;

// How many bytes are gathered at most.
const ROOM: usize = 65_536;

/// Bytes on their way to a sink, seen as their list: pieces are gathered, up to 65,536 bytes, and handed over together. Only
/// `with_room` takes memory.
#[derive(Drop)]
pub struct Gathered {
    bytes: Vec<u8>,
}

impl Model for Gathered {
    ghost use Rattle.std.specs.Prelude.{ℕ, List, ◌≤◌};

    ghost Value = { List ℕ };

    ghost view = { λ s. s.bytes.items };

    ghost invariant = { λ s. 65536 ≤ s.bytes.cap };
}

impl Gathered {
    /// Returns a gatherer of no bytes. The one error is want of memory.
    pub fn with_room(alloc: Global) -> Result<Gathered, NoMemory>
        ensures { IfOk result (λ gathered. gathered ≡ []) }
    {
        let bytes = Vec::with_capacity(alloc, ROOM)?;
        Ok(Gathered { bytes })
    }

    /// Adds a piece, and hands over what was gathered where there is no room for both. The one error is a write that failed: then
    /// a front of the text was handed over.
    pub fn put<K: Sink>(&mut self, piece: &[u8], out: &mut K) -> Result<(), WriteFault>
        ensures { PassesOn (K.seen out.old) (K.seen out.new) self.old self.new piece.now result }
    {
        if self.has_room(piece) {
            self.add(piece);
            return Ok(());
        }
        match self.hand_over(out) {
            Ok(()) => self.put_first(piece, out),
            Err(fault) => Err(fault),
        }
    }

    /// Hands over what was gathered. The one error is a write that failed: then a front of it was handed over.
    pub fn hand_over<K: Sink>(&mut self, out: &mut K) -> Result<(), WriteFault>
        ensures hands { PassesOn (K.seen out.old) (K.seen out.new) self.old self.new [] result }
        ensures none { OnOk result (self.new ≡ []) }
    {
        match write_all(out, &self.bytes) {
            Ok(()) => {
                self.bytes.clear();
                Ok(())
            }
            Err(fault) => Err(fault),
        }
    }

    // Adds a piece where none is gathered, or hands it over where it is too long.
    fn put_first<K: Sink>(&mut self, piece: &[u8], out: &mut K) -> Result<(), WriteFault>
        requires { self.old ≡ [] }
        ensures { PassesOn (K.seen out.old) (K.seen out.new) self.old self.new piece.now result }
    {
        if self.has_room(piece) {
            self.add(piece);
            return Ok(());
        }
        match write_all(out, piece) {
            Ok(()) => Ok(()),
            Err(fault) => Err(fault),
        }
    }

    // Whether a piece can be gathered with what there is.
    fn has_room(&self, piece: &[u8]) -> bool
        ensures { IsTrue result → length self.now + length piece.now ≤ 65536 }
    {
        self.bytes.len() <= ROOM && piece.len() <= ROOM - self.bytes.len()
    }

    // Adds a piece for which there is room.
    fn add(&mut self, piece: &[u8])
        requires { length self.old + length piece.now ≤ 65536 }
        ensures { self.new ≡ self.old ++ piece.now }
    {
        add(&mut self.bytes, piece);
    }
}

// Appends a piece for which there is room.
fn add(bytes: &mut Vec<u8>, piece: &[u8])
    requires { length bytes.old.items + length piece.now ≤ vec_capacity bytes.old }
    ensures items { bytes.new.items ≡ bytes.old.items ++ piece.now }
    ensures room { vec_capacity bytes.old ≤ vec_capacity bytes.new }
{
    match bytes.extend_from_slice(piece) {
        Ok(()) => {}
        Err(_) => unreachable!(),
    }
}
