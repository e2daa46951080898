//! Writes a text that lies in three pieces: a short one by one write, a longer one piece by piece.
ghost use Rattle.std.specs.Prelude.{◌≡◌, ◌≤◌, ◌+◌, ◌++◌, IsTrue, length, take, OnOk, OnErr};
ghost use Rattle.rw_io.specs.Causes.{Rose};
ghost use Rattle.rw_io.specs.Known.{GrowsBy, PrefixGrew};

use crate::Sink;
use crate::whole_text::{WriteFault, write_all};
use std::marker::Model;

// A text of at most so many bytes is handed over at once.
const ONCE_MAX: usize = 65_536;

/// A text that lies in three pieces, one behind another, seen as the whole.
#[derive(Drop)]
pub struct Pieces<'a> {
    first: &'a [u8],
    second: &'a [u8],
    third: &'a [u8],
}

impl<'a> Model for Pieces<'a> {
    ghost use Rattle.std.specs.Prelude.{ℕ, List, ◌++◌};

    ghost Value = { List ℕ };

    ghost view = { λ s. s.first.now ++ (s.second.now ++ s.third.now) };
}

impl<'a> Pieces<'a> {
    /// Returns the text of these pieces. It takes no memory.
    pub fn of(first: &'a [u8], second: &'a [u8], third: &'a [u8]) -> Pieces<'a>
        ensures { result ≡ first.entry.now ++ (second.entry.now ++ third.entry.now) }
    {
        Pieces {
            first,
            second,
            third,
        }
    }
}

// Whether it has so few bytes that it is handed over at once.
fn is_short(text: &Pieces<'_>) -> bool
    ensures { IsTrue result → length text.now ≤ 65536 }
{
    let (first, second) = (text.first.len(), text.second.len());
    first <= ONCE_MAX && second <= ONCE_MAX - first && text.third.len() <= ONCE_MAX - first - second
}

// Puts a piece behind the first bytes of a buffer, so many of them.
fn place(buffer: &mut [u8], at: usize, piece: &[u8])
    requires { at + length piece.now ≤ length buffer.old }
    ensures long { length buffer.new ≡ length buffer.old }
    ensures placed { take (at + length piece.now) buffer.new ≡ take at buffer.old ++ piece.now }
{
    buffer[at..at + piece.len()].copy_from_slice(piece);
}

// Appends a text of few bytes at once.
fn write_at_once<K: Sink>(sink: &mut K, text: &Pieces<'_>) -> Result<(), WriteFault>
    requires { length text.now ≤ 65536 }
    ensures whole { OnOk result
        (GrowsBy (K.seen sink.old).contents (K.seen sink.new).contents text.now) }
    ensures prefix { OnErr result
        (PrefixGrew (K.seen sink.old).contents (K.seen sink.new).contents text.now) }
    ensures cause { OnErr result (Rose (K.seen sink.old).faults (K.seen sink.new).faults) }
    ensures later { (K.seen sink.old).faults ≤ (K.seen sink.new).faults }
{
    let mut buffer = [0u8; ONCE_MAX];
    let second = text.first.len();
    let third = second + text.second.len();
    let end = third + text.third.len();
    place(&mut buffer, 0, text.first);
    place(&mut buffer, second, text.second);
    place(&mut buffer, third, text.third);
    write_all(sink, &buffer[..end])
}

// Appends two texts, one behind the other.
fn write_two<K: Sink>(sink: &mut K, first: &[u8], second: &[u8]) -> Result<(), WriteFault>
    ensures whole { OnOk result (GrowsBy (K.seen sink.old).contents (K.seen sink.new).contents
        (first.now ++ second.now)) }
    ensures prefix { OnErr result (PrefixGrew (K.seen sink.old).contents
        (K.seen sink.new).contents (first.now ++ second.now)) }
    ensures cause { OnErr result (Rose (K.seen sink.old).faults (K.seen sink.new).faults) }
    ensures later { (K.seen sink.old).faults ≤ (K.seen sink.new).faults }
{
    match write_all(sink, first) {
        Ok(()) => write_all(sink, second),
        Err(fault) => Err(fault),
    }
}

/// Appends the whole text: a short one at once, a longer one piece by piece, and nothing for a piece that is empty. It takes no
/// memory.
pub fn write_pieces<K: Sink>(sink: &mut K, text: &Pieces<'_>) -> Result<(), WriteFault>
    ensures whole { OnOk result
        (GrowsBy (K.seen sink.old).contents (K.seen sink.new).contents text.now) }
    ensures prefix { OnErr result
        (PrefixGrew (K.seen sink.old).contents (K.seen sink.new).contents text.now) }
    ensures cause { OnErr result (Rose (K.seen sink.old).faults (K.seen sink.new).faults) }
    ensures later { (K.seen sink.old).faults ≤ (K.seen sink.new).faults }
{
    if is_short(text) {
        return write_at_once(sink, text);
    }
    match write_all(sink, text.first) {
        Ok(()) => write_two(sink, text.second, text.third),
        Err(fault) => Err(fault),
    }
}
