//! Writes a whole text to a sink, however few bytes each of its writes takes.
ghost use Rattle.std.specs.Prelude.{◌≤◌, OnOk, OnErr};
ghost use Rattle.rw_io.specs.Causes.{Rose};
ghost use Rattle.rw_io.specs.Known.{GrowsBy, PrefixGrew};

use crate::Sink;

/// The error of a write that failed: the sink's count of faults has risen, and a front of the text was appended.
#[derive(Clone, Copy, Debug, PartialEq, Eq)]
pub struct WriteFault;

/// Appends the whole text. It takes no memory.
pub fn write_all<K: Sink>(sink: &mut K, text: &[u8]) -> Result<(), WriteFault>
    ensures whole { OnOk result
        (GrowsBy (K.seen sink.old).contents (K.seen sink.new).contents text.now) }
    ensures prefix { OnErr result
        (PrefixGrew (K.seen sink.old).contents (K.seen sink.new).contents text.now) }
    ensures cause { OnErr result (Rose (K.seen sink.old).faults (K.seen sink.new).faults) }
    ensures later { (K.seen sink.old).faults ≤ (K.seen sink.new).faults }
{
    let mut done = 0;
    while done < text.len() {
        match sink.write(&text[done..]) {
            Ok(count) => done += count,
            Err(_) => return Err(WriteFault),
        }
    }
    Ok(())
}
