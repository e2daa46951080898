//! Repeats a call that the system interrupted, and which therefore did nothing.
ghost use Rattle.std.specs.Io.{ReadsAtMost, WritesAtMost};

use std::io::{Error, ErrorKind, Read, Write};

/// The maximum number of attempts.
const TIMES: u32 = 1000;

fn is_interrupted(error: &Error) -> bool {
    error.kind() == ErrorKind::Interrupted
}

/// Reads, and repeats the call as long as it is interrupted.
pub(crate) fn read_again<R: Read>(source: &mut R, buf: &mut [u8]) -> Result<usize, Error>
    ensures bound { ReadsAtMost result buf.new }
{
    for _ in 0..TIMES {
        match source.read(buf) {
            Err(error) if is_interrupted(&error) => {}
            ended => return ended,
        }
    }
    source.read(buf)
}

/// Writes, and repeats the call as long as it is interrupted.
pub(crate) fn write_again<W: Write>(stream: &mut W, piece: &[u8]) -> Result<usize, Error>
    ensures bound { WritesAtMost result piece.now }
{
    for _ in 0..TIMES {
        match stream.write(piece) {
            Err(error) if is_interrupted(&error) => {}
            ended => return ended,
        }
    }
    stream.write(piece)
}

/// Flushes what was written, and repeats the call as long as it is interrupted. Returns whether it succeeded.
pub(crate) fn flush_again<W: Write>(stream: &mut W) -> bool {
    for _ in 0..TIMES {
        match stream.flush() {
            Ok(()) => return true,
            Err(error) if is_interrupted(&error) => {}
            Err(_) => return false,
        }
    }
    false
}
