//! Defines a sink: text is appended piece by piece, with a count of faults.
ghost use Rattle.rw_io.specs.Calls.{TakesWrite};
ghost use Rattle.rw_io.specs.Outside.{SinkView, change};

/// The error of a write that failed: the sink's count of faults has risen.
#[derive(Clone, Copy, Debug, PartialEq, Eq)]
pub struct SinkFault;

/// A destination of text, which takes it piece by piece.
///
/// A sink need not tell what it holds, and one that does not tell it never tells it later. Its count of faults begins at 0 and
/// never falls; one that stands at 2^64 - 1 after a call counts as risen in that call.
pub trait Sink {
    /// What contracts see of the sink.
    ghost seen: { Self → SinkView };

    /// Appends the front of the piece, at least one byte of it, and returns how many. After a fault nothing was appended. An
    /// empty piece changes nothing, and returns `Ok(0)`.
    fn write(&mut self, piece: &[u8]) -> Result<usize, SinkFault>
        ensures { TakesWrite piece.now (change (seen self.old) (seen self.new)) result };
}
