//! Defines a shelf: files that are started by path and read piece by piece, with a count of faults.
ghost use Rattle.std.specs.Prelude.{string_bytes};
ghost use Rattle.rw_io.specs.Calls.{GivesRead, Starts};
ghost use Rattle.rw_io.specs.Outside.{ShelfView, change};

/// The error of a start or a read that failed: a count of faults has risen.
#[derive(Clone, Copy, Debug, PartialEq, Eq)]
pub struct ShelfFault;

/// A source of files by path, of which one at a time is read from its beginning to its end.
///
/// A shelf need not tell what its files hold. Where it does, clauses say which bytes were read. Its counts of faults begin at 0
/// and never fall; one that stands at 2^64 - 1 after a call counts as risen in that call.
pub trait Shelf {
    /// What contracts see of the shelf.
    ghost seen: { Self → ShelfView };

    /// Starts the file of that path, of which the whole is then left to be read. A path that is not there is a fault of that
    /// path, and after a fault nothing is started.
    fn start(&mut self, path: String) -> Result<(), ShelfFault>
        ensures { Starts (string_bytes path) (change (seen self.old) (seen self.new)) result };

    /// Moves bytes from the front of what is left into the front of the buffer, and returns how many. `Ok(0)` into a buffer that
    /// is not empty is the end of the file, and is returned where nothing is started. After a read that failed nothing is said of
    /// the buffer.
    fn read(&mut self, buf: &mut [u8]) -> Result<usize, ShelfFault>
        ensures { GivesRead buf.new (change (seen self.old) (seen self.new)) result };
}
