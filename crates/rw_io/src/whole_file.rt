//! Reads a whole file from a shelf, up to the greatest length of a file.
ghost use Rattle.std.specs.Prelude.{◌≡◌, ℕ, ◌+◌, ◌<◌, ◌≤◌, List, ◌++◌, length, OnOk, IfOk, IsErrOf};
ghost use Rattle.rw_io.specs.Calls.{ReadsTooLong, ReadsWhole};
ghost use Rattle.rw_io.specs.Causes.{Rose, NoneFell};
ghost use Rattle.rw_io.specs.Outside.{change};

use crate::Shelf;
use rw_base::limits::TEXT_MAX;
use std::alloc::Global;

/// The maximum length of a file, in bytes.
pub const FILE_MAX: usize = TEXT_MAX;

/// The maximum number of bytes that are asked for at a time.
pub const PIECE_MAX: usize = 65_536;

/// The reasons why a file is not read whole.
#[derive(Clone, Copy, Debug, PartialEq, Eq)]
pub enum ReadEnd {
    /// The count of faults of the path rose in this call.
    ReadFault,
    /// More than `FILE_MAX` bytes were taken in this call, and no fault came.
    TooLong,
    /// There was no memory.
    NoMemory,
}

// Appends a piece to what was read, of `FILE_MAX` bytes at most.
fn keep(bytes: &mut Vec<u8>, piece: &[u8]) -> Result<(), ReadEnd>
    requires { length bytes.old.items ≤ FILE_MAX }
    ensures kept { OnOk result (bytes.new.items ≡ bytes.old.items ++ piece.now) }
    ensures short { OnOk result (length bytes.new.items ≤ FILE_MAX) }
    ensures long { IsErrOf result ReadEnd.TooLong
        → FILE_MAX < length bytes.old.items + length piece.now }
    ensures no_fault { ¬ IsErrOf result ReadEnd.ReadFault }
{
    if piece.len() > FILE_MAX - bytes.len() {
        return Err(ReadEnd::TooLong);
    }
    if bytes.extend_from_slice(piece).is_err() {
        return Err(ReadEnd::NoMemory);
    }
    Ok(())
}

/// Reads the whole file of that path, of `FILE_MAX` bytes at most, in pieces of at most `PIECE_MAX` bytes. After a refusal the
/// file is left partly read. `NoMemory` says nothing of the file.
pub fn read_all<S: Shelf>(alloc: Global, shelf: &mut S, path: &str) -> Result<Vec<u8>, ReadEnd>
    ensures whole { IfOk result
        (λ bytes. ReadsWhole path.now bytes.items (change (S.seen shelf.old) (S.seen shelf.new))) }

    // Why it isn't read.
    ensures fault { IsErrOf result ReadEnd.ReadFault
        → Rose ((S.seen shelf.old).faults path.now) ((S.seen shelf.new).faults path.now) }
    ensures long { IsErrOf result ReadEnd.TooLong
        → ReadsTooLong path.now (change (S.seen shelf.old) (S.seen shelf.new)) }

    // What stays.
    ensures held { (p : List ℕ) → (S.seen shelf.new).holds p ≡ (S.seen shelf.old).holds p }
    ensures later { NoneFell (S.seen shelf.old).faults (S.seen shelf.new).faults }
{
    let Ok(name) = String::from_str(alloc, path) else {
        return Err(ReadEnd::NoMemory);
    };
    if shelf.start(name).is_err() {
        return Err(ReadEnd::ReadFault);
    }
    let mut bytes = Vec::new(alloc);
    let mut piece = [0u8; PIECE_MAX];
    loop {
        let Ok(count) = shelf.read(&mut piece) else {
            return Err(ReadEnd::ReadFault);
        };
        if count == 0 {
            return Ok(bytes);
        }
        keep(&mut bytes, &piece[..count])?;
    }
}
