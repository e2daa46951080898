//! Serves files from memory as a shelf of which no call fails.
ghost use Rattle.std.specs.Prelude.{◌≡◌, ℕ, List, [], Some, None, IsOk, unwrap_or, string_bytes};
ghost use Rattle.rw_io.specs.Files.{bytes_at};
ghost use Rattle.rw_io.specs.Sure.{bytes_in_place};

use crate::mem_shelf::{copy_from, place_in};
use crate::{Shelf, ShelfFault};

/// Files in memory, whose bytes contracts know, and of which no call fails. Of two files of one path the first is held, and a
/// path that is not held is an empty file.
#[derive(Drop)]
pub struct SureShelf {
    files: Vec<(String, Vec<u8>)>,
    started: Option<String>,
    place: usize,
    at: usize,
    taken: u64,
}

// What the file in a place holds.
fn bytes_in_place(files: &[(String, Vec<u8>)], place: usize) -> &[u8]
    ensures { result.now ≡ bytes_in_place files.entry.now place }
{
    match files.get(place) {
        Some(file) => &file.1,
        None => &[],
    }
}

impl SureShelf {
    ghost use Rattle.rw_io.specs.Sure.{shelf_seen};

    /// Returns a shelf of these files by path. It takes no memory.
    pub fn of(files: Vec<(String, Vec<u8>)>) -> SureShelf
        ensures held { (path : List ℕ) → (shelf_seen result).holds path
            ≡ Some (unwrap_or (bytes_at files.items path) []) }
        ensures not_started { (shelf_seen result).started ≡ None }
        ensures none_taken { (shelf_seen result).taken ≡ 0 }
    {
        SureShelf {
            files,
            started: None,
            place: 0,
            at: 0,
            taken: 0,
        }
    }
}

impl Shelf for SureShelf {
    ghost use Rattle.rw_io.specs.Sure.{shelf_seen};
    ghost use Rattle.rw_io.specs.Calls.{GivesRead, Starts};
    ghost use Rattle.rw_io.specs.Outside.{change};

    ghost seen = { shelf_seen };

    fn start(&mut self, path: String) -> Result<(), ShelfFault>
        ensures starts { Starts (string_bytes path)
            (change (shelf_seen self.old) (shelf_seen self.new)) result }
        ensures sure { IsOk result }
    {
        self.place = place_in(&self.files, path.as_str());
        self.started = Some(path);
        self.at = 0;
        self.taken = 0;
        Ok(())
    }

    fn read(&mut self, buf: &mut [u8]) -> Result<usize, ShelfFault>
        ensures gives { GivesRead buf.new
            (change (shelf_seen self.old) (shelf_seen self.new)) result }
        ensures sure { IsOk result }
    {
        let _taken = self.taken;
        if self.started.is_none() {
            return Ok(0);
        }
        let count = copy_from(bytes_in_place(&self.files, self.place), self.at, buf);
        self.at += count;
        self.taken = self.taken.saturating_add(count as u64);
        Ok(count)
    }
}
