//! Reads files through the runtime. Contracts say nothing of the bytes of such files.
ghost use Rattle.std.specs.Prelude.{◌≡◌, ℕ, List, None, OnOk, is_some, string_bytes};
ghost use Rattle.std.specs.Option.{option_map};
ghost use Rattle.rw_io.specs.Calls.{GivesRead, SameFaults, Starts};
ghost use Rattle.rw_io.specs.Outside.{change};

use crate::again::read_again;
use crate::{Shelf, ShelfFault};
use std::fs;
use std::rt::Files;

/// The files of the runtime, of whose bytes contracts say nothing. The shelf has one count of faults, which is that of every
/// path.
#[derive(Drop)]
pub struct FileShelf<R: Files + Drop> {
    files: R,
    started: Option<String>,
    opened: Option<R::File>,
    taken: u64,
    faults: u64,
    ghost paired: { is_some started ≡ is_some opened },
}

impl<R: Files + Drop> FileShelf<R> {
    /// Returns a shelf of the runtime's files.
    pub fn of(files: R) -> FileShelf<R>
        ensures no_faults { (p : List ℕ) → (⟦<FileShelf<R> as Shelf>⟧.seen result).faults p ≡ 0 }
        ensures not_started { (⟦<FileShelf<R> as Shelf>⟧.seen result).started ≡ None }
        ensures none_taken { (⟦<FileShelf<R> as Shelf>⟧.seen result).taken ≡ 0 }
        ensures untold { (p : List ℕ) → (⟦<FileShelf<R> as Shelf>⟧.seen result).holds p ≡ None }
    {
        FileShelf {
            files,
            started: None,
            opened: None,
            taken: 0,
            faults: 0,
        }
    }
}

impl<R: Files + Drop> Shelf for FileShelf<R> {
    ghost seen = { λ s. record {
      holds = λ _. None;
      started = option_map (λ path. string_bytes path) s.started;
      left = None;
      taken = s.taken;
      faults = λ _. s.faults;
    } };

    fn start(&mut self, path: String) -> Result<(), ShelfFault>
        ensures starts { let seen = ⟦<FileShelf<R> as Shelf>⟧.seen in
            Starts (string_bytes path) (change (seen self.old) (seen self.new)) result }

        // The count rises in failing calls alone.
        ensures calm { let seen = ⟦<FileShelf<R> as Shelf>⟧.seen in
            OnOk result (SameFaults (change (seen self.old) (seen self.new))) }
    {
        self.started = None;
        self.opened = None;
        match fs::open(&self.files, path.as_str()) {
            Ok(file) => {
                self.started = Some(path);
                self.opened = Some(file);
                self.taken = 0;
                Ok(())
            }
            Err(_) => {
                self.faults = self.faults.saturating_add(1);
                Err(ShelfFault)
            }
        }
    }

    fn read(&mut self, buf: &mut [u8]) -> Result<usize, ShelfFault>
        ensures gives { let seen = ⟦<FileShelf<R> as Shelf>⟧.seen in
            GivesRead buf.new (change (seen self.old) (seen self.new)) result }

        // The count rises in failing calls alone.
        ensures calm { let seen = ⟦<FileShelf<R> as Shelf>⟧.seen in
            OnOk result (SameFaults (change (seen self.old) (seen self.new))) }
    {
        let _taken = self.taken;
        let Some(file) = &mut self.opened else {
            return Ok(0);
        };
        match read_again(file, buf) {
            Ok(count) => {
                self.taken = self.taken.saturating_add(count as u64);
                Ok(count)
            }
            Err(_) => {
                self.faults = self.faults.saturating_add(1);
                Err(ShelfFault)
            }
        }
    }
}
