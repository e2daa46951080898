//! Serves files from memory as a shelf, and lets given calls fail.
ghost use Rattle.std.specs.Prelude.{◌≡◌, ◌≢◌, ◌↔◌, ◌⊎◌, ℕ, ◌+◌, ◌-◌, ◌^◌, ◌<◌, ◌≤◌, List, [], ◌++◌, Some, None, min, max, length, take, drop, slice_index, Contains, IsErr, IsSome, IfOk, OnOk, OnErr, string_bytes};
ghost use Rattle.std.specs.Option.{option_map, ForSome};
ghost use Rattle.rw_io.specs.Causes.{Rose};
ghost use Rattle.rw_io.specs.Files.{bytes_at, count_at, left_at, file_position};

use crate::plan::Plan;
use crate::{Shelf, ShelfFault};
use rw_base::NoMemory;
use std::alloc::Global;

/// Files in memory, whose bytes contracts know. Of two files of one path the first is held. The calls of `start` and `read`
/// together are counted from 1, and those with given numbers fail. There is a count of faults for each path that is held, and one
/// for all other paths.
#[derive(Drop)]
pub struct MemShelf {
    files: Vec<(String, Vec<u8>)>,
    counts: Vec<u64>,
    plan: Plan,
    started: Option<String>,
    place: usize,
    at: usize,
    taken: u64,
    ghost counted: { length counts.items ≡ length files.items + 1 },
    ghost found: { ForSome started
        (λ path. place ≡ file_position files.items (string_bytes path)) },
    ghost inside: { ForSome started (λ path. place < length files.items) },
}

// The place of the first file of that path, or the number of files.
pub(crate) fn place_in(files: &[(String, Vec<u8>)], path: &str) -> usize
    ensures place { result ≡ file_position files.now path.now }
    ensures bound { result ≤ length files.now }
{
    for (i, file) in files.iter().enumerate() {
        if file.0.as_str() == path {
            return i;
        }
    }
    files.len()
}

// One more fault, unless the count stands at its type's end.
fn raise(counts: &mut Vec<u64>, place: usize)
    requires { place < length counts.old.items }
    ensures len { length counts.new.items ≡ length counts.old.items }
    ensures rose { Rose (slice_index counts.old.items place) (slice_index counts.new.items place) }
    ensures later { (k : ℕ) → slice_index counts.old.items k ≤ slice_index counts.new.items k }
    ensures alone { (k : ℕ) → k ≢ place
        → slice_index counts.new.items k ≡ slice_index counts.old.items k }
{
    let count = counts[place].saturating_add(1);
    counts[place] = count;
}

// Copies what fits of the bytes from `at` on.
pub(crate) fn copy_from(bytes: &[u8], at: usize, buf: &mut [u8]) -> usize
    ensures bound { result ≤ length buf.new }
    ensures inside { at + result ≤ max at (length bytes.now) }
    ensures copied { drop at bytes.now ≡ take result buf.new ++ drop (at + result) bytes.now }
    ensures end { result ≡ 0 → 0 < length buf.new → drop (at + result) bytes.now ≡ [] }
{
    if at >= bytes.len() {
        return 0;
    }
    let rest = &bytes[at..];
    let count = rest.len().min(buf.len());
    buf[..count].copy_from_slice(&rest[..count]);
    count
}

impl MemShelf {
    ghost use Rattle.rw_io.specs.MemShelf.{calls_of, failing_of, seen_of};

    /// Returns a shelf of these files by path, of which the calls with the given numbers, counted from 1, are to fail. The one
    /// error is want of memory, with which the files are dropped.
    pub fn of(
        alloc: Global,
        files: Vec<(String, Vec<u8>)>,
        failing: Vec<u64>,
    ) -> Result<MemShelf, NoMemory>
        ensures held { IfOk result
            (λ shelf. (path : List ℕ) → (seen_of shelf).holds path ≡ bytes_at files.items path) }
        ensures no_faults { IfOk result
            (λ shelf. (path : List ℕ) → (seen_of shelf).faults path ≡ 0) }
        ensures not_started { IfOk result (λ shelf. (seen_of shelf).started ≡ None) }
        ensures none_taken { IfOk result (λ shelf. (seen_of shelf).taken ≡ 0) }
        ensures failing { IfOk result (λ shelf. failing_of shelf ≡ failing.items) }
        ensures no_calls { IfOk result (λ shelf. calls_of shelf ≡ 0) }
    {
        if files.len() == usize::MAX {
            return Err(NoMemory);
        }
        let counts = vec![in alloc; 0u64; files.len() + 1]?;
        Ok(MemShelf {
            files,
            counts,
            plan: Plan { failing, calls: 0 },
            started: None,
            place: 0,
            at: 0,
            taken: 0,
        })
    }
}

impl Shelf for MemShelf {
    ghost use Rattle.rw_io.specs.MemShelf.{calls_of, failing_of, seen_of, ShareCount};
    ghost use Rattle.rw_io.specs.Calls.{GivesRead, SameFaults, Starts};
    ghost use Rattle.rw_io.specs.Outside.{change};

    ghost seen = { seen_of };

    fn start(&mut self, path: String) -> Result<(), ShelfFault>
        ensures starts { Starts (string_bytes path)
            (change (seen_of self.old) (seen_of self.new)) result }

        // A call fails exactly where it is to fail or the path isn't held, and raises one count alone.
        ensures fails { IsErr result ↔ (Contains (failing_of self.old) (calls_of self.new)
            ⊎ ((seen_of self.old).holds (string_bytes path) ≡ None)) }
        ensures calm { OnOk result (SameFaults (change (seen_of self.old) (seen_of self.new))) }
        ensures alone { (other : List ℕ) → ¬ ShareCount self.old other (string_bytes path)
            → (seen_of self.new).faults other ≡ (seen_of self.old).faults other }
        ensures calls { calls_of self.new ≡ min (calls_of self.old + 1) (2 ^ 64 - 1) }
        ensures plan { failing_of self.new ≡ failing_of self.old }
    {
        let place = place_in(&self.files, path.as_str());
        self.started = None;
        if self.plan.next_fails() || place >= self.files.len() {
            raise(&mut self.counts, place);
            return Err(ShelfFault);
        }
        self.place = place;
        self.started = Some(path);
        self.at = 0;
        self.taken = 0;
        Ok(())
    }

    fn read(&mut self, buf: &mut [u8]) -> Result<usize, ShelfFault>
        ensures gives { GivesRead buf.new (change (seen_of self.old) (seen_of self.new)) result }

        // A call fails exactly where it is to fail and a path is started, and raises the count of that path alone.
        ensures fails { IsErr result ↔ (Contains (failing_of self.old) (calls_of self.new)
            × IsSome (seen_of self.old).started) }
        ensures calm { OnOk result (SameFaults (change (seen_of self.old) (seen_of self.new))) }
        ensures alone { (other path : List ℕ) → (seen_of self.old).started ≡ Some path
            → ¬ ShareCount self.old other path
            → (seen_of self.new).faults other ≡ (seen_of self.old).faults other }
        ensures calls { calls_of self.new ≡ min (calls_of self.old + 1) (2 ^ 64 - 1) }
        ensures plan { failing_of self.new ≡ failing_of self.old }
    {
        let fails = self.plan.next_fails();
        if self.started.is_none() {
            return Ok(0);
        }
        if fails {
            raise(&mut self.counts, self.place);
            return Err(ShelfFault);
        }
        let count = copy_from(&self.files[self.place].1, self.at, buf);
        self.at += count;
        self.taken = self.taken.saturating_add(count as u64);
        Ok(count)
    }
}
