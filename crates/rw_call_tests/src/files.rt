//! Tests what no clause says of files and streams: that calls succeed, which calls fail, how much is asked for at a time, and
//! real files.
ghost use Rattle.std.specs.Prelude.{◌≡◌, None, OnOk, string_bytes};
ghost use Rattle.std.specs.Option.{option_map};

use rw_base::NoMemory;
use rw_io::{
    FILE_MAX, FileShelf, MemShelf, MemSink, PIECE_MAX, ReadEnd, Shelf, ShelfFault, Sink, SinkFault,
    StdSink, SureShelf, SureSink, read_all, write_all,
};
use std::alloc::Global;
use std::fs;
use std::io::Write;
use std::test::Fail;

fn numbers(alloc: Global, given: &[u64]) -> Result<Vec<u64>, NoMemory> {
    Ok(Vec::from_slice(alloc, given)?)
}

fn file(alloc: Global, path: &str, bytes: &[u8]) -> Result<(String, Vec<u8>), NoMemory> {
    let path = String::from_str(alloc, path)?;
    Ok((path, Vec::from_slice(alloc, bytes)?))
}

fn owned(alloc: Global, files: &[(&str, &[u8])]) -> Result<Vec<(String, Vec<u8>)>, NoMemory> {
    let mut owned = Vec::new(alloc);
    for k in 0..files.len() {
        owned.push(file(alloc, files[k].0, files[k].1)?)?;
    }
    Ok(owned)
}

fn shelf(alloc: Global, files: &[(&str, &[u8])], failing: &[u64]) -> Result<MemShelf, NoMemory> {
    MemShelf::of(alloc, owned(alloc, files)?, numbers(alloc, failing)?)
}

// Whether the path is read as the text.
fn is_read(alloc: Global, shelf: &mut impl Shelf, path: &str, text: &[u8]) -> bool {
    match read_all(alloc, shelf, path) {
        Ok(found) => found.as_slice() == text,
        Err(_) => false,
    }
}

// Whether reading the path is a fault.
fn is_fault(alloc: Global, shelf: &mut impl Shelf, path: &str) -> bool {
    matches!(read_all(alloc, shelf, path), Err(ReadEnd::ReadFault))
}

fn first_files_are_read(alloc: Global, shelf: &mut MemShelf) -> bool {
    is_read(alloc, shelf, "a", b"one")
        && is_read(alloc, shelf, "b", b"")
        && is_fault(alloc, shelf, "c")
}

#[test]
fn the_first_file_of_a_path_is_read(rt: HostRuntime) -> Result<(), Fail> {
    let alloc = rt.alloc();
    let mut shelf = shelf(alloc, &[("a", b"one"), ("b", b""), ("a", b"two")], &[])?;
    assert!(rt; first_files_are_read(alloc, &mut shelf));
    Ok(())
}

// Whether the calls 1, 3 and 7 fail: each `read_all` starts the file, reads its text and reads its end.
fn three_calls_fail(alloc: Global, shelf: &mut MemShelf) -> bool {
    is_fault(alloc, shelf, "a")
        && is_fault(alloc, shelf, "a")
        && is_read(alloc, shelf, "a", b"one")
        && is_fault(alloc, shelf, "a")
        && is_read(alloc, shelf, "a", b"one")
}

#[test]
fn calls_of_a_shelf_fail_by_number(rt: HostRuntime) -> Result<(), Fail> {
    let alloc = rt.alloc();
    let mut shelf = shelf(alloc, &[("a", b"one")], &[1, 3, 7])?;
    assert!(rt; three_calls_fail(alloc, &mut shelf));
    Ok(())
}

fn is_kept(sink: &mut MemSink, text: &[u8]) -> bool {
    write_all(sink, text).is_ok()
}

fn second_call_fails(sink: &mut MemSink) -> bool {
    is_kept(sink, b"one")
        && !is_kept(sink, b"two")
        && is_kept(sink, b"three")
        && sink.held() == b"onethree".as_slice()
}

#[test]
fn calls_of_a_sink_fail_by_number(rt: HostRuntime) -> Result<(), Fail> {
    let alloc = rt.alloc();
    let mut sink = MemSink::of(alloc, numbers(alloc, &[2])?);
    assert!(rt; second_call_fails(&mut sink));
    Ok(())
}

// Whether a path that isn't held is an empty file.
fn unheld_is_empty(alloc: Global, shelf: &mut SureShelf) -> bool {
    is_read(alloc, shelf, "a", b"one") && is_read(alloc, shelf, "b", b"")
}

// Whether a piece for which there is no room, and each one behind it, is taken and not kept.
fn no_piece_fails(sink: &mut SureSink) -> bool {
    write_all(sink, b"one").is_ok()
        && write_all(sink, b"two").is_ok()
        && write_all(sink, b"3").is_ok()
        && sink.held() == b"one".as_slice()
}

#[test]
fn no_call_of_a_sure_shelf_or_sink_fails(rt: HostRuntime) -> Result<(), Fail> {
    let alloc = rt.alloc();
    let mut shelf = SureShelf::of(owned(alloc, &[("a", b"one")])?);
    assert!(rt; unheld_is_empty(alloc, &mut shelf));
    let mut sink = SureSink::of(alloc, 4)?;
    assert!(rt; no_piece_fails(&mut sink));
    Ok(())
}

// A shelf of one endless file, which notes the most that was asked for at a time.
#[derive(Drop)]
struct Endless {
    started: Option<String>,
    taken: u64,
    most: usize,
}

impl Shelf for Endless {
    ghost seen = { λ s. record {
      holds = λ _. None;
      started = option_map (λ path. string_bytes path) s.started;
      left = None;
      taken = s.taken;
      faults = λ _. 0;
    } };

    fn start(&mut self, path: String) -> Result<(), ShelfFault> {
        self.started = Some(path);
        self.taken = 0;
        Ok(())
    }

    fn read(&mut self, buf: &mut [u8]) -> Result<usize, ShelfFault> {
        let _taken = self.taken;
        if self.started.is_none() {
            return Ok(0);
        }
        self.most = self.most.max(buf.len());
        self.taken = self.taken.saturating_add(buf.len() as u64);
        Ok(buf.len())
    }
}

fn is_too_long(alloc: Global, shelf: &mut impl Shelf) -> bool {
    matches!(read_all(alloc, shelf, "a"), Err(ReadEnd::TooLong))
}

#[test]
fn an_endless_file_is_read_in_pieces_until_it_is_too_long(rt: HostRuntime) {
    let mut endless = Endless {
        started: None,
        taken: 0,
        most: 0,
    };
    let is_too_long = is_too_long(rt.alloc(), &mut endless);
    let read = (endless.most, endless.taken);
    assert!(rt; is_too_long && read == (PIECE_MAX, (FILE_MAX + PIECE_MAX) as u64));
}

const TEXT: &[u8] = b"Dam.Inflow,1,100\n";

// Writes a piece. Where that succeeds, no fault is counted.
fn write<W: Write + Drop>(sink: &mut StdSink<W>, piece: &[u8]) -> Result<usize, SinkFault>
    ensures { let seen = ⟦<StdSink<W> as Sink>⟧.seen in
        OnOk result ((seen sink.new).faults ≡ (seen sink.old).faults) }
{
    sink.write(piece)
}

fn is_written<W: Write + Drop>(sink: &mut StdSink<W>) -> bool {
    write(sink, b"") == Ok(0) && write_all(sink, TEXT).is_ok()
}

fn only_what_is_written_is_read(alloc: Global, shelf: &mut impl Shelf) -> bool {
    is_read(alloc, shelf, "inputs.csv", TEXT) && is_fault(alloc, shelf, "none.csv")
}

#[test]
fn a_real_file_is_written_and_read(rt: HostRuntime) -> Result<(), Fail> {
    let mut sink = StdSink::of(fs::create(&rt, "inputs.csv")?);
    assert!(rt; is_written(&mut sink));
    let mut shelf = FileShelf::of(&rt);
    assert!(rt; only_what_is_written_is_read(rt.alloc(), &mut shelf));
    fs::remove_file(&rt, "inputs.csv")?;
    Ok(())
}
