//! Holds the text of the section that was written last, and writes the next one from it.
ghost use Rattle.std.specs.Prelude.{◌≡◌, ◌≤◌, ◌<◌, ◌+◌, ◌++◌, ℕ, IfErr, IfOk, OnOk, option_map, string_bytes, []};
ghost use Rattle.std.specs.List.{All};
ghost use Rattle.rw_series.specs.Series.{held};
ghost use Rattle.rw_report.specs.Kept.{AreKeptLines, IsTold, first_texts};
ghost use Rattle.rw_report.specs.Outcome.{outcome_of};
ghost use Rattle.rw_report.specs.Sheet.{AreToldBefore, AreToldOf};
ghost use Rattle.rw_report.specs.Whole.{whole_of};

use crate::kept::{Extent, KeptLine, count_current, cut, push_kept};
use crate::whole::{Telling, push_head, push_rest};
use rw_base::NoMemory;
use rw_io::Pieces;
use rw_model::Basin;
use rw_run::Run;
use std::alloc::Global;
use std::marker::Model;

/// The section that was written last of a basin's runs, seen as the basin, the text and the values of the lines that it keeps. A
/// sheet that is to keep lines keeps those of the table, and writes only those anew of which a value is not as it was.
#[derive(Drop)]
pub struct Sheet<'a> {
    alloc: Global,
    basin: &'a Basin,
    keeps: bool,
    lines: Vec<KeptLine>,
    told: u16,
    // What stands before the lines that are kept, these, and what stands behind them.
    head: String,
    rows: Vec<u8>,
    rest: String,
}

impl<'a> Model for Sheet<'a> {
    ghost use Rattle.std.specs.Prelude.{◌≡◌, ◌≤◌, ◌++◌, map, string_bytes, take, vec_len};
    ghost use Rattle.std.specs.List.{All};
    ghost use Rattle.rw_report.specs.Kept.{AreInPlace, IsTold, first_texts};
    ghost use Rattle.rw_report.specs.Sheet as specs;
    ghost use Rattle.rw_report.specs.declared.kept.KeptLine.{KeptLine};

    ghost Value = { specs.Sheet };

    ghost view = { λ s. record {
      basin = s.basin.now;
      text = string_bytes s.head ++ (s.rows.items ++ string_bytes s.rest);
      values = map (λ (line : KeptLine). line.values.items) (take s.told s.lines.items);
    } };

    ghost invariant = { λ s. All (IsTold s.basin.now) s.lines.items
        × ((s.told ≤ vec_len s.lines × AreInPlace s.told s.lines.items)
        × s.rows.items ≡ first_texts s.told s.lines.items) };
}

// The lesser of two numbers.
fn lesser(one: u16, other: u16) -> u16
    ensures { (result ≤ one) × (result ≤ other) }
{
    if one < other { one } else { other }
}

// How many of the first lines, of so many that are told, tell of timesteps before one.
fn count_before(same: u16, told: u16) -> u16
    ensures told { result ≤ told }
    ensures same { (place : ℕ) → place < result → place + 1 < same }
{
    if same == 0 {
        return 0;
    }
    lesser(same - 1, told)
}

// Of how many of the closed timesteps lines are kept.
fn count_kept(keeps: bool, closed: u16) -> u16
    ensures { result ≤ closed }
{
    if keeps { closed } else { 0 }
}

// Tells a section in three pieces, of which the second one is the lines that are kept. It is made last: its lines take the room
// that the third one left as it grew.
fn push_pieces(
    alloc: Global,
    head: &mut String,
    rows: &mut Vec<u8>,
    rest: &mut String,
    lines: &mut Vec<KeptLine>,
    basin: &Basin,
    run: &Run,
    telling: &Telling<'_>,
    extent: Extent,
) -> Result<(), NoMemory>
    requires head { string_bytes head.old ≡ [] }
    requires rest { string_bytes rest.old ≡ [] }
    requires closed { run.now.closed ≤ basin.now.control.stamps.count }
    requires kept { extent.kept ≤ run.now.closed }
    requires lines { AreKeptLines basin.now (held run.now.series) extent.first lines.old.items }
    requires rows { rows.old.items ≡ first_texts extent.first lines.old.items }
    requires first { extent.first ≤ extent.kept }
    ensures told { All (IsTold basin.now) lines.new.items }
    ensures lines { OnOk result
        (AreKeptLines basin.now (held run.now.series) extent.kept lines.new.items) }
    ensures rows { OnOk result (rows.new.items ≡ first_texts extent.kept lines.new.items) }
    ensures section { OnOk result
        (string_bytes head.new ++ (rows.new.items ++ string_bytes rest.new)
        ≡ whole_of basin.now telling.now.batch (outcome_of run.now)
        (option_map (λ steps. steps.now) telling.now.reran) telling.now.flags telling.now.trace) }
{
    push_head(head, basin, run, telling)?;
    push_rest(alloc, rest, basin, run, telling, extent.kept)?;
    push_kept(alloc, rows, lines, basin, &run.series, extent)?;
    Ok(())
}

impl<'a> Sheet<'a> {
    /// Returns a sheet on which nothing is written yet. It keeps lines where `keeps` is true: for a sheet of one section they are
    /// of no use. It takes no memory.
    pub fn new(alloc: Global, basin: &'a Basin, keeps: bool) -> Sheet<'a>
        ensures { result ≡ record { basin = basin.now; text = []; values = [] } }
    {
        Sheet {
            alloc,
            basin,
            keeps,
            lines: Vec::new(alloc),
            told: 0,
            head: String::new(alloc),
            rows: Vec::new(alloc),
            rest: String::new(alloc),
        }
    }

    /// Writes the section of a batch, as `section` does, in the place of what was written: at timesteps before `same` the values
    /// are those that it wrote last. After want of memory nothing is written on it.
    pub fn tell(&mut self, run: &Run, telling: &Telling<'_>, same: u16) -> Result<(), NoMemory>
        requires closed { run.now.closed ≤ self.old.basin.control.stamps.count }
        requires same { AreToldBefore self.old.basin (held run.now.series) same self.old.values }
        ensures text { IfOk result (λ done. self.new.text
            ≡ whole_of self.old.basin telling.now.batch (outcome_of run.now)
            (option_map (λ steps. steps.now) telling.now.reran)
            telling.now.flags telling.now.trace) }
        ensures values { IfOk result (λ done. AreToldOf self.old.basin (held run.now.series)
            self.new.values) }
        ensures untold { IfErr result (λ fault. self.new.text ≡ []) }
        ensures basin { self.new.basin ≡ self.old.basin }
    {
        let kept = count_kept(self.keeps, run.closed);
        let most = lesser(self.told, kept);
        let before = count_before(same, most);
        let lines = self.lines.as_slice();
        let first = count_current(lines, self.basin, &run.series, before, most);
        cut(&mut self.rows, lines, first, self.told);
        self.told = 0;
        self.head.clear();
        self.rest.clear();
        match push_pieces(
            self.alloc,
            &mut self.head,
            &mut self.rows,
            &mut self.rest,
            &mut self.lines,
            self.basin,
            run,
            telling,
            Extent { first, kept },
        ) {
            Ok(()) => {
                self.told = kept;
                Ok(())
            }
            Err(NoMemory) => {
                self.head.clear();
                self.rows.clear();
                self.rest.clear();
                Err(NoMemory)
            }
        }
    }

    /// Returns the bytes of the section that was written last, as they lie. It takes no memory.
    pub fn text(&self) -> Pieces<'_>
        ensures { result ≡ self.now.text }
    {
        Pieces::of(
            self.head.as_bytes(),
            self.rows.as_slice(),
            self.rest.as_bytes(),
        )
    }
}
