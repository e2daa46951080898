//! Writes lines of a trace for callers outside this crate, by texts that are made once.
ghost use Rattle.std.specs.Prelude.{◌≡◌, ◌++◌, IfOk, OnOk, codes, string_bytes};
ghost use Rattle.rw_run.specs.RunOf.{line_of};
ghost use Rattle.rw_report.specs.Lines.{line_words};
ghost use Rattle.rw_report.specs.Section.{slot_words};

use crate::lines::{push_front, push_told, push_write};
use crate::pieces::ROOM;
use crate::told::{LineTexts, line_texts, slot_texts};
use rw_base::{NoMemory, SlotNo};
use rw_model::Basin;
use rw_run::{TraceEvent, Write};
use std::alloc::Global;
use std::marker::Model;

/// A writer of lines of the traces of a basin, seen as the basin. It keeps the texts that many lines have in common, each made
/// once.
#[derive(Drop)]
pub struct Teller<'a> {
    basin: &'a Basin,
    texts: LineTexts,
    // The slots, each between two spaces.
    slots: Vec<String>,
}

impl<'a> Model for Teller<'a> {
    ghost use Rattle.rw_model.specs.Draft.{Draft};
    ghost use Rattle.rw_report.specs.Pieces.{AreLineTexts, AreTexts, slot_behind};
    ghost use Rattle.std.specs.Prelude.{codes};

    ghost Value = { Draft };

    ghost view = { λ t. t.basin.now };

    ghost invariant = { λ t. AreLineTexts t.basin.now t.texts
        × AreTexts (slot_behind t.basin.now (codes " ")) t.slots.items };
}

impl<'a> Teller<'a> {
    /// Returns a teller of a basin. The one error is want of memory, as of each of its calls.
    pub fn new(alloc: Global, basin: &'a Basin) -> Result<Teller<'a>, NoMemory>
        ensures { IfOk result (λ teller. teller ≡ basin.now) }
    {
        let texts = line_texts(alloc, basin)?;
        let slots = slot_texts(alloc, basin, " ")?;
        Ok(Teller {
            basin,
            texts,
            slots,
        })
    }

    /// Returns the basin.
    pub fn basin(&self) -> &Basin
        ensures { result.now ≡ self.now }
    {
        self.basin
    }

    /// Appends a line, with its end.
    #[inline(always)]
    pub fn push_line(&self, text: &mut String, line: TraceEvent) -> Result<(), NoMemory>
        ensures { OnOk result (string_bytes text.new
            ≡ string_bytes text.old ++ (line_words self.now line ++ codes "\n")) }
    {
        push_told(text, self.basin, &self.texts, line)
    }

    /// Appends a slot between two spaces.
    pub fn push_slot(&self, text: &mut String, slot: SlotNo) -> Result<(), NoMemory>
        ensures { OnOk result (string_bytes text.new ≡ string_bytes text.old
            ++ (codes " " ++ (slot_words self.now slot.0 ++ codes " "))) }
    {
        push_front(text, self.basin, self.slots.as_slice(), " ", slot)
    }

    /// Appends the line of a put that is written, with its end, written in the buffer first.
    pub fn push_write(
        &self,
        text: &mut String,
        buffer: &mut [u8; ROOM],
        write: Write,
    ) -> Result<(), NoMemory>
        ensures { OnOk result (string_bytes text.new
            ≡ string_bytes text.old ++ (line_words self.now (line_of write) ++ codes "\n")) }
    {
        push_write(
            text,
            buffer,
            self.basin,
            self.texts.written.as_slice(),
            write,
        )
    }
}
