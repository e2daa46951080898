//! Makes the texts that many lines of a trace have in common, each once.
ghost use Rattle.std.specs.Prelude.{◌≡◌, ◌+◌, ◌++◌, ℕ, List, IfOk, IfSome, OnOk, string_bytes, codes};
ghost use Rattle.rw_report.specs.Pieces.{AreLineTexts, AreTexts, object_line, slot_behind};

use crate::names::{push_object, push_slot};
use rw_base::{NoMemory, ObjectNo, SlotNo};
use rw_model::Basin;
use std::alloc::Global;

/// The texts, by the numbers of objects and of slots.
#[derive(Drop)]
pub(crate) struct LineTexts {
    /// The line of an object that put nothing.
    pub(crate) idle: Vec<String>,
    /// The line of an object that put something.
    pub(crate) solve: Vec<String>,
    /// How the line of a put to a slot begins.
    pub(crate) written: Vec<String>,
}

/// Appends the line that ends in the name of an object.
pub(crate) fn push_object_line(
    text: &mut String,
    basin: &Basin,
    word: &str,
    object: ObjectNo,
) -> Result<(), NoMemory>
    ensures { OnOk result (string_bytes text.new
        ≡ string_bytes text.old ++ object_line basin.now word.now object.0) }
{
    push_object(text, basin, word, object)?;
    text.push_str("\n")?;
    Ok(())
}

/// Appends a slot between a text and a space.
pub(crate) fn push_slot_behind(
    text: &mut String,
    basin: &Basin,
    front: &str,
    slot: SlotNo,
) -> Result<(), NoMemory>
    ensures { OnOk result (string_bytes text.new
        ≡ string_bytes text.old ++ slot_behind basin.now front.now slot.0) }
{
    text.push_str(front)?;
    push_slot(text, basin, slot)?;
    text.push_str(" ")?;
    Ok(())
}

fn object_text(
    alloc: Global,
    basin: &Basin,
    word: &str,
    object: ObjectNo,
) -> Result<String, NoMemory>
    ensures { IfOk result (λ text. string_bytes text ≡ object_line basin.now word.now object.0) }
{
    let mut text = String::new(alloc);
    push_object_line(&mut text, basin, word, object)?;
    Ok(text)
}

fn slot_text(alloc: Global, basin: &Basin, front: &str, slot: SlotNo) -> Result<String, NoMemory>
    ensures { IfOk result (λ text. string_bytes text ≡ slot_behind basin.now front.now slot.0) }
{
    let mut text = String::new(alloc);
    push_slot_behind(&mut text, basin, front, slot)?;
    Ok(text)
}

// The lines of all objects that begin with a word.
fn object_texts(alloc: Global, basin: &Basin, word: &str) -> Result<Vec<String>, NoMemory>
    ensures { IfOk result (λ texts. AreTexts (object_line basin.now word.now) texts.items) }
{
    let mut texts = Vec::new(alloc);
    for before in 0..basin.object_count() {
        texts.push(object_text(alloc, basin, word, ObjectNo(before + 1))?)?;
    }
    Ok(texts)
}

/// Returns all slots, each between a text and a space.
pub(crate) fn slot_texts(alloc: Global, basin: &Basin, front: &str) -> Result<Vec<String>, NoMemory>
    ensures { IfOk result (λ texts. AreTexts (slot_behind basin.now front.now) texts.items) }
{
    let mut texts = Vec::new(alloc);
    for before in 0..basin.slot_count() {
        texts.push(slot_text(alloc, basin, front, SlotNo(before + 1))?)?;
    }
    Ok(texts)
}

/// Returns the texts of a basin's lines.
pub(crate) fn line_texts(alloc: Global, basin: &Basin) -> Result<LineTexts, NoMemory>
    ensures { IfOk result (λ texts. AreLineTexts basin.now texts) }
{
    Ok(LineTexts {
        idle: object_texts(alloc, basin, "idle ")?,
        solve: object_texts(alloc, basin, "solve ")?,
        written: slot_texts(alloc, basin, "  ")?,
    })
}

/// Returns the text of a number, where there is one.
#[inline(always)]
pub(crate) fn text_of(texts: &[String], number: u16) -> Option<&str>
    ensures { (words : ℕ → List ℕ) → AreTexts words texts.entry.now
        → IfSome result (λ text. text.now ≡ words number) }
{
    if number == 0 {
        return None;
    }
    match texts.get(usize::from(number - 1)) {
        Some(text) => Some(text.as_str()),
        None => None,
    }
}
