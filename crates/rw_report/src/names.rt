//! Writes the names of objects and slots.
ghost use Rattle.std.specs.Prelude.{◌≡◌, ◌++◌, OnOk, string_bytes, nat_le, ◌&&◌, length};
ghost use Rattle.rw_model.specs.Objects.{all_slots};
ghost use Rattle.rw_report.specs.Section.{object_words, slot_words};

use rw_base::{NoMemory, ObjectNo, SlotNo};
use rw_model::Basin;

fn is_object(basin: &Basin, object: ObjectNo) -> bool
    ensures { result ≡ (nat_le 1 object.0 && nat_le object.0 (length basin.now.objects)) }
{
    1 <= object.0 && object.0 <= basin.object_count()
}

fn is_slot(basin: &Basin, slot: SlotNo) -> bool
    ensures { result ≡ (nat_le 1 slot.0 && nat_le slot.0 (length (all_slots basin.now.objects))) }
{
    1 <= slot.0 && slot.0 <= basin.slot_count()
}

/// Returns the name of an object, and nothing where there is none of its number.
pub fn object_words(basin: &Basin, object: ObjectNo) -> &str
    ensures { result.now ≡ object_words basin.now object.0 }
{
    if is_object(basin, object) {
        basin.object_name(object)
    } else {
        ""
    }
}

/// Appends a word and the name of an object.
pub(crate) fn push_object(
    text: &mut String,
    basin: &Basin,
    word: &str,
    object: ObjectNo,
) -> Result<(), NoMemory>
    ensures { OnOk result (string_bytes text.new
        ≡ string_bytes text.old ++ (word.now ++ object_words basin.now object.0)) }
{
    text.push_str(word)?;
    text.push_str(object_words(basin, object))?;
    Ok(())
}

/// Appends the name of a slot after that of its object, and nothing where there is none of its number.
pub fn push_slot(text: &mut String, basin: &Basin, slot: SlotNo) -> Result<(), NoMemory>
    ensures { OnOk result
        (string_bytes text.new ≡ string_bytes text.old ++ slot_words basin.now slot.0) }
{
    if is_slot(basin, slot) {
        text.push_str(object_words(basin, basin.owner(slot)))?;
        text.push_str(".")?;
        text.push_str(basin.slot_name(slot))?;
    }
    Ok(())
}
