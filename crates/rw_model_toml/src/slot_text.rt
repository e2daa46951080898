//! Finds the slot that a text `Object.Slot` names.
ghost use Rattle.std.specs.Prelude.{◌≡◌};
ghost use Rattle.rw_model_toml.specs.Told.{slot_number};

use rw_base::SlotNo;
use rw_model::BasinBuilder;

/// Returns the slot that a text `Object.Slot` names. No slot has the number 0, which is returned where it names none.
pub(crate) fn slot_number(builder: &BasinBuilder, text: &str) -> SlotNo
    ensures { result.0 ≡ slot_number builder.now.objects text.now }
{
    let Some((object, slot)) = text.split_once('.') else {
        return SlotNo(0);
    };
    match builder.find_slot(object, slot) {
        Some(number) => number,
        None => SlotNo(0),
    }
}
