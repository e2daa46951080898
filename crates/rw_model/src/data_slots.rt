//! Holds the slots of a data object, with their names and dimensions.
ghost use Rattle.std.specs.Prelude.{◌≡◌};

use crate::Name;
use rw_base::Dim;
use std::marker::Model;

/// A slot of a data object.
#[derive(Debug, Drop)]
pub struct DataSlot {
    /// The name of the slot.
    pub name: Name,
    /// The dimension of its values.
    pub dim: Dim,
}

/// The slots of a data object, in order of place.
#[derive(Debug, Drop)]
pub struct DataSlots {
    slots: Vec<DataSlot>,
}

impl Model for DataSlots {
    ghost use Rattle.std.specs.Prelude.{List};
    ghost use Rattle.rw_model.specs.declared.data_slots.DataSlot.{DataSlot};

    ghost Value = { List DataSlot };

    ghost view = { λ d. d.slots.items };
}

impl DataSlots {
    /// Returns the list of these slots.
    pub fn of(slots: Vec<DataSlot>) -> DataSlots
        ensures { result ≡ slots.items }
    {
        DataSlots { slots }
    }

    /// Returns the slots, in order of place.
    pub fn as_slice(&self) -> &[DataSlot]
        ensures { result.now ≡ self.now }
    {
        self.slots.as_slice()
    }
}
