//! Holds a put of an object: the value, its priority and the place of the slot.
use rw_base::Qty;

/// A value that an object asks for in one of its slots.
#[derive(Clone, Copy, Debug, PartialEq, Eq)]
pub struct Put {
    /// The value, in the base units of the slot's dimension.
    pub value: Qty,
    /// Its priority: a smaller number is a higher one.
    pub number: u16,
    /// The slot's place among those of the object, counted from 0.
    pub place: u8,
}

impl Default for Put {
    fn default() -> Put {
        match Qty::of(0) {
            Some(value) => Put {
                value,
                number: 0,
                place: 0,
            },
            None => unreachable!(),
        }
    }
}
