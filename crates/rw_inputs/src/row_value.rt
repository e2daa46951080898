//! Holds what a row of inputs gives.
use rw_base::Qty;

/// A value of a slot at each of some timesteps, as a row says it.
#[derive(Clone, Copy)]
pub(crate) struct RowValue {
    /// The number of the slot.
    pub(crate) slot: u16,
    /// The first timestep.
    pub(crate) first: u16,
    /// The last timestep.
    pub(crate) last: u16,
    /// The value.
    pub(crate) value: Qty,
}
