//! Holds what a row of edits sets.
use rw_base::Qty;

/// An edit: the value, or none, that a row of edits sets for a slot at each of some timesteps.
#[derive(Clone, Copy)]
pub struct Edit {
    /// The number of the slot at which the values are kept.
    pub slot: u16,
    /// The first timestep.
    pub first: u16,
    /// The last timestep.
    pub last: u16,
    /// The value; `None` removes what is given.
    pub value: Option<Qty>,
}
