//! Lists by which slot the contents of a reservoir can be given.
use crate::Given;

/// The slots by which a reservoir's contents can be given.
#[derive(Clone, Copy, Debug, PartialEq, Eq)]
pub enum Basis {
    /// By neither of the two.
    Nothing,
    /// By its storage.
    Storage(Given),
    /// By its elevation.
    Elevation(Given),
}
