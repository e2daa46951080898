//! Holds a loop that is gone through.

/// A loop that is gone through: the place where it begins, the word of the local that takes the list's words, counted from those of
/// the block, for how many words the list has room, how many are left, and how many a mapping has made.
#[derive(Clone, Copy)]
pub(crate) struct Turn {
    pub(crate) start: u32,
    pub(crate) at: u32,
    pub(crate) room: u16,
    pub(crate) left: u16,
    pub(crate) made: u16,
}
