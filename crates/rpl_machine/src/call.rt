//! Holds a block that waits for one that it called.

/// A block that waits for one that it called: its number, the place where it goes on, and where the words of its locals begin.
#[derive(Clone, Copy)]
pub(crate) struct Call {
    pub(crate) block: u32,
    pub(crate) place: u32,
    pub(crate) base: usize,
}
