//! Lists why a declaration gets no types.
use crate::TypeKind;
use std::alloc::AllocFailed;

/// The reasons why a declaration gets no types.
#[derive(Clone, Copy, Drop)]
pub(crate) enum Stop {
    /// Something is wrong at a node.
    Refused {
        /// What is wrong.
        kind: TypeKind,
        /// The node's number, from 1, or 0 for the declaration as a whole.
        node: usize,
    },
    /// There was no memory.
    NoMemory,
}
