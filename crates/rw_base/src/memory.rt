//! Names the error of a call for which there is no memory, and turns the errors of the allocator into it.
use std::alloc::{AllocError, AllocFailed};

/// The error of a call for which there was no memory. What the call was handed is as it was before, unless the call says
/// otherwise.
#[derive(Clone, Copy, Debug, PartialEq, Eq)]
pub struct NoMemory;

impl From<AllocError> for NoMemory {
    fn from(_: AllocError) -> Self {
        NoMemory
    }
}

impl<T: Drop> From<AllocFailed<T>> for NoMemory {
    fn from(_: AllocFailed<T>) -> Self {
        NoMemory
    }
}
