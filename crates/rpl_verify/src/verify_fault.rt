//! Holds why code is not accepted, and at which place.
use crate::VerifyKind;
use rw_base::NoMemory;
use std::alloc::{AllocError, AllocFailed};
use thiserror::Error;

/// The reasons why code is not accepted.
#[derive(Clone, Copy, Debug, PartialEq, Eq, Error)]
pub enum VerifyFault {
    /// The code is refused.
    #[error("{kind:?} in block {block} at place {place}")]
    Refused {
        /// What is wrong.
        kind: VerifyKind,
        /// In which block, counted from 1.
        block: u32,
        /// At which place, counted from 0. The end of a block is the place after its last.
        place: u32,
    },
    /// There was no memory. Nothing is said of the code.
    #[error("out of memory")]
    NoMemory,
}

impl From<NoMemory> for VerifyFault {
    ghost use Rattle.std.specs.Prelude.{◌≡◌};
    ghost use Rattle.rpl_verify.specs.declared.verify_fault.VerifyFault.TheVariants.{NoMemory as Exhausted};

    ghost from_gives = { λ _ fault. fault ≡ Exhausted };

    fn from(_: NoMemory) -> Self {
        VerifyFault::NoMemory
    }
}

impl From<AllocError> for VerifyFault {
    ghost use Rattle.std.specs.Prelude.{◌≡◌};
    ghost use Rattle.rpl_verify.specs.declared.verify_fault.VerifyFault.TheVariants.{NoMemory as Exhausted};

    ghost from_gives = { λ _ fault. fault ≡ Exhausted };

    fn from(_: AllocError) -> Self {
        VerifyFault::NoMemory
    }
}

impl<T: Drop> From<AllocFailed<T>> for VerifyFault {
    ghost use Rattle.std.specs.Prelude.{◌≡◌};
    ghost use Rattle.rpl_verify.specs.declared.verify_fault.VerifyFault.TheVariants.{NoMemory as Exhausted};

    ghost from_gives = { λ _ fault. fault ≡ Exhausted };

    fn from(_: AllocFailed<T>) -> Self {
        VerifyFault::NoMemory
    }
}
