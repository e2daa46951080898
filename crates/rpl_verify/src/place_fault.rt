//! Lists why a place is refused.
use crate::VerifyKind;
use rw_base::NoMemory;
use std::alloc::{AllocError, AllocFailed};

/// The reasons why a place is refused.
#[derive(Clone, Copy)]
pub(crate) enum PlaceFault {
    /// It has a misfit.
    Misfit(VerifyKind),
    /// There was no memory.
    NoMemory,
}

impl From<NoMemory> for PlaceFault {
    ghost use Rattle.std.specs.Prelude.{◌≡◌};
    ghost use Rattle.rpl_verify.specs.declared.place_fault.PlaceFault.TheVariants.{NoMemory as Exhausted};

    ghost from_gives = { λ _ fault. fault ≡ Exhausted };

    fn from(_: NoMemory) -> Self {
        PlaceFault::NoMemory
    }
}

impl From<AllocError> for PlaceFault {
    ghost use Rattle.std.specs.Prelude.{◌≡◌};
    ghost use Rattle.rpl_verify.specs.declared.place_fault.PlaceFault.TheVariants.{NoMemory as Exhausted};

    ghost from_gives = { λ _ fault. fault ≡ Exhausted };

    fn from(_: AllocError) -> Self {
        PlaceFault::NoMemory
    }
}

impl<T: Drop> From<AllocFailed<T>> for PlaceFault {
    ghost use Rattle.std.specs.Prelude.{◌≡◌};
    ghost use Rattle.rpl_verify.specs.declared.place_fault.PlaceFault.TheVariants.{NoMemory as Exhausted};

    ghost from_gives = { λ _ fault. fault ≡ Exhausted };

    fn from(_: AllocFailed<T>) -> Self {
        PlaceFault::NoMemory
    }
}
