//! Lists why a block is refused.
ghost use Rattle.std.specs.Prelude.{◌≡◌};
ghost use Rattle.rpl_verify.specs.Answered.{placed_at};

use crate::VerifyKind;
use crate::place_fault::PlaceFault;
use rw_base::NoMemory;
use std::alloc::{AllocError, AllocFailed};

/// The reasons why a block is refused.
#[derive(Clone, Copy)]
pub(crate) enum BlockFault {
    /// A place has a misfit.
    Misplaced(VerifyKind, u32),
    /// There was no memory.
    NoMemory,
}

/// Returns the fault at this place.
pub(crate) fn placed_at(place: u32, fault: PlaceFault) -> BlockFault
    ensures { result ≡ placed_at place fault }
{
    match fault {
        PlaceFault::Misfit(kind) => BlockFault::Misplaced(kind, place),
        PlaceFault::NoMemory => BlockFault::NoMemory,
    }
}

impl From<NoMemory> for BlockFault {
    ghost use Rattle.std.specs.Prelude.{◌≡◌};
    ghost use Rattle.rpl_verify.specs.declared.block_fault.BlockFault.TheVariants.{NoMemory as Exhausted};

    ghost from_gives = { λ _ fault. fault ≡ Exhausted };

    fn from(_: NoMemory) -> Self {
        BlockFault::NoMemory
    }
}

impl From<AllocError> for BlockFault {
    ghost use Rattle.std.specs.Prelude.{◌≡◌};
    ghost use Rattle.rpl_verify.specs.declared.block_fault.BlockFault.TheVariants.{NoMemory as Exhausted};

    ghost from_gives = { λ _ fault. fault ≡ Exhausted };

    fn from(_: AllocError) -> Self {
        BlockFault::NoMemory
    }
}

impl<T: Drop> From<AllocFailed<T>> for BlockFault {
    ghost use Rattle.std.specs.Prelude.{◌≡◌};
    ghost use Rattle.rpl_verify.specs.declared.block_fault.BlockFault.TheVariants.{NoMemory as Exhausted};

    ghost from_gives = { λ _ fault. fault ≡ Exhausted };

    fn from(_: AllocFailed<T>) -> Self {
        BlockFault::NoMemory
    }
}
