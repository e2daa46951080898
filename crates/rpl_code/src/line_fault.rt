//! Lists why a line is not read.
use rw_base::NoMemory;
use std::alloc::{AllocError, AllocFailed};

/// The reasons why a line, or a word of it, is not read.
#[derive(Clone, Copy)]
pub(crate) enum LineFault {
    /// It says nothing.
    Bad,
    /// There was no memory.
    NoMemory,
}

impl From<AllocError> for LineFault {
    ghost use Rattle.std.specs.Prelude.{◌≡◌};
    ghost use Rattle.rpl_code.specs.declared.line_fault.LineFault.TheVariants.{NoMemory as Exhausted};

    ghost from_gives = { λ _ fault. fault ≡ Exhausted };

    fn from(_: AllocError) -> Self {
        LineFault::NoMemory
    }
}

impl<T: Drop> From<AllocFailed<T>> for LineFault {
    ghost use Rattle.std.specs.Prelude.{◌≡◌};
    ghost use Rattle.rpl_code.specs.declared.line_fault.LineFault.TheVariants.{NoMemory as Exhausted};

    ghost from_gives = { λ _ fault. fault ≡ Exhausted };

    fn from(_: AllocFailed<T>) -> Self {
        LineFault::NoMemory
    }
}

impl From<NoMemory> for LineFault {
    ghost use Rattle.std.specs.Prelude.{◌≡◌};
    ghost use Rattle.rpl_code.specs.declared.line_fault.LineFault.TheVariants.{NoMemory as Exhausted};

    ghost from_gives = { λ _ fault. fault ≡ Exhausted };

    fn from(_: NoMemory) -> Self {
        LineFault::NoMemory
    }
}
