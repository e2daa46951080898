//! Lists why a model's file is refused, each reason with the path of its key.
use rw_base::NoMemory;
use rw_calendar::CalFault;
use rw_model::BuildFault;
use rw_table::TableFault;
use std::alloc::{AllocError, AllocFailed};
use thiserror::Error;

/// The reasons why a model is refused, each with the path of the key, such as `object[2].table[3]`.
#[derive(Debug, Drop, Error)]
pub enum ModelFault {
    /// The bytes are no TOML.
    #[error("not TOML")]
    NotToml,
    /// A key that has to be there is missing.
    #[error("missing {0}")]
    Missing(String),
    /// The value is of another type.
    #[error("wrong kind {0}")]
    WrongKind(String),
    /// The table has no such key.
    #[error("unknown key {0}")]
    UnknownKey(String),
    /// There is no such kind of object.
    #[error("unknown kind {0}")]
    UnknownKind(String),
    /// The value is out of range, or the basin cannot have what the file says there.
    #[error("build {0}: {1:?}")]
    Build(String, BuildFault),
    /// The rows are no table.
    #[error("table {0}: {1:?}")]
    Table(String, TableFault),
    /// The run has no stamps.
    #[error("calendar: {0:?}")]
    Calendar(CalFault),
    /// There was no memory. Nothing is said of the model.
    #[error("want of memory")]
    NoMemory,
}

impl From<AllocError> for ModelFault {
    ghost use Rattle.std.specs.Prelude.{◌≡◌};
    ghost use Rattle.rw_model_toml.specs.declared.fault.ModelFault.TheVariants.{NoMemory as Exhausted};

    ghost from_gives = { λ _ fault. fault ≡ Exhausted };

    fn from(_: AllocError) -> Self {
        ModelFault::NoMemory
    }
}

impl<T: Drop> From<AllocFailed<T>> for ModelFault {
    ghost use Rattle.std.specs.Prelude.{◌≡◌};
    ghost use Rattle.rw_model_toml.specs.declared.fault.ModelFault.TheVariants.{NoMemory as Exhausted};

    ghost from_gives = { λ _ fault. fault ≡ Exhausted };

    fn from(_: AllocFailed<T>) -> Self {
        ModelFault::NoMemory
    }
}

impl From<NoMemory> for ModelFault {
    ghost use Rattle.std.specs.Prelude.{◌≡◌};
    ghost use Rattle.rw_model_toml.specs.declared.fault.ModelFault.TheVariants.{NoMemory as Exhausted};

    ghost from_gives = { λ _ fault. fault ≡ Exhausted };

    fn from(_: NoMemory) -> Self {
        ModelFault::NoMemory
    }
}
