//! Reads the name of an object or a slot.
ghost use Rattle.toml.specs.View.{table_view};
ghost use Rattle.rw_model_toml.specs.Fault.{Gives};
ghost use Rattle.rw_model_toml.specs.Names.{name_of};

use crate::ModelFault;
use crate::key::required_text;
use crate::path::key_path;
use rw_model::{BuildFault, is_name};
use std::alloc::Global;
use toml::Table;

/// Returns the name of an object or a slot, in the table at a path.
pub(crate) fn read_name<'a>(
    alloc: Global,
    at: &str,
    table: &'a Table,
) -> Result<&'a str, ModelFault>
    ensures { Gives (λ name. name.now) result (name_of at.now (table_view table.now)) }
{
    let text = required_text(alloc, at, "name", table)?;
    if !is_name(text) {
        return Err(ModelFault::Build(key_path(alloc, at, "name")?, BuildFault::BadParameter));
    }
    Ok(text)
}
