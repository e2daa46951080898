//! Refuses a table that has a key which its kind of table does not have.
ghost use Rattle.std.specs.Prelude.{◌≡◌, map};
ghost use Rattle.toml.specs.View.{table_view};
ghost use Rattle.rw_model_toml.specs.Fault.{Gives};
ghost use Rattle.rw_model_toml.specs.Key.{is_listed, only_listed};

use crate::ModelFault;
use crate::path::key_path;
use std::alloc::Global;
use toml::Table;

// Whether the key is one of these.
fn is_listed(keys: &[&str], key: &str) -> bool
    ensures { result ≡ is_listed (map (λ listed. listed.now) keys.now) key.now }
{
    for listed in keys {
        if key == *listed {
            return true;
        }
    }
    false
}

/// Refuses the first key of the table at a path that is not listed.
pub(crate) fn only_listed(
    alloc: Global,
    keys: &[&str],
    at: &str,
    table: &Table,
) -> Result<(), ModelFault>
    ensures { Gives (λ u. u) result
        (only_listed (map (λ listed. listed.now) keys.now) at.now (table_view table.now)) }
{
    for (key, _value) in table {
        if !is_listed(keys, key.as_str()) {
            return Err(ModelFault::UnknownKey(key_path(alloc, at, key.as_str())?));
        }
    }
    Ok(())
}
