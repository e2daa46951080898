//! Makes the text of a model in format 2.
ghost use Rattle.std.specs.Prelude.{IfOk};
ghost use Rattle.rw_model_toml.specs.Migrated.{IsMigrated};

use rw_base::NoMemory;
use rw_model_toml::migrate;
use std::alloc::Global;

/// The text of a model, which is accepted, in format 2.
pub(crate) fn migrated_text(alloc: Global, text: &[u8]) -> Result<Vec<u8>, NoMemory>
    ensures { IfOk result (λ new. IsMigrated text.now new.items) }
{
    // What is accepted isn't refused here: memory alone can be wanting.
    match migrate(alloc, text) {
        Ok(new) => Ok(new),
        Err(_) => Err(NoMemory),
    }
}
