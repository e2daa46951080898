//! Writes the path of a key or of an element, by which a refusal names its place.
ghost use Rattle.std.specs.Prelude.{◌≡◌, IfOk, string_bytes};
ghost use Rattle.rw_model_toml.specs.Path.{key_path, element_path};

use rw_base::NoMemory;
use std::alloc::Global;

/// Returns the path of a key of the table at a path.
pub(crate) fn key_path(alloc: Global, at: &str, key: &str) -> Result<String, NoMemory>
    ensures { IfOk result (λ path. string_bytes path ≡ key_path at.now key.now) }
{
    if at.is_empty() {
        return Ok(String::from_str(alloc, key)?);
    }
    Ok(format!(in alloc; "{at}.{key}")?)
}

/// Returns the path of an element of the array at a path, counted from 1.
pub(crate) fn element_path(alloc: Global, path: &str, number: usize) -> Result<String, NoMemory>
    ensures { IfOk result (λ text. string_bytes text ≡ element_path path.now number) }
{
    Ok(format!(in alloc; "{path}[{number}]")?)
}
