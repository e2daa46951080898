//! Holds the functions that can be called, with their kinds and the numbers of their blocks.
ghost use Rattle.std.specs.Prelude.{◌≡◌, bytes_eq, option_map, if◌then◌else◌};
ghost use Rattle.rpl_compile.specs.Seen.{callee_or_none, callee_seen, callees_of};
ghost use Rattle.rpl_compile.specs.Written as Written;

use rpl_code::ValueKind;
use rpl_scope::is_same_name;

/// A function that can be called, with the number of its block; a predefined one has none.
#[derive(Drop)]
pub(crate) struct Known {
    pub(crate) name: Vec<u8>,
    pub(crate) takes: Vec<ValueKind>,
    pub(crate) result: ValueKind,
    pub(crate) block: Option<u32>,
}

// This function, if it has the name.
fn known_or<'a>(f: &'a Known, name: &[u8], otherwise: Option<&'a Known>) -> Option<&'a Known>
    ensures { callee_or_none (option_map (λ g. g.now) result)
        ≡ if bytes_eq f.entry.now.name.items name.now then callee_seen f.entry.now
        else callee_or_none (option_map (λ g. g.now) otherwise.entry) }
{
    if is_same_name(&f.name, name) {
        Some(f)
    } else {
        otherwise
    }
}

/// Returns the function of a name that was declared last.
pub(crate) fn function_named<'a>(known: &'a [Known], name: &[u8]) -> Option<&'a Known>
    ensures { callee_or_none (option_map (λ f. f.now) result)
        ≡ Written.callee_named (callees_of known.now) name.now }
{
    let mut found = None;
    for entry in known {
        found = known_or(entry, name, found);
    }
    found
}
