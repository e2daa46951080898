//! Holds a variable or a parameter with the kind of its values, and finds the kind of a name.
ghost use Rattle.std.specs.Prelude.{◌≡◌};
ghost use Rattle.rpl_tree.specs.Kinds as Kinds;
ghost use Rattle.rpl_budget.specs.Seen.{tree_kind_seen, names_of};

use crate::kind::TreeKind;
use rpl_scope::Scope;

/// A variable or parameter, and the kind of its values.
#[derive(Clone, Copy)]
pub(crate) struct Named<'a> {
    pub(crate) name: &'a [u8],
    pub(crate) kind: TreeKind,
}

/// Returns the kind of the innermost entry of a name, and that of a number where there is none.
#[tactic(auto, using(crate::proofs::Found::kind_found))]
pub(crate) fn kind_named<'a>(names: &Scope<'a, TreeKind>, name: &'a [u8]) -> TreeKind
    ensures { tree_kind_seen result ≡ Kinds.kind_named (names_of names.now) name.entry.now }
{
    names.find(name).unwrap_or(TreeKind::Number)
}
