//! Holds what is known on the way over a declaration: the names that can be used, and the types of its nodes so far.
ghost use Rattle.std.specs.Prelude.{◌≡◌, IfErr, IfOk, OnOk};
ghost use Rattle.rpl_types.specs.Forms.{name_type};
ghost use Rattle.rpl_types.specs.Stopped.{progress_of};
ghost use Rattle.rpl_types.specs.Visited.{node_filled, next_node, node_reserved, visit, with_variable, without_variable};
ghost use Rattle.rpl_types.specs.declared.stop.Stop.TheVariants as Stop;

use crate::TypeKind;
use crate::stop::Stop;
use rpl_scope::Scope;
use rpl_tree::RplType;
use rw_base::NoMemory;

/// What is known on the way over a declaration.
#[derive(Drop)]
pub(crate) struct Progress<'a> {
    /// The names that can be used, and their types.
    pub(crate) scope: Scope<'a, RplType>,
    /// The types of the nodes so far: none for a statement, or for a node whose parts are still to come.
    pub(crate) types: Vec<Option<RplType>>,
}

/// Keeps a place for the next node, and returns its number.
pub(crate) fn reserve(progress: &mut Progress) -> Result<usize, Stop>
    ensures ok { OnOk result (progress_of progress.new ≡ node_reserved (progress_of progress.old)) }
    ensures node { IfOk result (λ node. node ≡ next_node (progress_of progress.old)) }
    ensures err { IfErr result (λ stop. stop ≡ Stop.NoMemory) }
{
    match progress.types.push(None) {
        Ok(()) => Ok(progress.types.len()),
        Err(_) => Err(Stop::NoMemory),
    }
}

/// Sets the type of a node.
pub(crate) fn fill(progress: &mut Progress, node: usize, found: &RplType)
    ensures { node_filled node (progress_of progress.old) found.now
        ≡ visit found.now (progress_of progress.new) }
{
    if let Some(kept) = progress.types.get_mut(node.saturating_sub(1)) {
        *kept = Some(*found);
    }
}

/// Adds a name, which hides others of that name.
pub(crate) fn add_variable<'a>(
    progress: &mut Progress<'a>,
    name: &'a [u8],
    of_type: &RplType,
) -> Result<(), Stop>
    ensures ok { OnOk result (progress_of progress.new
        ≡ with_variable name.now of_type.now (progress_of progress.old)) }
    ensures err { IfErr result (λ stop. stop ≡ Stop.NoMemory) }
{
    match progress.scope.push(name, *of_type) {
        Ok(()) => Ok(()),
        Err(NoMemory) => Err(Stop::NoMemory),
    }
}

/// Removes the name that was added last.
pub(crate) fn drop_variable(progress: &mut Progress)
    ensures { progress_of progress.new ≡ without_variable (progress_of progress.old) }
{
    progress.scope.pop();
}

/// Returns the type of a name: that of the innermost variable of the name.
pub(crate) fn name_type<'a>(progress: &Progress<'a>, name: &'a [u8]) -> Result<RplType, TypeKind>
    ensures { result ≡ name_type (progress_of progress.now).scope name.entry.now }
{
    match progress.scope.find(name) {
        Some(of_type) => Ok(of_type),
        None => Err(TypeKind::UnknownName),
    }
}
