//! Holds what a declaration is judged with: the basin and the other declarations.
use crate::functions::Functions;
use rpl_tree::Declaration;
use rw_model::Basin;
use std::alloc::Global;

/// What a declaration is judged with.
#[derive(Drop)]
pub(crate) struct Known<'a, 'b> {
    /// The allocator from which memory is taken.
    pub(crate) alloc: Global,
    /// The basin.
    pub(crate) basin: &'a Basin,
    /// The functions that are declared before.
    pub(crate) earlier: &'a Functions<'b>,
    /// The declarations from this one on.
    pub(crate) later: &'a [Declaration],
}
