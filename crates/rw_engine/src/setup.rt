//! Holds what a run goes by, whatever its inputs.
use rpl_predef::Predefs;
use rpl_verify::Verified;
use rw_method::Catalogue;
use rw_model::Basin;

/// Holds what a run needs besides its inputs and the machine that fires its rules.
#[derive(Drop)]
pub struct RunSetup<'a> {
    /// The basin.
    pub basin: &'a Basin,
    /// The methods of its objects.
    pub methods: &'a Catalogue,
    /// The rules.
    pub policy: &'a Verified,
    /// The functions that rules call by name.
    pub predefs: &'a Predefs,
}
