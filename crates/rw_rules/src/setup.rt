//! Holds what rules fire by, whatever the cells hold.
use rpl_predef::Predefs;
use rpl_verify::Verified;
use rw_model::Basin;

/// Holds what rules need to fire, besides a machine, whatever the cells hold.
#[derive(Drop)]
pub struct RuleSetup<'a> {
    /// The basin.
    pub basin: &'a Basin,
    /// The rules.
    pub policy: &'a Verified,
    /// The functions that rules call by name.
    pub predefs: &'a Predefs,
}
