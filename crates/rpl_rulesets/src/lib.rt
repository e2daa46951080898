//! Defines the policy of a run that a ruleset is: each rule does what it means. The laws say that an accepted ruleset does in a
//! run what its code does (`rpl_policy`), so that it has a run, and that each firing there is one of verified code, within the
//! ruleset's budget.
#![tactic(auto)]

pub mod law;
