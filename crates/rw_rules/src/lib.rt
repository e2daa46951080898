//! Lets the rules of a policy fire in a run. `Rules` finds the rule that is due, lets it fire by a machine that is lent, and leaves
//! cells, objects and rules as the event of that firing does. `fire` is the firing of one rule of verified code: the machine
//! fires it, and its puts are judged, so both together give the event that the definition of a run makes of it. `reads` returns
//! how often each rule looks at most: an agenda needs room for that. Only making rules takes memory.
#![tactic(auto)]

mod firing;
mod most;
mod rule_fired;
mod rules;
mod setup;

pub use firing::fire;
pub use most::reads;
pub use rule_fired::RuleFired;
pub use rules::Rules;
pub use setup::RuleSetup;
