//! Holds an accepted policy, a ruleset or code, and returns its budgets.
ghost use Rattle.std.specs.Prelude.{◌≡◌, ◌≤◌, Some};
ghost use Rattle.rw_base.specs.declared.limits.TheConstants.{RULES_MAX};
ghost use Rattle.rpl_budget.specs.Seen.{budget_seen};
ghost use Rattle.rw_commands.specs.Budgets.{budget_in, functions_in, rules_in};
ghost use Rattle.rw_commands.specs.Policy.{Code};
ghost use Rattle.rw_commands.specs.Seen.{policy_of};

use rpl_types::{TreeCost, Typed};
use rpl_verify::Verified;
use rw_base::RuleNo;

/// A policy that is accepted.
#[derive(Drop)]
pub(crate) enum Policy {
    Ruleset(Typed),
    Code(Verified),
}

// The budgets of a rule of code.
fn code_cost(code: &Verified, rule: u16) -> TreeCost
    requires counted { 1 ≤ rule }
    requires exists { rule ≤ rules_in (Code code.now.blocks code.now.budgets) }
    ensures { budget_in (Code code.now.blocks code.now.budgets) rule ≡ Some (budget_seen result) }
{
    let budget = code.budget(code.rule_block(RuleNo(rule)));
    TreeCost {
        instructions: budget.instructions,
        reads: budget.reads,
        puts: budget.puts,
        words: budget.words,
    }
}

impl Policy {
    /// How many rules there are, at most 200.
    pub(crate) fn rule_count(&self) -> u16
        ensures count { result ≡ rules_in (policy_of self.now) }
        ensures most { result ≤ RULES_MAX }
    {
        match self {
            Policy::Ruleset(typed) => typed.rule_count(),
            Policy::Code(code) => code.rule_count(),
        }
    }

    /// How many functions there are, at most 200.
    pub(crate) fn function_count(&self) -> u16
        ensures { result ≡ functions_in (policy_of self.now) }
    {
        match self {
            Policy::Ruleset(typed) => typed.function_count(),
            Policy::Code(code) => code.function_count(),
        }
    }

    /// The budgets of a rule.
    pub(crate) fn cost(&self, rule: u16) -> TreeCost
        requires counted { 1 ≤ rule }
        requires exists { rule ≤ rules_in (policy_of self.now) }
        ensures { budget_in (policy_of self.now) rule ≡ Some (budget_seen result) }
    {
        match self {
            Policy::Ruleset(typed) => typed.cost(RuleNo(rule)),
            Policy::Code(code) => code_cost(code, rule),
        }
    }
}
