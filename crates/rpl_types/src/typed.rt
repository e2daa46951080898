//! Holds an accepted ruleset with the types of its nodes and its budgets.
ghost use Rattle.std.specs.Prelude.{◌≡◌, ◌≤◌, ◌+◌, Some, IsSome, map, option_map};
ghost use Rattle.rw_base.specs.declared.limits.TheConstants.{RULES_MAX};
ghost use Rattle.rpl_budget.specs.Seen.{budget_seen};
ghost use Rattle.rpl_tree.specs.Seen.{declared_of, rules_of};
ghost use Rattle.rpl_tree.specs.Bounds.{AreLimited, function_count, rule_count};
ghost use Rattle.rpl_types.specs.Checked.{declaration_of_rule, rule_budget};
ghost use Rattle.rpl_types.specs.Judged.{type_at};

use crate::declarations::NodeTypes;
use rpl_budget::TreeCost;
use rpl_tree::{Declaration, ParsedRules, RplType};
use rw_base::RuleNo;
use std::marker::Model;
use std::mem::drop;

/// A ruleset that is accepted with a basin, the types of its nodes, and its budgets.
#[derive(Drop)]
pub struct Typed {
    pub(crate) rules: ParsedRules,
    pub(crate) types: Vec<NodeTypes>,
    pub(crate) costs: Vec<TreeCost>,
}

impl Model for Typed {
    ghost use Rattle.std.specs.Prelude.{◌≡◌, map};
    ghost use Rattle.std.specs.Coded.{codes};
    ghost use Rattle.rpl_budget.specs.Budgets.{budgets_of};
    ghost use Rattle.rpl_budget.specs.Seen.{budget_seen};
    ghost use Rattle.rpl_tree.specs.Bounds.{AreLimited};
    ghost use Rattle.rpl_tree.specs.Seen.{rules_of};
    ghost use Rattle.rpl_tree.specs.contracts.expression.Expr as e;
    ghost use Rattle.rpl_tree.specs.contracts.statement.Statement as s;
    ghost use Rattle.rpl_types.specs.Checked.{Known};

    ghost Value = { Known };

    ghost view = { λ t.
        record { rules = t.rules; types = map (λ types. types.items) t.types.items } };

    ghost invariant = { λ t. AreLimited (rules_of t.rules)
        × (map budget_seen t.costs.items ≡ budgets_of (rules_of t.rules)) };

    ghost coded = { Prim.hlevel (codes, e.the_row.coded, s.the_row.coded) };
}

/// Counts the rules.
fn rules_in(declarations: &[Declaration]) -> u16
    requires { rule_count (map declared_of declarations.now) ≤ RULES_MAX }
    ensures { result ≡ rule_count (map declared_of declarations.now) }
{
    let mut count = 0;
    for declaration in declarations {
        if let Declaration::Rule { .. } = declaration {
            count += 1;
        }
    }
    count
}

/// Counts the functions.
fn functions_in(declarations: &[Declaration]) -> u16
    requires { function_count (map declared_of declarations.now) ≤ RULES_MAX }
    ensures { result ≡ function_count (map declared_of declarations.now) }
{
    let mut count = 0;
    for declaration in declarations {
        if let Declaration::Function { .. } = declaration {
            count += 1;
        }
    }
    count
}

/// Returns the place of the rule of this number, counted from 0.
fn place_of_rule(declarations: &[Declaration], rule: u16) -> Option<usize>
    ensures { option_map (λ place. place + 1) result
        ≡ declaration_of_rule (map declared_of declarations.now) rule }
{
    let mut left = rule;
    for place in 0..declarations.len() {
        if let Declaration::Rule { .. } = &declarations[place] {
            if left <= 1 {
                return if left == 1 { Some(place) } else { None };
            }
            left -= 1;
        }
    }
    None
}

impl Typed {
    /// Returns the rules and functions, as they were parsed.
    pub fn rules(&self) -> &ParsedRules
        ensures rules { result.now ≡ self.now.rules }
        ensures limited { AreLimited (rules_of result.now) }
    {
        &self.rules
    }

    /// Returns the rules and functions, as they were parsed. What was found of them is dropped.
    pub fn into_rules(self) -> ParsedRules
        ensures rules { result ≡ self.rules }
        ensures limited { AreLimited (rules_of result) }
    {
        let Typed {
            rules,
            types,
            costs,
        } = self;
        drop(types);
        drop(costs);
        rules
    }

    /// Returns the type of a node that is an expression, of a declaration. Both are counted from 1.
    pub fn type_of(&self, declaration: u32, node: u32) -> RplType
        requires expression { IsSome (type_at self.now.types declaration node) }
        ensures { type_at self.now.types declaration node ≡ Some result }
    {
        let types = &self.types[declaration as usize - 1];
        let Some(found) = types[node as usize - 1] else {
            unreachable!();
        };
        found
    }

    /// Returns the number of rules, at most 200.
    pub fn rule_count(&self) -> u16
        ensures count { result ≡ rule_count (rules_of self.now.rules) }
        ensures most { result ≤ RULES_MAX }
    {
        rules_in(&self.rules.declarations)
    }

    /// Returns the number of functions, at most 200.
    pub fn function_count(&self) -> u16
        ensures count { result ≡ function_count (rules_of self.now.rules) }
        ensures most { result ≤ RULES_MAX }
    {
        functions_in(&self.rules.declarations)
    }

    /// Returns the most that a firing of a rule counts, looks and puts, and the most words that it keeps. `docs/LANGUAGE.md` says
    /// under "Limits, costs and budgets" what is counted.
    pub fn cost(&self, rule: RuleNo) -> TreeCost
        requires rule { IsSome (declaration_of_rule (rules_of self.now.rules) rule.0) }
        ensures { rule_budget (rules_of self.now.rules) rule.0 ≡ Some (budget_seen result) }
    {
        let Some(place) = place_of_rule(&self.rules.declarations, rule.0) else {
            unreachable!();
        };
        self.costs[place]
    }
}
