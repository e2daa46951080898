//! Proves what the policy of a ruleset promises, and which runs it has. Each law is the `ensures` of a function that does
//! nothing.
ghost use Rattle.std.specs.Prelude.{◌↔◌, ◌≤◌, ℤ, List, []};
ghost use Rattle.rw_base.specs.declared.limits.TheConstants.{RULES_MAX};
ghost use Rattle.rw_base.specs.declared.number.Cell.{Cell};
ghost use Rattle.rw_model.specs.Draft.{Draft};
ghost use Rattle.rw_run.specs.Log.{Log};
ghost use Rattle.rw_run.specs.Policy.{FireAlike, IsPolicyOf};
ghost use Rattle.rw_run.specs.Frame.{log_after};
ghost use Rattle.rw_run.specs.Runs.{IsRun, with_inputs};
ghost use Rattle.rpl_tree.specs.Tree.{Declared};
ghost use Rattle.rpl_tree.specs.Worked.{cap_and_base};
ghost use Rattle.rpl_tree.specs.Bounds.{function_count, rule_count};
ghost use Rattle.rpl_types.specs.HasType.{IsTyped};
ghost use Rattle.rpl_compile.specs.Budgets.{code_budgets_of};
ghost use Rattle.rpl_compile.specs.Translate.{translate};
ghost use Rattle.rpl_policy.specs.Firings.{AreVerified};
ghost use Rattle.rpl_policy.specs.Policy.{policy_of_code};
ghost use Rattle.rpl_policy.specs.Worked.{dam_basin, dam_inflow, dam_run};
ghost use Rattle.rpl_rulesets.specs.RulesPolicy.{policy_of_rules};

use rpl_compile::accepted::compiled_budgets;
use rpl_compile::meaning::rules_fire_alike;
use rpl_policy::law::{code_keeps_promises, firings_are_verified};
use rw_run::law::{same_runs, some_run};

/// The rules of an accepted ruleset do what their code does, which is accepted and so keeps the same.
pub fn rules_keep_promises()
    ensures alike { (basin : Draft) (rules : List Declared) → IsTyped basin rules
        → rule_count rules ≤ RULES_MAX → function_count rules ≤ RULES_MAX
        → FireAlike (policy_of_rules basin rules) (policy_of_code basin (translate rules)) }
    ensures promises { (basin : Draft) (rules : List Declared) → IsTyped basin rules
        → rule_count rules ≤ RULES_MAX → function_count rules ≤ RULES_MAX
        → IsPolicyOf basin (policy_of_code basin (translate rules)) }
{
    rules_fire_alike();
    compiled_budgets();
    code_keeps_promises();
}

/// An accepted ruleset has a run of any inputs. Its runs are those of its code.
pub fn rulesets_have_runs()
    ensures rules { (basin : Draft) (rules : List Declared) (inputs : List (Cell × ℤ))
        → IsTyped basin rules → rule_count rules ≤ RULES_MAX → function_count rules ≤ RULES_MAX
        → (log : Log) × IsRun basin (policy_of_rules basin rules) inputs log }
    ensures same { (basin : Draft) (rules : List Declared) (inputs : List (Cell × ℤ)) (log : Log)
        → IsTyped basin rules → rule_count rules ≤ RULES_MAX → function_count rules ≤ RULES_MAX
        → IsRun basin (policy_of_rules basin rules) inputs log
        ↔ IsRun basin (policy_of_code basin (translate rules)) inputs log }
{
    rules_keep_promises();
    same_runs();
    some_run();
}

/// Each firing in a run of an accepted ruleset is that of the machine on its code, which is accepted with the budgets of the
/// ruleset, and so keeps to them.
pub fn firings_of_rules_are_verified()
    ensures { (basin : Draft) (rules : List Declared) (inputs : List (Cell × ℤ)) (log : Log)
        → IsTyped basin rules → rule_count rules ≤ RULES_MAX → function_count rules ≤ RULES_MAX
        → IsRun basin (policy_of_rules basin rules) inputs log
        → AreVerified basin (translate rules) (code_budgets_of rules) log }
{
    compiled_budgets();
    rulesets_have_runs();
    firings_are_verified();
}

/// The dam of two rules (`a_dam` of `rpl_policy`): the ruleset has the run of its code.
pub fn a_dam_by_rules()
    ensures { IsRun dam_basin (policy_of_rules dam_basin cap_and_base) dam_inflow
        (log_after dam_run (with_inputs [] dam_inflow)) }
{}
