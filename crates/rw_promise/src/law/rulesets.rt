//! Proves what every run by an accepted ruleset keeps, by what its rules mean. The law is the `ensures` of a function that does
//! nothing.
ghost use Rattle.std.specs.Prelude.{◌≤◌, ℤ, List};
ghost use Rattle.rw_base.specs.declared.limits.TheConstants.{RULES_MAX};
ghost use Rattle.rw_base.specs.declared.number.Cell.{Cell};
ghost use Rattle.rw_model.specs.Basin.{IsBasin};
ghost use Rattle.rw_model.specs.Draft.{Draft};
ghost use Rattle.rw_run.specs.Log.{Log};
ghost use Rattle.rw_run.specs.RunOf.{IsRunOf};
ghost use Rattle.rw_run.specs.Runs.{IsRun};
ghost use Rattle.rw_run.specs.declared.run.Run.{Run};
ghost use Rattle.rpl_tree.specs.Bounds.{function_count, rule_count};
ghost use Rattle.rpl_tree.specs.Tree.{Declared};
ghost use Rattle.rpl_types.specs.HasType.{IsTyped};
ghost use Rattle.rpl_rulesets.specs.RulesPolicy.{policy_of_rules};
ghost use Rattle.rw_laws.specs.Laws.{KeepsLaws};

use rpl_rulesets::law::{rules_keep_promises, rulesets_have_runs};
use rw_laws::law::every_run;

/// The table of a run by an accepted ruleset keeps the laws of every run, by what its rules mean: it is the one that `run`
/// writes.
pub fn every_run_of_rules()
    ensures { (basin : Draft) (rules : List Declared) (inputs : List (Cell × ℤ)) (log : Log)
        (run : Run) → IsBasin basin → IsTyped basin rules
        → rule_count rules ≤ RULES_MAX → function_count rules ≤ RULES_MAX
        → IsRun basin (policy_of_rules basin rules) inputs log → IsRunOf basin log run
        → KeepsLaws basin (policy_of_rules basin rules) log run }
{
    every_run();
    rules_keep_promises();
    rulesets_have_runs();
}
