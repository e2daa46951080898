//! States laws of runs: functions that do nothing, whose contract is the law.
ghost use Rattle.std.specs.Prelude.{◌≡◌, [], ◌∷◌, pos};
ghost use Rattle.std.specs.List.{flat_map};
ghost use Rattle.rw_inputs.specs.Inputs.{Inputs};
ghost use Rattle.rw_model.specs.Draft.{Draft};
ghost use Rattle.rw_run.specs.Next.{asked_by_rule, no_rules};
ghost use Rattle.rw_run.specs.RunOf.{lines};
ghost use Rattle.rw_run.specs.Worked.{followed_run, rule_put};
ghost use Rattle.rw_run.specs.declared.run.Run.{Run};
ghost use Rattle.rw_rules.specs.Rules.{policy_in};
ghost use Rattle.rw_engine.specs.Passing.{ComesTo};
ghost use Rattle.rw_engine.specs.Records.{puts_in};

/// States that a run of code without rules has the result of a run of no rules.
#[tactic(auto, using(crate::proofs::Runs::without_rules))]
pub fn without_rules()
    ensures { (basin : Draft) (inputs : Inputs) (run : Run)
        → ComesTo basin (policy_in basin (record { blocks = []; budgets = []; resolved = [] }))
        inputs run
        → ComesTo basin no_rules inputs run }
{}

/// States that the lines of a worked timestep say what its firings wrote, in order: the first of its lines is of a firing that came
/// to an unknown value.
pub fn worked_lines()
    ensures { puts_in (flat_map lines followed_run)
        ≡ asked_by_rule 2 1 (rule_put 2 0 (pos 4)) ∷ asked_by_rule 1 1 (rule_put 1 0 (pos 4)) ∷ [] }
{}
