//! Proves what the policy of code promises, and which runs it has. Each law is the `ensures` of a function that does nothing.
ghost use Rattle.std.specs.Prelude.{◌≡◌, ℤ, List, []};
ghost use Rattle.rw_base.specs.declared.number.Cell.{Cell};
ghost use Rattle.rw_model.specs.Draft.{Draft};
ghost use Rattle.rw_run.specs.Log.{Log};
ghost use Rattle.rw_run.specs.Policy.{IsPolicyOf};
ghost use Rattle.rw_run.specs.Frame.{log_after};
ghost use Rattle.rw_run.specs.RunOf.{trace_of};
ghost use Rattle.rw_run.specs.Runs.{IsRun, with_inputs};
ghost use Rattle.rpl_code.specs.declared.block.Block.{Block};
ghost use Rattle.rpl_tree.specs.Budget.{Budget};
ghost use Rattle.rpl_verify.specs.Budget.{AreAccepted};
ghost use Rattle.rpl_verify.specs.Worked.{cap_and_base_code, hundredth_code, raise_and_reset_code};
ghost use Rattle.rpl_policy.specs.Firings.{AreVerified};
ghost use Rattle.rpl_policy.specs.Policy.{policy_of_code};
ghost use Rattle.rpl_policy.specs.Worked.{dam_basin, dam_run, dam_trace, divided_policy_run, five_and_none, dam_inflow, basin_of_numbers, raised_policy_run, thirds_run, three_given};

use rpl_verify::law::verified_code_is_safe;
use rw_run::law::some_run;

/// Accepted code keeps what is asked of a policy: each rule ends at whatever timestep and however the cells are; a firing depends
/// on nothing but the cells at which it looks; one that is not done asks for nothing; and each put is to a slot that can be set,
/// of a value that the slot can have.
pub fn code_keeps_promises()
    ensures { (basin : Draft) (code : List Block) (budgets : List Budget)
        → AreAccepted basin code budgets → IsPolicyOf basin (policy_of_code basin code) }
{
    verified_code_is_safe();
}

/// Accepted code has a run of any inputs.
pub fn code_has_runs()
    ensures { (basin : Draft) (code : List Block) (budgets : List Budget)
        (inputs : List (Cell × ℤ)) → AreAccepted basin code budgets
        → (log : Log) × IsRun basin (policy_of_code basin code) inputs log }
{
    code_keeps_promises();
    some_run();
}

/// Each firing in a run of accepted code is that of the machine on it, for what the cells hold before: it is never stuck, and
/// what it counts, looks at, puts and keeps is at most what the budget of its rule says. So it is with a firing that ends the run
/// by a fault.
pub fn firings_are_verified()
    ensures { (basin : Draft) (code : List Block) (budgets : List Budget)
        (inputs : List (Cell × ℤ)) (log : Log) → AreAccepted basin code budgets
        → IsRun basin (policy_of_code basin code) inputs log → AreVerified basin code budgets log }
{
    verified_code_is_safe();
}

/// A dam on one day, into which 100 flow. Rule 2 releases 50, and the dam then holds 1050; rule 1 holds it at 1020, and the dam
/// releases 80. The code has this run and this trace.
pub fn a_dam()
    ensures code { IsRun dam_basin (policy_of_code dam_basin cap_and_base_code) dam_inflow
        (log_after dam_run (with_inputs [] dam_inflow)) }
    ensures trace { trace_of (log_after dam_run (with_inputs [] dam_inflow)) ≡ dam_trace }
{}

/// Rules over plain numbers: one that fires again on what another set and on its own put, one that meets an unknown value, and
/// one that divides by 0.
pub fn numbers()
    ensures raised { IsRun (basin_of_numbers 1)
        (policy_of_code (basin_of_numbers 1) raise_and_reset_code) []
        (log_after raised_policy_run []) }
    ensures thirds { IsRun (basin_of_numbers 2)
        (policy_of_code (basin_of_numbers 2) hundredth_code) three_given
        (log_after thirds_run (with_inputs [] three_given)) }
    ensures divided { IsRun (basin_of_numbers 2)
        (policy_of_code (basin_of_numbers 2) hundredth_code)
        five_and_none (log_after divided_policy_run (with_inputs [] five_and_none)) }
{}
