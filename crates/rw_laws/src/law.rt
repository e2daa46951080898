//! Proves what every run keeps, and that it is not true of any cells and any log. Each law is the `ensures` of a function that
//! does nothing.
ghost use Rattle.std.specs.Prelude.{◌≡◌, ◌≤◌, ℕ, ℤ, pos, false, List, [], ◌∷◌, ◌++◌, Ok, None, Some};
ghost use Rattle.rw_base.specs.declared.number.Cell.{Cell};
ghost use Rattle.rw_model.specs.Basin.{IsBasin};
ghost use Rattle.rw_model.specs.Draft.{Draft};
ghost use Rattle.rw_model.specs.declared.writer.Writer.TheVariants.{Object as ByObject};
ghost use Rattle.rw_method.specs.View.{known, known_value};
ghost use Rattle.rw_run.specs.Dispatch.{cell_at, view_of};
ghost use Rattle.rw_run.specs.Frame.{log_after};
ghost use Rattle.rw_run.specs.Log.{Log, cells_of, closed};
ghost use Rattle.rw_run.specs.Next.{Policy};
ghost use Rattle.rw_run.specs.Policy.{IsPolicyOf};
ghost use Rattle.rw_run.specs.RunOf.{IsRunOf};
ghost use Rattle.rw_run.specs.Runs.{IsRun, with_inputs};
ghost use Rattle.rw_run.specs.Step.{before_closing};
ghost use Rattle.rw_run.specs.Worked.{across, across_run, linked_basin};
ghost use Rattle.rw_run.specs.declared.run.Run.{Run};
ghost use Rattle.rw_inputs.specs.Inputs.{Inputs};
ghost use Rattle.rpl_verify.specs.Verified.{verified};
ghost use Rattle.rpl_verify.specs.Verified.{Accepted};
ghost use Rattle.rw_rules.specs.Rules.{policy_in};
ghost use Rattle.rw_engine.specs.Passing.{ComesTo};
ghost use Rattle.rw_dispatch.specs.Pick.{Picking};
ghost use Rattle.rw_engine.specs.Picked.{ComesToPicked};
ghost use Rattle.rw_laws.specs.AnyOrder.{IsLed};
ghost use Rattle.rw_laws.specs.Balances.{AllBalanced};
ghost use Rattle.rw_laws.specs.Laws.{KeepsLaws};
ghost use Rattle.rw_laws.specs.Links.{HoldAsLinked};
ghost use Rattle.rw_laws.specs.Priority.{KeepPriority};
ghost use Rattle.rw_laws.specs.Rules.{AllStandBy, StandsBy};
ghost use Rattle.rw_laws.specs.Worked.{day_of_firing, apart, by_rule, changed_after, dam_alone, dam_events, dam_log, gage, given_over, held_low, inflow, fifty_out, put_at, saw_first_day, started, torn, weakened};

use rpl_policy::law::code_keeps_promises;
use rpl_verify::law::answered_code_is_safe;
use rw_run::law::choices;

/// Every run keeps these laws, in its table: linked slots agree; no value gave way to one of lower priority; and of each timestep
/// that was closed balances are true of what the table has, and each rule's last firing stood.
pub fn every_run()
    ensures { (basin : Draft) (policy : Policy) (inputs : List (Cell × ℤ)) (log : Log) (run : Run)
        → IsBasin basin → IsPolicyOf basin policy → IsRun basin policy inputs log
        → IsRunOf basin log run → KeepsLaws basin policy log run }
{
    every_order();
    choices();
}

/// And so it is in whatever order the objects that wait are dispatched.
pub fn every_order()
    ensures { (basin : Draft) (policy : Policy) (inputs : List (Cell × ℤ)) (log : Log) (run : Run)
        → IsBasin basin → IsPolicyOf basin policy → IsLed basin policy inputs log
        → IsRunOf basin log run → KeepsLaws basin policy log run }
{}

/// So the table of a run in which a rule picks them keeps the laws: that of `run_any`, by whatever rule.
pub fn every_pick()
    ensures { (basin : Draft) (policy : Policy) (rule : Picking) (inputs : Inputs) (run : Run)
        → IsBasin basin → IsPolicyOf basin policy
        → (comes : ComesToPicked basin policy rule inputs run)
        → KeepsLaws basin policy comes.log run }
{
    every_order();
}

/// The result of `run_all`, by verified code and whatever the inputs, keeps them, too, of the very log that it is the result of.
pub fn every_run_of_code()
    ensures { (basin : Draft) (policy : Accepted) (inputs : Inputs) (run : Run)
        → IsBasin basin → verified basin policy.blocks ≡ Ok policy
        → (comes : ComesTo basin (policy_in basin policy) inputs run)
        → KeepsLaws basin (policy_in basin policy) comes.log run }
{
    every_run();
    code_keeps_promises();
    answered_code_is_safe();
}

/// All cells of a link group are held alike after any log.
#[tactic(auto, using(crate::proofs::Linked::links))]
pub fn links()
    ensures { (basin : Draft) (log : Log) → HoldAsLinked basin (cells_of basin log) }
{}

/// In every run, also one that ended in a fault: no put that is written has a lower priority than what its cell holds, and
/// what an input gave stays.
pub fn priority()
    ensures { (basin : Draft) (policy : Policy) (inputs : List (Cell × ℤ)) (log : Log)
        → IsBasin basin → IsPolicyOf basin policy → IsRun basin policy inputs log
        → KeepPriority basin log }
{
    choices();
}

/// Just before a timestep of a run is closed: of each object whose solvable and fixed terms and past value are known, the
/// balance is true of what is held, and each derived slot holds what is derived.
pub fn balance()
    ensures { (basin : Draft) (policy : Policy) (inputs : List (Cell × ℤ)) (log before : Log)
        (step : ℕ) → IsBasin basin → IsPolicyOf basin policy → IsRun basin policy inputs log
        → before_closing step log ≡ Some before → AllBalanced basin step (cells_of basin before) }
{
    choices();
}

/// Just before a timestep of a run is closed each rule fired in it and would do the same again, and what it put last stands or
/// gave way to a put of no lower priority.
pub fn rules()
    ensures { (basin : Draft) (policy : Policy) (inputs : List (Cell × ℤ)) (log before : Log)
        (step : ℕ) → IsBasin basin → IsPolicyOf basin policy → IsRun basin policy inputs log
        → before_closing step log ≡ Some before → AllStandBy basin policy step before }
{
    choices();
}

/// A cell of a timestep that was closed, or of an earlier one, holds at the end of the run what it held just before the closing.
pub fn closed_timesteps_stay()
    ensures { (basin : Draft) (policy : Policy) (inputs : List (Cell × ℤ)) (log before : Log)
        (step : ℕ) → IsBasin basin → IsPolicyOf basin policy → IsRun basin policy inputs log
        → before_closing step log ≡ Some before
        → (cell : Cell) → cell.step.0 ≤ step
        → cells_of basin log cell ≡ cells_of basin before cell }
{
    choices();
}

/// A dam on one day, into which 100 flow. It then holds 1020, of 1000 and 100 less 80; the 50 that rule 2 put gave way to what
/// the dam solved from rule 1's storage, at priority 1.
pub fn a_dam()
    ensures run { IsRun dam_alone held_low inflow (closed 1 ∷ dam_log) }
    ensures closing { before_closing 1 (closed 1 ∷ dam_log) ≡ Some dam_log }
    ensures past { (view_of dam_alone (cells_of dam_alone dam_log) 1 1).past ≡ Some (pos 1000) }
    ensures flows { known_value (view_of dam_alone (cells_of dam_alone dam_log) 1 1) 0
        ≡ Some (pos 100) }
    ensures out { known (view_of dam_alone (cells_of dam_alone dam_log) 1 1) 1
        ≡ Some (put_at 2 (pos 80) 1 (ByObject (record { 0 = 1 }))).content }
    ensures stored { known_value (view_of dam_alone (cells_of dam_alone dam_log) 1 1) 2
        ≡ Some (pos 1020) }
{}

/// Two linked slots after a run: a rule put 10 to the second one alone.
pub fn a_link()
    ensures run { IsRun linked_basin across [] (log_after across_run []) }
    ensures first { cells_of linked_basin (log_after across_run []) (cell_at 1 1)
        ≡ Some (by_rule 1 2 (pos 10)).content }
    ensures second { cells_of linked_basin (log_after across_run []) (cell_at 2 1)
        ≡ Some (by_rule 1 2 (pos 10)).content }
{}

/// The laws are not true of any cells and any log. In cells that no log leaves linked slots differ. In logs that are of no run
/// more flows out of a gage than flows in, a rule writes over one of a higher priority, an object over an input, a rule never
/// fired, and a timestep changes that was closed.
pub fn no_runs()
    ensures links { ¬ HoldAsLinked linked_basin apart }
    ensures balance { ¬ AllBalanced gage 1 (cells_of gage torn) }
    ensures priority { ¬ KeepPriority gage weakened }
    ensures input { ¬ KeepPriority gage given_over }
    ensures rules { ¬ AllStandBy dam_alone held_low 1 started }
    ensures closed { ¬ ((cell : Cell) → cell.step.0 ≤ 1
        → cells_of gage changed_after cell ≡ cells_of gage torn cell) }
{}

/// The firing of a rule that releases 50 stands by just that. It does not where it released nothing, was not done, looked at the
/// storage, or counted 3.
pub fn firings_stood_by()
    ensures stands { StandsBy dam_alone held_low 1 (day_of_firing fifty_out) 2 }
    ensures asked { ¬ StandsBy dam_alone held_low 1
        (day_of_firing (record fifty_out { asked = []; written = [] })) 2 }
    ensures end { ¬ StandsBy dam_alone held_low 1
        (day_of_firing (record fifty_out { is_done = false })) 2 }
    ensures looked { ¬ StandsBy dam_alone held_low 1
        (day_of_firing (record fifty_out { looked = saw_first_day 3 None ∷ [] })) 2 }
    ensures count { ¬ StandsBy dam_alone held_low 1
        (day_of_firing (record fifty_out { count = 3 })) 2 }
{}

/// Nor does it where its put does not stand: the cell is unknown, holds 50 of a lower priority, or 40 of the rule itself.
pub fn puts_stood_by()
    ensures unknown { ¬ StandsBy dam_alone held_low 1
        (day_of_firing (record fifty_out { written = [] })) 2 }
    ensures number { ¬ StandsBy dam_alone held_low 1
        (day_of_firing (record fifty_out { written = by_rule 3 2 (pos 50) ∷ [] })) 2 }
    ensures value { ¬ StandsBy dam_alone held_low 1
        (day_of_firing (record fifty_out { written = by_rule 2 2 (pos 40) ∷ [] })) 2 }
{}
