//! Proves that accepted code is accepted, and does the same, where rules may put further ahead. Each law is the `ensures` of a
//! function that does nothing.
ghost use Rattle.std.specs.Prelude.{◌≡◌, ◌≤◌, ℕ, ℤ, List, Ok, Option};
ghost use Rattle.rw_base.specs.declared.number.Cell.{Cell};
ghost use Rattle.rw_model.specs.Draft.{Draft};
ghost use Rattle.rw_run.specs.Log.{Log};
ghost use Rattle.rw_run.specs.Runs.{IsRun};
ghost use Rattle.rpl_policy.specs.Policy.{policy_of_code};
ghost use Rattle.rpl_code.specs.declared.block.Block.{Block};
ghost use Rattle.rpl_verify.specs.Machine.{fire_of_code};
ghost use Rattle.rpl_verify.specs.Verified.{verified};
ghost use Rattle.rpl_verify.specs.Verified.{Accepted};
ghost use Rattle.rpl_verify.specs.Fits.{Before, fitting};
ghost use Rattle.rpl_ahead.specs.Puts.{AllPutUpTo, FitsFurther};
ghost use Rattle.rw_ahead.specs.Ahead.{ahead_to};

/// A rule of code does the same in a basin that lets rules put further ahead.
#[tactic(auto, using(crate::proofs::Same::fire_same))]
pub fn code_does_the_same()
    ensures { (basin : Draft) (most : ℕ) (code : List Block) (rule step : ℕ)
        (values : Cell → Option ℤ) → AllPutUpTo basin.control.ahead code
        → basin.control.ahead ≤ most
        → fire_of_code code basin rule step values
        ≡ fire_of_code code (ahead_to most basin) rule step values }
{}

/// Code that fits a basin fits one that lets rules put further ahead, and puts no further ahead than the first lets it.
#[tactic(auto, using(crate::proofs::Blocks::fits_further))]
pub fn fits_further()
    ensures { (basin : Draft) (most : ℕ) (code : List Block) (befores : List (List Before))
        → basin.control.ahead ≤ most → fitting basin code ≡ Ok befores
        → FitsFurther basin most code befores }
{}

/// Code that is accepted for a basin is accepted for one that lets rules put further ahead, with the same budgets and the same
/// instructions resolved.
#[tactic(auto, using(crate::proofs::Ruled::accepted_further))]
pub fn accepted_further()
    ensures { (basin : Draft) (most : ℕ) (code : List Block) (policy : Accepted)
        → basin.control.ahead ≤ most → verified basin code ≡ Ok policy
        → verified (ahead_to most basin) code ≡ Ok policy }
{}

/// The run of the same inputs by accepted code is the same, event for event, in a basin that lets rules put further ahead.
#[tactic(auto, using(crate::proofs::RunsOfCode::runs_of_code))]
pub fn runs_of_code()
    ensures { (basin : Draft) (most : ℕ) (code : List Block) (policy : Accepted)
        (inputs : List (Cell × ℤ)) (log : Log) → basin.control.ahead ≤ most
        → verified basin code ≡ Ok policy → IsRun basin (policy_of_code basin code) inputs log
        → IsRun (ahead_to most basin) (policy_of_code (ahead_to most basin) code) inputs log }
{}
