//! Proves that the run of a basin does not go by how far ahead its rules may put. Each law is the `ensures` of a function that
//! does nothing.
ghost use Rattle.std.specs.Prelude.{ℕ, ℤ, List};
ghost use Rattle.rw_base.specs.declared.number.Cell.{Cell};
ghost use Rattle.rw_model.specs.Draft.{Draft};
ghost use Rattle.rw_run.specs.Log.{Log};
ghost use Rattle.rw_run.specs.Next.{Policy};
ghost use Rattle.rw_run.specs.Runs.{IsRun};
ghost use Rattle.rw_ahead.specs.Ahead.{DoTheSame, ahead_to};

/// The run of the same inputs by a policy that does the same is the same, event for event, however far ahead rules may put: what they
/// put is what their policy says.
#[tactic(auto, using(crate::proofs::SameRuns::same_run))]
pub fn same_run()
    ensures { (basin : Draft) (most : ℕ) (policy other : Policy) (inputs : List (Cell × ℤ))
        (log : Log) → DoTheSame policy other → IsRun basin policy inputs log
        → IsRun (ahead_to most basin) other inputs log }
{}
