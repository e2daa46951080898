//! States how a run begins again, as laws: a law is a function that does nothing, and its contract says what holds.
ghost use Rattle.std.specs.Prelude.{◌≡◌, ◌≤◌, ℕ, ◌+◌, ◌++◌, List, [], Contains, Option, Some, length, map, pos};
ghost use Rattle.std.specs.List.{flat_map};
ghost use Rattle.rw_base.specs.declared.number.Cell.{Cell};
ghost use Rattle.rw_model.specs.Draft.{Draft};
ghost use Rattle.rw_model.specs.declared.control.AgendaOrder.TheVariants.{HighFirst};
ghost use Rattle.rw_run.specs.Dispatch.{cell_at};
ghost use Rattle.rw_run.specs.Frame.{IsFramed, log_after};
ghost use Rattle.rw_run.specs.Log.{Log, cells_of, input_content};
ghost use Rattle.rw_run.specs.Next.{Policy};
ghost use Rattle.rw_run.specs.RunOf.{trace_of};
ghost use Rattle.rw_run.specs.Runs.{with_inputs, rests, standing};
ghost use Rattle.rw_run.specs.Worked.{data_object_basin, raises_x, raised_twice, three};
ghost use Rattle.rw_inputs.specs.Inputs.{Inputs};
ghost use Rattle.rw_record.specs.Record.{StepRecord};
ghost use Rattle.rw_run.specs.Step.{events_of};
ghost use Rattle.rw_rerun.specs.Kept.{AreKept, AreStepLinks};
ghost use Rattle.rw_rerun.specs.Begun.{AreAlikeIn, TimestepsGo, HasTakenOver, AreWithout, HoldAlike, TakesOver, Went, cells_put, cells_touched, log_behind, raised_days};

use rw_run::law::reuse;

/// First timesteps go behind other inputs as they went, where all is held alike at which they looked or which their puts reached.
/// A cell that was alike before them is alike behind them, and one to which they put nothing holds what it held.
pub fn begun()
    ensures timesteps { (basin : Draft) (policy : Policy) (step last : ℕ) (one other : Log)
        (steps : List Went) → IsFramed policy → TimestepsGo basin policy step steps one
        → standing other ≡ rests last → step ≡ last + 1
        → HoldAlike basin one other (cells_touched basin steps)
        → TimestepsGo basin policy step steps other }
    ensures alike { (basin : Draft) (step : ℕ) (one other : Log) (steps : List Went) (cell : Cell)
        → cells_of basin one cell ≡ cells_of basin other cell
        → cells_of basin (log_behind step steps one) cell
        ≡ cells_of basin (log_behind step steps other) cell }
    ensures unmoved { (basin : Draft) (step : ℕ) (log : Log) (steps : List Went) (cell : Cell)
        → ¬ Contains (cells_put basin steps) cell
        → cells_of basin (log_behind step steps log) cell ≡ cells_of basin log cell }
{
    reuse();
}

/// Where kept timesteps stand one behind the other in one run, and another run has come behind as many before them and holds all
/// alike that their records hold, it takes them over too, and what was alike before them is alike behind them.
pub fn taking_over()
    ensures { (basin : Draft) (policy : Policy) (inputs : Inputs) (earlier : Log)
        (records : List StepRecord) (step last : ℕ) (one other end : Log)
        (all_kept : List (Option StepRecord)) → IsFramed policy → step ≡ last + 1
        → last + length records ≤ basin.control.stamps.count
        → AreStepLinks basin policy step one (map (λ kept. Some kept) records) end
        → ((other : ℕ) → step ≤ other → events_of other one ≡ [])
        → HasTakenOver basin policy inputs earlier all_kept other last
        → AreKept basin policy earlier step (map (λ kept. Some kept) records)
        → AreAlikeIn basin one other records
        → TakesOver basin policy inputs earlier (all_kept ++ map (λ kept. Some kept) records)
        one other end (last + length records) }
{}

/// A cell that none of the records holds is as it was before their timesteps.
pub fn unmoved()
    ensures { (basin : Draft) (policy : Policy) (records : List StepRecord) (step : ℕ)
        (log end : Log) (cell : Cell)
        → AreStepLinks basin policy step log (map (λ kept. Some kept) records) end
        → AreWithout cell records → cells_of basin end cell ≡ cells_of basin log cell }
{}

/// Kept timesteps tell the lines of their records, behind those that were told before.
pub fn told()
    ensures { (basin : Draft) (policy : Policy) (records : List StepRecord) (step : ℕ)
        (log end : Log) → AreStepLinks basin policy step log (map (λ kept. Some kept) records) end
        → trace_of end ≡ trace_of log ++ flat_map (λ (kept : StepRecord). kept.lines) records }
{}

/// Two days on which a rule looks at X go so where nothing is given, and where Y is given on the first one, which is held then.
pub fn worked_beginning()
    ensures first { TimestepsGo (data_object_basin HighFirst 2) raises_x 1 raised_days [] }
    ensures again { TimestepsGo (data_object_basin HighFirst 2) raises_x 1 raised_days
        (with_inputs [] three) }
    ensures whole { log_behind 1 raised_days (with_inputs [] three)
        ≡ log_after raised_twice (with_inputs [] three) }
    ensures held { cells_of (data_object_basin HighFirst 2)
        (log_behind 1 raised_days (with_inputs [] three))
        (cell_at 2 1) ≡ Some (input_content (pos 3)) }
{}
