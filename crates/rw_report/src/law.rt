//! Proves what the texts of a run are by its events, and what worked texts are. Each law is the `ensures` of a function that does
//! nothing.
ghost use Rattle.std.specs.Prelude.{◌≡◌, ◌++◌, ℕ, Bool, false, IsSome, IsTrue, List, Option, [], ◌∷◌, codes, None, Some};
ghost use Rattle.rw_base.specs.declared.number.Cell.{Cell};
ghost use Rattle.rw_base.specs.declared.number.StepNo.{StepNo};
ghost use Rattle.rw_model.specs.Draft.{Draft};
ghost use Rattle.rw_model.specs.declared.control.AgendaOrder.TheVariants.{HighFirst};
ghost use Rattle.rw_inputs.specs.Inputs.{Inputs};
ghost use Rattle.rw_run.specs.declared.run.Run.{Run};
ghost use Rattle.rw_run.specs.Frame.{log_after};
ghost use Rattle.rw_run.specs.Log.{Log, cells_of};
ghost use Rattle.rw_run.specs.RunOf.{IsRunOf};
ghost use Rattle.rw_run.specs.Worked.{across_run, ahead_run, data_object_basin, faulty_run, five, given_run, linked_basin, outranked_run, raised_run};
ghost use Rattle.rw_report.specs.Section.{section_of, values_in};
ghost use Rattle.rw_report.specs.Flags.{flag_table};
ghost use Rattle.rw_report.specs.Lines.{trace_words};
ghost use Rattle.rw_report.specs.Outcome.{RunOutcome, outcome_by, outcome_of};
ghost use Rattle.rw_report.specs.Whole.{reran_words, whole_of};
ghost use Rattle.rw_report.specs.Why.{why_of};
ghost use Rattle.rw_report.specs.Worked.{asked, five_given, no_inputs, solved_twice, traced};

/// The outcome of a run, and so its texts, are those of its events, where its trace is kept if it is asked for; and a section of
/// which nothing more is asked is the heading and the table.
#[tactic(auto, using(crate::proofs::Runs::same_outcome, crate::proofs::Runs::same_reason, crate::proofs::Runs::plain_section))]
pub fn texts_of_runs()
    ensures outcome { (basin : Draft) (log : Log) (run : Run)
        → IsRunOf basin log run → IsSome run.trace → outcome_of run ≡ outcome_by basin log }
    ensures whole { (basin : Draft) (batch : ℕ) (log : Log) (run : Run)
        (reran : Option (List StepNo)) (flags trace : Bool)
        → IsRunOf basin log run → (IsTrue trace → IsSome run.trace)
        → whole_of basin batch (outcome_of run) reran flags trace
        ≡ whole_of basin batch (outcome_by basin log) reran flags trace }
    ensures why { (basin : Draft) (inputs : Inputs) (log : Log) (run : Run) (cell : Cell)
        → IsRunOf basin log run → IsSome run.trace
        → why_of basin inputs (outcome_of run) cell
        ≡ why_of basin inputs (outcome_by basin log) cell }
    ensures plain { (basin : Draft) (batch : ℕ) (run : RunOutcome)
        → whole_of basin batch run None false false
        ≡ section_of basin batch run.end run.closed (values_in run.cells) }
{}

/// Traces: rules that fire again, a put that was dropped and so has no line, a fault in place of the event, objects.
pub fn worked_traces()
    ensures raised { traced (data_object_basin HighFirst 1) raised_run
        ≡ codes "# trace\nopen 1\nfire 1 unknown 3\nfire 2 done 2\n  D.X 1 0 R2\n"
        ++ codes "fire 1 done 6\n  D.X 1 10 R1\nfire 1 done 6\nclose 1\n" }
    ensures dropped { traced (data_object_basin HighFirst 1) outranked_run
        ≡ codes "# trace\nopen 1\nfire 1 done 2\n  D.X 1 1 R1\nfire 2 done 2\nclose 1\n" }
    ensures fault { traced (data_object_basin HighFirst 1) faulty_run
        ≡ codes "# trace\nopen 1\nfault division by zero rule 1 step 1\n" }
    ensures objects { trace_words (data_object_basin HighFirst 1) solved_twice
        ≡ codes "# trace\nopen 1\nidle D\nsolve D\n  D.Y 1 -5 O2\nclose 1\n" }
{}

/// Worked reasons for what a cell holds: puts to linked slots, in the order in which they were written; a put of an earlier
/// timestep; an unknown value; and a value that was given.
pub fn worked_reasons()
    ensures linked { asked linked_basin no_inputs [] across_run 1 1
        ≡ codes "step 1 rule 2 0 R2\nstep 1 rule 1 10 R1\nholds 10 R1\n" }
    ensures ahead { asked (data_object_basin HighFirst 3) no_inputs [] ahead_run 1 2
        ≡ codes "step 1 rule 1 7 R1\nholds 7 R1\n" }
    ensures unknown { asked (data_object_basin HighFirst 3) no_inputs [] ahead_run 1 1
        ≡ codes "holds unknown\n" }
    ensures given { asked (data_object_basin HighFirst 1) five_given five given_run 1 1
        ≡ codes "given 5\nholds 5 I0\n" }
{}

/// Flags, of which that of an unknown value is nothing, and the line on timesteps that were run again.
pub fn worked_parts()
    ensures flags { flag_table (data_object_basin HighFirst 1)
        (cells_of (data_object_basin HighFirst 1)
        (log_after raised_run [])) 1 ≡ codes "# flags\nstep,D.X,D.Y\n1,R1,\n" }
    ensures again { reran_words (Some (record { 0 = 2 } ∷ record { 0 = 5 } ∷ []))
        ≡ codes "# reran 2 5\n" }
    ensures none_again { reran_words (Some []) ≡ codes "# reran none\n" }
    ensures untold { reran_words None ≡ [] }
{}
