//! Proves what the trace with all puts says. Each law is the `ensures` of a function that does nothing.
ghost use Rattle.std.specs.Prelude.{◌≡◌, ℕ, ℤ, pos, List, [], ◌∷◌, ◌++◌, codes, drop, Some};
ghost use Rattle.std.specs.List.{filter, filter_map};
ghost use Rattle.rw_base.specs.declared.number.Cell.{Cell};
ghost use Rattle.rw_model.specs.Draft.{Draft};
ghost use Rattle.rw_model.specs.declared.control.AgendaOrder.TheVariants.{HighFirst};
ghost use Rattle.rw_run.specs.Frame.{AreAlike, IsFramed, log_after, looked_in};
ghost use Rattle.rw_run.specs.Log.{Asked, Cells, Dispatch, Event, Firing, Log, fired, opened, solved, cells_of};
ghost use Rattle.rw_run.specs.Choice.{MayLead};
ghost use Rattle.rw_run.specs.Next.{Policy};
ghost use Rattle.rw_run.specs.Policy.{FireAlike};
ghost use Rattle.rw_run.specs.RunOf.{lines, trace_of};
ghost use Rattle.rw_run.specs.Runs.{IsRun, Leads, follows, with_inputs};
ghost use Rattle.rw_run.specs.Worked.{ahead_run, data_object_basin, five, given_run, outranked, outranked_run, put_twice, put_twice_run, across, across_run, raised_run, raises_x, sets_ahead, both_ends, both_ends_run, linked_basin};
ghost use Rattle.rw_asked.specs.declared.fate.Fate.{Fate};
ghost use Rattle.rw_asked.specs.declared.fate.Fate.TheVariants as Became;
ghost use Rattle.rw_asked.specs.Asked.{AllGranted, IsFateOf, asked_after, asks_of, asked_lines, asked_trace, fate_of, fate_over, is_in_run, trace_in, put_told_by, wanted_in};
ghost use Rattle.rw_asked.specs.Words.{asked_trace_words};
ghost use Rattle.rw_asked.specs.Worked.{asked_of_run, confirmed_end, confirmed_run, confirms, two_dams, upper_inflow, by_rule_of, closes_at, fires_so, given_value, holds_all, holds_nothing, put_alone, left_line_at, opens_at, over_line_at, stops_so, wrote};

/// Small runs: a put that is denied, ones that are put again, ones after the last timestep, and one that is written to one of
/// two linked slots over what the other was put to.
pub fn worked_asks()
    ensures across { asked_of_run linked_basin across [] across_run
        ≡ opens_at 1 ∷ stops_so 1 3 ∷ fires_so 2 2 ∷ wrote 1 1 (by_rule_of 2 (pos 0))
        ∷ fires_so 1 6 ∷ wrote 2 1 (by_rule_of 1 (pos 10)) ∷ over_line_at 2 1 (by_rule_of 2 (pos 0))
        ∷ fires_so 1 6
        ∷ left_line_at 2 1 (by_rule_of 1 (pos 10)) (Became.Kept (by_rule_of 1 (pos 10)))
        ∷ closes_at 1 ∷ [] }
    ensures outranked { asked_of_run (data_object_basin HighFirst 1) outranked [] outranked_run
        ≡ opens_at 1 ∷ fires_so 1 2 ∷ wrote 1 1 (by_rule_of 1 (pos 1)) ∷ fires_so 2 2
        ∷ left_line_at 1 1 (by_rule_of 2 (pos 2)) (Became.Denied (by_rule_of 1 (pos 1)))
        ∷ closes_at 1 ∷ [] }
    ensures twice { asked_of_run (data_object_basin HighFirst 1) put_twice [] put_twice_run
        ≡ opens_at 1 ∷ fires_so 1 4 ∷ left_line_at 1 1 (by_rule_of 1 (pos 1)) Became.Again
        ∷ wrote 1 1 (by_rule_of 1 (pos 2)) ∷ closes_at 1 ∷ [] }
    ensures linked { asked_of_run linked_basin both_ends [] both_ends_run
        ≡ opens_at 1 ∷ fires_so 1 4 ∷ left_line_at 1 1 (by_rule_of 1 (pos 1)) Became.Again
        ∷ wrote 2 1 (by_rule_of 1 (pos 2)) ∷ closes_at 1 ∷ [] }
    ensures given { asked_of_run (data_object_basin HighFirst 1) put_twice five given_run
        ≡ opens_at 1 ∷ fires_so 1 4 ∷ left_line_at 1 1 (by_rule_of 1 (pos 1)) Became.Again
        ∷ left_line_at 1 1 (by_rule_of 1 (pos 2)) (Became.Denied (given_value (pos 5)))
        ∷ closes_at 1 ∷ [] }
    ensures ahead { asked_of_run (data_object_basin HighFirst 3) sets_ahead [] ahead_run
        ≡ opens_at 1 ∷ fires_so 1 2 ∷ wrote 1 2 (by_rule_of 1 (pos 7)) ∷ closes_at 1
        ∷ opens_at 2 ∷ fires_so 1 2 ∷ wrote 1 3 (by_rule_of 1 (pos 7)) ∷ closes_at 2
        ∷ opens_at 3 ∷ fires_so 1 2 ∷ left_line_at 1 4 (by_rule_of 1 (pos 7)) Became.Late
        ∷ closes_at 3 ∷ [] }
{}

/// The trace with all puts, without the lines that the trace does not have, is the trace, of an event and of a whole run.
#[tactic(auto, using(crate::proofs::Follow::event_plain, crate::proofs::Follow::run_plain))]
pub fn plain_lines()
    ensures event { (basin : Draft) (policy : Policy) (log : Log) (event : Event)
        → follows basin policy log ≡ Some event
        → trace_in (asked_lines basin policy (cells_of basin log) event) ≡ lines event }
    ensures trace { (basin : Draft) (policy : Policy) (inputs : List (Cell × ℤ)) (log : Log)
        → IsRun basin policy inputs log → trace_in (asked_trace basin policy log) ≡ trace_of log }
{}

/// After the line of an event there is one line for each put that it asked for, in their order, besides what was over. Those of a
/// firing that are in the run's timesteps are what the log calls asked for.
#[tactic(auto, using(crate::proofs::Fates::each_told, crate::proofs::Follow::firing_asks))]
pub fn each_once()
    ensures told { (basin : Draft) (policy : Policy) (cells : Cells) (event : Event)
        → filter_map put_told_by (asked_lines basin policy cells event)
        ≡ wanted_in policy cells event }
    ensures asked { (basin : Draft) (policy : Policy) (log : Log) (firing : Firing)
        → follows basin policy log ≡ Some (fired firing)
        → firing.asked
        ≡ filter (is_in_run basin) (wanted_in policy (cells_of basin log) (fired firing)) }
{}

/// A line says of a put what is so: a denied or a kept one names what its cell holds just before, and so does one that is written
/// over another value.
#[tactic(auto, using(crate::proofs::Fates::fate_says, crate::proofs::Fates::alone_says))]
pub fn fates()
    ensures firing { (basin : Draft) (cells : Cells) (put : Asked) (later : List Asked)
        → IsFateOf basin cells put later (fate_of basin cells put later) }
    ensures dispatch { (basin : Draft) (cells : Cells) (put : Asked)
        → IsFateOf basin cells put [] (fate_over (cells put.cell) put.content) }
{}

/// A put of a dispatch is written, over another value or not, or kept: where one is denied, the run ends by a conflict, and the
/// line of that takes the place of the event's.
#[tactic(auto, using(crate::proofs::Follow::dispatch_granted))]
pub fn granted()
    ensures { (basin : Draft) (policy : Policy) (log : Log) (dispatch : Dispatch)
        → follows basin policy log ≡ Some (solved dispatch)
        → AllGranted (asks_of basin policy (cells_of basin log) (solved dispatch)) }
{}

/// A timestep that is taken over by another run has the same lines there: its own, after those of the log before it.
#[tactic(auto, using(crate::proofs::Reused::taken_over, crate::proofs::Reused::appended))]
pub fn taken_over()
    ensures same { (basin : Draft) (policy : Policy) (step : ℕ) (old other end : Log)
        (events : List Event) → IsFramed policy
        → Leads basin policy (opened step ∷ old) events end
        → AreAlike (cells_of basin old) (cells_of basin other) (looked_in events)
        → asked_after basin policy (opened step ∷ old) events
        ≡ asked_after basin policy (opened step ∷ other) events }
    ensures behind { (basin : Draft) (policy : Policy) (log : Log) (events : List Event)
        → asked_trace basin policy (log_after events log)
        ≡ asked_trace basin policy log ++ asked_after basin policy log events }
{}

/// Policies of as many rules that do the same have the same lines, of a run and of one in which any object that waits may be
/// dispatched next.
#[tactic(auto, using(crate::proofs::Alike::any_alike))]
pub fn same_asks()
    ensures { (basin : Draft) (one other : Policy) (inputs : List (Cell × ℤ)) (events : List Event)
        (log : Log) → FireAlike one other → MayLead basin one (with_inputs [] inputs) events log
        → MayLead basin other (with_inputs [] inputs) events log
        × (asked_trace basin one log ≡ asked_trace basin other log) }
{}

/// A rule that confirms what another one set takes hold of it: two dams over a day. The last lines say what was denied, and over
/// what the lower dam's storage was written.
pub fn worked_trap()
    ensures run { IsRun two_dams confirms upper_inflow
        (log_after confirmed_run (with_inputs [] upper_inflow)) }
    ensures told { drop 22 (asked_of_run two_dams confirms upper_inflow confirmed_run)
        ≡ confirmed_end }
{}

/// As text: a denied put and a kept one, one that is put again, one after the last timestep, and one that is written over another.
pub fn worked_words()
    ensures denied { asked_trace_words (data_object_basin HighFirst 1)
        (asked_of_run (data_object_basin HighFirst 1) outranked [] outranked_run)
        ≡ codes "# trace\nopen 1\nfire 1 done 2\n  D.X 1 1 R1\nfire 2 done 2\n  denied D.X 1 2 R2 held 1 R1\nclose 1\n" }
    ensures kept { asked_trace_words (data_object_basin HighFirst 1)
        (left_line_at 1 1 (by_rule_of 1 (pos 10)) (Became.Kept (by_rule_of 1 (pos 10))) ∷ [])
        ≡ codes "# trace\n  kept D.X 1 10 R1 held 10 R1\n" }
    ensures again { asked_trace_words (data_object_basin HighFirst 1)
        (left_line_at 1 1 (by_rule_of 1 (pos 1)) Became.Again ∷ [])
        ≡ codes "# trace\n  again D.X 1 1 R1\n" }
    ensures late { asked_trace_words (data_object_basin HighFirst 1)
        (left_line_at 1 2 (by_rule_of 1 (pos 7)) Became.Late ∷ [])
        ≡ codes "# trace\n  late D.X 2 7 R1\n" }
    ensures over { asked_trace_words (data_object_basin HighFirst 1)
        (wrote 1 1 (by_rule_of 1 (pos 2)) ∷ over_line_at 1 1 (by_rule_of 2 (pos 10)) ∷ [])
        ≡ codes "# trace\n  D.X 1 2 R1\n  over D.X 1 10 R2\n" }
{}

/// Single puts in a run of one day. One after the last timestep is late, whatever follows it; one that another follows is put
/// again, whatever its cell holds. What is said of a put is not always so: that it is late of one in the run, that it is put
/// again of one that none follows, that it was kept where nothing is held. A denied put is not granted.
pub fn worked_fates()
    ensures late { fate_of (data_object_basin HighFirst 1) holds_nothing (put_alone 2 (pos 7))
        (put_alone 2 (pos 8) ∷ []) ≡ Became.Late }
    ensures again { fate_of (data_object_basin HighFirst 1) (holds_all (pos 7)) (put_alone 1 (pos 7))
        (put_alone 1 (pos 8) ∷ []) ≡ Became.Again }
    ensures in_run { ¬ IsFateOf (data_object_basin HighFirst 1) holds_nothing (put_alone 1 (pos 7)) []
        Became.Late }
    ensures alone { ¬ IsFateOf (data_object_basin HighFirst 1) holds_nothing (put_alone 1 (pos 7)) []
        Became.Again }
    ensures unheld { ¬ IsFateOf (data_object_basin HighFirst 1) holds_nothing (put_alone 1 (pos 7)) []
        (Became.Kept (by_rule_of 1 (pos 7))) }
    ensures denied { ¬ AllGranted (record {
      put = put_alone 1 (pos 7);
      fate = Became.Denied (given_value (pos 5));
    } ∷ []) }
{}

/// What is said of a put by its cell isn't always so, either: that it was written of one over another value, and of one that was kept;
/// that it was written over another value where nothing is held, the same is, or an input; that it was kept where another value is
/// held; that it was denied where nothing is held, and where a value is held that gives way.
pub fn worked_fates_by_cells()
    ensures written_over { ¬ IsFateOf (data_object_basin HighFirst 1) (holds_all (pos 5))
        (put_alone 1 (pos 7)) [] Became.Written }
    ensures written_same { ¬ IsFateOf (data_object_basin HighFirst 1) (holds_all (pos 7))
        (put_alone 1 (pos 7)) [] Became.Written }
    ensures over_nothing { ¬ IsFateOf (data_object_basin HighFirst 1) holds_nothing
        (put_alone 1 (pos 7)) [] (Became.Over (by_rule_of 1 (pos 5))) }
    ensures over_same { ¬ IsFateOf (data_object_basin HighFirst 1) (holds_all (pos 7))
        (put_alone 1 (pos 7)) [] (Became.Over (by_rule_of 1 (pos 7))) }
    ensures over_given { ¬ IsFateOf (data_object_basin HighFirst 1)
        (λ cell. Some (given_value (pos 5))) (put_alone 1 (pos 7)) []
        (Became.Over (given_value (pos 5))) }
    ensures kept_other { ¬ IsFateOf (data_object_basin HighFirst 1) (holds_all (pos 5))
        (put_alone 1 (pos 7)) [] (Became.Kept (by_rule_of 1 (pos 5))) }
    ensures denied_nothing { ¬ IsFateOf (data_object_basin HighFirst 1) holds_nothing
        (put_alone 1 (pos 7)) [] (Became.Denied (given_value (pos 5))) }
    ensures denied_lower { ¬ IsFateOf (data_object_basin HighFirst 1) (holds_all (pos 5))
        (put_alone 1 (pos 7)) [] (Became.Denied (by_rule_of 1 (pos 5))) }
{}
