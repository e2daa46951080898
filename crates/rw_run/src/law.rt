//! Proves what the definitions of this crate mean in plain words. Each law is the `ensures` of a function that does nothing.
ghost use Rattle.std.specs.Option.{option_or};
ghost use Rattle.std.specs.Prelude.{◌≡◌, ◌↔◌, ◌<◌, ◌≤◌, ◌+◌, ℕ, ℤ, pos, Bool, IsTrue, IsFalse, List, [], ◌∷◌, ◌++◌, Option, None, Some, IsSome, Contains, length};
ghost use Rattle.rw_base.specs.declared.number.Cell.{Cell};
ghost use Rattle.rw_model.specs.Draft.{Draft};
ghost use Rattle.rw_series.specs.Series.{is_shared};
ghost use Rattle.rw_firing.specs.declared.look.Look.{Look};
ghost use Rattle.rw_run.specs.declared.fault.RunFault.{RunFault};
ghost use Rattle.rw_run.specs.Log.{Asked, Cells, Dispatch, Event, Firing, Log, placed, opened, closed, idle, solved, fired, fault, cells_of, input_content, last_put, written_by};
ghost use Rattle.rw_run.specs.Dispatch.{cell_at};
ghost use Rattle.rw_run.specs.Waiting.{all_waiting, since, slots_at, waiting, woken};
ghost use Rattle.rw_run.specs.Since.{WaitsSince};
ghost use Rattle.rw_run.specs.Next.{Policy, no_rules};
ghost use Rattle.rw_run.specs.Policy.{CanAsk, FireAlike, IsPolicyOf};
ghost use Rattle.rw_run.specs.Runs.{IsRun, Leads, follows, inside, with_inputs, rests, standing};
ghost use Rattle.rw_run.specs.Behind.{IsBehind};
ghost use Rattle.rw_run.specs.Choice.{MayFollow, MayLead};
ghost use Rattle.rw_run.specs.RunOf.{end_of, last_closed, opened_by, opened_in};
ghost use Rattle.rw_run.specs.Step.{before_closing, before_opening, cell_count, events_of, line_count, looked_at};
ghost use Rattle.rw_run.specs.Reuse.{AreOpened, AreRerun, AreRising, IsHeldAlike, IsReused, most_kept};
ghost use Rattle.rw_run.specs.Timestep.{AreLooked, IsTimestep};
ghost use Rattle.rw_run.specs.declared.held.Held.{Held};
ghost use Rattle.rw_run.specs.Worked.{rule_put, across, across_run, sets_ahead, ahead_run, data_object_basin, both_days, both_days_run, both_ends, both_ends_run, counts_up, counted_run, divided, divided_run, faulty_run, five, first_of_ahead, followed, followed_run, given_once, given_run, given_seven_run, linked_basin, needy, needy_run, one_end_run, one_of_each, outranked, outranked_run, put_twice, put_twice_run, raises_x, raised_run, raised_twice, seven, three};
ghost use Rattle.rw_model.specs.declared.control.AgendaOrder.TheVariants.{HighFirst, LowFirst};
ghost use Rattle.rw_run.specs.Frame.{AreAlike, FollowInStep, IsFramed, IsStepFrom, looked_in, log_after};
ghost use Rattle.rw_run.specs.Index.{IsIndex, MarksTouched};

/// A cell holds what was last put to a cell that shares its value with it.
#[tactic(auto, using(crate::proofs::Lasts::given_held, crate::proofs::Lasts::last_held, crate::proofs::Lasts::earlier_held, crate::proofs::Lasts::still_held))]
pub fn cells_after()
    ensures placed { (basin : Draft) (log : Log) (cell other : Cell) (value : ℤ)
        → IsTrue (is_shared basin cell other)
        → cells_of basin (placed cell value ∷ log) other ≡ Some (input_content value) }
    ensures last { (basin : Draft) (puts : List Asked) (put : Asked) (cell : Cell)
        → IsTrue (is_shared basin put.cell cell)
        → last_put basin (puts ++ put ∷ []) cell ≡ Some put.content }
    ensures earlier { (basin : Draft) (puts : List Asked) (put : Asked) (cell : Cell)
        → IsFalse (is_shared basin put.cell cell)
        → last_put basin (puts ++ put ∷ []) cell ≡ last_put basin puts cell }
    ensures kept { (basin : Draft) (log : Log) (event : Event) (cell : Cell) → written_by event ≡ []
        → cells_of basin (event ∷ log) cell ≡ cells_of basin log cell }
{}

/// Timesteps are opened one after another, the first one after the inputs. After the last one nothing follows, nor after a fault.
#[tactic(auto, using(crate::proofs::Lasts::opens_first, crate::proofs::Lasts::opens_next, crate::proofs::Lasts::opens_none))]
pub fn timesteps()
    ensures first { (basin : Draft) (policy : Policy) (log : Log) (cell : Cell) (value : ℤ)
        → 1 ≤ basin.control.stamps.count
        → follows basin policy (placed cell value ∷ log) ≡ Some (opened 1) }
    ensures next { (basin : Draft) (policy : Policy) (log : Log) (step : ℕ)
        → step < basin.control.stamps.count
        → follows basin policy (closed step ∷ log) ≡ Some (opened (step + 1)) }
    ensures last { (basin : Draft) (policy : Policy) (log : Log) (step : ℕ)
        → basin.control.stamps.count ≤ step → follows basin policy (closed step ∷ log) ≡ None }
    ensures fault { (basin : Draft) (policy : Policy) (log : Log) (why : RunFault)
        → follows basin policy (fault why ∷ log) ≡ None }
{}

/// A run has opened the timesteps that it closed, and the one in which a fault came.
pub fn opened_steps()
    ensures { (basin : Draft) (policy : Policy) (inputs : List (Cell × ℤ)) (log : Log)
        → IsRun basin policy inputs log
        → opened_in log ≡ opened_by (end_of log) (last_closed log) }
{}

/// A basin, a policy and inputs have one run.
pub fn one_run()
    ensures { (basin : Draft) (policy : Policy) (inputs : List (Cell × ℤ)) (log other : Log)
        → IsRun basin policy inputs log → IsRun basin policy inputs other → log ≡ other }
{}

/// A policy that keeps its promises has a run: no event is without a next one, and limits end each timestep. That of no rules
/// promises nothing that it could break.
#[tactic(auto, using(crate::proofs::SomeRun::some_run, crate::proofs::SomeRun::none_promises))]
pub fn some_run()
    ensures exists { (basin : Draft) (policy : Policy) (inputs : List (Cell × ℤ))
        → IsPolicyOf basin policy → (log : Log) × IsRun basin policy inputs log }
    ensures no_rules { (basin : Draft) → IsPolicyOf basin no_rules }
{}

/// Policies of as many rules that do the same have the same runs, and so have all policies without rules.
#[tactic(auto, using(crate::proofs::SameRuns::same_runs, crate::proofs::SameRuns::alike_none))]
pub fn same_runs()
    ensures alike { (basin : Draft) (one other : Policy) (inputs : List (Cell × ℤ)) (log : Log)
        → FireAlike one other → IsRun basin one inputs log → IsRun basin other inputs log }
    ensures no_rules { (other : Policy) → other.rules ≡ 0 → FireAlike no_rules other }
{}

/// Where any object that waits may be dispatched next, the one that has waited longest is such an object. Where at most one
/// object waits, there is no choice.
#[tactic(auto, using(crate::proofs::Choices::may_follow, crate::proofs::Choices::may_lead, crate::proofs::Choices::no_choice))]
pub fn choices()
    ensures event { (basin : Draft) (policy : Policy) (log : Log) (event : Event)
        → follows basin policy log ≡ Some event → MayFollow basin policy log event }
    ensures events { (basin : Draft) (policy : Policy) (old : Log) (events : List Event) (new : Log)
        → Leads basin policy old events new → MayLead basin policy old events new }
    ensures alone { (basin : Draft) (policy : Policy) (log : Log) (event : Event)
        → length (waiting basin log) ≤ 1 → MayFollow basin policy log event
        → follows basin policy log ≡ Some event }
{}

/// Small runs of rules, each worked out by hand, come out of the definitions: on the agenda, on rules that fire again, on their
/// limit, on puts that are denied, left out, or a day ahead.
pub fn worked_runs()
    ensures raised { IsRun (data_object_basin HighFirst 1) raises_x [] (log_after raised_run []) }
    ensures counted { IsRun (data_object_basin LowFirst 1) counts_up [] (log_after counted_run []) }
    ensures followed { IsRun (data_object_basin HighFirst 1) followed []
        (log_after followed_run []) }
    ensures outranked { IsRun (data_object_basin HighFirst 1) outranked []
        (log_after outranked_run []) }
    ensures divided { IsRun (data_object_basin HighFirst 2) divided three
        (log_after divided_run (with_inputs [] three)) }
    ensures ahead { IsRun (data_object_basin HighFirst 3) sets_ahead [] (log_after ahead_run []) }
    ensures put_twice { IsRun (data_object_basin HighFirst 1) put_twice []
        (log_after put_twice_run []) }
    ensures given { IsRun (data_object_basin HighFirst 1) put_twice five
        (log_after given_run (with_inputs [] five)) }
{}

/// Where a link joins two slots, a put to the one makes a rule due that looked at the other, of two puts the later one counts
/// to whichever of them it is, and each put reaches both.
pub fn linked_runs()
    ensures across { IsRun linked_basin across [] (log_after across_run []) }
    ensures both { IsRun linked_basin both_ends [] (log_after both_ends_run []) }
    ensures reached { cell_count (looked_at linked_basin 1 (log_after one_end_run [])) ≡ 2 }
{}

/// Worked timesteps within a log: which events are their own, what was before them, how many cells they looked at or reached, and
/// how many lines they have.
pub fn worked_timesteps()
    ensures each { events_of 2 (one_of_each 2 ++ one_of_each 1) ≡ one_of_each 2 }
    ensures opening { before_opening 1 (log_after raised_run []) ≡ Some [] }
    ensures whole { events_of 1 (log_after raised_run []) ≡ log_after raised_run [] }
    ensures closing { before_closing 1 (log_after ahead_run [])
        ≡ Some (log_after first_of_ahead []) }
    ensures open { before_closing 1 (log_after counted_run []) ≡ None }
    ensures cells { cell_count
        (looked_at (data_object_basin HighFirst 1) 1 (log_after raised_run [])) ≡ 1 }
    ensures both { cell_count
        (looked_at (data_object_basin HighFirst 1) 1 (log_after followed_run [])) ≡ 2 }
    ensures apart { cell_count (cell_at 1 1 ∷ cell_at 1 2 ∷ cell_at 2 1 ∷ cell_at 1 1 ∷ []) ≡ 3 }
    ensures lines { line_count 1 (log_after raised_run []) ≡ 8 }
{}

/// Worked runs of two days, and which timesteps of a later run are run again. The second day is reused where nothing differs but
/// the first. It is not where a cell holds the same value with another number and writer, nor where the earlier run did not open
/// it. A day that the earlier run did not close is not reused either.
pub fn worked_reruns()
    ensures earlier { IsRun (data_object_basin HighFirst 2) raises_x []
        (log_after raised_twice []) }
    ensures later { IsRun (data_object_basin HighFirst 2) raises_x five
        (log_after given_once (with_inputs [] five)) }
    ensures first { AreRerun (data_object_basin HighFirst 2) (log_after raised_twice [])
        (log_after given_once (with_inputs [] five)) (1 ∷ []) }
    ensures put { IsRun (data_object_basin HighFirst 2) both_days [] (log_after both_days_run []) }
    ensures given { IsRun (data_object_basin HighFirst 2) both_days seven
        (log_after given_seven_run (with_inputs [] seven)) }
    ensures both { AreRerun (data_object_basin HighFirst 2) (log_after both_days_run [])
        (log_after given_seven_run (with_inputs [] seven)) (1 ∷ 2 ∷ []) }
    ensures faulty { IsRun (data_object_basin HighFirst 2) needy [] (log_after faulty_run []) }
    ensures longer { IsRun (data_object_basin HighFirst 2) needy five
        (log_after needy_run (with_inputs [] five)) }
    ensures opened { AreRerun (data_object_basin HighFirst 2) (log_after faulty_run [])
        (log_after needy_run (with_inputs [] five)) (1 ∷ 2 ∷ []) }
    ensures rising { (first later : ℕ) → AreRising (first ∷ later ∷ []) → first < later }
{}

/// A rule may put as far ahead as the model says and no further, and no value that the slot cannot have.
pub fn worked_puts()
    ensures furthest { CanAsk (data_object_basin HighFirst 1) (rule_put 1 30 (pos 5)) }
    ensures further { ¬ CanAsk (data_object_basin HighFirst 1) (rule_put 1 31 (pos 5)) }
    ensures nowhere { ¬ CanAsk (data_object_basin HighFirst 1) (rule_put 3 0 (pos 5)) }
{}

/// Worked openings: which timesteps a run opened, and how large a timestep is whose record is kept.
pub fn worked_openings()
    ensures first_alone { ¬ AreOpened (log_after raised_twice []) (1 ∷ []) }
    ensures most { most_kept ≡ 6000 }
{}

/// The objects that wait after an event, by those that waited before it. A timestep begins with all but the data objects. A
/// dispatch removes its object, wherever that is. What is written adds others at the end, in order of number: each that owns a
/// slot which it reaches and does not wait already, but no data object and not the one that wrote it.
#[tactic(auto, using(crate::proofs::Waits::opens, crate::proofs::Waits::idles, crate::proofs::Waits::solves, crate::proofs::Waits::fires, crate::proofs::Waits::closes, crate::proofs::Waits::gives, crate::proofs::Waits::faults))]
pub fn waiting_after()
    ensures opened { (basin : Draft) (log : Log) (step : ℕ)
        → waiting basin (opened step ∷ log) ≡ all_waiting basin }
    ensures idle { (basin : Draft) (log : Log) (object step : ℕ) (looked : List Look)
        (before after : List ℕ)
        → waiting basin log ≡ before ++ object ∷ after
        → waiting basin (idle object step looked ∷ log) ≡ before ++ after }
    ensures solved { (basin : Draft) (log : Log) (dispatch : Dispatch) (before after : List ℕ)
        → waiting basin log ≡ before ++ dispatch.object ∷ after
        → waiting basin (solved dispatch ∷ log) ≡ (before ++ after)
        ++ woken basin (Some dispatch.object) (before ++ after)
        (slots_at dispatch.step dispatch.written) }
    ensures fired { (basin : Draft) (log : Log) (firing : Firing)
        → waiting basin (fired firing ∷ log) ≡ waiting basin log
        ++ woken basin None (waiting basin log) (slots_at firing.step firing.written) }
    ensures closed { (basin : Draft) (log : Log) (step : ℕ)
        → waiting basin (closed step ∷ log) ≡ waiting basin log }
    ensures placed { (basin : Draft) (log : Log) (cell : Cell) (value : ℤ)
        → waiting basin (placed cell value ∷ log) ≡ waiting basin log }
    ensures fault { (basin : Draft) (log : Log) (why : RunFault)
        → waiting basin (fault why ∷ log) ≡ waiting basin log }
{}

/// An object waits since the first event that wakes it, from the opening of the timestep on, and after its last dispatch.
pub fn since_is()
    ensures { (basin : Draft) (log : Log) (object place : ℕ)
        → (since basin log object ≡ Some place) ↔ WaitsSince basin log object place }
{}

/// Where the cells at which a timestep's events look are alike before it, the same events follow.
#[tactic(auto, using(crate::proofs::Frames::frame))]
pub fn frame()
    ensures { (basin : Draft) (policy : Policy) (step : ℕ) (old other : Log) (events : List Event)
        → IsFramed policy → FollowInStep basin policy step (opened step ∷ old) events
        → AreAlike (cells_of basin old) (cells_of basin other) (looked_in events)
        → FollowInStep basin policy step (opened step ∷ other) events }
{}

/// The events of a timestep that was closed lead on in another run, where the cells at which they look are alike.
pub fn reuse()
    ensures { (basin : Draft) (policy : Policy) (step : ℕ) (old other end : Log)
        (first : Event) (events : List Event)
        → IsFramed policy → IsStepFrom step first events
        → Leads basin policy (opened step ∷ old) (first ∷ events) end
        → AreAlike (cells_of basin old) (cells_of basin other) (looked_in (first ∷ events))
        → Leads basin policy (opened step ∷ other) (first ∷ events)
        (log_after (first ∷ events) (opened step ∷ other)) }
{}

/// A closed timestep goes alike in another run that holds alike what it looked at.
pub fn again()
    ensures { (basin : Draft) (policy : Policy) (step last : ℕ) (old other : Log)
        (first : Event) (events : List Event) (looked : List Held)
        → IsFramed policy → IsTimestep basin policy step old first events
        → AreLooked basin (cells_of basin old) (first ∷ events) looked
        → ((held : Held) → Contains looked held → cells_of basin other held.cell ≡ held.content)
        → standing other ≡ rests last → step ≡ last + 1
        → IsTimestep basin policy step other first events }
{}

/// A timestep that is reused goes in the later run, event by event, as it went in the earlier one. It looked at or reached at
/// most 6,000 cells, and has at most 6,000 lines.
pub fn reused()
    ensures held_alike { (basin : Draft) (policy : Policy) (inputs others : List (Cell × ℤ))
        (earlier later : Log) (step : ℕ) → IsFramed policy
        → IsRun basin policy inputs earlier → IsRun basin policy others later
        → IsHeldAlike basin earlier later step
        → events_of step later ≡ events_of step earlier }
    ensures alike { (basin : Draft) (policy : Policy) (inputs others : List (Cell × ℤ))
        (earlier later : Log) (step : ℕ) → IsFramed policy
        → IsRun basin policy inputs earlier → IsRun basin policy others later
        → IsReused basin earlier later step
        → events_of step later ≡ events_of step earlier }
    ensures small { (basin : Draft) (earlier later : Log) (step : ℕ)
        → IsReused basin earlier later step
        → (cell_count (looked_at basin step earlier) ≤ 6000) × (line_count step earlier ≤ 6000) }
{}

/// A timestep that was passed, and the log after it. The log before it is found there, of each other timestep the log has what it
/// had, and a timestep that was closed has its own events; it can be closed in one way. One that a fault ended is not closed.
pub fn timesteps_behind()
    ensures closed { (basin : Draft) (policy : Policy) (step : ℕ) (old : Log)
        (first : Event) (events : List Event)
        → IsTimestep basin policy step old first events → events_of step old ≡ []
        → IsBehind step old (log_after (first ∷ events) (opened step ∷ old))
        × (events_of step (log_after (first ∷ events) (opened step ∷ old))
        ≡ log_after (first ∷ events) (opened step ∷ []))
        × IsSome (before_closing step (log_after (first ∷ events) (opened step ∷ old))) }
    ensures faulted { (basin : Draft) (policy : Policy) (step last : ℕ) (old before : Log)
        (events : List Event) (why : RunFault) → standing old ≡ rests last → step ≡ last + 1
        → standing before ≡ inside step → Leads basin policy old events (fault why ∷ before)
        → events_of step old ≡ []
        → IsBehind step old (fault why ∷ before)
        × (before_closing step (fault why ∷ before) ≡ None) }
    ensures one { (basin : Draft) (policy : Policy) (step last : ℕ) (old before : Log)
        (events own : List Event) (first : Event) → standing old ≡ rests last → step ≡ last + 1
        → standing before ≡ inside step → Leads basin policy old events (closed step ∷ before)
        → IsTimestep basin policy step old first own
        → closed step ∷ before ≡ log_after (first ∷ own) (opened step ∷ old) }
    ensures begun { (inputs : List (Cell × ℤ)) (step : ℕ)
        → events_of step (with_inputs [] inputs) ≡ [] }
    ensures none { (step : ℕ) (log : Log) → events_of step log ≡ []
        → (before_opening step log ≡ None) × (before_closing step log ≡ None) }
{}

/// Where each rule is marked whose last looks the puts touch, a rule without a mark is still not due.
pub fn index()
    ensures { (basin : Draft) (cells : Cells) (puts : List Asked)
        (looked : ℕ → Option (List Look)) (was_marked is_marked : ℕ → Bool)
        → MarksTouched basin puts looked was_marked is_marked → IsIndex cells looked was_marked
        → IsIndex (λ cell. option_or (last_put basin puts cell) (cells cell)) looked is_marked }
{}
