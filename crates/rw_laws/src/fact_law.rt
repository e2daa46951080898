//! Proves what the conclusions of laws and calls say, fact by fact, so that none of them can say less.
ghost use Rattle.std.specs.Prelude.{◌≡◌, ◌≤◌, ◌<◌, ◌+◌, ◌≤ℤ◌, ◌<ℤ◌, ℕ, ℤ, pos, Contains, List, ◌∷◌, length, Option, Some, Ok, Err, Result};
ghost use Rattle.rw_base.specs.declared.memory.NoMemory.{NoMemory};
ghost use Rattle.rw_base.specs.declared.number.Cell.{Cell};
ghost use Rattle.rw_base.specs.declared.number.RuleNo.{RuleNo};
ghost use Rattle.rw_base.specs.declared.number.StepNo.{StepNo};
ghost use Rattle.rw_firing.specs.Fire.{Fire};
ghost use Rattle.rw_model.specs.Draft.{Draft};
ghost use Rattle.rw_model.specs.Objects.{numbered};
ghost use Rattle.rw_model.specs.declared.content.Content.{Content};
ghost use Rattle.rw_series.specs.Series.{held};
ghost use Rattle.rw_method.specs.declared.places.TheConstants.{ENERGY, OUTFLOW};
ghost use Rattle.rw_method.specs.declared.put.Put.{Put};
ghost use Rattle.rw_method.specs.declared.view.View.{View};
ghost use Rattle.rw_method.specs.Power.{Plant, energy_of, head_of};
ghost use Rattle.rw_method.specs.Puts.{GivesRequest, put};
ghost use Rattle.rw_run.specs.Log.{Event, Firing, Log, cells_of, fault, fired, value_in};
ghost use Rattle.rw_run.specs.Next.{Policy, ended};
ghost use Rattle.rw_run.specs.RunOf.{opened_by};
ghost use Rattle.rw_run.specs.Step.{before_closing};
ghost use Rattle.rw_run.specs.declared.fault.RunFault.TheVariants.{RuleOutOfRange, ZeroDivisor};
ghost use Rattle.rw_run.specs.declared.run.Run.{Run};
ghost use Rattle.rw_record.specs.Record.{StepRecord};
ghost use Rattle.rpl_code.specs.declared.block.Block.{Block};
ghost use Rattle.rpl_tree.specs.Budget.{Budget};
ghost use Rattle.rpl_verify.specs.Machine.{fire_of_code, first_frame, rule_from};
ghost use Rattle.rpl_verify.specs.Safety.{IsSafe, firing_from, look_count_in, most_words, puts_from};
ghost use Rattle.rpl_verify.specs.Verified.{Accepted};
ghost use Rattle.rpl_policy.specs.Firings.{AreVerified, IsVerified, RuleTurn};
ghost use Rattle.rw_engine.specs.Engine.{Engine};
ghost use Rattle.rw_engine.specs.Passing.{CountsSteps, Replays, RunsStep};
ghost use Rattle.rw_engine.specs.Shows.{Shows};
ghost use Rattle.rw_laws.specs.Balances.{AllBalanced};
ghost use Rattle.rw_laws.specs.Laws.{KeepsLaws};
ghost use Rattle.rw_laws.specs.Links.{HoldAsLinked};
ghost use Rattle.rw_laws.specs.Priority.{KeepPriority};
ghost use Rattle.rw_laws.specs.Rules.{AllStandBy};

/// The meaning of keeping the laws: links hold in the table of a run and priorities in its log. Of each timestep that it closed
/// each rule's last firing stood just before the closing, what the cells held then stayed, and the table's balances are true.
pub fn kept_laws()
    ensures links { (basin : Draft) (policy : Policy) (log : Log) (run : Run)
        → KeepsLaws basin policy log run → HoldAsLinked basin (held run.series) }
    ensures priority { (basin : Draft) (policy : Policy) (log : Log) (run : Run)
        → KeepsLaws basin policy log run → KeepPriority basin log }
    ensures rules { (basin : Draft) (policy : Policy) (log : Log) (run : Run) (step : ℕ)
        → KeepsLaws basin policy log run → 1 ≤ step → step ≤ run.closed
        → (before : Log) × (before_closing step log ≡ Some before)
        × AllStandBy basin policy step before
        × ((cell : Cell) → cell.step.0 ≤ step
        → held run.series cell ≡ cells_of basin before cell) }
    ensures balance { (basin : Draft) (policy : Policy) (log : Log) (run : Run) (step : ℕ)
        → KeepsLaws basin policy log run → 1 ≤ step → step ≤ run.closed
        → AllBalanced basin step (held run.series) }
{}

/// Where a request puts the outflow, that is a release from 0 to the maximum one which gives the energy; no smaller one does; and
/// the energy that it gives is put.
pub fn requested_energy()
    ensures { (of : Plant) (view : View) (request : Content) (puts : List Put)
        → GivesRequest of view request puts
        → (release : ℕ) × (number : ℕ) × (pos release ≤ℤ of.max_release)
        × (request.value ≤ℤ energy_of of.power (head_of of view) (pos release))
        × ((other : ℕ) → other < release
        → energy_of of.power (head_of of view) (pos other) <ℤ request.value)
        × Contains puts (put OUTFLOW (pos release) number)
        × Contains puts
        (put ENERGY (energy_of of.power (head_of of view) (pos release)) number) }
{}

/// In a log whose firings are verified each one is, whether a line reports it or a fault ended the run, whatever came after it.
pub fn verified_firings()
    ensures told { (basin : Draft) (code : List Block) (budgets : List Budget) (log : Log)
        (firing : Firing) → AreVerified basin code budgets (fired firing ∷ log)
        → IsVerified basin code budgets log (fired firing)
        (record { rule = firing.rule; step = firing.step }) }
    ensures divided { (basin : Draft) (code : List Block) (budgets : List Budget) (log : Log)
        (rule : RuleNo) (step : StepNo)
        → AreVerified basin code budgets (fault (ZeroDivisor rule step) ∷ log)
        → IsVerified basin code budgets log (fault (ZeroDivisor rule step))
        (record { rule = rule.0; step = step.0 }) }
    ensures outside { (basin : Draft) (code : List Block) (budgets : List Budget) (log : Log)
        (rule : RuleNo) (step : StepNo) (value : ℤ)
        → AreVerified basin code budgets (fault (RuleOutOfRange rule step value) ∷ log)
        → IsVerified basin code budgets log (fault (RuleOutOfRange rule step value))
        (record { rule = rule.0; step = step.0 }) }
    ensures earlier { (basin : Draft) (code : List Block) (budgets : List Budget) (log : Log)
        (event : Event) → AreVerified basin code budgets (event ∷ log)
        → AreVerified basin code budgets log }
{}

/// A verified firing is that of the machine on the block of its rule, for what the cells hold before it, and safe by the block's
/// budget.
pub fn verified_firing()
    ensures { (basin : Draft) (code : List Block) (budgets : List Budget) (log : Log)
        (event : Event) (turn : RuleTurn) → IsVerified basin code budgets log event turn
        → (block : ℕ) × (budget : Budget) × (rule_from 1 code turn.rule ≡ Some block)
        × (numbered budgets block ≡ Some budget)
        × (safe : IsSafe code basin turn.rule turn.step (value_in (cells_of basin log)) budget)
        × (event
        ≡ ended basin (cells_of basin log) turn.rule turn.step safe.fire safe.fire.end) }
{}

/// A safe firing is never stuck. What it counts, at how many cells it looks and how often, how many puts it executes and the words
/// that it keeps are at most those of the budget.
pub fn safe_firing()
    ensures fires { (code : List Block) (basin : Draft) (rule step : ℕ)
        (values : Cell → Option ℤ) (budget : Budget)
        → (safe : IsSafe code basin rule step values budget)
        → (fire_of_code code basin rule step values ≡ Some safe.fire)
        × (safe.fire.count ≤ budget.count) × (length safe.fire.looked ≤ budget.looks) }
    ensures looks { (code : List Block) (basin : Draft) (rule step : ℕ)
        (values : Cell → Option ℤ) (budget : Budget)
        → IsSafe code basin rule step values budget
        → look_count_in code
        (firing_from code (record { basin = basin; values = values; step = step })
        (first_frame code rule)) ≤ budget.looks }
    ensures puts { (code : List Block) (basin : Draft) (rule step : ℕ)
        (values : Cell → Option ℤ) (budget : Budget)
        → IsSafe code basin rule step values budget
        → puts_from code (record { basin = basin; values = values; step = step })
        (first_frame code rule) ≤ budget.puts }
    ensures words { (code : List Block) (basin : Draft) (rule step : ℕ)
        (values : Cell → Option ℤ) (budget : Budget)
        → IsSafe code basin rule step values budget
        → most_words
        (firing_from code (record { basin = basin; values = values; step = step })
        (first_frame code rule)) ≤ budget.words }
{}

/// A run counts the timesteps that it opened, and at most all of them where memory was wanting. After want of memory a timestep, run
/// or passed again, leaves the engine with the log that it showed.
pub fn calls_of_an_engine()
    ensures counted { (basin : Draft) (before after : ℕ) (run : Run)
        → CountsSteps basin before after (Ok run)
        → after ≡ before + opened_by run.end run.closed }
    ensures few { (basin : Draft) (before after : ℕ) (result : Result Run NoMemory)
        → CountsSteps basin before after result
        → (before ≤ after) × (after ≤ before + basin.control.stamps.count) }
    ensures before { (basin : Draft) (policy : Accepted) (step : ℕ) (old new : Engine)
        (why : NoMemory) (log : Log) → RunsStep basin policy step old new (Err why)
        → Shows basin old log → Shows basin new log }
    ensures passed_again { (basin : Draft) (kept : StepRecord) (old new : Engine)
        (why : NoMemory) (log : Log) → Replays basin kept old new (Err why)
        → Shows basin old log → Shows basin new log }
{}
