//! Proves what the promise of the top call means: what it speaks of is one thing, and what each status says. Each law is the
//! `ensures` of a function that does nothing. `sample`: the sample's model is accepted, and with its basin its ruleset and the
//! inputs of each seed. `rulesets`: what every run keeps, of the table that a ruleset gives by what its rules mean. `migration`:
//! policies, inputs and runs of a model's file that is migrated are what they were. `written`: what each record says that
//! `statuses` names.
ghost use Rattle.std.specs.Prelude.{◌≡◌, ◌≢◌, ◌≤◌, ◌<◌, ◌+◌, ◌-◌, ◌^◌, ◌↔◌, ◌⊎◌, ℕ, ℤ, pos, true, Bool, false, List, [], ◌∷◌, ◌++◌, Option, None, Some, IfSome, IsSome, IsSomeAnd, codes, length, slice_get, take};
ghost use Rattle.rw_plain_reservoir.specs.FirstForm.{FirstModel, IsFirstForm, IsFirstFlows};
ghost use Rattle.rw_plain_reservoir.specs.Table.{IsFirstText};
ghost use Rattle.rw_io.specs.Causes.{Rose};
ghost use Rattle.rw_io.specs.Known.{GrowsBy, PrefixGrew};
ghost use Rattle.rw_io.specs.Outside.{Change, ShelfView, SinkView};
ghost use Rattle.rw_io.specs.declared.whole_file.TheConstants.{FILE_MAX};
ghost use Rattle.rw_run.specs.Next.{Policy as RunPolicy, no_rules};
ghost use Rattle.rw_run.specs.declared.fault.RunFault.{RunFault};
ghost use Rattle.rw_run.specs.declared.run.RunEnd.TheVariants.{Settled, Fault};
ghost use Rattle.rw_model.specs.Basin.{IsBasin};
ghost use Rattle.rw_model.specs.Draft.{Draft};
ghost use Rattle.rw_inputs.specs.Refusal.{InputRefusal};
ghost use Rattle.rw_inputs.specs.Inputs.{Inputs, value_at};
ghost use Rattle.rw_inputs.specs.Reading.{Reads, Refuses};
ghost use Rattle.rw_run.specs.declared.run.RunEnd.{RunEnd};
ghost use Rattle.rw_model_toml.specs.Refusal.{ModelRefusal};
ghost use Rattle.rpl_tree.specs.Tree.{Declared};
ghost use Rattle.rpl_tree.specs.Bounds.{function_count, rule_count};
ghost use Rattle.rpl_types.specs.HasType.{IsTyped};
ghost use Rattle.rpl_verify.specs.Budget.{AreAccepted};
ghost use Rattle.rpl_compile.specs.Budgets.{code_budgets_of};
ghost use Rattle.rpl_compile.specs.Translate.{translate};
ghost use Rattle.rw_promise.specs.Alike.{AppendAlike, AskAlike};
ghost use Rattle.rw_commands.specs.Budgets.{budget_in, check_text, rules_in};
ghost use Rattle.rw_commands.specs.Call.{Call};
ghost use Rattle.rw_commands.specs.Command.{AskOne, AskNothing, AskForCommand, order, path_of, simulation_of};
ghost use Rattle.rw_words.specs.Command.{Command};
ghost use Rattle.rw_words.specs.declared.order.Order.{Order};
ghost use Rattle.rw_promise.specs.FirstCall.{IsFirstCall};
ghost use Rattle.rw_commands.specs.Lines.{memory_line, refusal_line, words_line};
ghost use Rattle.rw_commands.specs.Policy.{BadCode, RulesRefusal, BadRules, BadBlocks, PolicyFile, Ruleset, Code, IsPolicyFileOf, code_in_file};
ghost use Rattle.rw_commands.specs.Promise.{Promise, WroteBalance, WroteCheck, WroteCode, WroteMany, WroteMigrated, WroteRules, WroteRun, WroteSample, WroteWhy};
ghost use Rattle.rw_commands.specs.Reading.{AcceptsAll, FilesRead, HoldsTooLong, IsHonestOfAll, LacksCell, ReadsInputs, RefusesEdits, RefusesInputs, RefusesModel, RefusesPolicy, RefusesScenarios};
ghost use Rattle.rw_commands.specs.Refusal.{FailsToRead, FindsTooLong, status_of};
ghost use Rattle.rw_promise.specs.Told.{AreTold};
ghost use Rattle.rw_promise.specs.SureCall.{IsSure};
ghost use Rattle.rw_commands.specs.Written.{AppendsFront, AppendsSections, CountsOfFiles, IsFrontOf, IsTextOf, OfFiles, TellsLine, WritesFront, WritesSections, batches_in, scenarios_in, sections_behind};
ghost use Rattle.std.specs.Prelude.{IsTrue};
ghost use Rattle.rw_base.specs.declared.limits.TheConstants.{RULES_MAX};
ghost use Rattle.rw_commands.specs.Sections.{AreSections, GivenInputs, first_given, joined_sections};
ghost use Rattle.rw_words.specs.declared.job.Job.{Job};
ghost use Rattle.rw_words.specs.declared.job.Job.TheVariants as J;
ghost use Rattle.rw_run.specs.Log.{Log, fault};
ghost use Rattle.rw_report.specs.Outcome.{outcome_by};
ghost use Rattle.rw_report.specs.Whole.{trace_of_run};
ghost use Rattle.rw_words.specs.Plain.{plain_command};
ghost use Rattle.rw_commands.specs.declared.refusal.File.TheVariants as F;
ghost use Rattle.rw_run.specs.Runs.{IsRun};
ghost use Rattle.rw_inputs.specs.Placings.{placings};
ghost use Rattle.rpl_policy.specs.Firings.{AreVerified};
ghost use Rattle.rpl_tree.specs.Budget.{Budget};
ghost use Rattle.rw_base.specs.declared.number.StepNo.{StepNo};
ghost use Rattle.rw_base.specs.declared.number.Cell.{Cell};
ghost use Rattle.rw_inputs.specs.Edits.{Batch};
ghost use Rattle.rpl_code.specs.declared.block.Block.{Block};
ghost use Rattle.rw_commands.specs.Many.{AllSettled, AreScenarioRuns, IsScenarioRun, scenario_texts, status_of_runs};
ghost use Rattle.rw_promise.specs.Books.{TellsClosedBooks};
ghost use Rattle.rw_book_laws.specs.Closing.{BooksClose};
ghost use Rattle.rw_books.specs.Worked.{cells_by_column, holding_alone, holding_dam, holding_reach};
ghost use Rattle.rw_commands.specs.RunText.{IsBalanceOfRules, IsRulesText, IsRunText, IsSampleOf, IsSampleText, IsSimulated, IsWhyOfRules, no_extras, policy_in_run};
ghost use Rattle.rw_commands.specs.declared.extras.Extras.{Extras};
ghost use Rattle.rw_commands.specs.declared.refusal.File.{File};
ghost use Rattle.rw_commands.specs.declared.refusal.Refusal.{Refusal};

pub mod migration;
pub mod rulesets;
pub mod sample;
pub mod written;

use crate::law::sample::{rules_are_accepted, sample_is_read};
use rpl_compile::accepted::compiled_budgets;
use rpl_policy::law::code_keeps_promises;
use rpl_rulesets::law::rulesets_have_runs;
use rw_book_laws::law::every_book_of_events;
use rw_model_toml::law::files_are_basins;
use rw_plain_reservoir::law::first_text;
use rw_report::law::texts_of_runs;
use rw_run::law::one_run;
use rw_words::sample_words;

/// A text is read as inputs in one way, and isn't refused where it is read.
pub fn one_inputs()
    ensures values { (basin : Draft) (text : List ℕ) (inputs others : Inputs)
        → Reads basin text inputs → Reads basin text others
        → (slot step : ℕ) → value_at inputs slot step ≡ value_at others slot step }
    ensures either { (basin : Draft) (text : List ℕ) (inputs : Inputs) (why : InputRefusal)
        → Reads basin text inputs → ¬ Refuses basin text why }
{}

/// A basin, a policy and inputs have one run, which has one end and one text in each section's place, and all that counts of inputs are their values.
pub fn one_text()
    ensures { (basin : Draft) (policy : RunPolicy) (extras : Extras)
        (reran : Option (List StepNo)) (number : ℕ)
        (inputs others : Inputs)
        (end other : RunEnd) (text more : List ℕ)
        → ((slot step : ℕ) → value_at inputs slot step ≡ value_at others slot step)
        → IsRunText basin policy extras reran number inputs end text
        → IsRunText basin policy extras reran number others other more
        → (end ≡ other) × (text ≡ more) }
{
    one_run();
}

/// Without rules there is one end and one text in each order of dispatches.
pub fn one_order()
    ensures { (order : Order) (basin : Draft) (extras : Extras) (number : ℕ)
        (inputs others : Inputs)
        (end other : RunEnd) (text more : List ℕ)
        → ((slot step : ℕ) → value_at inputs slot step ≡ value_at others slot step)
        → IsSimulated order basin extras number inputs end text
        → IsSimulated order basin extras number others other more
        → (end ≡ other) × (text ≡ more) }
{
    one_run();
}

/// A basin, a policy, inputs and batches of edits have one text, the timesteps that are told as run again among it, and one end; so
/// has each section by itself; and a cell has one reason. All that counts of inputs are their values.
pub fn one_answer()
    ensures section { (basin : Draft) (policy : PolicyFile) (extras : Extras) (number : ℕ)
        (given : GivenInputs) (end other : RunEnd) (text more : List ℕ)
        → IsRulesText basin policy extras number given end text
        → IsRulesText basin policy extras number given other more
        → (end ≡ other) × (text ≡ more) }
    ensures sections { (basin : Draft) (policy : PolicyFile) (extras : Extras)
        (inputs others : Inputs)
        (batches : List Batch) (end other : RunEnd) (texts more : List (List ℕ))
        → ((slot step : ℕ) → value_at inputs slot step ≡ value_at others slot step)
        → AreSections (IsRulesText basin policy extras) 0 (first_given inputs) batches end texts
        → AreSections (IsRulesText basin policy extras) 0 (first_given others) batches other more
        → (end ≡ other) × (texts ≡ more) }
    ensures why { (basin : Draft) (policy : PolicyFile) (inputs others : Inputs)
        (cell : Cell) (end other : RunEnd) (text more : List ℕ)
        → ((slot step : ℕ) → value_at inputs slot step ≡ value_at others slot step)
        → IsWhyOfRules basin policy inputs cell end text
        → IsWhyOfRules basin policy others cell other more
        → (end ≡ other) × (text ≡ more) }
{
    one_run();
}

/// Calls with the same words over shelves that tell the same files, which answer 0 or 1, answer the same and append the same bytes,
/// but for a model that is migrated, of whose bytes the table alone is said.
pub fn one_output()
    ensures { (one other : Call) (status more : ℕ) → AskAlike one other
        → Promise one status → Promise other more → status ≤ 1 → more ≤ 1
        → (status ≡ more) × (¬ AskOne one.words (λ command. command.job ≡ J.Migrate)
        → AppendAlike one.out other.out) }
{
    one_run();
}

/// What else a call keeps: words that ask for nothing are refused, timesteps that are reused aren't counted, and no file changes.
pub fn kept()
    ensures words { (call : Call) (status : ℕ) → Promise call status → AskNothing call.words
        → (status ≡ 2) ⊎ (status ≡ 5) }
    ensures counted { (call : Call) (status : ℕ) (command : Command) → Promise call status
        → status ≤ 1 → AskForCommand call.words command → command.job ≡ J.Run
        → IsTrue command.reuse
        → OfFiles command call.shelf.before.holds (λ files. CountsOfFiles files call.steps) }
    ensures held { (call : Call) (status : ℕ) (path : List ℕ) → Promise call status
        → call.shelf.after.holds path ≡ call.shelf.before.holds path }
{}

/// What the error stream gets: nothing with 0 or 1, and with any other status the line of the refusal, all of it unless the stream failed.
pub fn told_lines()
    ensures silent { (call : Call) (status : ℕ) → Promise call status → status ≤ 1
        → call.err.after ≡ call.err.before }
    ensures told { (call : Call) (status : ℕ) → Promise call status → 2 ≤ status
        → (why : Refusal) × (status ≡ status_of why)
        × (TellsLine call.err words_line ⊎ TellsLine call.err memory_line
        ⊎ AskOne call.words (λ command. TellsLine call.err (refusal_line command why))) }
    ensures front { (err : Change SinkView) (line : List ℕ) → TellsLine err line
        → PrefixGrew err.before.contents err.after.contents line }
    ensures whole { (err : Change SinkView) (line : List ℕ) → TellsLine err line
        → ¬ Rose err.before.faults err.after.faults
        → GrowsBy err.before.contents err.after.contents line }
{}

/// What stands behind 3, 10, 4 and 5: a fault of the file was counted; more bytes were taken than a file may have; what was written
/// begins the text of the command; and the sections that were written before memory was wanting are whole and fewer than all, which
/// are one more than the batches of edits, or than the scenarios.
pub fn broken_off()
    ensures rose { (command : Command) (shelf : Change ShelfView) (file : File)
        → FailsToRead command shelf file
        → IsSomeAnd (path_of command file)
        (λ path. Rose (shelf.before.faults path) (shelf.after.faults path)) }
    ensures part { (job : Job) (extras : Extras) (files : FilesRead) (out : Change SinkView)
        → AppendsFront job extras files out
        → (done : List (List ℕ)) × (text : List ℕ)
        × IsFrontOf job extras files (done ++ text ∷ [])
        × PrefixGrew out.before.contents out.after.contents (joined_sections done ++ text) }
    ensures long { (command : Command) (shelf : Change ShelfView) (file : File)
        → FindsTooLong command shelf file → FILE_MAX < shelf.after.taken }
    ensures fewer { (job : Job) (extras : Extras) (files : FilesRead) (out : Change SinkView)
        → AppendsSections job extras files out
        → (texts : List (List ℕ)) × IsFrontOf job extras files texts
        × (length texts ≤ sections_behind job files)
        × GrowsBy out.before.contents out.after.contents (joined_sections texts) }
{}

/// What the words say in which a call is told. A count that rose is another, below its type's end. Where an output tells what it
/// holds before and after, it grew by just the text, or by a front of it, and one that didn't tell never begins to. A shelf that
/// tells its files and had no fault of them is one of which refusals are due, and calls with the same words over shelves that tell
/// the same ask alike.
pub fn told_of_calls()
    ensures rose { (before now : ℕ) → Rose before now → before < 2 ^ 64 - 1 → before < now }
    ensures grew { (before now text : List ℕ) → GrowsBy (Some before) (Some now) text
        → now ≡ before ++ text }
    ensures begins { (now text : List ℕ) → ¬ GrowsBy None (Some now) text }
    ensures front { (before now text : List ℕ) → PrefixGrew (Some before) (Some now) text
        → (n : ℕ) × (now ≡ before ++ take n text) }
    ensures honest { (command : Command) (shelf : Change ShelfView) (upto : ℕ)
        → ((file : File) → IfSome (path_of command file) (λ path.
        IsSome (shelf.before.holds path)
        × ((shelf.before.faults path) ≡ (shelf.after.faults path))
        × (shelf.before.faults path < 2 ^ 64 - 1)))
        → AreTold command shelf upto × IsHonestOfAll command shelf }
    ensures alike { (one other : Call) → one.words ≡ other.words
        → ((path : List ℕ) → IsSome (one.shelf.before.holds path)
        × (one.shelf.before.holds path ≡ other.shelf.before.holds path)) → AskAlike one other }
{}

/// Each firing of a run by a policy is the machine's on its code, never stuck and within its budget.
pub fn firings_of_sections()
    ensures { (basin : Draft) (policy : PolicyFile) (extras : Extras) (number : ℕ)
        (given : GivenInputs) (end : RunEnd) (text : List ℕ)
        → IsRulesText basin policy extras number given end text
        → (log : Log) × (budgets : List Budget)
        × IsRun basin (policy_in_run basin policy) (placings basin given.inputs) log
        × AreAccepted basin (code_in_file policy) budgets
        × AreVerified basin (code_in_file policy) budgets log }
{}

/// The same of the runs of which `why`, `balance` and `sample` tell, and of those whose sections `mrm` writes.
pub fn firings_of_other_runs()
    ensures why { (basin : Draft) (policy : PolicyFile) (inputs : Inputs) (cell : Cell)
        (end : RunEnd) (text : List ℕ) → IsWhyOfRules basin policy inputs cell end text
        → (log : Log) × (budgets : List Budget)
        × IsRun basin (policy_in_run basin policy) (placings basin inputs) log
        × AreAccepted basin (code_in_file policy) budgets
        × AreVerified basin (code_in_file policy) budgets log }
    ensures balance { (basin : Draft) (policy : PolicyFile) (inputs : Inputs) (end : RunEnd)
        (text : List ℕ) → IsBalanceOfRules basin policy inputs end text
        → (log : Log) × (budgets : List Budget)
        × IsRun basin (policy_in_run basin policy) (placings basin inputs) log
        × AreAccepted basin (code_in_file policy) budgets
        × AreVerified basin (code_in_file policy) budgets log }
    ensures sample { (basin : Draft) (policy : PolicyFile) (inputs : Inputs) (seed : ℕ)
        (text : List ℕ) → IsSampleText basin policy inputs seed text
        → (log : Log) × (budgets : List Budget)
        × IsRun basin (policy_in_run basin policy) (placings basin inputs) log
        × AreAccepted basin (code_in_file policy) budgets
        × AreVerified basin (code_in_file policy) budgets log }
    ensures scenario { (basin : Draft) (policy : PolicyFile) (inputs : Inputs) (batch : Batch)
        (log : Log) → IsScenarioRun basin policy inputs batch log
        → (budgets : List Budget) × AreAccepted basin (code_in_file policy) budgets
        × AreVerified basin (code_in_file policy) budgets log }
{}

/// What was written before a call broke off begins the text of the command: of `check` and `compile` it is that text, or a front of
/// it, and of `run` the first of its sections, and a front of the next.
pub fn fronts()
    ensures check { (extras : Extras) (files : FilesRead) (status : ℕ) (texts front : List (List ℕ))
        → IsTextOf J.Check extras files status texts → IsFrontOf J.Check extras files front
        → front ≡ texts }
    ensures compile { (extras : Extras) (files : FilesRead) (status : ℕ)
        (texts front : List (List ℕ)) → IsTextOf J.Compile extras files status texts
        → IsFrontOf J.Compile extras files front → front ≡ texts }
    ensures run { (extras : Extras) (files : FilesRead) (status : ℕ) (texts front : List (List ℕ))
        → IsTextOf J.Run extras files status texts → IsFrontOf J.Run extras files front
        → (rest : List (List ℕ)) × (texts ≡ front ++ rest) }
{
    one_run();
}

/// The same of `mrm`: the sections of the first traces, or all of them and the summary.
pub fn front_of_many()
    ensures { (extras : Extras) (files : FilesRead) (status : ℕ) (texts front : List (List ℕ))
        → IsTextOf J.Mrm extras files status texts → IsFrontOf J.Mrm extras files front
        → (rest : List (List ℕ)) × (texts ≡ front ++ rest) }
{
    one_run();
}

/// The same of one run: of `simulate` its section, or nothing, and of `why`, `balance` and `sample` that text.
pub fn fronts_of_runs()
    ensures simulate { (extras : Extras) (files : FilesRead) (status : ℕ)
        (texts front : List (List ℕ)) → IsTextOf J.Simulate extras files status texts
        → IsFrontOf J.Simulate extras files front
        → (rest : List (List ℕ)) × (texts ≡ front ++ rest) }
    ensures why { (extras : Extras) (files : FilesRead) (status : ℕ) (texts front : List (List ℕ))
        → IsTextOf J.Why extras files status texts → IsFrontOf J.Why extras files front
        → front ≡ texts }
    ensures balance { (extras : Extras) (files : FilesRead) (status : ℕ)
        (texts front : List (List ℕ)) → IsTextOf J.Balance extras files status texts
        → IsFrontOf J.Balance extras files front → front ≡ texts }
    ensures sample { (extras : Extras) (files : FilesRead) (status seed : ℕ)
        (texts front : List (List ℕ)) → IsTextOf (J.Sample seed) extras files status texts
        → IsFrontOf (J.Sample seed) extras files front → front ≡ texts }
{
    one_run();
}

/// A text has one section more than stand behind its first one: one for each batch of edits, or the summary behind one for each
/// scenario.
pub fn sections_of_texts()
    ensures run { (extras : Extras) (files : FilesRead) (status : ℕ) (texts : List (List ℕ))
        → IsTextOf J.Run extras files status texts
        → length texts ≡ sections_behind J.Run files + 1 }
    ensures many { (extras : Extras) (files : FilesRead) (status : ℕ) (texts : List (List ℕ))
        → IsTextOf J.Mrm extras files status texts
        → length texts ≡ sections_behind J.Mrm files + 1 }
    ensures batches { (files : FilesRead)
        → sections_behind J.Run files ≡ length (batches_in files) }
    ensures scenarios { (files : FilesRead)
        → sections_behind J.Mrm files ≡ length (scenarios_in files) }
{}

/// Books don't close whatever the cells hold: a routed reach that holds a litre more than its book comes to, and a dam that lets out
/// a litre more.
pub fn unclosed()
    ensures reach { ¬ BooksClose (holding_alone (codes "W") holding_reach 3)
        (cells_by_column ((pos 200 ∷ pos 0 ∷ pos 0 ∷ [])
        ∷ (pos 300 ∷ pos 225 ∷ pos 168 ∷ []) ∷ (pos 900 ∷ pos 675 ∷ pos 508 ∷ []) ∷ [])) 3 }
    ensures dam { ¬ BooksClose (holding_alone (codes "Dam") (holding_dam true) 1)
        (cells_by_column ((pos 100 ∷ []) ∷ (pos 21 ∷ []) ∷ (pos 1105 ∷ []) ∷ (pos 30 ∷ [])
        ∷ (pos 5 ∷ []) ∷ [])) 1 }
{}

/// What it is that two calls append alike: one text, behind what either output held before.
pub fn appended_alike()
    ensures { (before now others more : List ℕ) (one later other last : ℕ) → AppendAlike
        (record {
          before = record { contents = Some before; faults = one };
          after = record { contents = Some now; faults = later };
        })
        (record {
          before = record { contents = Some others; faults = other };
          after = record { contents = Some more; faults = last };
        })
        → (text : List ℕ) × (now ≡ before ++ text) × (more ≡ others ++ text) }
{}

/// The books that `balance` writes close: of each object of which all is known, what it held before the run, and what flowed in less
/// what flowed out, is what it holds.
pub fn closed_books()
    ensures code { (basin : Draft) (blocks : List Block) (budgets : List Budget) (inputs : Inputs)
        (end : RunEnd) (text : List ℕ) → IsBasin basin
        → IsBalanceOfRules basin (Code blocks budgets) inputs end text
        → TellsClosedBooks basin end text }
    ensures rules { (basin : Draft) (rules : List Declared) (inputs : Inputs) (end : RunEnd)
        (text : List ℕ) → IsBasin basin → IsTyped basin rules
        → rule_count rules ≤ RULES_MAX → function_count rules ≤ RULES_MAX
        → IsBalanceOfRules basin (Ruleset rules) inputs end text
        → TellsClosedBooks basin end text }
{
    every_book_of_events();
    code_keeps_promises();
    rulesets_have_runs();
}

/// The run of a scenario goes by the inputs and its own batch alone, so that no other one counts for it: it has one run, wherever it
/// stands among others.
pub fn scenarios_apart()
    ensures one { (basin : Draft) (policy : PolicyFile) (inputs others : Inputs) (batch : Batch)
        (log other : Log)
        → ((slot step : ℕ) → value_at inputs slot step ≡ value_at others slot step)
        → IsScenarioRun basin policy inputs batch log
        → IsScenarioRun basin policy others batch other → log ≡ other }
    ensures each { (basin : Draft) (policy : PolicyFile) (inputs : Inputs) (batches : List Batch)
        (logs : List Log) (place : ℕ) (batch : Batch)
        → AreScenarioRuns basin policy inputs batches logs → slice_get batches place ≡ Some batch
        → IsSomeAnd (slice_get logs place) (IsScenarioRun basin policy inputs batch) }
{
    one_run();
}

/// Which files the words of `mrm`, `balance` and `migrate` name; and runs of two scenarios, whose sections count from 1 and which
/// have the status 0 where both settle, and 1 whichever of them ends in a fault.
pub fn worked_scenarios_of_calls()
    ensures traces { path_of (plain_command J.Mrm
        (codes "m" ∷ codes "p" ∷ codes "i" ∷ codes "t" ∷ [])) F.Traces ≡ Some (codes "t") }
    ensures untraced { path_of (plain_command J.Balance
        (codes "m" ∷ codes "p" ∷ codes "i" ∷ [])) F.Traces ≡ None }
    ensures model { path_of (plain_command J.Migrate (codes "m" ∷ [])) F.Model ≡ Some (codes "m") }
    ensures alone { path_of (plain_command J.Migrate (codes "m" ∷ [])) F.Policy ≡ None }
    ensures numbers { (basin : Draft) (log other : Log)
        → scenario_texts basin 1 (log ∷ other ∷ []) ≡ trace_of_run basin 1 (outcome_by basin log)
        ∷ trace_of_run basin 2 (outcome_by basin other) ∷ [] }
    ensures settled { status_of_runs ([] ∷ [] ∷ []) ≡ 0 }
    ensures first { (why : RunFault) → status_of_runs ((fault why ∷ []) ∷ [] ∷ []) ≡ 1 }
    ensures last { (why : RunFault) → status_of_runs ([] ∷ (fault why ∷ []) ∷ []) ≡ 1 }
{}

/// The sample of a seed has one line.
pub fn one_sample()
    ensures { (seed : ℕ) (text other : List ℕ)
        → IsSampleOf seed text → IsSampleOf seed other → text ≡ other }
{
    one_run();
}

/// Of one plain reservoir whose inflow and outflow are given, the text is the table that the simplest definition gives, by
/// the sums of its flows. It says that the run settled exactly where no storage leaves its range.
pub fn first_form()
    ensures { (basin : Draft) (model : FirstModel) (inputs : Inputs) (inflows outflows : List ℤ)
        → IsBasin basin → IsFirstForm basin model
        → IsFirstFlows inputs model.run.count inflows outflows
        → (end : RunEnd) (text : List ℕ) → IsRunText basin no_rules no_extras None 0 inputs end text
        → (fault : Option ℤ) × IsFirstText model inflows outflows fault text
        × ((fault ≡ None) ↔ (end ≡ Settled)) }
{
    first_text();
    texts_of_runs();
}

/// A call asks for such a run where its words do, the shelf tells both files, and these are read as the reservoir and its
/// flows. Then `basin_main` wrote that table, and answered 0 exactly where no storage leaves its range, unless it refused.
pub fn first_call()
    ensures is { (call : Call) (model : FirstModel) (inflows outflows : List ℤ)
        (m i : List ℕ) (basin : Draft) (inputs : Inputs)
        → AskForCommand call.words (simulation_of m i)
        → IsSome (call.shelf.before.holds m) → IsSome (call.shelf.before.holds i)
        → ReadsInputs (simulation_of m i) call.shelf.before.holds basin inputs
        → IsFirstForm basin model → IsFirstFlows inputs model.run.count inflows outflows
        → IsFirstCall call model inflows outflows }
    ensures table { (call : Call) (status : ℕ) (model : FirstModel) (inflows outflows : List ℤ)
        → Promise call status → status ≤ 1 → IsFirstCall call model inflows outflows
        → (fault : Option ℤ) × (text : List ℕ) × IsFirstText model inflows outflows fault text
        × GrowsBy call.out.before.contents call.out.after.contents text
        × ((fault ≡ None) ↔ (status ≡ 0)) }
{
    first_form();
    files_are_basins();
}

/// What each status says of a call that keeps its promise. Want of memory, 5, may always come. Then nothing was written, or, of
/// `run` and of `mrm`, the first sections, each whole, and fewer than all.
pub fn statuses()
    ensures settled { (call : Call) → Promise call 0
        → WroteRun call Settled ⊎ WroteRules call Settled ⊎ WroteWhy call Settled
        ⊎ WroteCheck call ⊎ WroteCode call ⊎ WroteSample call ⊎ WroteBalance call Settled
        ⊎ ((logs : List Log) × WroteMany call logs × AllSettled logs) ⊎ WroteMigrated call }
    ensures faulted { (call : Call) → Promise call 1
        → ((why : RunFault) × (WroteRun call (Fault why) ⊎ WroteRules call (Fault why)
        ⊎ WroteWhy call (Fault why) ⊎ WroteBalance call (Fault why)))
        ⊎ ((logs : List Log) × WroteMany call logs × ¬ AllSettled logs) }
    ensures words { (call : Call) → Promise call 2 → AskNothing call.words }
    ensures read_fault { (call : Call) → Promise call 3
        → AskOne call.words (λ command. (file : File) × FailsToRead command call.shelf file) }
    ensures write_fault { (call : Call) → Promise call 4
        → Rose call.out.before.faults call.out.after.faults }
    ensures write_front { (call : Call) → Promise call 4
        → AskOne call.words (λ command. WritesFront command call.shelf.before.holds call.out) }
    ensures model { (call : Call) → Promise call 6 → AskOne call.words
        (λ command. (why : ModelRefusal) × RefusesModel command call.shelf.before.holds why) }
    ensures rules { (call : Call) → Promise call 7 → AskOne call.words
        (λ command. (why : RulesRefusal)
        × RefusesPolicy command call.shelf.before.holds (BadRules why)) }
    ensures code { (call : Call) → Promise call 9 → AskOne call.words (λ command. (why : BadCode)
        × RefusesPolicy command call.shelf.before.holds (BadBlocks why)) }
    ensures inputs { (call : Call) → Promise call 8 → AskOne call.words
        (λ command. ((why : InputRefusal) × (RefusesInputs command call.shelf.before.holds why
        ⊎ RefusesEdits command call.shelf.before.holds why
        ⊎ RefusesScenarios command call.shelf.before.holds why))
        ⊎ LacksCell command call.shelf.before.holds) }
    ensures too_long { (call : Call) → Promise call 10
        → AskOne call.words (λ command. (file : File) × FindsTooLong command call.shelf file) }
    ensures sections { (call : Call) → Promise call 5
        → (call.out.after.contents ≡ call.out.before.contents)
        ⊎ AskOne call.words (λ command. WritesSections command call.shelf.before.holds call.out) }
    ensures untouched { (call : Call) (status : ℕ) → Promise call status → 2 ≤ status
        → status ≢ 4 → status ≢ 5 → call.out.after.contents ≡ call.out.before.contents }
{}

/// A call whose words ask for the sample of a seed answers 0, 4 or 5, whatever else stands among them: they ask for nothing more. The
/// sample's model, rules and inputs are accepted, no file is read, and its line is written with 0, whatever its run comes to.
pub fn sample_statuses()
    ensures { (call : Call) (status seed : ℕ) (command : Command) → Promise call status
        → AskForCommand call.words command → command.job ≡ J.Sample seed
        → (status ≡ 0) ⊎ (status ≡ 4) ⊎ (status ≡ 5) }
{
    rules_are_accepted();
    sample_is_read();
    sample_words();
}

/// Over a shelf and an output that never fail no call answers that a file can't be read or the output not be written.
pub fn sure_calls()
    ensures { (call : Call) (status : ℕ) → IsSure call → Promise call status
        → (status ≢ 3) × (status ≢ 4) }
{}

/// What has to be refused of a command is, with its status, unless memory was wanting: where the shelf tells the files up to the one
/// that is refused, and had no fault of them. Where each file is accepted, a cell that is sought is there, and the output had no fault
/// either, only memory can be wanting.
pub fn dues()
    ensures model { (call : Call) (status : ℕ) (command : Command) (why : ModelRefusal)
        → Promise call status → AskForCommand call.words command
        → RefusesModel command call.shelf.before.holds why
        → AreTold command call.shelf 0
        → (status ≡ 6) ⊎ (status ≡ 5) }
    ensures rules { (call : Call) (status : ℕ) (command : Command) (why : RulesRefusal)
        → Promise call status → AskForCommand call.words command
        → RefusesPolicy command call.shelf.before.holds (BadRules why)
        → AreTold command call.shelf 1
        → (status ≡ 7) ⊎ (status ≡ 5) }
    ensures code { (call : Call) (status : ℕ) (command : Command) (why : BadCode)
        → Promise call status → AskForCommand call.words command
        → RefusesPolicy command call.shelf.before.holds (BadBlocks why)
        → AreTold command call.shelf 1
        → (status ≡ 9) ⊎ (status ≡ 5) }
    ensures inputs { (call : Call) (status : ℕ) (command : Command) (why : InputRefusal)
        → Promise call status → AskForCommand call.words command
        → RefusesInputs command call.shelf.before.holds why
        → AreTold command call.shelf 2
        → (status ≡ 8) ⊎ (status ≡ 5) }
    ensures edits { (call : Call) (status : ℕ) (command : Command) (why : InputRefusal)
        → Promise call status → AskForCommand call.words command
        → RefusesEdits command call.shelf.before.holds why
        → AreTold command call.shelf 3
        → (status ≡ 8) ⊎ (status ≡ 5) }
    ensures scenarios { (call : Call) (status : ℕ) (command : Command) (why : InputRefusal)
        → Promise call status → AskForCommand call.words command
        → RefusesScenarios command call.shelf.before.holds why
        → AreTold command call.shelf 4
        → (status ≡ 8) ⊎ (status ≡ 5) }
    ensures long { (call : Call) (status : ℕ) (command : Command) (file : File)
        → Promise call status → AskForCommand call.words command
        → HoldsTooLong command call.shelf.before.holds file
        → AreTold command call.shelf (order file)
        → (status ≡ 10) ⊎ (status ≡ 5) }
    ensures cell { (call : Call) (status : ℕ) (command : Command)
        → Promise call status → AskForCommand call.words command
        → LacksCell command call.shelf.before.holds
        → AreTold command call.shelf 4
        → (status ≡ 8) ⊎ (status ≡ 5) }
    ensures none { (call : Call) (status : ℕ) (command : Command)
        → Promise call status → AskForCommand call.words command
        → AcceptsAll command call.shelf.before.holds
        → ¬ LacksCell command call.shelf.before.holds
        → AreTold command call.shelf 4 → ¬ Rose call.out.before.faults call.out.after.faults
        → (status ≤ 1) ⊎ (status ≡ 5) }
{}

/// Each rule of a policy that is accepted has its budgets, so that `check` writes a line for each. What it writes of a ruleset
/// is what it writes of the ruleset's code, which is accepted with these budgets.
pub fn checked_policies()
    ensures each { (as_code : Bool) (basin : Draft) (text : List ℕ) (policy : PolicyFile) (rule : ℕ)
        → IsPolicyFileOf as_code basin text policy → 1 ≤ rule → rule ≤ rules_in policy
        → IsSome (budget_in policy rule) }
    ensures code { (basin : Draft) (rules : List Declared) → IsTyped basin rules
        → rule_count rules ≤ RULES_MAX → function_count rules ≤ RULES_MAX
        → AreAccepted basin (translate rules) (code_budgets_of rules)
        × (check_text (Ruleset rules)
        ≡ check_text (Code (translate rules) (code_budgets_of rules))) }
{
    compiled_budgets();
}
