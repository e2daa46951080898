//! Proves what each of the records says that law `statuses` names: the command, what its files are read as, and which text was
//! appended. Each law is the `ensures` of a function that does nothing.
ghost use Rattle.std.specs.Prelude.{◌≡◌, ℕ, List, [], Option, Some, unwrap_or};
ghost use Rattle.rw_base.specs.declared.number.Cell.{Cell};
ghost use Rattle.rw_io.specs.Known.{GrowsBy};
ghost use Rattle.rw_inputs.specs.Edits.{Batch};
ghost use Rattle.rw_inputs.specs.Inputs.{Inputs};
ghost use Rattle.rw_model.specs.Draft.{Draft};
ghost use Rattle.rw_model_toml.specs.Migrated.{IsMigrated};
ghost use Rattle.rw_run.specs.Log.{Log};
ghost use Rattle.rw_run.specs.declared.run.RunEnd.{RunEnd};
ghost use Rattle.rpl_code.specs.Spelling.{spelt};
ghost use Rattle.rpl_compile.specs.Translate.{translate};
ghost use Rattle.rpl_tree.specs.Tree.{Declared};
ghost use Rattle.rw_words.specs.Command.{Command};
ghost use Rattle.rw_words.specs.declared.job.Job.TheVariants as J;
ghost use Rattle.rw_commands.specs.Budgets.{check_text};
ghost use Rattle.rw_commands.specs.Call.{Call};
ghost use Rattle.rw_commands.specs.Cell.{cell_asked};
ghost use Rattle.rw_commands.specs.Command.{AskForCommand, extras_of};
ghost use Rattle.rw_commands.specs.Many.{AreScenarioRuns, many_texts};
ghost use Rattle.rw_commands.specs.Policy.{PolicyFile, Ruleset};
ghost use Rattle.rw_commands.specs.Promise.{WroteBalance, WroteCheck, WroteCode, WroteMany, WroteMigrated, WroteRules, WroteRun, WroteSample, WroteWhy};
ghost use Rattle.rw_commands.specs.Reading.{ReadsEdits, ReadsInputs, ReadsModel, ReadsPolicy, ReadsScenarios, SaysAt};
ghost use Rattle.rw_commands.specs.RunText.{IsBalanceOfRules, IsRulesText, IsSampleOf, IsSimulated, IsWhyOfRules};
ghost use Rattle.rw_commands.specs.Sections.{AreSections, first_given, joined_sections};
ghost use Rattle.rw_commands.specs.declared.refusal.File.TheVariants as F;

/// Sections of runs: of `simulate`, of `run` and of `mrm`.
pub fn written_sections()
    ensures simulate { (call : Call) (end : RunEnd) → WroteRun call end
        → (command : Command) × (basin : Draft) × (inputs : Inputs) × (text : List ℕ)
        × AskForCommand call.words command
        × ReadsInputs command call.shelf.before.holds basin inputs
        × IsSimulated command.order basin (extras_of command) 0 inputs end text
        × GrowsBy call.out.before.contents call.out.after.contents text }
    ensures run { (call : Call) (end : RunEnd) → WroteRules call end
        → (command : Command) × (basin : Draft) × (policy : PolicyFile) × (inputs : Inputs)
        × (edits : Option (List Batch)) × (texts : List (List ℕ))
        × AskForCommand call.words command
        × ReadsPolicy command call.shelf.before.holds basin policy
        × ReadsInputs command call.shelf.before.holds basin inputs
        × SaysAt command F.Edits edits (ReadsEdits command call.shelf.before.holds basin)
        × AreSections (IsRulesText basin policy (extras_of command)) 0 (first_given inputs)
        (unwrap_or edits []) end texts
        × GrowsBy call.out.before.contents call.out.after.contents (joined_sections texts) }
    ensures many { (call : Call) (logs : List Log) → WroteMany call logs
        → (command : Command) × (basin : Draft) × (policy : PolicyFile) × (inputs : Inputs)
        × (scenarios : List Batch) × AskForCommand call.words command
        × ReadsPolicy command call.shelf.before.holds basin policy
        × ReadsInputs command call.shelf.before.holds basin inputs
        × ReadsScenarios command call.shelf.before.holds basin scenarios
        × AreScenarioRuns basin policy inputs scenarios logs
        × GrowsBy call.out.before.contents call.out.after.contents
        (joined_sections (many_texts basin logs)) }
{}

/// What is told of a run: of `why`, of `balance` and of `sample`.
pub fn written_of_runs()
    ensures why { (call : Call) (end : RunEnd) → WroteWhy call end
        → (command : Command) × (basin : Draft) × (policy : PolicyFile) × (inputs : Inputs)
        × (cell : Cell) × (text : List ℕ) × AskForCommand call.words command
        × ReadsPolicy command call.shelf.before.holds basin policy
        × ReadsInputs command call.shelf.before.holds basin inputs
        × (cell_asked command basin ≡ Some cell)
        × IsWhyOfRules basin policy inputs cell end text
        × GrowsBy call.out.before.contents call.out.after.contents text }
    ensures balance { (call : Call) (end : RunEnd) → WroteBalance call end
        → (command : Command) × (basin : Draft) × (policy : PolicyFile) × (inputs : Inputs)
        × (text : List ℕ) × AskForCommand call.words command
        × ReadsPolicy command call.shelf.before.holds basin policy
        × ReadsInputs command call.shelf.before.holds basin inputs
        × IsBalanceOfRules basin policy inputs end text
        × GrowsBy call.out.before.contents call.out.after.contents text }
    ensures sample { (call : Call) → WroteSample call
        → (command : Command) × (seed : ℕ) × (text : List ℕ)
        × AskForCommand call.words command × (command.job ≡ J.Sample seed)
        × IsSampleOf seed text × GrowsBy call.out.before.contents call.out.after.contents text }
{}

/// What is told of a policy or a model: of `check`, of `compile` and of `migrate`.
pub fn written_of_files()
    ensures check { (call : Call) → WroteCheck call
        → (command : Command) × (basin : Draft) × (policy : PolicyFile)
        × AskForCommand call.words command
        × ReadsPolicy command call.shelf.before.holds basin policy
        × GrowsBy call.out.before.contents call.out.after.contents (check_text policy) }
    ensures compile { (call : Call) → WroteCode call
        → (command : Command) × (basin : Draft) × (rules : List Declared)
        × AskForCommand call.words command
        × ReadsPolicy command call.shelf.before.holds basin (Ruleset rules)
        × GrowsBy call.out.before.contents call.out.after.contents (spelt (translate rules)) }
    ensures migrate { (call : Call) → WroteMigrated call
        → (command : Command) × (basin : Draft)
        × (model : ReadsModel command call.shelf.before.holds basin) × (text : List ℕ)
        × AskForCommand call.words command × IsMigrated model.text text
        × GrowsBy call.out.before.contents call.out.after.contents text }
{}
