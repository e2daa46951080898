//! Proves what is so of a model's file that is migrated. Each law is the `ensures` of a function that does nothing.
ghost use Rattle.std.specs.Prelude.{◌≡◌, ◌≤◌, Bool, false, ℕ, ℤ, List, Ok, Option};
ghost use Rattle.rw_base.specs.declared.number.StepNo.{StepNo};
ghost use Rattle.rw_run.specs.declared.run.RunEnd.{RunEnd};
ghost use Rattle.rw_commands.specs.Many.{many_texts};
ghost use Rattle.rw_commands.specs.RunText.{IsBalanceText, IsRunText, IsWhyText, asked_section_text, policy_in_run, tells_asks};
ghost use Rattle.rw_commands.specs.declared.extras.Extras.{Extras};
ghost use Rattle.rw_base.specs.declared.limits.TheConstants.{RULES_MAX};
ghost use Rattle.rw_base.specs.declared.number.Cell.{Cell};
ghost use Rattle.rw_model.specs.Draft.{Draft};
ghost use Rattle.rw_model_toml.specs.Migrated.{IsMigrated};
ghost use Rattle.rw_model_toml.specs.Model.{model_of};
ghost use Rattle.rpl_tree.specs.Bounds.{function_count, rule_count};
ghost use Rattle.rpl_tree.specs.Tree.{Declared};
ghost use Rattle.rpl_types.specs.Judged.{rules_judged};
ghost use Rattle.rpl_types.specs.Nodes.{Types};
ghost use Rattle.rw_inputs.specs.Inputs.{Inputs};
ghost use Rattle.rw_inputs.specs.Placings.{placings};
ghost use Rattle.rw_inputs.specs.Reading.{Reads};
ghost use Rattle.rw_run.specs.Log.{Log};
ghost use Rattle.rw_run.specs.Runs.{IsRun};
ghost use Rattle.rw_asked.specs.Asked.{asked_trace};
ghost use Rattle.rw_ahead.specs.Ahead.{ahead_to};
ghost use Rattle.rpl_code.specs.declared.block.Block.{Block};
ghost use Rattle.rpl_policy.specs.Policy.{policy_of_code};
ghost use Rattle.rpl_verify.specs.Verified.{Accepted, verified};
ghost use Rattle.rpl_rulesets.specs.RulesPolicy.{policy_of_rules};
ghost use Rattle.rw_commands.specs.Policy.{IsPolicyFileOf, PolicyFile};
ghost use Rattle.rw_promise.specs.Migrated.{GoesAlike};

use rpl_ahead::law::{accepted_further, runs_of_code};
use rpl_compile::accepted::compiled_code_is_accepted;
use rpl_rulesets::law::rulesets_have_runs;
use rpl_types::law::accepted;
use rw_migrated::law::{inputs_read_alike, migrated_models_are_read, sections_are_alike};
use rw_model_toml::law::files_are_basins;

/// A ruleset that is accepted for a basin is accepted for one that lets rules put further ahead, and its nodes have the same types.
#[tactic(auto, using(crate::proofs::Typing::typed_further))]
pub fn rulesets_stay_accepted()
    ensures { (basin : Draft) (most : ℕ) (rules : List Declared) (types : List Types)
        → basin.control.ahead ≤ most → rules_judged basin rules ≡ Ok types
        → rules_judged (ahead_to most basin) rules ≡ Ok types }
{}

/// The run of the same inputs by an accepted ruleset is the same, event for event, in a basin that lets rules put further ahead.
pub fn runs_of_rulesets()
    ensures { (basin : Draft) (most : ℕ) (rules : List Declared) (types : List Types)
        (inputs : List (Cell × ℤ)) (log : Log) → basin.control.ahead ≤ most
        → rules_judged basin rules ≡ Ok types
        → rule_count rules ≤ RULES_MAX → function_count rules ≤ RULES_MAX
        → IsRun basin (policy_of_rules basin rules) inputs log
        → IsRun (ahead_to most basin) (policy_of_rules (ahead_to most basin) rules) inputs log }
{
    accepted();
    rulesets_stay_accepted();
    compiled_code_is_accepted();
    rulesets_have_runs();
    runs_of_code();
}

/// What a trace tells of each put that accepted code asks for is the same in a basin that lets rules put further ahead, line for
/// line and byte for byte, and so is the section with it.
#[tactic(auto, using(crate::proofs::FarAsks::asks_of_code, crate::proofs::FarAsks::sections_of_code))]
pub fn asks_of_code()
    ensures lines { (basin : Draft) (most : ℕ) (code : List Block) (policy : Accepted) (log : Log)
        → basin.control.ahead ≤ most → verified basin code ≡ Ok policy
        → asked_trace (ahead_to most basin) (policy_of_code (ahead_to most basin) code) log
        ≡ asked_trace basin (policy_of_code basin code) log }
    ensures text { (basin : Draft) (most number : ℕ) (code : List Block) (policy : Accepted)
        (extras : Extras) (reran : Option (List StepNo)) (log : Log)
        → basin.control.ahead ≤ most → verified basin code ≡ Ok policy
        → asked_section_text (ahead_to most basin) (policy_of_code (ahead_to most basin) code) extras
        number reran log
        ≡ asked_section_text basin (policy_of_code basin code) extras number reran log }
{}

/// A model that is accepted is accepted when it is migrated; each policy and all inputs that are accepted for it are accepted then,
/// and read as they were; and the run is the same, event for event, with the same texts.
pub fn migrated_models_run_alike()
    ensures { (old new policy_text inputs_text : List ℕ) (as_code : Bool) (basin : Draft)
        (policy : PolicyFile) (inputs : Inputs) → IsMigrated old new → model_of old ≡ Ok basin
        → IsPolicyFileOf as_code basin policy_text policy → Reads basin inputs_text inputs
        → GoesAlike new policy_text inputs_text as_code basin policy inputs }
{
    files_are_basins();
    migrated_models_are_read();
    rulesets_stay_accepted();
    runs_of_rulesets();
    accepted_further();
    runs_of_code();
    inputs_read_alike();
    sections_are_alike();
}

/// The program writes the same section of the migrated model, of the same policy and inputs, whatever is asked for in it but what
/// became of each put.
pub fn migrated_models_write_alike()
    ensures { (model policy_text inputs_text : List ℕ) (as_code : Bool) (basin : Draft)
        (policy : PolicyFile) (inputs : Inputs) (extras : Extras) (reran : Option (List StepNo))
        (number : ℕ) (end : RunEnd) (text : List ℕ)
        → GoesAlike model policy_text inputs_text as_code basin policy inputs
        → tells_asks extras ≡ false
        → IsRunText basin (policy_in_run basin policy) extras reran number inputs end text
        → (other : Draft) × (model_of model ≡ Ok other)
        × IsPolicyFileOf as_code other policy_text policy × Reads other inputs_text inputs
        × IsRunText other (policy_in_run other policy) extras reran number inputs end text }
{}

/// So it tells of the migrated model why a cell holds what it holds, and the same books. Each run from whatever inputs is a run of it,
/// and so the sections of many runs and their summary are the same.
pub fn migrated_models_tell_alike()
    ensures why { (model policy_text inputs_text : List ℕ) (as_code : Bool) (basin : Draft)
        (policy : PolicyFile) (inputs : Inputs) (cell : Cell) (end : RunEnd) (text : List ℕ)
        → GoesAlike model policy_text inputs_text as_code basin policy inputs
        → IsWhyText basin (policy_in_run basin policy) inputs cell end text
        → (other : Draft) × (model_of model ≡ Ok other)
        × IsWhyText other (policy_in_run other policy) inputs cell end text }
    ensures balance { (model policy_text inputs_text : List ℕ) (as_code : Bool) (basin : Draft)
        (policy : PolicyFile) (inputs : Inputs) (end : RunEnd) (text : List ℕ)
        → GoesAlike model policy_text inputs_text as_code basin policy inputs
        → IsBalanceText basin (policy_in_run basin policy) inputs end text
        → (other : Draft) × (model_of model ≡ Ok other)
        × IsBalanceText other (policy_in_run other policy) inputs end text }
    ensures many { (model policy_text inputs_text : List ℕ) (as_code : Bool) (basin : Draft)
        (policy : PolicyFile) (inputs edited : Inputs) (log : Log) (logs : List Log)
        → GoesAlike model policy_text inputs_text as_code basin policy inputs
        → IsRun basin (policy_in_run basin policy) (placings basin edited) log
        → (other : Draft) × (model_of model ≡ Ok other)
        × IsRun other (policy_in_run other policy) (placings other edited) log
        × (many_texts other logs ≡ many_texts basin logs) }
{}
