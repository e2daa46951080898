//! Proves what becomes of a model's file that is made one of format 2.
ghost use Rattle.std.specs.Prelude.{◌≡◌, ◌≢◌, ℕ, Bool, pos, List, Ok, Option, Some, codes};
ghost use Rattle.toml.specs.Data.{Data, Members, get_member, integer};
ghost use Rattle.rw_base.specs.declared.number.StepNo.{StepNo};
ghost use Rattle.rw_model.specs.Draft.{Draft};
ghost use Rattle.rw_run.specs.Log.{Log};
ghost use Rattle.rw_inputs.specs.Inputs.{Inputs};
ghost use Rattle.rw_inputs.specs.Reading.{Reads};
ghost use Rattle.rw_report.specs.Outcome.{outcome_by};
ghost use Rattle.rw_report.specs.Whole.{whole_of};
ghost use Rattle.rw_model_toml.specs.Migrated.{IsMigrated, with_format_2};
ghost use Rattle.rw_model_toml.specs.Model.{model_of};
ghost use Rattle.rw_ahead.specs.Ahead.{ahead_to};

/// A model that is accepted is accepted when it is migrated. Its basin is the one that it was, where rules may put 30 timesteps
/// ahead.
#[tactic(auto, using(crate::proofs::NewFormat::basin_far))]
pub fn migrated_models_are_read()
    ensures { (old new : List ℕ) (basin : Draft) → IsMigrated old new
        → model_of old ≡ Ok basin → model_of new ≡ Ok (ahead_to 30 basin) }
{}

/// The format becomes 2 where there is one, and no other key has another value. A table of format 2 stays as it is.
#[tactic(auto, using(crate::proofs::NewFormat::format_is_2, crate::proofs::NewFormat::others_stay, crate::proofs::NewFormat::format_2_stays))]
pub fn one_key_changes()
    ensures format { (table : Members) (value : Data)
        → get_member (codes "format") table ≡ Some value
        → get_member (codes "format") (with_format_2 table) ≡ Some (integer (pos 2)) }
    ensures others { (table : Members) (key : List ℕ) → key ≢ codes "format"
        → get_member key (with_format_2 table) ≡ get_member key table }
    ensures stays { (table : Members)
        → get_member (codes "format") table ≡ Some (integer (pos 2)) → with_format_2 table ≡ table }
{}

/// A text that reads as inputs of a basin reads as the same inputs where rules may put further ahead.
pub fn inputs_read_alike()
    ensures { (basin : Draft) (most : ℕ) (text : List ℕ) (inputs : Inputs) → Reads basin text inputs
        → Reads (ahead_to most basin) text inputs }
{}

/// The section of a run does not go by how far ahead rules may put.
#[tactic(auto, using(crate::proofs::FarTables::text_same))]
pub fn sections_are_alike()
    ensures { (basin : Draft) (most number : ℕ) (log : Log) (reran : Option (List StepNo))
        (flags trace : Bool)
        → whole_of (ahead_to most basin) number (outcome_by (ahead_to most basin) log) reran flags
        trace
        ≡ whole_of basin number (outcome_by basin log) reran flags trace }
{}
