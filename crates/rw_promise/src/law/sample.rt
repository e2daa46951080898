//! Proves what the sample's texts are read as. Each law is the `ensures` of a function that does nothing.
ghost use Rattle.std.specs.Prelude.{◌≡◌, ℕ, is_ok, IsTrue, Ok, Some};
ghost use Rattle.rw_model.specs.Draft.{Draft};
ghost use Rattle.rw_model_toml.specs.Model.{model_of, toml_of};
ghost use Rattle.rpl_parse.specs.Declarations.{IsReading};
ghost use Rattle.rpl_types.specs.Checked.{checked};
ghost use Rattle.rw_inputs.specs.Inputs.{kept_slot};
ghost use Rattle.rw_inputs.specs.Reading.{inputs_of};
ghost use Rattle.rw_sample.specs.Texts.{sample_inputs, sample_model, sample_rules};
ghost use Rattle.rw_promise.specs.Cascade.{sample_basin};
ghost use Rattle.rw_promise.specs.Inflows.{TakesInflows, inflow_at};
ghost use Rattle.rw_promise.specs.ModelTable.{sample_table};
ghost use Rattle.rw_promise.specs.Ruleset.{sample_ruleset};

/// Whatever the seed, the sample's inputs are accepted with a basin that can take them. They give the first reservoir's inflow,
/// as the seed has it, at each of 365 timesteps, and nothing else.
#[tactic(auto, using(crate::proofs::Accepted::inputs_accepted))]
pub fn inputs_are_accepted()
    ensures { (basin : Draft) (slot seed : ℕ) → TakesInflows basin slot
        → inputs_of basin (sample_inputs seed) ≡ Ok (inflow_at (kept_slot basin slot) seed 365) }
{}

/// The sample's model is TOML, and this table: twenty reservoirs, nineteen reaches, and two links for each reach.
#[tactic(auto, using(crate::proofs::TableRead::toml_read))]
pub fn model_is_a_table()
    ensures { toml_of sample_model ≡ Some sample_table }
{}

/// The sample's model is accepted, and with its basin the sample's inputs, whatever the seed. Slot 1 is the first reservoir's
/// inflow.
#[tactic(auto, using(crate::proofs::Judged::model_accepted, crate::proofs::Judged::inputs_taken))]
pub fn sample_is_read()
    ensures model { model_of sample_model ≡ Ok sample_basin }
    ensures inputs { (seed : ℕ)
        → inputs_of sample_basin (sample_inputs seed) ≡ Ok (inflow_at 1 seed 365) }
{}

/// The sample's rules are read as a ruleset, a rule for each reservoir, and that is accepted with the sample's basin.
#[tactic(auto, using(crate::proofs::Ruled::rules_read, crate::proofs::Ruled::rules_accepted))]
pub fn rules_are_accepted()
    ensures read { IsReading sample_rules (Ok sample_ruleset) }
    ensures types { IsTrue (is_ok (checked sample_basin sample_ruleset)) }
{}
