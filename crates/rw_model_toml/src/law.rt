//! Proves what the definitions of this crate mean in plain words. Each law is the `ensures` of a function that does nothing.
ghost use Rattle.std.specs.Prelude.{ℕ, List, IfOk};
ghost use Rattle.rw_model.specs.Basin.{IsBasin};
ghost use Rattle.rw_model_toml.specs.Model.{model_of};

/// What is read of a file is a valid basin.
#[tactic(auto, using(crate::proofs::Basins::model_valid))]
pub fn files_are_basins()
    ensures { (bytes : List ℕ) → IfOk (model_of bytes) IsBasin }
{}
