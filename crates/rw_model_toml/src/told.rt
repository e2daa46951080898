//! Turns the fault of a builder into that of the model's file.
ghost use Rattle.std.specs.Prelude.{Result};
ghost use Rattle.rw_base.specs.Answers.{IsWhy as IsWhyOf};
ghost use Rattle.rw_model.specs.declared.fault.BuildFault.TheVariants as BuildFault;
ghost use Rattle.rw_model.specs.Draft.{Draft};
ghost use Rattle.rw_model.specs.Refusal.{BuildRefusal, build_refusal_of};
ghost use Rattle.rw_model_toml.specs.Refusal.{refused_as, bad_build};
ghost use Rattle.rw_model_toml.specs.Fault.{IsModelWhy};

use crate::ModelFault;
use rw_model::BuildFault;
use std::alloc::Global;

/// Returns the fault of the model for a builder's fault at the path.
pub(crate) fn told(alloc: Global, path: &str, fault: BuildFault) -> ModelFault
    ensures { (given : Result Draft BuildRefusal)
        → IsWhyOf BuildFault.NoMemory build_refusal_of given fault
        → IsModelWhy (refused_as (bad_build path.now) given) result }
{
    if let BuildFault::NoMemory = fault {
        return ModelFault::NoMemory;
    }
    match String::from_str(alloc, path) {
        Ok(path) => ModelFault::Build(path, fault),
        Err(_) => ModelFault::NoMemory,
    }
}
