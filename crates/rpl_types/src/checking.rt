//! Judges a ruleset with a basin.
ghost use Rattle.rw_base.specs.Answers.{Answers};
ghost use Rattle.rpl_tree.specs.Bounds.{AreLimited};
ghost use Rattle.rpl_tree.specs.Seen.{rules_of};
ghost use Rattle.rpl_types.specs.Checked.{checked, checked_of};
ghost use Rattle.rpl_types.specs.Refused.{type_refusal_of};
ghost use Rattle.rpl_types.specs.declared.fault.TypeFault.TheVariants as Fault;

use crate::declarations::types_of_all;
use crate::{TypeFault, Typed};
use rpl_tree::ParsedRules;
use rw_model::Basin;
use std::alloc::Global;

/// Judges a ruleset with a basin: names, types, units and costs, declaration by declaration. `docs/LANGUAGE.md` says under
/// "Refusals" what is wrong where, and in which order. `NoMemory` says nothing of the ruleset, which is dropped with either
/// fault.
pub fn check(alloc: Global, rules: ParsedRules, basin: &Basin) -> Result<Typed, TypeFault>
    requires limited { AreLimited (rules_of rules) }
    ensures answers { Answers Fault.NoMemory type_refusal_of checked_of result
        (checked basin.now (rules_of rules)) }
{
    let mut costs = Vec::new(alloc);
    match types_of_all(alloc, basin, &rules.declarations, &mut costs) {
        Ok(types) => Ok(Typed {
            rules,
            types,
            costs,
        }),
        Err(fault) => Err(fault),
    }
}
