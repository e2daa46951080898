//! Writes the code of a policy: the text of `compile`.
ghost use Rattle.std.specs.Prelude.{◌≡◌, IfOk, IsOk};
ghost use Rattle.rpl_code.specs.Spelling.{spelt};
ghost use Rattle.rpl_compile.specs.Translate.{translate};
ghost use Rattle.rpl_tree.specs.Seen.{rules_of};
ghost use Rattle.rpl_types.specs.Judged.{rules_judged};
ghost use Rattle.rw_commands.specs.Policy.{code_in_file};
ghost use Rattle.rw_commands.specs.Ready.{IsFit};
ghost use Rattle.rw_commands.specs.Seen.{policy_of};

use crate::policy::Policy;
use rpl_code::write_code;
use rpl_compile::code_text as ruleset_text;
use rpl_types::Typed;
use rw_base::NoMemory;
use rw_model::Basin;
use std::alloc::Global;

/// The text of the code of a policy that is accepted for the basin.
pub(crate) fn code_text(alloc: Global, policy: &Policy, basin: &Basin) -> Result<Vec<u8>, NoMemory>
    requires { IsFit basin.now policy.now }
    ensures { IfOk result (λ text. text.items ≡ spelt (code_in_file (policy_of policy.now))) }
{
    match policy {
        Policy::Ruleset(typed) => ruleset_text(alloc, typed, basin),
        Policy::Code(code) => write_code(alloc, code.code()),
    }
}
