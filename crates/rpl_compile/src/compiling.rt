//! Compiles an accepted ruleset to code, to its text, or to verified code.
ghost use Rattle.std.specs.Prelude.{◌≡◌, Ok, IfOk, IsOk};
ghost use Rattle.rpl_code.specs.Spelling.{spelt};
ghost use Rattle.rpl_tree.specs.Seen.{rules_of};
ghost use Rattle.rpl_types.specs.Judged.{rules_judged};
ghost use Rattle.rpl_verify.specs.Verified.{verified};
ghost use Rattle.rpl_compile.specs.Translate.{translate};

use crate::ruleset::{blocks_of, into_blocks, text_of};
use rpl_code::Code;
use rpl_types::Typed;
use rpl_verify::{Verified, VerifyFault, verify};
use rw_base::NoMemory;
use rw_model::Basin;
use std::alloc::Global;

/// Returns the code of a ruleset that was accepted for the basin: a block for each declaration, in order, as `docs/LANGUAGE.md`
/// says under "What rules become". A caller that runs it takes it verified, from `compile`. The one error is want of memory.
pub fn code_of(alloc: Global, typed: &Typed, basin: &Basin) -> Result<Code, NoMemory>
    requires { IsOk (rules_judged basin.now (rules_of typed.now.rules)) }
    ensures { IfOk result (λ code. code ≡ translate (rules_of typed.now.rules)) }
{
    let rules = typed.rules();
    let _objects = basin.object_count();
    let blocks = blocks_of(alloc, rules, basin)?;
    Ok(Code::of(blocks))
}

/// Returns the text of that code, as `write_code` of `rpl_code` writes it. Of the code no more than a block is there at a time.
pub fn code_text(alloc: Global, typed: &Typed, basin: &Basin) -> Result<Vec<u8>, NoMemory>
    requires { IsOk (rules_judged basin.now (rules_of typed.now.rules)) }
    ensures { IfOk result (λ text. text.items ≡ spelt (translate (rules_of typed.now.rules))) }
{
    let rules = typed.rules();
    let _objects = basin.object_count();
    text_of(alloc, rules, basin)
}

/// Returns the same code, verified. That of an accepted ruleset is never refused: want of memory is the one error.
pub fn compile(alloc: Global, typed: &Typed, basin: &Basin) -> Result<Verified, NoMemory>
    requires { IsOk (rules_judged basin.now (rules_of typed.now.rules)) }
    ensures code { IfOk result (λ code. code.blocks ≡ translate (rules_of typed.now.rules)) }
    ensures verified { IfOk result (λ code.
        verified basin.now (translate (rules_of typed.now.rules)) ≡ Ok code) }
{
    let _rules = typed.rules();
    let code = code_of(alloc, typed, basin)?;
    match verify(alloc, code, basin) {
        Ok(code) => Ok(code),
        Err(VerifyFault::NoMemory) => Err(NoMemory),
        Err(VerifyFault::Refused { .. }) => unreachable!(),
    }
}

// The code of a ruleset that goes: no more than a declaration and its block are there at a time.
fn into_code(alloc: Global, typed: Typed, basin: &Basin) -> Result<Code, NoMemory>
    requires { IsOk (rules_judged basin.now (rules_of typed.rules)) }
    ensures { IfOk result (λ code. code ≡ translate (rules_of typed.rules)) }
{
    let rules = typed.into_rules();
    let _objects = basin.object_count();
    let blocks = into_blocks(alloc, rules, basin)?;
    Ok(Code::of(blocks))
}

/// Returns what `compile` returns, of a ruleset that is dropped: each declaration is freed as soon as its block is there, so that
/// the ruleset and its code take little more memory than one of the two.
pub fn compile_away(alloc: Global, typed: Typed, basin: &Basin) -> Result<Verified, NoMemory>
    requires { IsOk (rules_judged basin.now (rules_of typed.rules)) }
    ensures code { IfOk result (λ code. code.blocks ≡ translate (rules_of typed.rules)) }
    ensures verified { IfOk result (λ code.
        verified basin.now (translate (rules_of typed.rules)) ≡ Ok code) }
{
    let _rules = typed.rules();
    let code = into_code(alloc, typed, basin)?;
    match verify(alloc, code, basin) {
        Ok(code) => Ok(code),
        Err(VerifyFault::NoMemory) => Err(NoMemory),
        Err(VerifyFault::Refused { .. }) => unreachable!(),
    }
}
