//! Judges the texts of files: a model, inputs, edits, traces, a policy.
ghost use Rattle.std.specs.Prelude.{◌≡◌, ◌≤◌, Ok, Err, MatchResult, IfOk, length, false, true};
ghost use Rattle.rw_base.specs.declared.limits.TheConstants.{TEXT_MAX};
ghost use Rattle.std.specs.Option.{ForSome};
ghost use Rattle.rw_base.specs.Answers.{IsWhy as IsWhyOf};
ghost use Rattle.rpl_code.specs.declared.fault.CodeFault.TheVariants as CodeFault;
ghost use Rattle.rpl_code.specs.Answers.{code_refusal_of as refusal_of_code};
ghost use Rattle.rpl_code.specs.Reading.{read};
ghost use Rattle.rpl_parse.specs.Declarations.{IsReading};
ghost use Rattle.rpl_parse.specs.Parsing.{AnswersReading};
ghost use Rattle.rpl_tree.specs.Bounds.{AreLimited};
ghost use Rattle.rpl_tree.specs.Seen.{rules_of};
ghost use Rattle.rpl_types.specs.Refused.{type_refusal_of};
ghost use Rattle.rpl_verify.specs.Verified.{misfit_refusal_of as refusal_of_verify};
ghost use Rattle.rw_inputs.specs.Reading.{Reads};
ghost use Rattle.rw_model.specs.Draft.{Draft};
ghost use Rattle.rw_model_toml.specs.Fault.{IsModelWhy};
ghost use Rattle.rw_model_toml.specs.Model.{model_of};
ghost use Rattle.rw_commands.specs.Policy.{RefusesBlock, RefusesNode, is_code};
ghost use Rattle.rw_commands.specs.Ready.{AreMadeOf, IsMadeOf};
ghost use Rattle.rw_commands.specs.declared.policy.Policy.TheVariants as Held;
ghost use Rattle.rw_commands.specs.declared.refusal.File.TheVariants as F;
ghost use Rattle.rw_commands.specs.Refusal.{IsEditRefusal, IsInputRefusal, IsModelRefusal, IsPolicyRefusal, IsScenarioRefusal};

use crate::Refusal;
use crate::policy::Policy;
use rpl_code::{Code, CodeFault, read_code};
use rpl_parse::law::bounds;
use rpl_parse::{ParseFault, parse};
use rpl_tree::ParsedRules;
use rpl_types::{TypeFault, Typed, check};
use rpl_verify::{Verified, VerifyFault, verify};
use rw_inputs::{Batch, InputFault, Inputs, read_edits, read_inputs, read_traces};
use rw_model::Basin;
use rw_model_toml::{ModelFault, read_model};
use std::alloc::Global;

fn refusal_of_model(_text: &[u8], fault: ModelFault) -> Refusal
    requires { IsModelWhy (model_of _text.now) fault }
    ensures { IsModelRefusal _text.now result }
{
    match fault {
        ModelFault::NoMemory => Refusal::NoMemory,
        _ => Refusal::Model(fault),
    }
}

/// The basin of a model's text.
pub(crate) fn judge_model(alloc: Global, text: &[u8]) -> Result<Basin, Refusal>
    ensures { MatchResult result (λ basin. model_of text.now ≡ Ok basin) (IsModelRefusal text.now) }
{
    match read_model(alloc, text) {
        Ok(basin) => Ok(basin),
        Err(fault) => Err(refusal_of_model(text, fault)),
    }
}

/// The inputs of a text, for the basin.
pub(crate) fn judge_inputs(alloc: Global, basin: &Basin, text: &[u8]) -> Result<Inputs, Refusal>
    ensures { MatchResult result (Reads basin.now text.now) (IsInputRefusal basin.now text.now) }
{
    match read_inputs(alloc, basin, text) {
        Ok(inputs) => Ok(inputs),
        Err(InputFault::NoMemory) => Err(Refusal::NoMemory),
        Err(InputFault::Refused { kind, row, column }) => Err(Refusal::Inputs(kind, row, column)),
    }
}

/// The batches of edits of a text, for the basin.
pub(crate) fn judge_edits(alloc: Global, basin: &Basin, text: &[u8]) -> Result<Vec<Batch>, Refusal>
    ensures { MatchResult result (λ batches. AreMadeOf F.Edits basin.now text.now batches.items)
        (IsEditRefusal basin.now text.now) }
{
    match read_edits(alloc, basin, text) {
        Ok(batches) => Ok(batches),
        Err(InputFault::NoMemory) => Err(Refusal::NoMemory),
        Err(InputFault::Refused { kind, row, column }) => Err(Refusal::Edits(kind, row, column)),
    }
}

/// The scenarios of a text of traces, for the basin.
pub(crate) fn judge_traces(alloc: Global, basin: &Basin, text: &[u8]) -> Result<Vec<Batch>, Refusal>
    ensures { MatchResult result (λ batches. AreMadeOf F.Traces basin.now text.now batches.items)
        (IsScenarioRefusal basin.now text.now) }
{
    match read_traces(alloc, basin, text) {
        Ok(batches) => Ok(batches),
        Err(InputFault::NoMemory) => Err(Refusal::NoMemory),
        Err(InputFault::Refused { kind, row, column }) => Err(Refusal::Traces(kind, row, column)),
    }
}

/// Whether the first line is `CODE 1`.
pub(crate) fn is_code(text: &[u8]) -> bool
    ensures { result ≡ is_code text.now }
{
    text == b"CODE 1".as_slice() || text.starts_with(b"CODE 1\n")
}

fn refusal_of_grammar(_text: &[u8], fault: ParseFault) -> Refusal
    requires { AnswersReading _text.now (Err fault) }
    ensures { (basin : Draft) → IsPolicyRefusal false basin _text.now result }
{
    match fault {
        ParseFault::NoMemory => Refusal::NoMemory,
        _ => Refusal::Grammar(fault),
    }
}

fn parse_rules(alloc: Global, text: &[u8]) -> Result<ParsedRules, Refusal>
    requires { length text.now ≤ TEXT_MAX }
    ensures read { MatchResult result (λ rules. IsReading text.now (Ok (rules_of rules)))
        (λ why. (basin : Draft) → IsPolicyRefusal false basin text.now why) }
    ensures limited { IfOk result (λ rules. AreLimited (rules_of rules)) }
{
    bounds();
    match parse(alloc, text) {
        Ok(rules) => Ok(rules),
        Err(fault) => Err(refusal_of_grammar(text, fault)),
    }
}

fn refusal_of_types(_basin: &Basin, _text: &[u8], fault: TypeFault) -> Refusal
    requires { ForSome (type_refusal_of fault) (RefusesNode _basin.now _text.now) }
    ensures { IsPolicyRefusal false _basin.now _text.now result }
{
    match fault {
        TypeFault::NoMemory => Refusal::NoMemory,
        TypeFault::Refused {
            kind,
            declaration,
            node,
        } => Refusal::Types(kind, declaration, node),
    }
}

// The ruleset of a text, for the basin.
fn judge_rules(alloc: Global, basin: &Basin, text: &[u8]) -> Result<Typed, Refusal>
    requires { length text.now ≤ TEXT_MAX }
    ensures { MatchResult result (λ typed. IsMadeOf false basin.now text.now (Held.Ruleset typed))
        (IsPolicyRefusal false basin.now text.now) }
{
    let rules = match parse_rules(alloc, text) {
        Ok(rules) => rules,
        Err(refusal) => return Err(refusal),
    };
    match check(alloc, rules, basin) {
        Ok(typed) => Ok(typed),
        Err(fault) => Err(refusal_of_types(basin, text, fault)),
    }
}

fn refusal_of_code(_text: &[u8], fault: CodeFault) -> Refusal
    requires { IsWhyOf CodeFault.NoMemory refusal_of_code (read _text.now) fault }
    ensures { (basin : Draft) → IsPolicyRefusal true basin _text.now result }
{
    match fault {
        CodeFault::NoMemory => Refusal::NoMemory,
        _ => Refusal::Code(fault),
    }
}

fn read_blocks(alloc: Global, text: &[u8]) -> Result<Code, Refusal>
    requires { length text.now ≤ TEXT_MAX }
    ensures { MatchResult result (λ code. read text.now ≡ Ok code)
        (λ why. (basin : Draft) → IsPolicyRefusal true basin text.now why) }
{
    match read_code(alloc, text) {
        Ok(code) => Ok(code),
        Err(fault) => Err(refusal_of_code(text, fault)),
    }
}

fn refusal_of_block(_basin: &Basin, _text: &[u8], fault: VerifyFault) -> Refusal
    requires { ForSome (refusal_of_verify fault) (RefusesBlock _basin.now _text.now) }
    ensures { IsPolicyRefusal true _basin.now _text.now result }
{
    match fault {
        VerifyFault::NoMemory => Refusal::NoMemory,
        VerifyFault::Refused { kind, block, place } => Refusal::Block(kind, block, place),
    }
}

fn judge_code(alloc: Global, basin: &Basin, text: &[u8]) -> Result<Verified, Refusal>
    requires { length text.now ≤ TEXT_MAX }
    ensures { MatchResult result (λ code. IsMadeOf true basin.now text.now (Held.Code code))
        (IsPolicyRefusal true basin.now text.now) }
{
    let code = match read_blocks(alloc, text) {
        Ok(code) => code,
        Err(refusal) => return Err(refusal),
    };
    match verify(alloc, code, basin) {
        Ok(code) => Ok(code),
        Err(fault) => Err(refusal_of_block(basin, text, fault)),
    }
}

/// The policy of a text, which is read as code or as a ruleset, for the basin.
pub(crate) fn judge_policy(
    alloc: Global,
    basin: &Basin,
    text: &[u8],
    as_code: bool,
) -> Result<Policy, Refusal>
    requires { length text.now ≤ TEXT_MAX }
    ensures { MatchResult result (IsMadeOf as_code basin.now text.now)
        (IsPolicyRefusal as_code basin.now text.now) }
{
    if as_code {
        match judge_code(alloc, basin, text) {
            Ok(code) => Ok(Policy::Code(code)),
            Err(refusal) => Err(refusal),
        }
    } else {
        match judge_rules(alloc, basin, text) {
            Ok(typed) => Ok(Policy::Ruleset(typed)),
            Err(refusal) => Err(refusal),
        }
    }
}
