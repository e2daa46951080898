//! Reads one declaration from all of its tokens.
ghost use Rattle.std.specs.Prelude.{◌≡◌, IfOk, IfErr, map};
ghost use Rattle.rpl_tree.specs.Tree.{rule};
ghost use Rattle.rpl_tree.specs.Seen.{declared_of, act_of, parameter_of};
ghost use Rattle.rpl_parse.specs.ReadingActs.{acts_of};
ghost use Rattle.rpl_parse.specs.ReadingDeclared.{read_declared, rule_behind, function_behind, body_behind};
ghost use Rattle.rpl_parse.specs.GivesDeclared.{GivesDeclared};
ghost use Rattle.rpl_parse.specs.Tokens.{toks, bytes_in};

use crate::look::{behind, behind_name, copied};
use crate::statement::{statements, value_to};
use crate::stop::Stop;
use crate::token::{Mark, Span, TokenAt};
use crate::types::{behind_text, parameters, read_type};
use rpl_tree::{Declaration, Param, Statement};
use rw_base::limits::DEPTH_MAX;
use std::alloc::Global;

/// Returns the declaration that all these tokens spell.
pub(crate) fn declaration(
    alloc: Global,
    text: &[u8],
    tokens: &[TokenAt],
) -> Result<Declaration, Stop>
    ensures { GivesDeclared result (read_declared (toks text.now tokens.now)) }
{
    if let Some(rest) = behind(text, Mark::Rule, tokens) {
        return rule(alloc, text, rest);
    }
    let Some(rest) = behind(text, Mark::Function, tokens) else {
        return Err(Stop::Bad);
    };
    function(alloc, text, rest)
}

/// Reads a rule, after its first word.
fn rule(alloc: Global, text: &[u8], tokens: &[TokenAt]) -> Result<Declaration, Stop>
    ensures { GivesDeclared result (rule_behind (toks text.now tokens.now)) }
{
    let (name, rest) = behind_text(alloc, text, tokens)?;
    let Some(rest) = behind(text, Mark::Colon, rest) else {
        return Err(Stop::Bad);
    };
    let (body, _deep, rest) = statements(alloc, text, rest, DEPTH_MAX)?;
    let Some([]) = behind(text, Mark::EndRule, rest) else {
        return Err(Stop::Bad);
    };
    Ok(rule_of(name, body))
}

#[tactic(auto, using(crate::proofs::Viewed::acts_listed))]
fn rule_of(name: Vec<u8>, body: Vec<Statement>) -> Declaration
    ensures { declared_of result ≡ rule name.items (acts_of (map act_of body.items)) }
{
    Declaration::Rule { name, body }
}

/// Reads a function, after its first word.
fn function(alloc: Global, text: &[u8], tokens: &[TokenAt]) -> Result<Declaration, Stop>
    ensures { GivesDeclared result (function_behind (toks text.now tokens.now)) }
{
    let Some((name, rest)) = behind_name(text, tokens) else {
        return Err(Stop::Bad);
    };
    let Some(rest) = behind(text, Mark::LeftParen, rest) else {
        return Err(Stop::Bad);
    };
    let (params, rest) = parameters(alloc, text, rest)?;
    function_body(alloc, text, name, params, rest)
}

/// Reads a function, after its parameters.
fn function_body(
    alloc: Global,
    text: &[u8],
    named: Span,
    params: Vec<Param>,
    tokens: &[TokenAt],
) -> Result<Declaration, Stop>
    ensures { GivesDeclared result (body_behind (bytes_in text.now named)
        (map parameter_of params.items) (toks text.now tokens.now)) }
{
    let Some(rest) = behind(text, Mark::Colon, tokens) else {
        return Err(Stop::Bad);
    };
    let (result, rest) = read_type(alloc, text, rest)?;
    let Some(rest) = behind(text, Mark::Is, rest) else {
        return Err(Stop::Bad);
    };
    let (body, _deep, rest) = value_to(alloc, text, Mark::EndFunction, rest, DEPTH_MAX)?;
    let [] = rest else {
        return Err(Stop::Bad);
    };
    let name = copied(alloc, text, named)?;
    Ok(Declaration::Function {
        name,
        params,
        result,
        body,
    })
}
