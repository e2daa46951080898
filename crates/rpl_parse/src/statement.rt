//! Reads statements from the front of some tokens.
ghost use Rattle.std.specs.Prelude.{◌≡◌, ◌≤◌, ◌<◌, ◌+◌, ◌-◌, ◌++◌, ◌∷◌, [], IfOk, IfErr, OnOk, map, option_map, option_and_then};
ghost use Rattle.rw_base.specs.declared.limits.TheConstants.{DEPTH_MAX};
ghost use Rattle.rpl_tree.specs.Tree.{assign, branch, with_name};
ghost use Rattle.rpl_tree.specs.Seen.{tree_of, act_of};
ghost use Rattle.rpl_parse.specs.Reading.{read_tree, closed_by_mark};
ghost use Rattle.rpl_parse.specs.ReadingActs.{read_acts, act_at, acts_of, others, assigns, branches, withs, target_read, ahead_of, behind_number, dated, begins_act, ended};
ghost use Rattle.rpl_parse.specs.Gives.{GivesExpression};
ghost use Rattle.rpl_parse.specs.GivesActs.{GivesActs, GivesOne, GivesStep};
ghost use Rattle.rpl_parse.specs.Tokens.{toks, bytes_in};

use crate::build::{max_of, slot_text};
use crate::expression::expression;
use crate::look::{behind, behind_name, copied, name_before};
use crate::made::pushed;
use crate::stop::Stop;
use crate::token::{Mark, Span, Token, TokenAt};
use rpl_tree::{Expr, Statement};
use std::alloc::Global;

/// What an assignment sets, after the name of its object.
#[derive(Clone, Copy)]
struct Target {
    /// The slot.
    slot: Span,
    /// How many timesteps ahead.
    ahead: i64,
}

/// Reads statements of at most this depth.
#[cycle(acts)]
#[tactic(auto, unfolding(crate::specs::ReadingActs::more_acts))]
pub(crate) fn statements<'a>(
    alloc: Global,
    text: &[u8],
    tokens: &'a [TokenAt],
    limit: u8,
) -> Result<(Vec<Statement>, u8, &'a [TokenAt]), Stop>
    requires { limit ≤ DEPTH_MAX }
    ensures { GivesActs text.now limit result (read_acts limit (toks text.now tokens.entry.now)) }
{
    let mut acts = Vec::new(alloc);
    let mut most = 0;
    let mut rest = tokens;
    for _turn in 0..tokens.len() {
        let Some((act, deep, after)) = statement(alloc, text, rest, limit)? else {
            return Ok((acts, most, rest));
        };
        pushed(&mut acts, act)?;
        most = max_of(most, deep);
        rest = after;
    }
    Ok((acts, most, rest))
}

/// Reads the statement at the front, if one begins there.
#[cycle(acts)]
fn statement<'a>(
    alloc: Global,
    text: &[u8],
    tokens: &'a [TokenAt],
    limit: u8,
) -> Result<Option<(Statement, u8, &'a [TokenAt])>, Stop>
    requires { limit ≤ DEPTH_MAX }
    ensures { GivesOne text.now limit result (act_at limit (toks text.now tokens.entry.now)) }
{
    if limit == 0 {
        return if begins(text, tokens) {
            Err(Stop::Bad)
        } else {
            Ok(None)
        };
    }
    if let Some((object, rest)) = behind_name(text, tokens) {
        let found = assigns(alloc, text, object, rest, limit - 1)?;
        return Ok(Some(found));
    }
    if let Some(rest) = behind(text, Mark::If, tokens) {
        let found = branches(alloc, text, rest, limit - 1)?;
        return Ok(Some(found));
    }
    let Some(rest) = behind(text, Mark::With, tokens) else {
        return Ok(None);
    };
    let found = withs(alloc, text, rest, limit - 1)?;
    Ok(Some(found))
}

/// Returns whether a statement begins.
fn begins(_text: &[u8], tokens: &[TokenAt]) -> bool
    ensures { result ≡ begins_act (toks _text.now tokens.now) }
{
    match tokens {
        [first, ..] => match first.token {
            Token::Name(_) => true,
            Token::Mark(Mark::If) => true,
            Token::Mark(Mark::With) => true,
            _ => false,
        },
        [] => false,
    }
}

fn assigns<'a>(
    alloc: Global,
    text: &[u8],
    object: Span,
    tokens: &'a [TokenAt],
    depth: u8,
) -> Result<(Statement, u8, &'a [TokenAt]), Stop>
    requires { depth < DEPTH_MAX }
    ensures { GivesStep text.now (depth + 1) result (assigns (read_tree depth 7) (read_acts depth)
        (bytes_in text.now object) (toks text.now tokens.entry.now)) }
{
    let Some((found, rest)) = behind_target(text, tokens) else {
        return Err(Stop::Bad);
    };
    let (value, deep, rest) = value_to(alloc, text, Mark::Semicolon, rest, depth)?;
    let act = assignment(alloc, text, object, found, value)?;
    Ok((act, deep + 1, rest))
}

fn assignment(
    alloc: Global,
    text: &[u8],
    object: Span,
    found: Target,
    value: Expr,
) -> Result<Statement, Stop>
    ensures ok { IfOk result (λ s. act_of s ≡ assign (bytes_in text.now object)
        (bytes_in text.now found.slot) found.ahead (tree_of value)) }
    ensures err { IfErr result (λ f. f ≡ Stop.NoMemory) }
{
    let target = slot_text(alloc, text, object, found.slot)?;
    let ahead = found.ahead;
    Ok(Statement::Assign {
        target,
        ahead,
        value,
    })
}

/// Reads what is set, after the name of its object.
fn behind_target<'a>(text: &[u8], tokens: &'a [TokenAt]) -> Option<(Target, &'a [TokenAt])>
    ensures { option_map (λ r. record {
      slot = bytes_in text.now r.0.slot;
      ahead = r.0.ahead;
      next = toks text.now r.1.now;
    }) result ≡ target_read (toks text.now tokens.entry.now) }
{
    let rest = behind(text, Mark::Dot, tokens)?;
    let (slot, rest) = behind_name(text, rest)?;
    let rest = behind(text, Mark::LeftBracket, rest)?;
    let rest = behind(text, Mark::Now, rest)?;
    let (ahead, rest) = ahead(text, rest)?;
    let rest = behind(text, Mark::RightBracket, rest)?;
    let rest = behind(text, Mark::Assign, rest)?;
    Some((Target { slot, ahead }, rest))
}

fn ahead<'a>(text: &[u8], tokens: &'a [TokenAt]) -> Option<(i64, &'a [TokenAt])>
    ensures { option_map (λ r. record { value = r.0; next = toks text.now r.1.now }) result
        ≡ ahead_of (toks text.now tokens.entry.now) }
{
    match behind(text, Mark::Plus, tokens) {
        Some(rest) => behind_number(text, rest),
        None => Some((0, tokens)),
    }
}

/// Returns the number at the front, and the tokens after it.
pub(crate) fn behind_number<'a>(_text: &[u8], tokens: &'a [TokenAt]) -> Option<(i64, &'a [TokenAt])>
    ensures { option_map (λ r. record { value = r.0; next = toks _text.now r.1.now }) result
        ≡ behind_number (toks _text.now tokens.entry.now) }
{
    match tokens {
        [first, rest @ ..] => match first.token {
            Token::Number(value) => Some((value, rest)),
            _ => None,
        },
        [] => None,
    }
}

#[cycle(acts)]
fn branches<'a>(
    alloc: Global,
    text: &[u8],
    tokens: &'a [TokenAt],
    depth: u8,
) -> Result<(Statement, u8, &'a [TokenAt]), Stop>
    requires { depth < DEPTH_MAX }
    ensures { GivesStep text.now (depth + 1) result (branches (read_tree depth 7) (read_acts depth)
        (toks text.now tokens.entry.now)) }
{
    let (condition, a, rest) = value_to(alloc, text, Mark::Then, tokens, depth)?;
    let (yes, b, rest) = statements(alloc, text, rest, depth)?;
    let (no, c, rest) = otherwise(alloc, text, rest, depth)?;
    let Some(rest) = behind(text, Mark::EndIf, rest) else {
        return Err(Stop::Bad);
    };
    let act = branch_of(condition, yes, no);
    Ok((act, max_of(max_of(a, b), c) + 1, rest))
}

#[tactic(auto, using(crate::proofs::Viewed::act_of_branch))]
fn branch_of(condition: Expr, yes: Vec<Statement>, no: Vec<Statement>) -> Statement
    ensures { act_of result ≡ branch (tree_of condition) (acts_of (map act_of yes.items)) (acts_of
        (map act_of «no».items)) }
{
    Statement::If { condition, yes, no }
}

#[cycle(acts)]
fn otherwise<'a>(
    alloc: Global,
    text: &[u8],
    tokens: &'a [TokenAt],
    depth: u8,
) -> Result<(Vec<Statement>, u8, &'a [TokenAt]), Stop>
    requires { depth < DEPTH_MAX }
    ensures { GivesActs text.now depth result (others (read_tree depth 7) (read_acts depth)
        (toks text.now tokens.entry.now)) }
{
    match behind(text, Mark::Else, tokens) {
        Some(rest) => statements(alloc, text, rest, depth),
        None => Ok((Vec::new(alloc), 0, tokens)),
    }
}

#[cycle(acts)]
fn withs<'a>(
    alloc: Global,
    text: &[u8],
    tokens: &'a [TokenAt],
    depth: u8,
) -> Result<(Statement, u8, &'a [TokenAt]), Stop>
    requires { depth < DEPTH_MAX }
    ensures { GivesStep text.now (depth + 1) result (withs (read_tree depth 7) (read_acts depth)
        (toks text.now tokens.entry.now)) }
{
    let Some((name, rest)) = name_before(text, Mark::Assign, tokens) else {
        return Err(Stop::Bad);
    };
    let (value, a, rest) = value_to(alloc, text, Mark::Do, rest, depth)?;
    let (body, b, rest) = statements(alloc, text, rest, depth)?;
    let Some(rest) = behind(text, Mark::EndWith, rest) else {
        return Err(Stop::Bad);
    };
    let act = with_of(alloc, text, name, value, body)?;
    Ok((act, max_of(a, b) + 1, rest))
}

fn with_of(
    alloc: Global,
    text: &[u8],
    named: Span,
    value: Expr,
    body: Vec<Statement>,
) -> Result<Statement, Stop>
    ensures ok { IfOk result (λ s. act_of s ≡ with_name (bytes_in text.now named) (tree_of value)
        (acts_of (map act_of body.items))) }
    ensures err { IfErr result (λ f. f ≡ Stop.NoMemory) }
{
    let name = copied(alloc, text, named)?;
    Ok(Statement::With { name, value, body })
}

/// Reads an expression, and a mark after it.
pub(crate) fn value_to<'a>(
    alloc: Global,
    text: &[u8],
    mark: Mark,
    tokens: &'a [TokenAt],
    limit: u8,
) -> Result<(Expr, u8, &'a [TokenAt]), Stop>
    requires { limit ≤ DEPTH_MAX }
    ensures { GivesExpression text.now limit result
        (option_and_then (closed_by_mark mark) (read_tree limit 7
        (toks text.now tokens.entry.now))) }
{
    let (e, deep, rest) = expression(alloc, text, tokens, limit, 7)?;
    let Some(rest) = behind(text, mark, rest) else {
        return Err(Stop::Bad);
    };
    Ok((e, deep, rest))
}
