//! Reads types and parameters from the front of some tokens.
ghost use Rattle.std.specs.Prelude.{◌≡◌, ◌++◌, ◌∷◌, [], IfErr, OnOk, map, length};
ghost use Rattle.rpl_tree.specs.Seen.{parameter_of};
ghost use Rattle.rpl_parse.specs.ReadingDeclared.{behind_text, read_type, type_by, list_type_read, read_parameter, parameters, some_parameters, more_parameters, params_read};
ghost use Rattle.rpl_parse.specs.GivesDeclared.{GivesUnit, GivesType, GivesParameter, GivesParameters};
ghost use Rattle.rpl_parse.specs.Tokens.{toks};

use crate::look::{behind, behind_name, copied};
use crate::made::pushed;
use crate::statement::behind_number;
use crate::stop::Stop;
use crate::token::{Mark, Token, TokenAt};
use rpl_tree::{Param, TypeText};
use std::alloc::Global;

/// Returns the string at the front, and the tokens after it.
pub(crate) fn behind_text<'a>(
    alloc: Global,
    text: &[u8],
    tokens: &'a [TokenAt],
) -> Result<(Vec<u8>, &'a [TokenAt]), Stop>
    ensures { GivesUnit text.now result (behind_text (toks text.now tokens.entry.now)) }
{
    let [first, rest @ ..] = tokens else {
        return Err(Stop::Bad);
    };
    let Token::Text(span) = first.token else {
        return Err(Stop::Bad);
    };
    let bytes = copied(alloc, text, span)?;
    Ok((bytes, rest))
}

/// Returns the type at the front, and the tokens after it.
pub(crate) fn read_type<'a>(
    alloc: Global,
    text: &[u8],
    tokens: &'a [TokenAt],
) -> Result<(TypeText, &'a [TokenAt]), Stop>
    ensures { GivesType text.now result (read_type (toks text.now tokens.entry.now)) }
{
    let [first, rest @ ..] = tokens else {
        return Err(Stop::Bad);
    };
    let Token::Mark(mark) = first.token else {
        return Err(Stop::Bad);
    };
    type_by(alloc, text, mark, rest)
}

fn type_by<'a>(
    alloc: Global,
    text: &[u8],
    mark: Mark,
    tokens: &'a [TokenAt],
) -> Result<(TypeText, &'a [TokenAt]), Stop>
    ensures { GivesType text.now result (type_by mark (toks text.now tokens.entry.now)) }
{
    match mark {
        Mark::Numeric => {
            let (unit, rest) = behind_text(alloc, text, tokens)?;
            Ok((TypeText::Numeric(unit), rest))
        }
        Mark::Boolean => Ok((TypeText::Boolean, tokens)),
        Mark::Datetime => Ok((TypeText::Datetime, tokens)),
        Mark::Slot => {
            let (unit, rest) = behind_text(alloc, text, tokens)?;
            Ok((TypeText::Slot(unit), rest))
        }
        Mark::List => list_type(alloc, text, tokens),
        _ => Err(Stop::Bad),
    }
}

fn list_type<'a>(
    alloc: Global,
    text: &[u8],
    tokens: &'a [TokenAt],
) -> Result<(TypeText, &'a [TokenAt]), Stop>
    ensures { GivesType text.now result (list_type_read (toks text.now tokens.entry.now)) }
{
    let Some((most, rest)) = behind_number(text, tokens) else {
        return Err(Stop::Bad);
    };
    let Some(rest) = behind(text, Mark::Of, rest) else {
        return Err(Stop::Bad);
    };
    if let Some(rest) = behind(text, Mark::Numeric, rest) {
        let (unit, rest) = behind_text(alloc, text, rest)?;
        return Ok((TypeText::NumericList(most, unit), rest));
    }
    let Some(rest) = behind(text, Mark::Slot, rest) else {
        return Err(Stop::Bad);
    };
    let (unit, rest) = behind_text(alloc, text, rest)?;
    Ok((TypeText::SlotList(most, unit), rest))
}

fn parameter<'a>(
    alloc: Global,
    text: &[u8],
    tokens: &'a [TokenAt],
) -> Result<(Param, &'a [TokenAt]), Stop>
    ensures { GivesParameter text.now result (read_parameter (toks text.now tokens.entry.now)) }
{
    let (kind, rest) = read_type(alloc, text, tokens)?;
    let Some((named, rest)) = behind_name(text, rest) else {
        return Err(Stop::Bad);
    };
    let name = copied(alloc, text, named)?;
    Ok((Param { name, kind }, rest))
}

/// Reads parameters, after the bracket that opens them and up to the one that closes them.
pub(crate) fn parameters<'a>(
    alloc: Global,
    text: &[u8],
    tokens: &'a [TokenAt],
) -> Result<(Vec<Param>, &'a [TokenAt]), Stop>
    ensures { GivesParameters text.now result (parameters (toks text.now tokens.entry.now)) }
{
    if let Some(rest) = behind(text, Mark::RightParen, tokens) {
        return Ok((Vec::new(alloc), rest));
    }
    let (params, rest) = some_parameters(alloc, text, tokens)?;
    let Some(rest) = behind(text, Mark::RightParen, rest) else {
        return Err(Stop::Bad);
    };
    Ok((params, rest))
}

fn some_parameters<'a>(
    alloc: Global,
    text: &[u8],
    tokens: &'a [TokenAt],
) -> Result<(Vec<Param>, &'a [TokenAt]), Stop>
    ensures { GivesParameters text.now result (some_parameters (toks text.now tokens.entry.now)) }
{
    let (first, rest) = parameter(alloc, text, tokens)?;
    let mut params = Vec::new(alloc);
    pushed(&mut params, first)?;
    more_parameters(alloc, text, params, rest)
}

#[tactic(auto, unfolding(crate::specs::ReadingDeclared::more_parameters))]
fn more_parameters<'a>(
    alloc: Global,
    text: &[u8],
    first: Vec<Param>,
    tokens: &'a [TokenAt],
) -> Result<(Vec<Param>, &'a [TokenAt]), Stop>
    ensures { GivesParameters text.now result
        (more_parameters (length tokens.entry.now) (params_read
        (map parameter_of first.items) (toks text.now tokens.entry.now))) }
{
    let mut params = first;
    let mut rest = tokens;
    for _turn in 0..tokens.len() {
        let Some(next) = behind(text, Mark::Comma, rest) else {
            return Ok((params, rest));
        };
        let (param, after) = parameter(alloc, text, next)?;
        pushed(&mut params, param)?;
        rest = after;
    }
    Ok((params, rest))
}
