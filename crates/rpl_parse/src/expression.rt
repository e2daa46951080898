//! Reads expressions from the front of some tokens. Each function returns the tree, its depth and the tokens after it.
ghost use Rattle.std.specs.Prelude.{◌≡◌, ◌≤◌, ◌<◌, ◌+◌, ◌-◌, ◌++◌, ◌∷◌, [], IfOk, IfErr, OnOk, length, map, option_map, option_and_then, max, Some};
ghost use Rattle.rw_base.specs.declared.limits.TheConstants.{DEPTH_MAX};
ghost use Rattle.rpl_tree.specs.Seen.{tree_of};
ghost use Rattle.rpl_parse.specs.Reading.{read_tree, level, prim, number_with_unit, opened, named, args, slots, braces, MayBegin, StartsAt, climbed, rise, in_brackets, choices, loops, maps, word_of_one, word_of_two, converts, steps, chain, behind, name_before, turns_of, up_to, binds, got, many, items, some_items};
ghost use Rattle.rpl_parse.specs.Gives.{GivesExpression, GivesMany};
ghost use Rattle.rpl_parse.specs.Tokens.{toks, bytes_in};

use crate::build::{
    LoopNames, at_step, binding, brackets, call_of, choice, conversion, for_each, in_unit, list_of,
    mapping, max_of, one, slot_of, two, variable,
};
use crate::look::{
    behind, behind_name, has_operator, mark_of_one, name_before, now_before, prefix, turn, turns,
};
use crate::made::pushed;
use crate::stop::Stop;
use crate::token::{Mark, Span, Token, TokenAt};
use rpl_tree::{ConvertWord, Expr, OneWord, TwoWord};
use std::alloc::Global;

/// Reads an expression of a level, of at most this depth.
#[cycle(parse)]
#[tactic(auto, unfolding(crate::specs::Reading::read_tree))]
pub(crate) fn expression<'a>(
    alloc: Global,
    text: &[u8],
    tokens: &'a [TokenAt],
    limit: u8,
    k: u8,
) -> Result<(Expr, u8, &'a [TokenAt]), Stop>
    requires { limit ≤ DEPTH_MAX }
    ensures { GivesExpression text.now limit result
        (read_tree limit k (toks text.now tokens.entry.now)) }
{
    if limit == 0 {
        return Err(Stop::Bad);
    }
    level(alloc, text, tokens, limit - 1, k)
}

/// Returns the level at which tokens begin, of those up to k: that of a word that comes first, or 0. So an expression in brackets
/// takes one frame of the stack for all levels.
fn start_of(text: &[u8], tokens: &[TokenAt], k: u8) -> u8
    ensures { StartsAt k (toks text.now tokens.entry.now) result }
{
    let Some(word) = prefix(k) else {
        return if k == 0 {
            0
        } else {
            start_of(text, tokens, k - 1)
        };
    };
    match behind(text, mark_of_one(word), tokens) {
        Some(_) => k,
        None => start_of(text, tokens, k - 1),
    }
}

#[cycle(parse)]
fn level<'a>(
    alloc: Global,
    text: &[u8],
    tokens: &'a [TokenAt],
    depth: u8,
    k: u8,
) -> Result<(Expr, u8, &'a [TokenAt]), Stop>
    requires { depth < DEPTH_MAX }
    ensures { GivesExpression text.now (depth + 1) result (level (read_tree depth) depth k
        (toks text.now tokens.entry.now)) }
{
    let start = start_of(text, tokens, k);
    let (first, deep, rest) = begun(alloc, text, tokens, depth, start)?;
    climb(alloc, text, first, deep, rest, depth, start, k)
}

/// Reads what is at the level at which tokens begin: what follows a word, or a primary and its dates.
#[cycle(parse)]
#[tactic(auto, unfolding(crate::specs::Reading::level))]
fn begun<'a>(
    alloc: Global,
    text: &[u8],
    tokens: &'a [TokenAt],
    depth: u8,
    k: u8,
) -> Result<(Expr, u8, &'a [TokenAt]), Stop>
    requires limit { depth < DEPTH_MAX }
    requires start { MayBegin k (toks text.now tokens.now) }
    ensures { GivesExpression text.now (depth + 1) result (level (read_tree depth) depth k
        (toks text.now tokens.entry.now)) }
{
    if k == 0 {
        let (first, deep, rest) = primary(alloc, text, tokens, depth)?;
        return steps(alloc, text, first, deep, rest, depth);
    }
    let Some(word) = prefix(k) else {
        unreachable!();
    };
    let Some(more) = behind(text, mark_of_one(word), tokens) else {
        unreachable!();
    };
    let (arg, deep, rest) = expression(alloc, text, more, depth, k)?;
    let whole = one(alloc, word, arg)?;
    Ok((whole, deep + 1, rest))
}

/// Reads the chains of the levels above one, up to k.
#[cycle(parse)]
#[tactic(auto, unfolding(crate::specs::Reading::climbed))]
fn climb<'a>(
    alloc: Global,
    text: &[u8],
    first: Expr,
    first_deep: u8,
    tokens: &'a [TokenAt],
    depth: u8,
    start: u8,
    k: u8,
) -> Result<(Expr, u8, &'a [TokenAt]), Stop>
    requires limit { depth < DEPTH_MAX }
    requires within { first_deep ≤ depth + 1 }
    requires level { start ≤ k }
    ensures { GivesExpression text.now (depth + 1) result
        (climbed (read_tree depth) depth start (k - start)
        (Some (got (tree_of first) first_deep (toks text.now tokens.entry.now)))) }
{
    if !has_operator(text, tokens) {
        return Ok((first, first_deep, tokens));
    }
    let mut left = first;
    let mut deep = first_deep;
    let mut rest = tokens;
    for below in start..k {
        let (whole, whole_deep, after) = rise(alloc, text, left, deep, rest, depth, below + 1)?;
        left = whole;
        deep = whole_deep;
        rest = after;
    }
    Ok((left, deep, rest))
}

/// Reads the other operands of a level, unless a word comes before its expressions.
#[cycle(parse)]
fn rise<'a>(
    alloc: Global,
    text: &[u8],
    first: Expr,
    first_deep: u8,
    tokens: &'a [TokenAt],
    depth: u8,
    k: u8,
) -> Result<(Expr, u8, &'a [TokenAt]), Stop>
    requires limit { depth < DEPTH_MAX }
    requires within { first_deep ≤ depth + 1 }
    requires level { 0 < k }
    ensures { GivesExpression text.now (depth + 1) result
        (rise (read_tree depth) depth k
        (got (tree_of first) first_deep (toks text.now tokens.entry.now))) }
{
    match prefix(k) {
        Some(_) => Ok((first, first_deep, tokens)),
        None => chain(alloc, text, first, first_deep, tokens, depth, k),
    }
}

#[cycle(parse)]
fn primary<'a>(
    alloc: Global,
    text: &[u8],
    tokens: &'a [TokenAt],
    depth: u8,
) -> Result<(Expr, u8, &'a [TokenAt]), Stop>
    requires { depth < DEPTH_MAX }
    ensures { GivesExpression text.now (depth + 1) result (prim (read_tree depth) depth
        (toks text.now tokens.entry.now)) }
{
    let [first, rest @ ..] = tokens else {
        return Err(Stop::Bad);
    };
    match first.token {
        Token::Number(value) => number(alloc, text, value, rest),
        Token::Name(name) => named(alloc, text, name, rest, depth),
        Token::Mark(mark) => opened(alloc, text, mark, rest, depth),
        Token::Text(_) => Err(Stop::Bad),
    }
}

/// Reads a number, and its unit if there is one.
fn number<'a>(
    alloc: Global,
    text: &[u8],
    value: i64,
    tokens: &'a [TokenAt],
) -> Result<(Expr, u8, &'a [TokenAt]), Stop>
    ensures { GivesExpression text.now 1 result
        (number_with_unit value (toks text.now tokens.entry.now)) }
{
    if let [first, rest @ ..] = tokens {
        if let Token::Text(unit) = first.token {
            let whole = in_unit(alloc, text, value, unit)?;
            return Ok((whole, 1, rest));
        }
    }
    Ok((Expr::Number { value, unit: None }, 1, tokens))
}

#[cycle(parse)]
#[inline(never)]
fn opened<'a>(
    alloc: Global,
    text: &[u8],
    mark: Mark,
    tokens: &'a [TokenAt],
    depth: u8,
) -> Result<(Expr, u8, &'a [TokenAt]), Stop>
    requires { depth < DEPTH_MAX }
    ensures { GivesExpression text.now (depth + 1) result (opened (read_tree depth) depth mark
        (toks text.now tokens.entry.now)) }
{
    match mark {
        Mark::True => Ok((Expr::Truth(true), 1, tokens)),
        Mark::False => Ok((Expr::Truth(false), 1, tokens)),
        Mark::Now => Ok((Expr::Now, 1, tokens)),
        Mark::LeftParen => in_brackets(alloc, text, tokens, depth),
        Mark::LeftBrace => braces(alloc, text, tokens, depth),
        Mark::If => choices(alloc, text, tokens, depth),
        Mark::Let => binds(alloc, text, tokens, depth),
        Mark::For => loops(alloc, text, tokens, depth),
        Mark::Map => maps(alloc, text, tokens, depth),
        Mark::Known => of_one(alloc, text, OneWord::Known, tokens, depth),
        Mark::Length => of_one(alloc, text, OneWord::Length, tokens, depth),
        Mark::Month => of_one(alloc, text, OneWord::Month, tokens, depth),
        Mark::Day => of_one(alloc, text, OneWord::Day, tokens, depth),
        Mark::Year => of_one(alloc, text, OneWord::Year, tokens, depth),
        Mark::Append => of_two(alloc, text, TwoWord::Append, tokens, depth),
        Mark::Item => of_two(alloc, text, TwoWord::Item, tokens, depth),
        Mark::StorageToElevation => {
            converts(alloc, text, ConvertWord::StorageToElevation, tokens, depth)
        }
        Mark::ElevationToStorage => {
            converts(alloc, text, ConvertWord::ElevationToStorage, tokens, depth)
        }
        _ => Err(Stop::Bad),
    }
}

#[cycle(parse)]
fn in_brackets<'a>(
    alloc: Global,
    text: &[u8],
    tokens: &'a [TokenAt],
    depth: u8,
) -> Result<(Expr, u8, &'a [TokenAt]), Stop>
    requires { depth < DEPTH_MAX }
    ensures { GivesExpression text.now (depth + 1) result (in_brackets (read_tree depth) depth
        (toks text.now tokens.entry.now)) }
{
    let (inside, deep, rest) = up_to(alloc, text, Mark::RightParen, tokens, depth)?;
    let whole = brackets(alloc, inside)?;
    Ok((whole, deep + 1, rest))
}

#[cycle(parse)]
fn choices<'a>(
    alloc: Global,
    text: &[u8],
    tokens: &'a [TokenAt],
    depth: u8,
) -> Result<(Expr, u8, &'a [TokenAt]), Stop>
    requires { depth < DEPTH_MAX }
    ensures { GivesExpression text.now (depth + 1) result (choices (read_tree depth) depth
        (toks text.now tokens.entry.now)) }
{
    let (condition, a, rest) = up_to(alloc, text, Mark::Then, tokens, depth)?;
    let (yes, b, rest) = up_to(alloc, text, Mark::Else, rest, depth)?;
    let (no, c, rest) = up_to(alloc, text, Mark::EndIf, rest, depth)?;
    let whole = choice(alloc, condition, yes, no)?;
    Ok((whole, max_of(max_of(a, b), c) + 1, rest))
}

#[cycle(parse)]
fn binds<'a>(
    alloc: Global,
    text: &[u8],
    tokens: &'a [TokenAt],
    depth: u8,
) -> Result<(Expr, u8, &'a [TokenAt]), Stop>
    requires { depth < DEPTH_MAX }
    ensures { GivesExpression text.now (depth + 1) result (binds (read_tree depth) depth
        (toks text.now tokens.entry.now)) }
{
    let Some((name, rest)) = name_before(text, Mark::Assign, tokens) else {
        return Err(Stop::Bad);
    };
    let (value, a, rest) = up_to(alloc, text, Mark::In, rest, depth)?;
    let (body, b, rest) = up_to(alloc, text, Mark::EndLet, rest, depth)?;
    let whole = binding(alloc, text, name, value, body)?;
    Ok((whole, max_of(a, b) + 1, rest))
}

#[cycle(parse)]
fn loops<'a>(
    alloc: Global,
    text: &[u8],
    tokens: &'a [TokenAt],
    depth: u8,
) -> Result<(Expr, u8, &'a [TokenAt]), Stop>
    requires { depth < DEPTH_MAX }
    ensures { GivesExpression text.now (depth + 1) result (loops (read_tree depth) depth
        (toks text.now tokens.entry.now)) }
{
    let Some((name, rest)) = name_before(text, Mark::In, tokens) else {
        return Err(Stop::Bad);
    };
    let (list, a, rest) = up_to(alloc, text, Mark::With, rest, depth)?;
    let Some((total, rest)) = name_before(text, Mark::Assign, rest) else {
        return Err(Stop::Bad);
    };
    let (first, b, rest) = up_to(alloc, text, Mark::Do, rest, depth)?;
    let (body, c, rest) = up_to(alloc, text, Mark::EndFor, rest, depth)?;
    let whole = for_each(alloc, text, LoopNames { name, total }, list, first, body)?;
    Ok((whole, max_of(max_of(a, b), c) + 1, rest))
}

#[cycle(parse)]
fn maps<'a>(
    alloc: Global,
    text: &[u8],
    tokens: &'a [TokenAt],
    depth: u8,
) -> Result<(Expr, u8, &'a [TokenAt]), Stop>
    requires { depth < DEPTH_MAX }
    ensures { GivesExpression text.now (depth + 1) result (maps (read_tree depth) depth
        (toks text.now tokens.entry.now)) }
{
    let Some((name, rest)) = name_before(text, Mark::In, tokens) else {
        return Err(Stop::Bad);
    };
    let (list, a, rest) = up_to(alloc, text, Mark::Do, rest, depth)?;
    let (body, b, rest) = up_to(alloc, text, Mark::EndMap, rest, depth)?;
    let whole = mapping(alloc, text, name, list, body)?;
    Ok((whole, max_of(a, b) + 1, rest))
}

/// Reads a word, and an expression in brackets.
#[cycle(parse)]
fn of_one<'a>(
    alloc: Global,
    text: &[u8],
    word: OneWord,
    tokens: &'a [TokenAt],
    depth: u8,
) -> Result<(Expr, u8, &'a [TokenAt]), Stop>
    requires { depth < DEPTH_MAX }
    ensures { GivesExpression text.now (depth + 1) result (word_of_one (read_tree depth) depth word
        (toks text.now tokens.entry.now)) }
{
    let Some(rest) = behind(text, Mark::LeftParen, tokens) else {
        return Err(Stop::Bad);
    };
    let (arg, deep, rest) = up_to(alloc, text, Mark::RightParen, rest, depth)?;
    let whole = one(alloc, word, arg)?;
    Ok((whole, deep + 1, rest))
}

/// Reads a word, and two expressions in brackets.
#[cycle(parse)]
fn of_two<'a>(
    alloc: Global,
    text: &[u8],
    word: TwoWord,
    tokens: &'a [TokenAt],
    depth: u8,
) -> Result<(Expr, u8, &'a [TokenAt]), Stop>
    requires { depth < DEPTH_MAX }
    ensures { GivesExpression text.now (depth + 1) result (word_of_two (read_tree depth) depth word
        (toks text.now tokens.entry.now)) }
{
    let Some(rest) = behind(text, Mark::LeftParen, tokens) else {
        return Err(Stop::Bad);
    };
    let (left, a, rest) = up_to(alloc, text, Mark::Comma, rest, depth)?;
    let (right, b, rest) = up_to(alloc, text, Mark::RightParen, rest, depth)?;
    let whole = two(alloc, word, left, right)?;
    Ok((whole, max_of(a, b) + 1, rest))
}

#[cycle(parse)]
fn converts<'a>(
    alloc: Global,
    text: &[u8],
    word: ConvertWord,
    tokens: &'a [TokenAt],
    depth: u8,
) -> Result<(Expr, u8, &'a [TokenAt]), Stop>
    requires { depth < DEPTH_MAX }
    ensures { GivesExpression text.now (depth + 1) result (converts (read_tree depth) depth word
        (toks text.now tokens.entry.now)) }
{
    let Some(rest) = behind(text, Mark::LeftParen, tokens) else {
        return Err(Stop::Bad);
    };
    let Some((object, rest)) = name_before(text, Mark::Comma, rest) else {
        return Err(Stop::Bad);
    };
    let (arg, deep, rest) = up_to(alloc, text, Mark::RightParen, rest, depth)?;
    let whole = conversion(alloc, text, word, object, arg)?;
    Ok((whole, deep + 1, rest))
}

/// Reads an expression, and a mark after it.
#[cycle(parse)]
fn up_to<'a>(
    alloc: Global,
    text: &[u8],
    mark: Mark,
    tokens: &'a [TokenAt],
    depth: u8,
) -> Result<(Expr, u8, &'a [TokenAt]), Stop>
    requires { depth < DEPTH_MAX }
    ensures { GivesExpression text.now depth result (up_to (read_tree depth) depth mark
        (toks text.now tokens.entry.now)) }
{
    let (e, deep, rest) = expression(alloc, text, tokens, depth, 7)?;
    let Some(rest) = behind(text, mark, rest) else {
        return Err(Stop::Bad);
    };
    Ok((e, deep, rest))
}

#[cycle(parse)]
fn named<'a>(
    alloc: Global,
    text: &[u8],
    name: Span,
    tokens: &'a [TokenAt],
    depth: u8,
) -> Result<(Expr, u8, &'a [TokenAt]), Stop>
    requires { depth < DEPTH_MAX }
    ensures { GivesExpression text.now (depth + 1) result
        (named (read_tree depth) depth (bytes_in text.now name)
        (toks text.now tokens.entry.now)) }
{
    if let Some(rest) = behind(text, Mark::LeftParen, tokens) {
        return arguments(alloc, text, name, rest, depth);
    }
    let Some(rest) = behind(text, Mark::Dot, tokens) else {
        let whole = variable(alloc, text, name)?;
        return Ok((whole, 1, tokens));
    };
    let Some((slot, rest)) = behind_name(text, rest) else {
        return Err(Stop::Bad);
    };
    let whole = slot_of(alloc, text, name, slot)?;
    Ok((whole, 1, rest))
}

#[cycle(parse)]
fn arguments<'a>(
    alloc: Global,
    text: &[u8],
    name: Span,
    tokens: &'a [TokenAt],
    depth: u8,
) -> Result<(Expr, u8, &'a [TokenAt]), Stop>
    requires { depth < DEPTH_MAX }
    ensures { GivesExpression text.now (depth + 1) result
        (args (read_tree depth) depth (bytes_in text.now name)
        (toks text.now tokens.entry.now)) }
{
    if let Some(rest) = behind(text, Mark::RightParen, tokens) {
        let whole = call_of(alloc, text, name, Vec::new(alloc))?;
        return Ok((whole, 1, rest));
    }
    let (args, most, rest) = items(alloc, text, tokens, depth)?;
    let Some(rest) = behind(text, Mark::RightParen, rest) else {
        return Err(Stop::Bad);
    };
    let whole = call_of(alloc, text, name, args)?;
    Ok((whole, most + 1, rest))
}

#[cycle(parse)]
fn braces<'a>(
    alloc: Global,
    text: &[u8],
    tokens: &'a [TokenAt],
    depth: u8,
) -> Result<(Expr, u8, &'a [TokenAt]), Stop>
    requires { depth < DEPTH_MAX }
    ensures { GivesExpression text.now (depth + 1) result (braces (read_tree depth) depth
        (toks text.now tokens.entry.now)) }
{
    let (items, most, rest) = items(alloc, text, tokens, depth)?;
    let Some(rest) = behind(text, Mark::RightBrace, rest) else {
        return Err(Stop::Bad);
    };
    Ok((list_of(items), most + 1, rest))
}

/// Reads expressions that are separated by commas.
#[cycle(parse)]
fn items<'a>(
    alloc: Global,
    text: &[u8],
    tokens: &'a [TokenAt],
    depth: u8,
) -> Result<(Vec<Expr>, u8, &'a [TokenAt]), Stop>
    requires { depth < DEPTH_MAX }
    ensures { GivesMany text.now depth result (some_items (read_tree depth) depth
        (toks text.now tokens.entry.now)) }
{
    let (first, deep, rest) = expression(alloc, text, tokens, depth, 7)?;
    let mut items = Vec::new(alloc);
    pushed(&mut items, first)?;
    more(alloc, text, items, deep, rest, depth)
}

#[cycle(parse)]
#[tactic(auto, unfolding(crate::specs::Reading::items))]
fn more<'a>(
    alloc: Global,
    text: &[u8],
    first: Vec<Expr>,
    deep: u8,
    tokens: &'a [TokenAt],
    depth: u8,
) -> Result<(Vec<Expr>, u8, &'a [TokenAt]), Stop>
    requires limit { depth < DEPTH_MAX }
    requires within { deep ≤ depth }
    ensures { GivesMany text.now depth result
        (items (read_tree depth) depth (length tokens.entry.now)
        (many (map tree_of first.items) deep (toks text.now tokens.entry.now))) }
{
    let mut items = first;
    let mut most = deep;
    let mut rest = tokens;
    for _turn in 0..tokens.len() {
        let Some(next) = behind(text, Mark::Comma, rest) else {
            return Ok((items, most, rest));
        };
        let (e, deep, after) = expression(alloc, text, next, depth, 7)?;
        pushed(&mut items, e)?;
        most = max_of(most, deep);
        rest = after;
    }
    Ok((items, most, rest))
}

/// Reads a date, and the bracket after it. That of most slots is t, which is recognized by two tokens.
#[cycle(parse)]
fn date<'a>(
    alloc: Global,
    text: &[u8],
    tokens: &'a [TokenAt],
    depth: u8,
) -> Result<(Expr, u8, &'a [TokenAt]), Stop>
    requires { depth < DEPTH_MAX }
    ensures { GivesExpression text.now depth result (up_to (read_tree depth) depth Mark.RightBracket
        (toks text.now tokens.entry.now)) }
{
    if depth > 0 {
        if let Some(rest) = now_before(text, Mark::RightBracket, tokens) {
            return Ok((Expr::Now, 1, rest));
        }
    }
    up_to(alloc, text, Mark::RightBracket, tokens, depth)
}

/// Reads the dates in brackets after a slot.
#[cycle(parse)]
#[tactic(auto, unfolding(crate::specs::Reading::steps))]
fn steps<'a>(
    alloc: Global,
    text: &[u8],
    first: Expr,
    first_deep: u8,
    tokens: &'a [TokenAt],
    depth: u8,
) -> Result<(Expr, u8, &'a [TokenAt]), Stop>
    requires limit { depth < DEPTH_MAX }
    requires within { first_deep ≤ depth + 1 }
    ensures { GivesExpression text.now (depth + 1) result (steps (read_tree depth) depth depth (got
        (tree_of first) first_deep (toks text.now tokens.entry.now))) }
{
    let mut slot = first;
    let mut deep = first_deep;
    let mut rest = tokens;
    for _turn in 0..depth {
        let Some(next) = behind(text, Mark::LeftBracket, rest) else {
            return Ok((slot, deep, rest));
        };
        if deep > depth {
            return Err(Stop::Bad);
        }
        let (step, step_deep, after) = date(alloc, text, next, depth)?;
        slot = at_step(alloc, slot, step)?;
        deep = max_of(deep, step_deep) + 1;
        rest = after;
    }
    Ok((slot, deep, rest))
}

/// Reads the other operands of a level.
#[cycle(parse)]
#[inline(always)]
#[tactic(auto, unfolding(crate::specs::Reading::chain))]
fn chain<'a>(
    alloc: Global,
    text: &[u8],
    first: Expr,
    first_deep: u8,
    tokens: &'a [TokenAt],
    depth: u8,
    k: u8,
) -> Result<(Expr, u8, &'a [TokenAt]), Stop>
    requires limit { depth < DEPTH_MAX }
    requires within { first_deep ≤ depth + 1 }
    requires level { 0 < k }
    ensures { GivesExpression text.now (depth + 1) result
        (chain (read_tree depth) depth k (turns_of k depth)
        (got (tree_of first) first_deep (toks text.now tokens.entry.now))) }
{
    let mut left = first;
    let mut deep = first_deep;
    let mut rest = tokens;
    for _turn in 0..turns(k, depth) {
        let Some((word, next)) = turn(text, k, rest) else {
            return Ok((left, deep, rest));
        };
        if deep > depth {
            return Err(Stop::Bad);
        }
        let (right, right_deep, after) = operand(alloc, text, next, depth, k)?;
        left = two(alloc, word, left, right)?;
        deep = max_of(deep, right_deep) + 1;
        rest = after;
    }
    Ok((left, deep, rest))
}

/// Reads what follows an operator of a level: an expression that is tighter, since chains associate to the left.
#[cycle(parse)]
fn operand<'a>(
    alloc: Global,
    text: &[u8],
    tokens: &'a [TokenAt],
    depth: u8,
    k: u8,
) -> Result<(Expr, u8, &'a [TokenAt]), Stop>
    requires limit { depth < DEPTH_MAX }
    requires level { 0 < k }
    ensures { GivesExpression text.now depth result
        (read_tree depth (k - 1) (toks text.now tokens.entry.now)) }
{
    expression(alloc, text, tokens, depth, k - 1)
}
