//! Reads a text as a ruleset, declaration by declaration, or finds its first fault.
ghost use Rattle.std.specs.Prelude.{◌≡◌, ◌≤◌, ◌<◌, ◌+◌, ◌-◌, ◌^◌, ◌++◌, ◌∷◌, [], IfOk, IfErr, IfSome, OnOk, length, map};
ghost use Rattle.rw_base.specs.declared.limits.TheConstants.{TEXT_MAX};
ghost use Rattle.rpl_tree.specs.Seen.{declared_of, rules_of};
ghost use Rattle.rpl_parse.specs.Cut.{IsRefusedFirst, IsPlaceIn, Judges, scanned_at, scan_fault};
ghost use Rattle.rpl_parse.specs.Declarations.{is_full, one_more_if, IsReading, IsRuleset};
ghost use Rattle.rpl_parse.specs.Parsing.{AnswersReading, TellsDue, grammar_refusal_of};
ghost use Rattle.rpl_parse.specs.Tokens.{toks};

use crate::cut::{begins_function, begins_rule};
use crate::declaration::declaration;
use crate::fault::ParseFault;
use crate::made;
use crate::scan::{Place, ScanStop, bad_line, next_tokens};
use crate::stop::Stop;
use crate::token::TokenAt;
use rpl_tree::{Declaration, ParsedRules};
use rw_base::limits::RULES_MAX;
use std::alloc::Global;

/// Returns the rules that a text spells, or why it is no ruleset. All tokens are judged first, and then the declarations in
/// order, each for too many before its tokens. `NoMemory` says nothing of the text. `docs/LANGUAGE.md` has the language, and its
/// limits under "Limits, costs and budgets".
pub fn parse(alloc: Global, text: &[u8]) -> Result<ParsedRules, ParseFault>
    requires { length text.now ≤ TEXT_MAX }
    ensures reading { AnswersReading text.now result }
    ensures ruleset { IfOk result (λ rules. IsRuleset rules) }
{
    rules_in(alloc, text)
}

/// Returns what is due for a text.
fn rules_in(alloc: Global, text: &[u8]) -> Result<ParsedRules, ParseFault>
    requires { length text.now ≤ TEXT_MAX }
    ensures reading { TellsDue (IsReading text.now) rules_of result }
    ensures ruleset { IfOk result (λ rules. IsRuleset rules) }
{
    match declarations(alloc, text) {
        Ok(declarations) => Ok(ParsedRules { declarations }),
        Err(fault) => Err(fault),
    }
}

/// Returns the fault of a text whose tokens are judged up to a place, unless one from there on is bad, which comes first.
fn unless_bad(text: &[u8], from: Place, fault: ParseFault) -> ParseFault
    requires room { length text.now ≤ TEXT_MAX }
    requires inside { IsPlaceIn text.now from }
    ensures { IfSome (grammar_refusal_of result)
        (IsRefusedFirst (scanned_at text.now from) (grammar_refusal_of fault)) }
{
    match fault {
        ParseFault::NoMemory => ParseFault::NoMemory,
        _ => match bad_line(text, from) {
            Some(line) => ParseFault::BadToken(line),
            None => fault,
        },
    }
}

/// Returns the declaration of these tokens, which is the one of this number after so many rules and functions.
fn judged(
    alloc: Global,
    text: &[u8],
    tokens: &[TokenAt],
    number: u32,
    rules: u32,
    functions: u32,
) -> Result<Declaration, ParseFault>
    requires { 0 < length tokens.now }
    ensures { Judges text.now number rules functions tokens.now result }
{
    let [first, ..] = tokens else { unreachable!() };
    if is_full(text, tokens, rules, functions) {
        return Err(ParseFault::TooMany(number));
    }
    match declaration(alloc, text, tokens) {
        Ok(one) => Ok(one),
        Err(Stop::Bad) => Err(ParseFault::BadDeclaration {
            declaration: number,
            line: first.line,
        }),
        Err(Stop::NoMemory) => Err(ParseFault::NoMemory),
    }
}

/// Returns the fault for a scanner that stops.
fn fault_of(stop: ScanStop) -> ParseFault
    ensures { result ≡ scan_fault stop }
{
    match stop {
        ScanStop::BadToken(line) => ParseFault::BadToken(line),
        ScanStop::NoMemory => ParseFault::NoMemory,
    }
}

/// Returns the declarations of a text, or what is refused first. Of its tokens no more than a declaration's are there at a time.
fn declarations(alloc: Global, text: &[u8]) -> Result<Vec<Declaration>, ParseFault>
    requires { length text.now ≤ TEXT_MAX }
    ensures { TellsDue (IsReading text.now) (λ found. map declared_of found.items) result }
{
    let mut found = Vec::new(alloc);
    let mut tokens = Vec::new(alloc);
    let mut rules = 0;
    let mut functions = 0;
    let mut number = 1;
    let mut from = Place { at: 0, line: 1 };
    for _turn in 0..text.len() {
        tokens.clear();
        match next_tokens(text, from, &mut tokens) {
            Ok(behind) => from = behind,
            Err(stop) => return Err(fault_of(stop)),
        }
        if tokens.is_empty() {
            return Ok(found);
        }
        match judged(alloc, text, &tokens, number, rules, functions) {
            Ok(one) => pushed(&mut found, one)?,
            Err(fault) => return Err(unless_bad(text, from, fault)),
        }
        rules = one_more_if(begins_rule(text, &tokens), rules);
        functions = one_more_if(begins_function(text, &tokens), functions);
        number += 1;
    }
    Ok(found)
}

/// Returns whether this is the 201st rule or function.
fn is_full(text: &[u8], tokens: &[TokenAt], rules: u32, functions: u32) -> bool
    ensures { result ≡ is_full (toks text.now tokens.now) rules functions }
{
    if begins_rule(text, tokens) {
        rules == u32::from(RULES_MAX)
    } else if begins_function(text, tokens) {
        functions == u32::from(RULES_MAX)
    } else {
        false
    }
}

fn one_more_if(more: bool, n: u32) -> u32
    requires { n < 2 ^ 32 - 1 }
    ensures value { result ≡ one_more_if more n }
    ensures within { result ≤ n + 1 }
{
    if more { n + 1 } else { n }
}

fn pushed(found: &mut Vec<Declaration>, one: Declaration) -> Result<(), ParseFault>
    ensures ok { OnOk result (found.new.items ≡ found.old.items ++ one ∷ []) }
    ensures err { IfErr result (λ f. f ≡ ParseFault.NoMemory) }
{
    match made::pushed(found, one) {
        Ok(()) => Ok(()),
        Err(_) => Err(ParseFault::NoMemory),
    }
}
