//! Computes the budgets of declarations, in order.
ghost use Rattle.std.specs.Prelude.{◌≡◌, [], IfOk, OnOk, codes, map};
ghost use Rattle.rpl_tree.specs.Cost as Cost;
ghost use Rattle.rpl_tree.specs.Mean as Mean;
ghost use Rattle.rpl_tree.specs.Seen.{declared_of, parameter_of, rules_of};
ghost use Rattle.rpl_budget.specs.Budgets.{budgets_of};
ghost use Rattle.rpl_budget.specs.Pass as Pass;
ghost use Rattle.rpl_budget.specs.Seen.{budget_seen, tree_kind_seen, tree_kinds_seen, measured_seen, names_of, priced_seen};

use crate::TreeCost;
use crate::acts::acts;
use crate::functions::Functions;
use crate::kind::{TreeKind, kind_of_type};
use crate::known::{Known, weights};
use crate::load::{Load, fitted, plus};
use crate::pass::pass;
use crate::work::Work;
use rpl_scope::Scope;
use rpl_tree::{Declaration, Param, ParsedRules};
use rw_base::NoMemory;
use rw_base::limits::{INSTRUCTIONS_MAX, WORDS_MAX};
use std::alloc::Global;

fn rule_cost(all: Load) -> TreeCost
    ensures { budget_seen result ≡ Pass.budget_of_load all }
{
    TreeCost {
        instructions: all.count,
        reads: all.looks,
        puts: all.puts,
        words: plus(all.locals, all.height, WORDS_MAX),
    }
}

fn function_cost(room: u64, answers: TreeKind, body: Work) -> TreeCost
    ensures { budget_seen result
        ≡ Pass.function_budget room (tree_kind_seen answers) (measured_seen body) }
{
    let all = fitted(answers, body.kind, body.load);
    let own = plus(all.locals, all.height, WORDS_MAX);
    TreeCost {
        instructions: all.count,
        reads: all.looks,
        puts: all.puts,
        words: plus(room, own, WORDS_MAX),
    }
}

// What a call comes to.
fn call_cost(room: u64, inside: TreeCost) -> TreeCost
    ensures { budget_seen result ≡ Pass.call_budget room (budget_seen inside) }
{
    let start = plus(room, 1, INSTRUCTIONS_MAX);
    TreeCost {
        instructions: plus(start, inside.instructions, INSTRUCTIONS_MAX),
        ..inside
    }
}

// The kinds of parameters, in order.
fn param_kinds(alloc: Global, params: &[Param]) -> Result<Vec<TreeKind>, NoMemory>
    ensures { IfOk result (λ kinds. tree_kinds_seen kinds.items
        ≡ Mean.param_kinds (map parameter_of params.now)) }
{
    let mut kinds = Vec::new(alloc);
    for param in params {
        kinds.push(kind_of_type(&param.kind))?;
    }
    Ok(kinds)
}

// The parameters as names, the first of them innermost.
fn param_names<'a>(alloc: Global, params: &'a [Param]) -> Result<Scope<'a, TreeKind>, NoMemory>
    ensures { IfOk result (λ names. names_of names
        ≡ Cost.param_names (map parameter_of params.now)) }
{
    let mut names = Scope::new(alloc);
    let mut k = params.len();
    while k > 0 {
        k -= 1;
        let param = &params[k];
        names.push(&param.name, kind_of_type(&param.kind))?;
    }
    Ok(names)
}

/// Computes the budgets of a declaration. A function can be called by those that follow.
pub(crate) fn declared<'a>(
    alloc: Global,
    known: &mut Functions<'a>,
    declaration: &'a Declaration,
) -> Result<TreeCost, NoMemory>
    ensures cost { IfOk result (λ cost. budget_seen cost
        ≡ Pass.declared_budget known.old (declared_of declaration.now)) }
    ensures known { OnOk result (known.new
        ≡ Pass.and_priced known.old (declared_of declaration.now)) }
{
    match declaration {
        Declaration::Rule { body, .. } => {
            let mut names = Scope::new(alloc);
            Ok(rule_cost(acts(known, &mut names, body)?))
        }
        Declaration::Function {
            name,
            params,
            result,
            body,
        } => {
            let takes = param_kinds(alloc, params)?;
            let result = kind_of_type(result);
            let mut names = param_names(alloc, params)?;
            let room = weights(&takes);
            let cost = function_cost(room, result, pass(known, &mut names, body)?);
            let most = call_cost(room, cost);
            known.push(Known {
                name,
                takes,
                result,
                room,
                most,
            })?;
            Ok(cost)
        }
    }
}

// A function of numbers that there is in each ruleset.
fn of_numbers(name: &'static [u8], takes: Vec<TreeKind>) -> Known<'static>
    ensures { priced_seen result ≡ Pass.priced_of_numbers name.now (tree_kinds_seen takes.items) }
{
    let most = TreeCost {
        instructions: 1,
        reads: 0,
        puts: 0,
        words: 0,
    };
    let room = weights(&takes);
    Known {
        name,
        takes,
        result: TreeKind::Number,
        room,
        most,
    }
}

/// Returns the functions that there are in each ruleset, the last of them first.
pub(crate) fn predefined<'a>(alloc: Global) -> Result<Functions<'a>, NoMemory>
    ensures { IfOk result (λ known. known ≡ Pass.predefined_priced) }
{
    let one = TreeKind::Number;
    let mut known = Functions::new(alloc);
    known.push(of_numbers(b"MulDiv", vec![in alloc; one, one, one]?))?;
    known.push(of_numbers(b"Sign", vec![in alloc; one]?))?;
    known.push(of_numbers(b"RoundDown", vec![in alloc; one, one]?))?;
    known.push(of_numbers(b"Clamp", vec![in alloc; one, one, one]?))?;
    known.push(of_numbers(b"Abs", vec![in alloc; one]?))?;
    known.push(of_numbers(b"Max", vec![in alloc; one, one]?))?;
    known.push(of_numbers(b"Min", vec![in alloc; one, one]?))?;
    Ok(known)
}

/// Computes the budgets of each declaration of a ruleset, in order: `docs/LANGUAGE.md` says under "Limits, costs and budgets"
/// what is counted, and up to where. `NoMemory` says nothing of the ruleset.
pub fn budgets(alloc: Global, rules: &ParsedRules) -> Result<Vec<TreeCost>, NoMemory>
    ensures of_rules { IfOk result (λ costs. map budget_seen costs.items
        ≡ budgets_of (rules_of rules.now)) }
{
    let mut known = predefined(alloc)?;
    let mut costs = Vec::new(alloc);
    for declaration in &rules.declarations {
        let cost = declared(alloc, &mut known, declaration)?;
        costs.push(cost)?;
    }
    Ok(costs)
}
