//! Judges declarations one after the other.
ghost use Rattle.std.specs.Prelude.{◌≡◌, ◌+◌, ◌++◌, ◌∷◌, [], IfErr, IfOk, None, OnOk, Some, map};
ghost use Rattle.std.specs.Option.{ForSome};
ghost use Rattle.rw_base.specs.Answers.{Answers};
ghost use Rattle.rpl_budget.specs.Budgets.{budgets_of};
ghost use Rattle.rpl_budget.specs.Pass.{and_priced, declared_budget, predefined_priced};
ghost use Rattle.rpl_budget.specs.Seen.{budget_seen};
ghost use Rattle.rpl_tree.specs.Seen.{declared_of, parameter_of, type_of, tree_of};
ghost use Rattle.rpl_tree.specs.Tree.{function};
ghost use Rattle.rpl_types.specs.Gives.{callable_in};
ghost use Rattle.rpl_types.specs.Judged.{and_function, cost_refusal, declared_types, is_affordable, rules_judged, refused_as_whole, with_budget};
ghost use Rattle.rpl_types.specs.Declarations.{node_refusal};
ghost use Rattle.rpl_types.specs.Refused.{type_refusal_of};
ghost use Rattle.rpl_types.specs.Stopped.{stop_refusal};
ghost use Rattle.rpl_types.specs.declared.fault.TypeFault.TheVariants as TypeFault;
ghost use Rattle.rpl_types.specs.declared.stop.Stop.TheVariants as Stop;

use crate::bodies::{acts_types, body_types};
use crate::fits::misfit;
use crate::functions::Functions;
use crate::heads::{head_refusal, param_scope, signature, type_here};
use crate::known::Known;
use crate::stop::Stop;
use crate::{TypeFault, TypeKind};
use rpl_budget::{InTurn, TreeCost};
use rpl_tree::{Declaration, Expr, Param, RplType, TypeText};
use rw_base::NoMemory;
use rw_base::limits::{INSTRUCTIONS_MAX, LOOKS_MAX, PUTS_MAX, WORDS_MAX};
use rw_model::Basin;
use std::alloc::Global;

/// The types of the nodes of a declaration.
pub(crate) type NodeTypes = Vec<Option<RplType>>;

/// Returns the types, unless the declaration is refused as a whole.
fn unless_as_whole(refusal: Option<TypeKind>, types: NodeTypes) -> Result<NodeTypes, Stop>
    ensures { Answers Stop.NoMemory stop_refusal (λ types. types.items) result
        (refused_as_whole refusal types.items) }
{
    match refusal {
        None => Ok(types),
        Some(kind) => Err(Stop::Refused { kind, node: 0 }),
    }
}

fn function_types<'a>(
    known: &Known<'_, 'a>,
    name: &'a [u8],
    params: &'a [Param],
    answers: &'a TypeText,
    body: &'a Expr,
) -> Result<NodeTypes, Stop>
    ensures { Answers Stop.NoMemory stop_refusal (λ types. types.items) result
        (declared_types known.now.basin.now (callable_in known.now)
        (function name.now (map parameter_of params.now) (type_of answers.now)
        (tree_of body.now))) }
{
    if let Some(kind) = head_refusal(known.alloc, known.earlier, name, params, answers)? {
        return Err(Stop::Refused { kind, node: 0 });
    }
    let scope = param_scope(known.alloc, params)?;
    let (own, types) = body_types(known, scope, body)?;
    unless_as_whole(misfit(&own, &type_here(answers)), types)
}

/// Returns the types of the nodes of a declaration, its budgets apart.
fn declared_types<'a>(
    known: &Known<'_, 'a>,
    declaration: &'a Declaration,
) -> Result<NodeTypes, Stop>
    ensures { Answers Stop.NoMemory stop_refusal (λ types. types.items) result
        (declared_types known.now.basin.now (callable_in known.now) (declared_of declaration.now)) }
{
    match declaration {
        Declaration::Rule { body, .. } => acts_types(known, body),
        Declaration::Function {
            name,
            params,
            result,
            body,
        } => function_types(known, name, params, result, body),
    }
}

fn is_affordable(cost: &TreeCost) -> bool
    ensures { result ≡ is_affordable (budget_seen cost.now) }
{
    cost.instructions <= INSTRUCTIONS_MAX
        && cost.reads <= LOOKS_MAX
        && cost.puts <= PUTS_MAX
        && cost.words <= WORDS_MAX
}

fn cost_refusal(cost: &TreeCost) -> Option<TypeKind>
    ensures { result ≡ cost_refusal (budget_seen cost.now) }
{
    if is_affordable(cost) {
        None
    } else {
        Some(TypeKind::TooCostly)
    }
}

/// Returns the types of the nodes of a declaration, where each of its budgets is within its limit.
fn with_budget<'a>(
    known: &Known<'_, 'a>,
    declaration: &'a Declaration,
    cost: &TreeCost,
) -> Result<NodeTypes, Stop>
    ensures { Answers Stop.NoMemory stop_refusal (λ types. types.items) result
        (with_budget known.now.basin.now (callable_in known.now) (budget_seen cost.now)
        (declared_of declaration.now)) }
{
    let types = declared_types(known, declaration)?;
    unless_as_whole(cost_refusal(cost), types)
}

/// Adds what later declarations can call.
fn add_function<'a>(
    alloc: Global,
    earlier: &mut Functions<'a>,
    declaration: &'a Declaration,
) -> Result<(), Stop>
    ensures ok { OnOk result
        (earlier.new ≡ and_function (declared_of declaration.now) earlier.old) }
    ensures err { IfErr result (λ stop. stop ≡ Stop.NoMemory) }
{
    match declaration {
        Declaration::Rule { .. } => Ok(()),
        Declaration::Function {
            name,
            params,
            result,
            ..
        } => {
            let made = signature(alloc, name, params, result)?;
            match earlier.push(made) {
                Ok(()) => Ok(()),
                Err(NoMemory) => Err(Stop::NoMemory),
            }
        }
    }
}

/// Returns the fault for what is wrong in the declaration of a number.
fn fault_at(number: usize, stop: Stop) -> TypeFault
    ensures told { ForSome (type_refusal_of result) (λ why. (why.declaration ≡ number)
        × (stop_refusal stop ≡ Some (node_refusal why.kind why.node))) }
    ensures memory { type_refusal_of result ≡ None → result ≡ TypeFault.NoMemory }
{
    let Stop::Refused { kind, node } = stop else {
        return TypeFault::NoMemory;
    };
    match (u32::try_from(number), u32::try_from(node)) {
        (Ok(declaration), Ok(node)) => TypeFault::Refused {
            kind,
            declaration,
            node,
        },
        _ => TypeFault::NoMemory,
    }
}

/// Returns the types of the nodes of a declaration with the budgets that it has in its turn, which are noted.
fn priced_types<'a>(
    known: &Known<'_, 'a>,
    turn: &mut InTurn<'a>,
    costs: &mut Vec<TreeCost>,
    declaration: &'a Declaration,
) -> Result<NodeTypes, Stop>
    ensures types { Answers Stop.NoMemory stop_refusal (λ types. types.items) result
        (with_budget known.now.basin.now (callable_in known.now)
        (declared_budget turn.old (declared_of declaration.now)) (declared_of declaration.now)) }
    ensures costs { OnOk result (map budget_seen costs.new.items
        ≡ map budget_seen costs.old.items
        ++ declared_budget turn.old (declared_of declaration.now) ∷ []) }
    ensures turn { OnOk result (turn.new ≡ and_priced turn.old (declared_of declaration.now)) }
{
    let cost = match turn.next(known.alloc, declaration) {
        Ok(cost) => cost,
        Err(NoMemory) => return Err(Stop::NoMemory),
    };
    let types = with_budget(known, declaration, &cost)?;
    match costs.push(cost) {
        Ok(()) => Ok(types),
        Err(_) => Err(Stop::NoMemory),
    }
}

/// Returns where the budgets of declarations begin.
fn first_turn<'a>(alloc: Global) -> Result<InTurn<'a>, TypeFault>
    ensures ok { IfOk result (λ turn. turn ≡ predefined_priced) }
    ensures err { IfErr result (λ fault. fault ≡ TypeFault.NoMemory) }
{
    match InTurn::begin(alloc) {
        Ok(turn) => Ok(turn),
        Err(NoMemory) => Err(TypeFault::NoMemory),
    }
}

/// Returns the types of the nodes of all declarations, or the first refusal, and adds their budgets to a list that is empty
/// before.
pub(crate) fn types_of_all(
    alloc: Global,
    basin: &Basin,
    declarations: &[Declaration],
    costs: &mut Vec<TreeCost>,
) -> Result<Vec<NodeTypes>, TypeFault>
    requires none { costs.old.items ≡ [] }
    ensures types { Answers TypeFault.NoMemory type_refusal_of
        (λ all. map (λ types. types.items) all.items)
        result (rules_judged basin.now (map declared_of declarations.now)) }
    ensures costs { OnOk result (map budget_seen costs.new.items
        ≡ budgets_of (map declared_of declarations.now)) }
{
    let mut all = Vec::new(alloc);
    let mut earlier = Functions::new(alloc);
    let mut turn = first_turn(alloc)?;
    for place in 0..declarations.len() {
        let declaration = &declarations[place];
        let known = Known {
            alloc,
            basin,
            earlier: &earlier,
            later: &declarations[place..],
        };
        let types = match priced_types(&known, &mut turn, costs, declaration) {
            Ok(types) => types,
            Err(stop) => return Err(fault_at(place + 1, stop)),
        };
        match all.push(types) {
            Ok(()) => {}
            Err(_) => return Err(TypeFault::NoMemory),
        }
        match add_function(alloc, &mut earlier, declaration) {
            Ok(()) => {}
            Err(_) => return Err(TypeFault::NoMemory),
        }
    }
    Ok(all)
}
