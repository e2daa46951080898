//! Finds the types of an expression's nodes, on one way over its tree.
ghost use Rattle.std.specs.Prelude.{◌≡◌, ◌++◌, ◌∷◌, [], IfErr, OnOk};
ghost use Rattle.rw_base.specs.Answers.{Answers};
ghost use Rattle.rpl_tree.specs.Seen.{tree_of, trees_in};
ghost use Rattle.rpl_tree.specs.Tree.{at, bind, brackets, call, choice, convert, each, list, mapped, one, two};
ghost use Rattle.rpl_types.specs.Forms.{is_look, name_type};
ghost use Rattle.rpl_types.specs.Gives.{GivesVisit, Visits, VisitsAll};
ghost use Rattle.rpl_types.specs.Nodes.{at_node};
ghost use Rattle.rpl_types.specs.Stopped.{progress_of, stop_refusal};
ghost use Rattle.rpl_types.specs.Visited.{leaf, node_settled};
ghost use Rattle.rpl_types.specs.declared.stop.Stop.TheVariants as Stop;

use crate::TypeKind;
use crate::calls::{call_type, list_type};
use crate::forms::{
    choice_type, element_type, look_type, mapped_type, one_type, total_type, two_type,
};
use crate::known::Known;
use crate::names::{convert_type, literal_type, slot_type};
use crate::progress::{Progress, add_variable, drop_variable, fill, name_type, reserve};
use crate::stop::Stop;
use rpl_tree::{ConvertWord, Expr, LoopText, OneWord, RplType, TwoWord};

/// Returns the type, or what is wrong at the node.
fn at_node(node: usize, found: Result<RplType, TypeKind>) -> Result<RplType, Stop>
    ensures { Answers Stop.NoMemory stop_refusal (λ own. own) result (at_node node found) }
{
    match found {
        Ok(own) => Ok(own),
        Err(kind) => Err(Stop::Refused { kind, node }),
    }
}

/// Sets the type of a node, or reports what is wrong there.
#[inline(always)]
fn settle(
    progress: &mut Progress,
    node: usize,
    found: Result<RplType, TypeKind>,
) -> Result<RplType, Stop>
    ensures { GivesVisit progress.new result (node_settled node (progress_of progress.old) found) }
{
    let own = at_node(node, found)?;
    fill(progress, node, &own);
    Ok(own)
}

/// Returns the type of an expression without parts.
fn leaf(progress: &mut Progress, found: Result<RplType, TypeKind>) -> Result<RplType, Stop>
    ensures { GivesVisit progress.new result (leaf (progress_of progress.old) found) }
{
    let node = reserve(progress)?;
    settle(progress, node, found)
}

/// Returns the type of an expression, once those of all its nodes are set.
#[cycle(visit)]
#[tactic(auto, using(rpl_tree::proofs::Viewed::tree_of_list, rpl_tree::proofs::Viewed::tree_of_call))]
pub(crate) fn visit<'a>(
    known: &Known<'_, 'a>,
    progress: &mut Progress<'a>,
    e: &'a Expr,
) -> Result<RplType, Stop>
    ensures { Visits known.now progress.old progress.new result (tree_of e.now) }
{
    match e {
        Expr::Number { value, unit } => leaf(progress, literal_type(*value, unit)),
        Expr::Truth(_) => leaf(progress, Ok(RplType::Boolean)),
        Expr::Now => leaf(progress, Ok(RplType::Datetime)),
        Expr::Slot(text) => leaf(progress, slot_type(known.basin, &text.object, &text.slot)),
        Expr::Name(name) => variable(progress, name),
        Expr::Call { name, args } => call(known, progress, name, args),
        Expr::Brackets(inside) => brackets(known, progress, inside),
        Expr::List(items) => list(known, progress, items),
        Expr::If { condition, yes, no } => choice(known, progress, condition, yes, no),
        Expr::Let { name, value, body } => bind(known, progress, name, value, body),
        Expr::For {
            names,
            list,
            first,
            body,
        } => each(known, progress, names, list, first, body),
        Expr::Map { name, list, body } => mapped(known, progress, name, list, body),
        Expr::One { word, arg } => one(known, progress, *word, arg),
        Expr::Two { word, parts } => two(known, progress, *word, &parts.first, &parts.second),
        Expr::Convert { word, object, arg } => convert(known, progress, *word, object, arg),
        Expr::At(parts) => look(known, progress, &parts.first, &parts.second),
    }
}

/// Visits `name`.
fn variable<'a>(progress: &mut Progress<'a>, name: &'a [u8]) -> Result<RplType, Stop>
    ensures { GivesVisit progress.new result
        (leaf (progress_of progress.old) (name_type (progress_of progress.old).scope name.now)) }
{
    let found = name_type(progress, name);
    leaf(progress, found)
}

/// Visits `name(args)`.
#[cycle(visit)]
fn call<'a>(
    known: &Known<'_, 'a>,
    progress: &mut Progress<'a>,
    name: &'a [u8],
    args: &'a [Expr],
) -> Result<RplType, Stop>
    ensures { Visits known.now progress.old progress.new result
        (call name.now (trees_in args.now)) }
{
    let node = reserve(progress)?;
    let types = row(known, progress, args)?;
    let found = call_type(known.earlier, known.later, name, &types);
    settle(progress, node, found)
}

/// Visits `(x)`.
#[cycle(visit)]
fn brackets<'a>(
    known: &Known<'_, 'a>,
    progress: &mut Progress<'a>,
    inside: &'a Expr,
) -> Result<RplType, Stop>
    ensures { Visits known.now progress.old progress.new result (brackets (tree_of inside.now)) }
{
    let node = reserve(progress)?;
    let own = visit(known, progress, inside)?;
    settle(progress, node, Ok(own))
}

/// Visits `{x, y}`.
#[cycle(visit)]
fn list<'a>(
    known: &Known<'_, 'a>,
    progress: &mut Progress<'a>,
    items: &'a [Expr],
) -> Result<RplType, Stop>
    ensures { Visits known.now progress.old progress.new result (list (trees_in items.now)) }
{
    let node = reserve(progress)?;
    let types = row(known, progress, items)?;
    let found = list_type(&types);
    settle(progress, node, found)
}

/// Returns the types of expressions in a row.
#[cycle(visit)]
fn row<'a>(
    known: &Known<'_, 'a>,
    progress: &mut Progress<'a>,
    items: &'a [Expr],
) -> Result<Vec<RplType>, Stop>
    ensures { VisitsAll known.now progress.old progress.new result (trees_in items.now) }
{
    let mut found = Vec::new(known.alloc);
    for item in items {
        let own = visit(known, progress, item)?;
        pushed(&mut found, own)?;
    }
    Ok(found)
}

fn pushed(found: &mut Vec<RplType>, own: RplType) -> Result<(), Stop>
    ensures ok { OnOk result (found.new.items ≡ found.old.items ++ own ∷ []) }
    ensures err { IfErr result (λ stop. stop ≡ Stop.NoMemory) }
{
    match found.push(own) {
        Ok(()) => Ok(()),
        Err(_) => Err(Stop::NoMemory),
    }
}

/// Visits `IF condition THEN yes ELSE no ENDIF`.
#[cycle(visit)]
fn choice<'a>(
    known: &Known<'_, 'a>,
    progress: &mut Progress<'a>,
    condition: &'a Expr,
    yes: &'a Expr,
    no: &'a Expr,
) -> Result<RplType, Stop>
    ensures { Visits known.now progress.old progress.new result
        (choice (tree_of condition.now) (tree_of yes.now) (tree_of no.now)) }
{
    let node = reserve(progress)?;
    let first = visit(known, progress, condition)?;
    let second = visit(known, progress, yes)?;
    let third = visit(known, progress, no)?;
    let found = choice_type(&first, &second, &third);
    settle(progress, node, found)
}

/// Visits `LET name := value IN body ENDLET`.
#[cycle(visit)]
fn bind<'a>(
    known: &Known<'_, 'a>,
    progress: &mut Progress<'a>,
    name: &'a [u8],
    value: &'a Expr,
    body: &'a Expr,
) -> Result<RplType, Stop>
    ensures { Visits known.now progress.old progress.new result
        (bind name.now (tree_of value.now) (tree_of body.now)) }
{
    let node = reserve(progress)?;
    let held = visit(known, progress, value)?;
    add_variable(progress, name, &held)?;
    let own = visit(known, progress, body)?;
    drop_variable(progress);
    settle(progress, node, Ok(own))
}

/// Visits `FOR name IN list WITH total := first DO body ENDFOR`.
#[cycle(visit)]
fn each<'a>(
    known: &Known<'_, 'a>,
    progress: &mut Progress<'a>,
    names: &'a LoopText,
    list: &'a Expr,
    first: &'a Expr,
    body: &'a Expr,
) -> Result<RplType, Stop>
    ensures { Visits known.now progress.old progress.new result
        (each names.now.name.items (tree_of list.now) names.now.total.items (tree_of first.now)
        (tree_of body.now)) }
{
    let node = reserve(progress)?;
    let all = visit(known, progress, list)?;
    let sum = visit(known, progress, first)?;
    let item = at_node(node, element_type(&all))?;
    add_variable(progress, &names.name, &item)?;
    add_variable(progress, &names.total, &sum)?;
    let turn = visit(known, progress, body)?;
    drop_variable(progress);
    drop_variable(progress);
    let found = total_type(&sum, &turn);
    settle(progress, node, found)
}

/// Visits `MAP name IN list DO body ENDMAP`.
#[cycle(visit)]
fn mapped<'a>(
    known: &Known<'_, 'a>,
    progress: &mut Progress<'a>,
    name: &'a [u8],
    list: &'a Expr,
    body: &'a Expr,
) -> Result<RplType, Stop>
    ensures { Visits known.now progress.old progress.new result
        (mapped name.now (tree_of list.now) (tree_of body.now)) }
{
    let node = reserve(progress)?;
    let all = visit(known, progress, list)?;
    let item = at_node(node, element_type(&all))?;
    add_variable(progress, name, &item)?;
    let turn = visit(known, progress, body)?;
    drop_variable(progress);
    let found = mapped_type(&all, &turn);
    settle(progress, node, found)
}

/// Visits a word and one expression.
#[cycle(visit)]
fn one<'a>(
    known: &Known<'_, 'a>,
    progress: &mut Progress<'a>,
    word: OneWord,
    arg: &'a Expr,
) -> Result<RplType, Stop>
    ensures { Visits known.now progress.old progress.new result (one word (tree_of arg.now)) }
{
    let node = reserve(progress)?;
    let part = visit(known, progress, arg)?;
    let found = one_type(word, is_look(arg), &part);
    settle(progress, node, found)
}

/// Returns whether it is a look at a slot.
fn is_look(e: &Expr) -> bool
    ensures { result ≡ is_look (tree_of e.now) }
{
    match e {
        Expr::At(_) => true,
        _ => false,
    }
}

/// Visits a word and two expressions.
#[cycle(visit)]
fn two<'a>(
    known: &Known<'_, 'a>,
    progress: &mut Progress<'a>,
    word: TwoWord,
    left: &'a Expr,
    right: &'a Expr,
) -> Result<RplType, Stop>
    ensures { Visits known.now progress.old progress.new result
        (two word (tree_of left.now) (tree_of right.now)) }
{
    let node = reserve(progress)?;
    let first = visit(known, progress, left)?;
    let second = visit(known, progress, right)?;
    let found = two_type(word, &first, &second);
    settle(progress, node, found)
}

/// Visits a word, an object and an expression.
#[cycle(visit)]
fn convert<'a>(
    known: &Known<'_, 'a>,
    progress: &mut Progress<'a>,
    word: ConvertWord,
    object: &[u8],
    arg: &'a Expr,
) -> Result<RplType, Stop>
    ensures { Visits known.now progress.old progress.new result
        (convert word object.now (tree_of arg.now)) }
{
    let node = reserve(progress)?;
    let part = visit(known, progress, arg)?;
    let found = convert_type(known.basin, word, object, &part);
    settle(progress, node, found)
}

/// Visits `slot[step]`.
#[cycle(visit)]
fn look<'a>(
    known: &Known<'_, 'a>,
    progress: &mut Progress<'a>,
    slot: &'a Expr,
    step: &'a Expr,
) -> Result<RplType, Stop>
    ensures { Visits known.now progress.old progress.new result
        (at (tree_of slot.now) (tree_of step.now)) }
{
    let node = reserve(progress)?;
    let looked = visit(known, progress, slot)?;
    let date = visit(known, progress, step)?;
    let found = look_type(&looked, &date);
    settle(progress, node, found)
}
