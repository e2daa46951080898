//! Finds the kinds of expressions whose code is not written yet.
ghost use Rattle.std.specs.Prelude.{◌≡◌, ◌∷◌, IfOk, OnOk};
ghost use Rattle.rpl_tree.specs.Seen.{tree_of, trees_in};
ghost use Rattle.rpl_tree.specs.Tree.{list};
ghost use Rattle.rpl_compile.specs.Seen.{callees_of, kind_seen, scope_seen};
ghost use Rattle.rpl_compile.specs.Site.{names_in};
ghost use Rattle.rpl_compile.specs.Written as Written;

use crate::kind::{join, kind_of_two, list_kind, numbers_like, one_kind, short};
use crate::known::{Known, function_named};
use crate::writing::{Local, local_named};
use rpl_code::ValueKind;
use rpl_scope::Scope;
use rpl_tree::Expr;
use rw_base::NoMemory;

/// Returns the kind that an expression will have. The names stay as they are.
#[cycle(ahead)]
#[tactic(auto, using(rpl_tree::proofs::Viewed::tree_of_list, rpl_tree::proofs::Viewed::tree_of_call))]
pub(crate) fn ahead<'a>(
    known: &[Known],
    names: &mut Scope<'a, Local>,
    e: &'a Expr,
) -> Result<ValueKind, NoMemory>
    ensures found { IfOk result (λ kind. kind_seen kind ≡ Written.kind_ahead (callees_of known.now)
        (names_in (scope_seen names.old)) (tree_of e.now)) }
    ensures names { OnOk result (names.new ≡ names.old) }
{
    match e {
        Expr::Number { .. } => Ok(ValueKind::N),
        Expr::Truth(_) => Ok(ValueKind::B),
        Expr::Now => Ok(ValueKind::D),
        Expr::Slot(_) => Ok(ValueKind::S),
        Expr::Name(name) => Ok(local_named(names, name).kind),
        Expr::Call { name, .. } => Ok(result_named(known, name)),
        Expr::Brackets(inner) => ahead(known, names, inner),
        Expr::List(items) => list_ahead(known, names, items),
        Expr::If { yes, no, .. } => {
            let first = ahead(known, names, yes)?;
            let second = ahead(known, names, no)?;
            Ok(join(first, second))
        }
        Expr::Let { name, value, body } => {
            let kind = ahead(known, names, value)?;
            inside(known, names, name, kind, body)
        }
        Expr::For { first, .. } => ahead(known, names, first),
        Expr::Map { list, .. } => Ok(numbers_like(ahead(known, names, list)?)),
        Expr::One { word, .. } => Ok(one_kind(*word)),
        Expr::Two { word, parts } => {
            let first = ahead(known, names, &parts.first)?;
            let second = ahead(known, names, &parts.second)?;
            Ok(kind_of_two(*word, first, second))
        }
        Expr::Convert { .. } => Ok(ValueKind::N),
        Expr::At(_) => Ok(ValueKind::N),
    }
}

/// Returns the kind of the result of a function.
pub(crate) fn result_named(known: &[Known], name: &[u8]) -> ValueKind
    ensures { kind_seen result
        ≡ (Written.callee_named (callees_of known.now) name.now).head.result }
{
    match function_named(known, name) {
        Some(f) => f.result,
        None => ValueKind::N,
    }
}

// Where a name can be used.
#[cycle(ahead)]
fn inside<'a>(
    known: &[Known],
    names: &mut Scope<'a, Local>,
    name: &'a [u8],
    kind: ValueKind,
    body: &'a Expr,
) -> Result<ValueKind, NoMemory>
    ensures found { IfOk result (λ kind_found. kind_seen kind_found ≡ Written.kind_ahead
        (callees_of known.now)
        ((name.now, kind_seen kind) ∷ names_in (scope_seen names.old)) (tree_of body.now)) }
    ensures names { OnOk result (names.new ≡ names.old) }
{
    names.push(name, Local { kind, number: 0 })?;
    let found = ahead(known, names, body)?;
    names.pop();
    Ok(found)
}

/// Returns the kind of the first of these.
#[cycle(ahead)]
fn first_ahead<'a>(
    known: &[Known],
    names: &mut Scope<'a, Local>,
    items: &'a [Expr],
) -> Result<ValueKind, NoMemory>
    ensures found { IfOk result (λ kind. kind_seen kind ≡ Written.first_ahead (callees_of known.now)
        (names_in (scope_seen names.old)) (trees_in items.now)) }
    ensures names { OnOk result (names.new ≡ names.old) }
{
    match items {
        [] => Ok(ValueKind::N),
        [first, ..] => ahead(known, names, first),
    }
}

/// Returns the kind of a list of these.
#[cycle(ahead)]
#[tactic(auto, using(crate::proofs::Counted::count_is))]
pub(crate) fn list_ahead<'a>(
    known: &[Known],
    names: &mut Scope<'a, Local>,
    items: &'a [Expr],
) -> Result<ValueKind, NoMemory>
    ensures found { IfOk result (λ kind. kind_seen kind ≡ Written.kind_ahead (callees_of known.now)
        (names_in (scope_seen names.old)) (list (trees_in items.now))) }
    ensures names { OnOk result (names.new ≡ names.old) }
{
    let first = first_ahead(known, names, items)?;
    Ok(list_kind(short(items.len() as u64), first))
}
