//! Computes the kind and the load of an expression in one pass, from the leaves on.
ghost use Rattle.std.specs.Prelude.{◌≡◌, ◌∷◌, [], IfOk, OnOk, drop};
ghost use Rattle.rpl_tree.specs.Seen.{tree_of, trees_in};
ghost use Rattle.rpl_tree.specs.Tree.{at, bind, call, choice, convert, each, list, mapped, one, two};
ghost use Rattle.rpl_budget.specs.Pass as Pass;
ghost use Rattle.rpl_budget.specs.Seen.{tree_kind_seen, tree_kinds_seen, measured_seen, named_seen, names_of};

use crate::functions::Functions;
use crate::kind::{TreeKind, element_of, one_kind, room_of, two_kind, weight};
use crate::known::called;
use crate::load::{Load, above, both, fitted, locals_alone, looked, nothing, standing, steps};
use crate::named::{Named, kind_named};
use crate::work::{
    Work, bound, chosen, element, leaf, listed, made, mapped, one_load, turned, two_load,
};
use rpl_scope::Scope;
use rpl_tree::{ConvertWord, Expr, LoopText, OneWord, TwoWord};
use rw_base::NoMemory;

/// Computes the kind and the load of an expression, where these functions and names can be used. The names stay as they are.
#[cycle(pass)]
#[tactic(auto, using(rpl_tree::proofs::Viewed::tree_of_list))]
pub(crate) fn pass<'a>(
    known: &Functions<'a>,
    names: &mut Scope<'a, TreeKind>,
    e: &'a Expr,
) -> Result<Work, NoMemory>
    ensures found { IfOk result (λ work. measured_seen work
        ≡ Pass.pass known.now (names_of names.old) (tree_of e.now)) }
    ensures names { OnOk result (names.new ≡ names.old) }
{
    match e {
        Expr::Number { .. } => Ok(leaf(TreeKind::Number)),
        Expr::Truth(_) => Ok(leaf(TreeKind::Truth)),
        Expr::Now => Ok(leaf(TreeKind::Date)),
        Expr::Slot(_) => Ok(leaf(TreeKind::Slot)),
        Expr::Name(name) => Ok(made(kind_named(names, name))),
        Expr::Call { name, args } => call(known, names, name, args),
        Expr::Brackets(inner) => pass(known, names, inner),
        Expr::List(items) => list(known, names, items),
        Expr::If { condition, yes, no } => choice(known, names, condition, yes, no),
        Expr::Let { name, value, body } => bind(known, names, name, value, body),
        Expr::For {
            names: own,
            list,
            first,
            body,
        } => each(known, names, own, list, first, body),
        Expr::Map { name, list, body } => mapping(known, names, name, list, body),
        Expr::One { word, arg } => one(known, names, *word, arg),
        Expr::Two { word, parts } => two(known, names, *word, &parts.first, &parts.second),
        Expr::Convert { word, object, arg } => convert(known, names, *word, object, arg),
        Expr::At(parts) => look(known, names, &parts.first, &parts.second),
    }
}

// One of two values.
#[cycle(pass)]
fn choice<'a>(
    known: &Functions<'a>,
    names: &mut Scope<'a, TreeKind>,
    condition: &'a Expr,
    yes: &'a Expr,
    no: &'a Expr,
) -> Result<Work, NoMemory>
    ensures found { IfOk result (λ work. measured_seen work
        ≡ Pass.pass known.now (names_of names.old)
        (choice (tree_of condition.now) (tree_of yes.now) (tree_of no.now))) }
    ensures names { OnOk result (names.new ≡ names.old) }
{
    let test = pass(known, names, condition)?;
    let first = pass(known, names, yes)?;
    let second = pass(known, names, no)?;
    Ok(chosen(test, first, second))
}

// A value under a name, and what is done with it.
#[cycle(pass)]
fn bind<'a>(
    known: &Functions<'a>,
    names: &mut Scope<'a, TreeKind>,
    name: &'a [u8],
    value: &'a Expr,
    body: &'a Expr,
) -> Result<Work, NoMemory>
    ensures found { IfOk result (λ work. measured_seen work
        ≡ Pass.pass known.now (names_of names.old)
        (bind name.now (tree_of value.now) (tree_of body.now))) }
    ensures names { OnOk result (names.new ≡ names.old) }
{
    let value = pass(known, names, value)?;
    let body = inside(known, names, name, value.kind, body)?;
    Ok(Work {
        kind: body.kind,
        load: bound(value, body.load),
    })
}

// A loop over a list.
#[cycle(pass)]
fn each<'a>(
    known: &Functions<'a>,
    names: &mut Scope<'a, TreeKind>,
    own: &'a LoopText,
    list: &'a Expr,
    first: &'a Expr,
    body: &'a Expr,
) -> Result<Work, NoMemory>
    ensures found { IfOk result (λ work. measured_seen work
        ≡ Pass.pass known.now (names_of names.old)
        (each own.now.name.items (tree_of list.now) own.now.total.items (tree_of first.now)
        (tree_of body.now))) }
    ensures names { OnOk result (names.new ≡ names.old) }
{
    let all = pass(known, names, list)?;
    let first = pass(known, names, first)?;
    let item = Named {
        name: &own.name,
        kind: element_of(all.kind),
    };
    let body = inside_turn(known, names, item, &own.total, first.kind, body)?;
    Ok(Work {
        kind: first.kind,
        load: turned(all, first, body),
    })
}

// A list of what comes of each element of another.
#[cycle(pass)]
fn mapping<'a>(
    known: &Functions<'a>,
    names: &mut Scope<'a, TreeKind>,
    name: &'a [u8],
    list: &'a Expr,
    body: &'a Expr,
) -> Result<Work, NoMemory>
    ensures found { IfOk result (λ work. measured_seen work
        ≡ Pass.pass known.now (names_of names.old)
        (mapped name.now (tree_of list.now) (tree_of body.now))) }
    ensures names { OnOk result (names.new ≡ names.old) }
{
    let all = pass(known, names, list)?;
    let body = inside(known, names, name, element_of(all.kind), body)?;
    Ok(Work {
        kind: TreeKind::Numbers(room_of(all.kind)),
        load: mapped(all, body),
    })
}

// A word and one expression.
#[cycle(pass)]
fn one<'a>(
    known: &Functions<'a>,
    names: &mut Scope<'a, TreeKind>,
    word: OneWord,
    arg: &'a Expr,
) -> Result<Work, NoMemory>
    ensures found { IfOk result (λ work. measured_seen work
        ≡ Pass.pass known.now (names_of names.old)
        (one word (tree_of arg.now))) }
    ensures names { OnOk result (names.new ≡ names.old) }
{
    let part = pass(known, names, arg)?;
    Ok(Work {
        kind: one_kind(word),
        load: one_load(word, arg, part.load),
    })
}

// A word and two expressions.
#[cycle(pass)]
fn two<'a>(
    known: &Functions<'a>,
    names: &mut Scope<'a, TreeKind>,
    word: TwoWord,
    left: &'a Expr,
    right: &'a Expr,
) -> Result<Work, NoMemory>
    ensures found { IfOk result (λ work. measured_seen work
        ≡ Pass.pass known.now (names_of names.old)
        (two word (tree_of left.now) (tree_of right.now))) }
    ensures names { OnOk result (names.new ≡ names.old) }
{
    let left = pass(known, names, left)?;
    let right = pass(known, names, right)?;
    Ok(Work {
        kind: two_kind(word, left.kind, right.kind)?,
        load: two_load(word, left, right.load),
    })
}

// A word, an object and an expression.
#[cycle(pass)]
fn convert<'a>(
    known: &Functions<'a>,
    names: &mut Scope<'a, TreeKind>,
    _word: ConvertWord,
    _object: &[u8],
    arg: &'a Expr,
) -> Result<Work, NoMemory>
    ensures found { IfOk result (λ work. measured_seen work
        ≡ Pass.pass known.now (names_of names.old)
        (convert _word _object.now (tree_of arg.now))) }
    ensures names { OnOk result (names.new ≡ names.old) }
{
    let part = pass(known, names, arg)?;
    Ok(Work {
        kind: TreeKind::Number,
        load: both(part.load, steps(1)),
    })
}

// `slot[step]`.
#[cycle(pass)]
fn look<'a>(
    known: &Functions<'a>,
    names: &mut Scope<'a, TreeKind>,
    slot: &'a Expr,
    step: &'a Expr,
) -> Result<Work, NoMemory>
    ensures found { IfOk result (λ work. measured_seen work
        ≡ Pass.pass known.now (names_of names.old)
        (at (tree_of slot.now) (tree_of step.now))) }
    ensures names { OnOk result (names.new ≡ names.old) }
{
    let place = pass(known, names, slot)?;
    let date = pass(known, names, step)?;
    Ok(Work {
        kind: TreeKind::Number,
        load: looked(place.load, date.load),
    })
}

// What is done with a name.
#[cycle(pass)]
fn inside<'a>(
    known: &Functions<'a>,
    names: &mut Scope<'a, TreeKind>,
    name: &'a [u8],
    kind: TreeKind,
    body: &'a Expr,
) -> Result<Work, NoMemory>
    ensures found { IfOk result (λ work. measured_seen work
        ≡ Pass.pass known.now ((name.now, tree_kind_seen kind) ∷ names_of names.old)
        (tree_of body.now)) }
    ensures names { OnOk result (names.new ≡ names.old) }
{
    names.push(name, kind)?;
    let work = pass(known, names, body)?;
    names.pop();
    Ok(work)
}

// What is done in a turn, with an element and a total.
#[cycle(pass)]
fn inside_turn<'a>(
    known: &Functions<'a>,
    names: &mut Scope<'a, TreeKind>,
    item: Named<'a>,
    total: &'a [u8],
    kind: TreeKind,
    body: &'a Expr,
) -> Result<Work, NoMemory>
    ensures found { IfOk result (λ work. measured_seen work ≡ Pass.pass known.now
        ((total.now, tree_kind_seen kind) ∷ named_seen item.entry ∷ names_of names.old)
        (tree_of body.now)) }
    ensures names { OnOk result (names.new ≡ names.old) }
{
    names.push(item.name, item.kind)?;
    let work = inside(known, names, total, kind, body)?;
    names.pop();
    Ok(work)
}

// Each element, from the last on.
#[cycle(pass)]
fn elements<'a>(
    known: &Functions<'a>,
    names: &mut Scope<'a, TreeKind>,
    items: &'a [Expr],
) -> Result<Work, NoMemory>
    ensures found { IfOk result (λ work. measured_seen work
        ≡ Pass.pass_all known.now (names_of names.old) (trees_in items.now)) }
    ensures names { OnOk result (names.new ≡ names.old) }
{
    let mut others = Work {
        kind: TreeKind::Number,
        load: nothing(),
    };
    let mut k = items.len();
    while k > 0 {
        k -= 1;
        let value = pass(known, names, &items[k])?;
        others = element(value, others);
    }
    Ok(others)
}

#[cycle(pass)]
#[tactic(auto, using(crate::proofs::Viewed::count_is))]
fn list<'a>(
    known: &Functions<'a>,
    names: &mut Scope<'a, TreeKind>,
    items: &'a [Expr],
) -> Result<Work, NoMemory>
    ensures found { IfOk result (λ work. measured_seen work
        ≡ Pass.pass known.now (names_of names.old)
        (list (trees_in items.now))) }
    ensures names { OnOk result (names.new ≡ names.old) }
{
    let all = elements(known, names, items)?;
    Ok(listed(items.len() as u64, all))
}

// The parameters from a place on.
fn from_place(takes: &[TreeKind], k: usize) -> &[TreeKind]
    ensures { result.now ≡ drop k takes.entry.now }
{
    if k < takes.len() { &takes[k..] } else { &[] }
}

// An argument and those behind it, for parameters of these kinds.
fn argument(takes: &[TreeKind], value: Work, others: Load) -> Load
    ensures { result ≡ Pass.argument (tree_kinds_seen takes.now) (measured_seen value) others }
{
    let [kind, ..] = takes else {
        return both(locals_alone(value.load), others);
    };
    let own = fitted(*kind, value.kind, value.load);
    both(own, above(weight(*kind), others))
}

// Each argument, from the last on.
#[cycle(pass)]
fn arguments<'a>(
    known: &Functions<'a>,
    names: &mut Scope<'a, TreeKind>,
    takes: &[TreeKind],
    args: &'a [Expr],
) -> Result<Load, NoMemory>
    ensures found { IfOk result (λ load. load ≡ Pass.pass_arguments known.now
        (names_of names.old) (tree_kinds_seen takes.now) (trees_in args.now)) }
    ensures names { OnOk result (names.new ≡ names.old) }
{
    let mut others = nothing();
    let mut k = args.len();
    while k > 0 {
        k -= 1;
        let value = pass(known, names, &args[k])?;
        others = argument(from_place(takes, k), value, others);
    }
    Ok(others)
}

#[cycle(pass)]
fn call<'a>(
    known: &Functions<'a>,
    names: &mut Scope<'a, TreeKind>,
    name: &'a [u8],
    args: &'a [Expr],
) -> Result<Work, NoMemory>
    ensures found { IfOk result (λ work. measured_seen work
        ≡ Pass.pass known.now (names_of names.old)
        (call name.now (trees_in args.now))) }
    ensures names { OnOk result (names.new ≡ names.old) }
{
    match known.find(name) {
        None => {
            let load = arguments(known, names, &[], args)?;
            Ok(Work {
                kind: TreeKind::Number,
                load: both(load, standing(1)),
            })
        }
        Some(f) => {
            let load = arguments(known, names, &f.takes, args)?;
            Ok(Work {
                kind: f.result,
                load: both(load, called(f)),
            })
        }
    }
}
