//! Computes the kind and the load of an expression from those of its parts.
ghost use Rattle.std.specs.Prelude.{◌≡◌, ◌+◌};
ghost use Rattle.rpl_budget.specs.Pass as Pass;
ghost use Rattle.rpl_budget.specs.Seen.{tree_kind_seen, measured_seen};
ghost use Rattle.rpl_tree.specs.Seen.{tree_of};

use crate::kind::{TreeKind, element_of, join, list_kind, room_of, weight};
use crate::load::{
    Load, above, both, either, fetched, fitted, kept, local, standing, steps, times, unspent,
};
use rpl_tree::{Expr, OneWord, TwoWord};

/// The kind of an expression, and what it adds to the budgets.
#[derive(Clone, Copy)]
pub(crate) struct Work {
    pub(crate) kind: TreeKind,
    pub(crate) load: Load,
}

/// Returns the work of a value of a kind that is made, or fetched from a local.
pub(crate) fn made(kind: TreeKind) -> Work
    ensures { measured_seen result ≡ Pass.made (tree_kind_seen kind) }
{
    Work {
        kind,
        load: fetched(kind),
    }
}

pub(crate) fn leaf(kind: TreeKind) -> Work
    ensures { measured_seen result ≡ Pass.measured_leaf (tree_kind_seen kind) }
{
    Work {
        kind,
        load: fetched(TreeKind::Number),
    }
}

/// Returns the work of an element and those after it.
pub(crate) fn element(value: Work, others: Work) -> Work
    ensures { measured_seen result
        ≡ Pass.measured_element (measured_seen value) (measured_seen others) }
{
    Work {
        kind: value.kind,
        load: both(value.load, above(1, others.load)),
    }
}

/// Returns the work of a list of `count` elements.
pub(crate) fn listed(count: u64, all: Work) -> Work
    ensures { measured_seen result ≡ Pass.measured_list count (measured_seen all) }
{
    let words = u128::from(count) + 1;
    Work {
        kind: list_kind(count, all.kind),
        load: both(all.load, both(steps(words), standing(words))),
    }
}

// One of two values, each given the room of their kind.
fn one_of(kind: TreeKind, first: Work, second: Work) -> Load
    ensures { result
        ≡ Pass.one_of (tree_kind_seen kind) (measured_seen first) (measured_seen second) }
{
    let a = fitted(kind, first.kind, first.load);
    let b = fitted(kind, second.kind, second.load);
    either(a, b)
}

/// Returns the work of an IF of a test and two values.
pub(crate) fn chosen(test: Work, first: Work, second: Work) -> Work
    ensures { measured_seen result
        ≡ Pass.measured_choice (measured_seen test) (measured_seen first) (measured_seen second) }
{
    let kind = join(first.kind, second.kind);
    Work {
        kind,
        load: both(test.load, both(one_of(kind, first, second), steps(3))),
    }
}

/// Returns the load of a value under a name, and of what is done with it.
pub(crate) fn bound(value: Work, body: Load) -> Load
    ensures { result ≡ Pass.measured_binding (measured_seen value) body }
{
    both(value.load, both(kept(value.kind), body))
}

// The turns of a loop over a list.
fn turns(all: TreeKind, total: TreeKind, body: Work) -> Load
    ensures { result
        ≡ Pass.load_of_turns (tree_kind_seen all) (tree_kind_seen total) (measured_seen body) }
{
    let turn = both(
        fitted(total, body.kind, body.load),
        steps(weight(total) + 1),
    );
    above(u128::from(room_of(all)) + 3, times(room_of(all), turn))
}

/// Returns the load of a loop over a list, with an accumulator.
pub(crate) fn turned(all: Work, first: Work, body: Work) -> Load
    ensures { result
        ≡ Pass.load_of_loop (measured_seen all) (measured_seen first) (measured_seen body) }
{
    let total = first.kind;
    let before = both(all.load, above(weight(all.kind), first.load));
    let locals = both(local(element_of(all.kind)), local(total));
    let start = both(steps(2 * weight(total) + 1), locals);
    both(before, both(start, turns(all.kind, total, body)))
}

/// Returns the load of a MAP: a list of one value for each element of another list.
pub(crate) fn mapped(all: Work, body: Work) -> Load
    ensures { result ≡ Pass.mapped_over (measured_seen all) (measured_seen body) }
{
    let room = room_of(all.kind);
    let turns = times(room, both(body.load, steps(1)));
    let start = both(steps(1), local(element_of(all.kind)));
    both(
        all.load,
        both(start, above(2 * u128::from(room) + 4, turns)),
    )
}

// What KNOWN does with an expression.
fn known_load(e: &Expr, load: Load) -> Load
    ensures { result ≡ Pass.known_load (tree_of e.now) load }
{
    match e {
        Expr::At(_) => load,
        _ => unspent(load),
    }
}

/// Returns the load of a word before an expression.
pub(crate) fn one_load(word: OneWord, e: &Expr, load: Load) -> Load
    ensures { result ≡ Pass.one_load word (tree_of e.now) load }
{
    match word {
        OneWord::Known => known_load(e, load),
        _ => both(load, steps(1)),
    }
}

fn operation(word: TwoWord, kind: TreeKind) -> u128
    ensures { result ≡ Pass.operation_weight word (tree_kind_seen kind) }
{
    match word {
        TwoWord::Unequal | TwoWord::Greater | TwoWord::GreaterEqual => 2,
        TwoWord::Append => u128::from(room_of(kind)) + 2,
        _ => 1,
    }
}

/// Returns the load of a word between two expressions.
#[inline(always)]
pub(crate) fn two_load(word: TwoWord, left: Work, right: Load) -> Load
    ensures { result ≡ Pass.two_load word (measured_seen left) right }
{
    match word {
        TwoWord::Or | TwoWord::And => { both(left.load, both(either(steps(1), right), steps(3))) }
        _ => {
            let second = above(weight(left.kind), right);
            both(left.load, both(second, steps(operation(word, left.kind))))
        }
    }
}
