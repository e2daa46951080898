//! Adds up what the parts of a tree add to the budgets. Each number stops at the first above its limit.
ghost use Rattle.std.specs.Prelude.{◌≡◌, ◌<◌, ◌+◌, ◌*◌, ◌^◌};
ghost use Rattle.rpl_tree.specs.Budget.{capped};
ghost use Rattle.rpl_budget.specs.Loads as Loads;
ghost use Rattle.rpl_budget.specs.Seen.{tree_kind_seen};

use crate::kind::{TreeKind, is_same_kind, weight};
use rw_base::limits::{INSTRUCTIONS_MAX, LOOKS_MAX, PUTS_MAX, WORDS_MAX};

/// The load of evaluating an expression, or executing statements: what that adds to the budgets at most.
#[derive(Clone, Copy)]
pub(crate) struct Load {
    /// What it counts.
    pub(crate) count: u64,
    /// The number of looks.
    pub(crate) looks: u64,
    /// The number of puts.
    pub(crate) puts: u64,
    /// The number of words of operands and open loops at a time.
    pub(crate) height: u64,
    /// The number of words that its locals take.
    pub(crate) locals: u64,
}

pub(crate) fn stopped(n: u128, limit: u64) -> u64
    requires { limit < 2 ^ 32 }
    ensures { result ≡ capped limit n }
{
    n.min(u128::from(limit) + 1) as u64
}

pub(crate) fn plus(a: u64, b: u64, limit: u64) -> u64
    requires { limit < 2 ^ 32 }
    ensures { result ≡ capped limit (a + b) }
{
    a.saturating_add(b).min(limit + 1)
}

fn product(m: u64, n: u64, limit: u64) -> u64
    requires { limit < 2 ^ 32 }
    ensures { result ≡ capped limit (m * n) }
{
    m.saturating_mul(n).min(limit + 1)
}

pub(crate) fn nothing() -> Load
    ensures { result ≡ Loads.no_load }
{
    Load {
        count: 0,
        looks: 0,
        puts: 0,
        height: 0,
        locals: 0,
    }
}

pub(crate) fn steps(n: u128) -> Load
    ensures { result ≡ Loads.steps n }
{
    Load {
        count: stopped(n, INSTRUCTIONS_MAX),
        ..nothing()
    }
}

fn one_look() -> Load
    ensures { result ≡ Loads.one_look }
{
    Load {
        count: 1,
        looks: 1,
        ..nothing()
    }
}

pub(crate) fn one_put() -> Load
    ensures { result ≡ Loads.one_put }
{
    Load {
        count: 1,
        puts: 1,
        ..nothing()
    }
}

/// Returns the load of a value that is made, or fetched from a local.
pub(crate) fn fetched(kind: TreeKind) -> Load
    ensures { result ≡ Loads.fetched (tree_kind_seen kind) }
{
    let words = weight(kind);
    Load {
        count: stopped(words, INSTRUCTIONS_MAX),
        height: stopped(words, WORDS_MAX),
        ..nothing()
    }
}

/// Returns the load of a value that is kept in a local.
pub(crate) fn kept(kind: TreeKind) -> Load
    ensures { result ≡ Loads.load_kept (tree_kind_seen kind) }
{
    let words = weight(kind);
    Load {
        count: stopped(words, INSTRUCTIONS_MAX),
        locals: stopped(words, WORDS_MAX),
        ..nothing()
    }
}

/// Returns the load of a local that is there for a value of the kind.
pub(crate) fn local(kind: TreeKind) -> Load
    ensures { result ≡ Loads.local (tree_kind_seen kind) }
{
    Load {
        locals: stopped(weight(kind), WORDS_MAX),
        ..nothing()
    }
}

/// Returns the load of this many words at once.
pub(crate) fn standing(words: u128) -> Load
    ensures { result ≡ Loads.load_standing words }
{
    Load {
        height: stopped(words, WORDS_MAX),
        ..nothing()
    }
}

/// Returns the load of one, and after it another.
pub(crate) fn both(a: Load, b: Load) -> Load
    ensures { result ≡ Loads.load_both a b }
{
    Load {
        count: plus(a.count, b.count, INSTRUCTIONS_MAX),
        looks: plus(a.looks, b.looks, LOOKS_MAX),
        puts: plus(a.puts, b.puts, PUTS_MAX),
        height: a.height.max(b.height),
        locals: plus(a.locals, b.locals, WORDS_MAX),
    }
}

/// Returns the load of one of the two.
pub(crate) fn either(a: Load, b: Load) -> Load
    ensures { result ≡ Loads.either a b }
{
    Load {
        count: a.count.max(b.count),
        looks: a.looks.max(b.looks),
        puts: a.puts.max(b.puts),
        height: a.height.max(b.height),
        locals: plus(a.locals, b.locals, WORDS_MAX),
    }
}

/// Returns the load of m repetitions.
pub(crate) fn times(m: u64, a: Load) -> Load
    ensures { result ≡ Loads.load_times m a }
{
    Load {
        count: product(m, a.count, INSTRUCTIONS_MAX),
        looks: product(m, a.looks, LOOKS_MAX),
        puts: product(m, a.puts, PUTS_MAX),
        height: a.height,
        locals: a.locals,
    }
}

/// Returns the load where this many words wait below it.
pub(crate) fn above(words: u128, a: Load) -> Load
    ensures { result ≡ Loads.above words a }
{
    Load {
        height: stopped(words.saturating_add(u128::from(a.height)), WORDS_MAX),
        ..a
    }
}

/// Returns the load of its locals alone.
pub(crate) fn locals_alone(a: Load) -> Load
    ensures { result ≡ Loads.locals_alone a }
{
    Load {
        locals: a.locals,
        ..nothing()
    }
}

/// Returns the load of what nobody evaluates, as it is in the code.
pub(crate) fn unspent(a: Load) -> Load
    ensures { result ≡ Loads.unspent a }
{
    Load {
        height: a.height,
        locals: a.locals,
        ..nothing()
    }
}

/// Returns the load of a value of a kind that is given the room of its place.
pub(crate) fn fitted(place: TreeKind, kind: TreeKind, a: Load) -> Load
    ensures { result ≡ Loads.fitted (tree_kind_seen place) (tree_kind_seen kind) a }
{
    let widening = if is_same_kind(place, kind) {
        0
    } else {
        weight(place)
    };
    both(a, both(steps(widening), standing(weight(place))))
}

/// Returns the load of a look at a slot at a date.
pub(crate) fn looked(slot: Load, date: Load) -> Load
    ensures { result ≡ Loads.looked slot date }
{
    both(slot, both(above(1, date), one_look()))
}
