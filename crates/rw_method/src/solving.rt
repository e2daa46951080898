//! Solves a balance for the term that gives way.
ghost use Rattle.std.specs.Prelude.{◌≡◌, ◌≤◌, pos, neg_ℤ, ◌+ℤ◌, ◌-ℤ◌, length};
ghost use Rattle.std.specs.Ordering.{int_eq};
ghost use Rattle.std.specs.Option.{ForSome};
ghost use Rattle.rw_method.specs.Term.{IsWithin};
ghost use Rattle.rw_method.specs.Solving.{missing, net_of, greatest_beside, priority_of, gives_way_before, weakest, value_from_others, solves, solved_at, solved_balance};

use crate::brought::{bringing, brought_by};
use crate::{Balanced, Given, Term};

// How many of the terms aren't given.
#[inline(always)]
fn missing(terms: &[Term]) -> usize
    ensures { result ≡ missing terms.now }
{
    let mut count = 0;
    for term in terms {
        if term.given.is_none() {
            count += 1;
        }
    }
    count
}

fn sum_of(net: i128, more: i128) -> i128
    requires net { IsWithin 6 net }
    requires more { IsWithin 6 more }
    ensures { result ≡ net +ℤ more }
{
    net + more
}

// How much the given terms bring, all together.
#[inline(always)]
fn net_of(terms: &[Term]) -> i128
    requires { length terms.now ≤ 3 }
    ensures net { result ≡ net_of terms.now }
    ensures bound { IsWithin 3 result }
{
    let mut net = 0;
    for term in terms {
        net = sum_of(net, brought_by(term.share, term.given));
    }
    net
}

fn number_of(given: Option<Given>) -> u16
    ensures { result ≡ priority_of given }
{
    match given {
        Some(held) => held.number,
        None => 0,
    }
}

/// Returns the lowest priority of the given terms but the one of this place, and 0 where there is none.
#[inline(always)]
pub fn greatest_beside(place: u8, terms: &[Term]) -> u16
    ensures { result ≡ greatest_beside place terms.now }
{
    let mut greatest = 0;
    for term in terms {
        if term.place != place {
            greatest = greatest.max(number_of(term.given));
        }
    }
    greatest
}

fn gives_way_before(given: Option<Given>, later: Option<Given>) -> bool
    ensures { result ≡ gives_way_before given later }
{
    match (given, later) {
        (None, later) => later.is_some(),
        (Some(_), None) => false,
        (Some(held), Some(later)) => later.number < held.number,
    }
}

// The term that gives way.
#[inline(always)]
fn weakest(first: Term, rest: &[Term]) -> Term
    ensures { result ≡ weakest first rest.now }
{
    let mut weakest = first;
    for term in rest {
        if !gives_way_before(weakest.given, term.given) {
            weakest = *term;
        }
    }
    weakest
}

// How much a term of its own has to bring beside a net of all given terms.
fn lacking(steady: i128, net: i128, own: i128) -> i128
    requires steady { IsWithin 6 steady }
    requires net { IsWithin 3 net }
    requires own { IsWithin 1 own }
    ensures amount { result ≡ neg_ℤ (steady +ℤ (net -ℤ own)) }
    ensures bound { IsWithin 10 result }
{
    -(steady + (net - own))
}

// The value of a term that makes the balance true.
#[inline(always)]
fn value_from_others(steady: i128, terms: &[Term], term: &Term) -> i128
    requires few { length terms.now ≤ 3 }
    requires bound { IsWithin 6 steady }
    ensures { result ≡ value_from_others steady terms.now term.now }
{
    let own = brought_by(term.share, term.given);
    bringing(term.share, lacking(steady, net_of(terms), own))
}

// The term, put as that value.
#[inline(always)]
fn solves(steady: i128, terms: &[Term], term: &Term) -> Balanced
    requires few { length terms.now ≤ 3 }
    requires bound { IsWithin 6 steady }
    ensures { result ≡ solves steady terms.now term.now }
{
    Balanced::Solves {
        place: term.place,
        value: value_from_others(steady, terms, term),
        number: greatest_beside(term.place, terms),
    }
}

fn holds(steady: i128, terms: &[Term]) -> bool
    requires few { length terms.now ≤ 3 }
    requires bound { IsWithin 6 steady }
    ensures { result ≡ int_eq (steady +ℤ net_of terms.now) (pos 0) }
{
    sum_of(net_of(terms), steady) == 0
}

// What becomes of the term that gives way.
#[inline(always)]
fn solve_at(steady: i128, terms: &[Term], term: &Term) -> Balanced
    requires few { length terms.now ≤ 3 }
    requires bound { IsWithin 6 steady }
    ensures { result ≡ solved_at steady terms.now term.now term.now.given }
{
    let Some(held) = term.given else {
        return solves(steady, terms, term);
    };
    if holds(steady, terms) {
        return Balanced::Holds;
    }
    if held.number == 0 {
        return Balanced::Conflicts {
            place: term.place,
            held: i128::from(held.value),
            solved: value_from_others(steady, terms, term),
        };
    }
    solves(steady, terms, term)
}

/// Returns what follows from the terms of a balance, at most three, and from what else is brought, in m3/step, where that is
/// known: within 6 x 10^23.
///
/// `Idle` where that is not known, or where more than one term is not given. A term that is not given is solved from the others.
/// Where all are given and the balance is false, the one of the lowest priority is solved from the others, the last one in a tie;
/// with priority 0 the last one conflicts. A solved term has the lowest priority of the others. `docs/DEFINITIONS.md` has this
/// under "The rules, in their order".
#[inline(always)]
pub fn solve_balance(steady: Option<i128>, terms: &[Term]) -> Balanced
    requires few { length terms.now ≤ 3 }
    requires bound { ForSome steady (IsWithin 6) }
    ensures { result ≡ solved_balance steady terms.now }
{
    let Some(steady) = steady else {
        return Balanced::Idle;
    };
    let Some((first, rest)) = terms.split_first() else {
        return Balanced::Holds;
    };
    if missing(terms) >= 2 {
        return Balanced::Idle;
    }
    solve_at(steady, terms, &weakest(*first, rest))
}
