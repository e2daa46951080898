//! Computes how much a term brings to a balance, and which value of a term brings a given amount.
ghost use Rattle.std.specs.Prelude.{◌≡◌, ◌≤◌, ◌-◌, pos, neg_ℤ, ◌+ℤ◌, ◌-ℤ◌, ◌*ℤ◌, ◌≤ℤ◌};
ghost use Rattle.rw_base.specs.Quotient.{floor_div};
ghost use Rattle.rw_method.specs.Term.{per_mille, least_inflow, least_routed, brought, bringing, brought_by, IsWithin};

use crate::{Given, Release, Seepage, Share};

// The amount is a sum of two 64 bit numbers.
fn times_share(amount: i128, share: u16) -> i128
    requires low { neg_ℤ (pos 18446744073709551616) ≤ℤ amount }
    requires high { amount ≤ℤ pos 18446744073709551616 }
    ensures amount { result ≡ amount *ℤ pos share }
    ensures bound { IsWithin 13 result }
{
    amount * i128::from(share)
}

fn parts_of(amount: i128, share: u16) -> i128
    requires low { neg_ℤ (pos 18446744073709551616) ≤ℤ amount }
    requires high { amount ≤ℤ pos 18446744073709551616 }
    ensures amount { result ≡ per_mille amount share }
    ensures bound { IsWithin 1 result }
{
    times_share(amount, share).div_euclid(1000)
}

/// Returns `share` of a thousand parts of an amount, rounded down, in the amount's own unit. What fits 64 bits is divided there:
/// that is quicker.
pub fn per_mille(amount: i64, share: u16) -> i128
    ensures amount { result ≡ per_mille amount share }
    ensures bound { IsWithin 1 result }
{
    match amount.checked_mul(i64::from(share)) {
        Some(product) => i128::from(product.div_euclid(1000)),
        None => parts_of(i128::from(amount), share),
    }
}

fn thousandfold(outflow: i128) -> i128
    requires { IsWithin 10 outflow }
    ensures amount { result ≡ pos 1000 *ℤ (outflow -ℤ pos 1) }
    ensures bound { IsWithin 100000 result }
{
    1000 * (outflow - 1)
}

fn quotient(amount: i128, divisor: u16) -> i128
    requires bound { IsWithin 100000 amount }
    requires divisor { 1 ≤ divisor }
    ensures count { result ≡ floor_div amount (pos divisor) }
    ensures bound { IsWithin 100000 result }
{
    amount.div_euclid(i128::from(divisor))
}

// How many inflows of 1000 parts there are below the outflow, less the parts that seep away.
fn whole_inflows(seepage: Seepage, outflow: i128) -> i128
    requires { IsWithin 10 outflow }
    ensures count { result ≡ floor_div (pos 1000 *ℤ (outflow -ℤ pos 1)) (pos (1000 - seepage)) }
    ensures bound { IsWithin 100000 result }
{
    quotient(thousandfold(outflow), 1000 - seepage.get())
}

// The least inflow that gives the outflow.
fn least_inflow(seepage: Seepage, outflow: i128) -> i128
    requires { IsWithin 10 outflow }
    ensures { result ≡ least_inflow seepage outflow }
{
    if outflow == 0 {
        return 0;
    }
    let count = whole_inflows(seepage, outflow);
    count + 1
}

fn held(content: i64, inflow: i64) -> i128
    ensures amount { result ≡ content +ℤ inflow }
    ensures low { neg_ℤ (pos 18446744073709551616) ≤ℤ result }
    ensures high { result ≤ℤ pos 18446744073709551616 }
{
    i128::from(content) + i128::from(inflow)
}

// How much a reach lets go that holds so much when the inflow has come.
fn let_go(content: i64, release: Release, inflow: i64) -> i128
    ensures amount { result ≡ per_mille (content +ℤ inflow) release }
    ensures bound { IsWithin 1 result }
{
    parts_of(held(content, inflow), release.get())
}

// A thousand times the outflow, turned.
fn turned(outflow: i128) -> i128
    requires { IsWithin 10 outflow }
    ensures amount { result ≡ neg_ℤ (outflow *ℤ pos 1000) }
    ensures bound { IsWithin 100000 result }
{
    -(outflow * 1000)
}

// The least content of which a reach lets the outflow go.
fn least_content(release: Release, outflow: i128) -> i128
    requires { IsWithin 10 outflow }
    ensures amount { result ≡ neg_ℤ (floor_div (neg_ℤ (outflow *ℤ pos 1000)) (pos release)) }
    ensures bound { IsWithin 100000 result }
{
    -quotient(turned(outflow), release.get())
}

// The least inflow with which a reach that holds so much lets the outflow go.
fn least_routed(content: i64, release: Release, outflow: i128) -> i128
    requires { IsWithin 10 outflow }
    ensures { result ≡ least_routed content release outflow }
{
    least_content(release, outflow) - i128::from(content)
}

// How much a value brings. `per_mille` isn't called here: with both its ways a loop over terms is too long to be unrolled.
fn brought(share: Share, value: i64) -> i128
    ensures amount { result ≡ brought share value }
    ensures bound { IsWithin 1 result }
{
    match share {
        Share::Brings => i128::from(value),
        Share::Takes => -i128::from(value),
        Share::Conveys(seepage) => {
            i128::from(value) - parts_of(i128::from(value), seepage.get())
        }
        Share::Routes { content, release } => let_go(content, release, value),
    }
}

/// Returns how much a term that is given in this way brings.
#[inline(always)]
pub(crate) fn brought_by(share: Share, given: Option<Given>) -> i128
    ensures amount { result ≡ brought_by share given }
    ensures bound { IsWithin 1 result }
{
    match given {
        Some(held) => brought(share, held.value),
        None => 0,
    }
}

/// Returns the value of a term that brings this amount.
#[inline(always)]
pub(crate) fn bringing(share: Share, amount: i128) -> i128
    requires { IsWithin 10 amount }
    ensures { result ≡ bringing share amount }
{
    match share {
        Share::Brings => amount,
        Share::Takes => -amount,
        Share::Conveys(seepage) => least_inflow(seepage, amount),
        Share::Routes { content, release } => least_routed(content, release, amount),
    }
}
