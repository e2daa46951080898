//! Computes the seven functions of the table, each of which is proved to be its row. A row with fewer than three arguments does
//! not look at the others.
ghost use Rattle.std.specs.Prelude.{◌≡◌};
ghost use Rattle.rw_base.specs.Predefined.{predefined_of};

use rw_base::{Qty, law};

/// Returns the smaller of a and b, which have one unit.
pub fn least(a: Qty, b: Qty, _c: Qty) -> Qty
    ensures { result ≡ predefined_of 1 a b _c }
{
    if a.get() <= b.get() { a } else { b }
}

/// Returns the greater of a and b, which have one unit.
pub fn greatest(a: Qty, b: Qty, _c: Qty) -> Qty
    ensures { result ≡ predefined_of 2 a b _c }
{
    if a.get() >= b.get() { a } else { b }
}

/// Returns a without its sign, in its unit.
pub fn absolute(a: Qty, _b: Qty, _c: Qty) -> Qty
    ensures { result ≡ predefined_of 3 a _b _c }
{
    Qty::of(a.get().abs()).unwrap()
}

/// Returns a brought to at most c, and then to at least b, all of one unit.
pub fn clamped(a: Qty, b: Qty, c: Qty) -> Qty
    ensures { result ≡ predefined_of 4 a b c }
{
    greatest(b, least(a, c, a), a)
}

/// Returns the multiple of b nearest to a between 0 and a, and a itself where b is 0, all of one unit.
pub fn rounded_down(a: Qty, b: Qty, _c: Qty) -> Qty
    ensures { result ≡ predefined_of 5 a b _c }
{
    law::predefined_answers();
    let (number, step) = (a.get(), b.get());
    if step == 0 {
        return a;
    }
    Qty::of(number - number % step).unwrap()
}

/// Returns -1 below 0, 0 at 0, 1 above: a plain number, of an argument in any unit.
pub fn sign(a: Qty, _b: Qty, _c: Qty) -> Qty
    ensures { result ≡ predefined_of 6 a _b _c }
{
    Qty::of(a.get().signum()).unwrap()
}

/// Returns the floor of a * b / c, in the unit of that, brought within -Q and Q, and 0 where c is 0.
pub fn mul_div(a: Qty, b: Qty, c: Qty) -> Qty
    ensures { result ≡ predefined_of 7 a b c }
{
    a.mul_div(b, c)
}
