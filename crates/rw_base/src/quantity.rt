//! Computes with whole quantities from -Q to Q: a call returns the exact result, reports it where it is no quantity, or brings it
//! within the range where its name says so.
ghost use Rattle.std.specs.Prelude.{◌≡◌, ◌≢◌, ◌↔◌, ℤ, pos, ◌+ℤ◌, ◌-ℤ◌, ◌*ℤ◌, ◌≤ℤ◌, SomeIff, IsOk, Err};
ghost use Rattle.rw_base.specs.Predefined.{mul_div, nearest_quantity};
ghost use Rattle.rw_base.specs.Quantity.{IsQuantity, AnswersExactly, quantity_max};
ghost use Rattle.rw_base.specs.Quotient.{floor_div};

use std::marker::Model;

/// The greatest quantity, Q = 10^17, in any unit. The least quantity is -Q.
pub const QUANTITY_MAX: i64 = 100_000_000_000_000_000;

/// The reasons why arithmetic on quantities has no quantity as its result.
#[derive(Clone, Copy, Debug, PartialEq, Eq)]
pub enum ArithFault {
    /// The divisor is 0.
    ZeroDivisor,
    /// The exact result is this number, which is below -Q or above Q.
    OutOfRange(i128),
}

/// A whole number from -Q to Q, in the base units of what it measures: m3, mm, m3/step, mm/step, kWh. `docs/DEFINITIONS.md`
/// has it under "Numbers".
#[derive(Clone, Copy, Debug, PartialEq, Eq, Drop)]
pub struct Qty {
    value: i64,
}

impl Model for Qty {
    ghost Value = { ℤ };

    ghost view = { λ q. q.value };

    ghost invariant = { λ q. IsQuantity q.value };

    ghost inverse = { λ z. record { value = z } };
}

// The exact result as a quantity, if it is one.
fn within(exact: i128) -> Result<Qty, ArithFault>
    ensures { AnswersExactly exact result }
{
    if -i128::from(QUANTITY_MAX) <= exact && exact <= i128::from(QUANTITY_MAX) {
        Ok(Qty {
            value: exact as i64,
        })
    } else {
        Err(ArithFault::OutOfRange(exact))
    }
}

// The floor of the quotient of what two quantities hold, which a quantity holds too.
fn floor_of(a: i64, b: i64) -> i64
    requires dividend { IsQuantity a }
    requires divisor { IsQuantity b }
    requires nonzero { b ≢ pos 0 }
    ensures exact { result ≡ floor_div a b }
    ensures bounds { IsQuantity result }
{
    if b > 0 {
        a.div_euclid(b)
    } else {
        (-a).div_euclid(-b)
    }
}

// The product of what two quantities hold.
fn product_of(a: i64, b: i64) -> i128
    requires first { IsQuantity a }
    requires second { IsQuantity b }
    ensures exact { result ≡ a *ℤ b }
    ensures low { (pos 0 -ℤ (quantity_max *ℤ quantity_max)) ≤ℤ result }
    ensures high { result ≤ℤ (quantity_max *ℤ quantity_max) }
{
    i128::from(a) * i128::from(b)
}

// The floor of the quotient of a product of two quantities, over a third.
fn floor_of_product(product: i128, c: i128) -> i128
    requires low { (pos 0 -ℤ (quantity_max *ℤ quantity_max)) ≤ℤ product }
    requires high { product ≤ℤ (quantity_max *ℤ quantity_max) }
    requires divisor { IsQuantity c }
    requires nonzero { c ≢ pos 0 }
    ensures exact { result ≡ floor_div product c }
{
    if c > 0 {
        product.div_euclid(c)
    } else {
        (-product).div_euclid(-c)
    }
}

// What is brought within -Q and Q.
fn nearest(exact: i128) -> Qty
    ensures { result ≡ nearest_quantity exact }
{
    let (low, high) = (-i128::from(QUANTITY_MAX), i128::from(QUANTITY_MAX));
    if exact < low {
        Qty {
            value: -QUANTITY_MAX,
        }
    } else if high < exact {
        Qty {
            value: QUANTITY_MAX,
        }
    } else {
        Qty {
            value: exact as i64,
        }
    }
}

// The floor of a * b / c, brought within -Q and Q.
fn floor_over(a: i64, b: i64, c: i64) -> Qty
    requires first { IsQuantity a }
    requires second { IsQuantity b }
    requires divisor { IsQuantity c }
    requires nonzero { c ≢ pos 0 }
    ensures { result ≡ mul_div a b c }
{
    nearest(floor_of_product(product_of(a, b), i128::from(c)))
}

impl Qty {
    /// Returns the quantity of a value, in whatever unit. `None` exactly outside -Q to Q.
    pub fn of(v: i64) -> Option<Qty>
        ensures { SomeIff result (IsQuantity v) v }
    {
        if -QUANTITY_MAX <= v && v <= QUANTITY_MAX {
            Some(Qty { value: v })
        } else {
            None
        }
    }

    /// Returns the value, from -Q to Q, in the unit that the quantity has.
    pub fn get(self) -> i64
        ensures value { result ≡ self }
        ensures bounds { IsQuantity result }
    {
        self.value
    }

    /// Returns the sum of two quantities of one unit. `OutOfRange` carries the exact sum, exactly where it is outside -Q to Q.
    pub fn add(self, b: Qty) -> Result<Qty, ArithFault>
        ensures { AnswersExactly (self +ℤ b) result }
    {
        within(i128::from(self.value) + i128::from(b.value))
    }

    /// Returns the difference of two quantities of one unit. `OutOfRange` carries the exact difference, exactly where it is
    /// outside -Q to Q.
    pub fn sub(self, b: Qty) -> Result<Qty, ArithFault>
        ensures { AnswersExactly (self -ℤ b) result }
    {
        within(i128::from(self.value) - i128::from(b.value))
    }

    /// Returns the product, in the product of both units. `OutOfRange` carries the exact product, exactly where it is outside -Q
    /// to Q.
    pub fn mul(self, b: Qty) -> Result<Qty, ArithFault>
        ensures { AnswersExactly (self *ℤ b) result }
    {
        within(i128::from(self.value) * i128::from(b.value))
    }

    /// Returns the floor of the exact quotient, in the quotient of both units. `ZeroDivisor` exactly where b is 0. The quotient
    /// of two quantities is always a quantity, so `OutOfRange` never comes.
    pub fn div(self, b: Qty) -> Result<Qty, ArithFault>
        ensures zero { (result ≡ Err ArithFault.ZeroDivisor) ↔ (b ≡ pos 0) }
        ensures floor { b ≢ pos 0 → AnswersExactly (floor_div self b) result }
        ensures fits { b ≢ pos 0 → IsOk result }
    {
        if b.value == 0 {
            return Err(ArithFault::ZeroDivisor);
        }
        Ok(Qty {
            value: floor_of(self.value, b.value),
        })
    }

    /// Returns the floor of self * b / c, in the unit of that, brought within -Q and Q, and 0 where c is 0. The product does not
    /// overflow.
    pub fn mul_div(self, b: Qty, c: Qty) -> Qty
        ensures { result ≡ mul_div self b c }
    {
        if c.value == 0 {
            return Qty { value: 0 };
        }
        floor_over(self.value, b.value, c.value)
    }
}
