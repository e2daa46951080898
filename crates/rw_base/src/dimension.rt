//! Holds what a quantity measures, as exponents of the base units, and computes the dimensions of products and quotients.
ghost use Rattle.std.specs.Prelude.{◌↔◌, IsTrue};
ghost use Rattle.rw_base.specs.Dimension.{Dimension, dimension, IsExponent, IsDimension, AnswersDimension, times_of, per_of, times_per_of};

use std::marker::Model;

/// The dimension of a quantity: the exponents of the base units m3, mm, timestep and kWh, each from -6 to 6. For a flow, in
/// m3/step, they are 1 for m3, -1 for the timestep, and 0 for the others.
#[derive(Clone, Copy, Debug, PartialEq, Eq, Drop)]
pub struct Dim {
    /// The exponent of m3.
    pub volume: i8,
    /// The exponent of mm.
    pub length: i8,
    /// The exponent of the timestep.
    pub step: i8,
    /// The exponent of kWh.
    pub energy: i8,
}

impl Model for Dim {
    ghost Value = { Dimension };

    ghost view = { λ d. dimension d.volume d.length d.step d.energy };

    ghost invariant = { λ d. IsDimension (dimension d.volume d.length d.step d.energy) };

    ghost inverse = { λ d.
        record { volume = d.volume; length = d.length; step = d.step; energy = d.energy } };
}

// Whether an exponent of a dimension may have the value.
fn is_exponent(z: i8) -> bool
    ensures { IsTrue result ↔ IsExponent z }
{
    -6 <= z && z <= 6
}

impl Dim {
    /// Returns the dimension with these exponents. `None` exactly where one is outside -6 to 6.
    pub fn of(volume: i8, length: i8, step: i8, energy: i8) -> Option<Dim>
        ensures { AnswersDimension (dimension volume length step energy) result }
    {
        if is_exponent(volume) && is_exponent(length) && is_exponent(step) && is_exponent(energy) {
            Some(Dim {
                volume,
                length,
                step,
                energy,
            })
        } else {
            None
        }
    }

    /// Returns the dimension of a product: the exponents are added. `None` exactly where one is outside -6 to 6.
    pub fn times(self, b: Dim) -> Option<Dim>
        ensures { AnswersDimension (times_of self b) result }
    {
        Dim::of(
            self.volume + b.volume,
            self.length + b.length,
            self.step + b.step,
            self.energy + b.energy,
        )
    }

    /// Returns the dimension of a quotient: the exponents of b are subtracted from those of self. `None` exactly where one is
    /// outside -6 to 6.
    pub fn per(self, b: Dim) -> Option<Dim>
        ensures { AnswersDimension (per_of self b) result }
    {
        Dim::of(
            self.volume - b.volume,
            self.length - b.length,
            self.step - b.step,
            self.energy - b.energy,
        )
    }

    /// Returns the dimension of self * b / c: the exponents of self and b are added, and those of c subtracted. `None` exactly
    /// where one is outside -6 to 6.
    pub fn times_per(self, b: Dim, c: Dim) -> Option<Dim>
        ensures { AnswersDimension (times_per_of self b c) result }
    {
        Dim::of(
            self.volume + b.volume - c.volume,
            self.length + b.length - c.length,
            self.step + b.step - c.step,
            self.energy + b.energy - c.energy,
        )
    }
}
