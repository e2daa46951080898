//! Lists the unit words of models and rules, each with its dimension and its factor.
ghost use Rattle.std.specs.Prelude.{◌≡◌, pos, ◌≤ℤ◌, IfSome};
ghost use Rattle.rw_base.specs.Dimension.{dimension, IsDimension};
ghost use Rattle.rw_base.specs.Unit.{units, unit_in};

use crate::Dim;

/// Returns the dimension of what is measured in a unit, and the unit's factor, 1 to 10^6: how many of the base units m3, mm,
/// timestep and kWh the unit is. A `dam3` is 1000 m3. `None` exactly where the table of units does not have the word;
/// `docs/FORMATS.md` lists them under "Slots".
pub fn unit_of(word: &str) -> Option<(Dim, i64)>
    ensures unit { result ≡ unit_in units word.now }
    ensures factor { IfSome result (λ unit. (pos 1 ≤ℤ unit.1) × (unit.1 ≤ℤ pos 1_000_000)) }
{
    let unit = match word {
        "m3" => (dim(1, 0, 0, 0), 1),
        "dam3" => (dim(1, 0, 0, 0), 1000),
        "Mm3" => (dim(1, 0, 0, 0), 1_000_000),
        "mm" => (dim(0, 1, 0, 0), 1),
        "m" => (dim(0, 1, 0, 0), 1000),
        "step" => (dim(0, 0, 1, 0), 1),
        "m3/step" => (dim(1, 0, -1, 0), 1),
        "dam3/step" => (dim(1, 0, -1, 0), 1000),
        "mm/step" => (dim(0, 1, -1, 0), 1),
        "m3/mm" => (dim(1, -1, 0, 0), 1),
        "kWh" => (dim(0, 0, 0, 1), 1),
        "" => (dim(0, 0, 0, 0), 1),
        _ => return None,
    };
    Some(unit)
}

// The dimension with these exponents.
fn dim(volume: i8, length: i8, step: i8, energy: i8) -> Dim
    requires { IsDimension (dimension volume length step energy) }
    ensures { result ≡ dimension volume length step energy }
{
    Dim {
        volume,
        length,
        step,
        energy,
    }
}
