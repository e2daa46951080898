//! Describes a slot: its name, its dimension, its role, and the bounds that it can have.
ghost use Rattle.std.specs.Prelude.{◌≡◌, ◌↔◌, IsTrue, pos};
ghost use Rattle.rw_base.specs.Dimension.{dimension, IsDimension};
ghost use Rattle.rw_base.specs.Unit.{volume, length, energy};
ghost use Rattle.rw_model.specs.Slot.{IsInside, flow, of_range, rate_unit, all_quantities, from_zero, lengths};

use crate::Role;
use rw_base::{Dim, QUANTITY_MAX};
use rw_table::ELEVATION_MAX;
use std::marker::Model;

/// A slot that a kind has: its name, what it measures, who gives it its values, and its bounds.
#[derive(Drop)]
pub struct Slot<'a> {
    name: &'a str,
    dim: Dim,
    role: Role,
    widest: (i64, i64),
    usual: (i64, i64),
}

impl<'a> Model for Slot<'a> {
    ghost use Rattle.rw_model.specs.Slot as specs;

    ghost Value = { specs.Slot };

    ghost view = { λ s.
        record
        { name = s.name.now; dim = s.dim; role = s.role; widest = s.widest; usual = s.usual } };
}

// The dimension with these exponents.
fn dim(volume: i8, length: i8, step: i8) -> Dim
    requires { IsDimension (dimension volume length step (pos 0)) }
    ensures { result ≡ dimension volume length step (pos 0) }
{
    Dim {
        volume,
        length,
        step,
        energy: 0,
    }
}

impl<'a> Slot<'a> {
    /// Returns a flow, in m3/step.
    pub(crate) fn flow(name: &'a str, role: Role) -> Slot<'a>
        ensures { result ≡ flow name.now role }
    {
        Slot {
            name,
            dim: dim(1, 0, -1),
            role,
            widest: (-QUANTITY_MAX, QUANTITY_MAX),
            usual: (0, QUANTITY_MAX),
        }
    }

    /// Returns a slot of a data object, bound to -Q to Q in the base units of its dimension.
    pub fn data(name: &'a str, dim: Dim) -> Slot<'a>
        ensures { result ≡ of_range name.now dim Role.Neither all_quantities }
    {
        Slot::of_range(name, dim, Role::Neither, (-QUANTITY_MAX, QUANTITY_MAX))
    }

    /// Returns a volume of water that is held, in m3.
    pub(crate) fn volume(name: &'a str, role: Role) -> Slot<'a>
        ensures { result ≡ of_range name.now volume role from_zero }
    {
        Slot::of_range(name, dim(1, 0, 0), role, (0, QUANTITY_MAX))
    }

    /// Returns an amount of energy, in kWh, bound to 0 to Q.
    pub fn energy(name: &'a str, role: Role) -> Slot<'a>
        ensures { result ≡ of_range name.now energy role from_zero }
    {
        let kilowatt_hour = Dim {
            volume: 0,
            length: 0,
            step: 0,
            energy: 1,
        };
        Slot::of_range(name, kilowatt_hour, role, (0, QUANTITY_MAX))
    }

    /// Returns an elevation, in mm.
    pub(crate) fn elevation(name: &'a str) -> Slot<'a>
        ensures { result ≡ of_range name.now length Role.Neither lengths }
    {
        Slot::of_range(name, dim(0, 1, 0), Role::Neither, (0, ELEVATION_MAX))
    }

    /// Returns a rate of evaporation, in mm/step: at most as great as an elevation.
    pub(crate) fn rate(name: &'a str) -> Slot<'a>
        ensures { result ≡ of_range name.now rate_unit Role.Fixed lengths }
    {
        Slot::of_range(name, dim(0, 1, -1), Role::Fixed, (0, ELEVATION_MAX))
    }

    // A slot with the widest bounds where none are set.
    fn of_range(name: &'a str, dim: Dim, role: Role, bounds: (i64, i64)) -> Slot<'a>
        ensures { result ≡ of_range name.now dim role bounds }
    {
        Slot {
            name,
            dim,
            role,
            widest: bounds,
            usual: bounds,
        }
    }

    /// Returns the name of the slot.
    pub fn name(&self) -> &'a str
        ensures { result.now ≡ self.now.name }
    {
        self.name
    }

    /// Returns what it measures: the exponents of m3, mm, timestep and kWh.
    pub fn dim(&self) -> Dim
        ensures { result ≡ self.now.dim }
    {
        self.dim
    }

    /// Returns who gives it its values.
    pub fn role(&self) -> Role
        ensures { result ≡ self.now.role }
    {
        self.role
    }

    /// Returns the widest bounds that it can have: a minimum and a maximum, in the base units of its dimension.
    pub fn widest(&self) -> (i64, i64)
        ensures { result ≡ self.now.widest }
    {
        self.widest
    }

    /// Returns the bounds that it has where a model gives it none: a minimum and a maximum, in the base units of its dimension.
    pub fn usual(&self) -> (i64, i64)
        ensures { result ≡ self.now.usual }
    {
        self.usual
    }

    /// Returns whether it can have these bounds, in the base units of its dimension: ordered, and within its widest.
    pub fn allows(&self, bounds: (i64, i64)) -> bool
        ensures { IsTrue result ↔ IsInside bounds self.now.widest }
    {
        bounds.0 <= bounds.1 && self.widest.0 <= bounds.0 && bounds.1 <= self.widest.1
    }
}
