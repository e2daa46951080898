//! Packs a value of a slot at a timestep, or none, into eight bytes.
ghost use Rattle.std.specs.Prelude.{◌≡◌};
ghost use Rattle.rw_inputs.specs.Column.{value_in_column};

use rw_base::Qty;
use std::marker::Model;

// As what nothing is kept, which is no quantity.
const NOTHING: i64 = i64::MIN;

/// What is kept of a slot at a timestep, seen as a value or none.
#[derive(Clone, Drop)]
pub struct KeptQty {
    number: i64,
}

impl Model for KeptQty {
    ghost use Rattle.std.specs.Prelude.{ℤ, Option};
    ghost use Rattle.rw_inputs.specs.Column.{quantity_kept};

    ghost Value = { Option ℤ };

    ghost view = { λ k. quantity_kept k.number };
}

impl KeptQty {
    /// Returns what keeps a value, or none.
    #[inline(always)]
    pub(crate) fn of(value: Option<Qty>) -> KeptQty
        ensures { result ≡ value }
    {
        match value {
            Some(value) => KeptQty {
                number: value.get(),
            },
            None => KeptQty { number: NOTHING },
        }
    }

    /// Returns a copy.
    #[inline(always)]
    pub(crate) fn copy(&self) -> KeptQty
        ensures { result ≡ self.now }
    {
        KeptQty {
            number: self.number,
        }
    }

    /// Returns the value, if one is kept.
    #[inline(always)]
    pub fn get(&self) -> Option<Qty>
        ensures { result ≡ self.now }
    {
        Qty::of(self.number)
    }
}

/// Returns what is kept at a timestep in the column of a slot, and nothing where there is no such timestep.
#[inline(always)]
pub fn value_in(column: &[KeptQty], step: u16) -> Option<Qty>
    ensures { result ≡ value_in_column column.now step }
{
    match column.get(usize::from(step)) {
        Some(kept) => kept.get(),
        None => None,
    }
}
