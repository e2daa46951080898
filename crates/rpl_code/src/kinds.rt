//! Holds the kinds of several values in a row.
ghost use Rattle.std.specs.Prelude.{◌≡◌};

use crate::ValueKind;
use std::alloc::Global;
use std::marker::Model;

/// The kinds of values in a row, which contracts see as a list.
#[derive(Debug, Drop)]
pub struct Kinds {
    items: Vec<ValueKind>,
}

impl Model for Kinds {
    ghost use Rattle.std.specs.Prelude.{List};
    ghost use Rattle.rpl_code.specs.declared.kind.ValueKind.{ValueKind};

    ghost Value = { List ValueKind };

    ghost view = { λ kinds. kinds.items.items };
}

impl Kinds {
    /// Returns these kinds, in their order.
    pub fn of(items: Vec<ValueKind>) -> Kinds
        ensures { result ≡ items.items }
    {
        Kinds { items }
    }

    /// Returns the kinds, in their order.
    pub fn as_slice(&self) -> &[ValueKind]
        ensures { result.now ≡ self.now }
    {
        self.items.as_slice()
    }

    /// Returns the allocator of their memory.
    pub(crate) fn allocator(&self) -> Global {
        *self.items.allocator()
    }
}
