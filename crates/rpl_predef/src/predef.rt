//! Holds a function beside the row of the table that it computes.
ghost use Rattle.std.specs.Prelude.{◌≡◌};
ghost use Rattle.rw_base.specs.Predefined.{predefined_of};
ghost use Rattle.rpl_predef.specs.Rows.{IsRow, ComputesRow};

use rw_base::Qty;

/// A function beside the row of the table that it computes.
#[derive(Drop)]
pub struct Predef {
    /// The number of its row, from 1 to 7.
    pub row: u8,
    /// The function, which may be called on all quantities.
    pub function: fn(Qty, Qty, Qty) -> Qty,
    ghost is_row: { IsRow row },
    ghost callable: { IsAlwaysCallable function },
    ghost answers: { ComputesRow row (λ a b c r. post function a b c r) },
}

impl Predef {
    /// Returns `f` as the function of row `k`, 1 to 7, which it has to compute. A row with fewer than three arguments is handed 0
    /// for the others. Units do not concern it.
    pub fn of(k: u8, f: fn(Qty, Qty, Qty) -> Qty) -> Predef
        requires row { IsRow k }
        requires callable { IsAlwaysCallable f }
        requires answers { ComputesRow k (λ a b c r. post f a b c r) }
        ensures row { result.row ≡ k }
        ensures kept { result.function ≡ f }
    {
        Predef {
            row: k,
            function: f,
        }
    }
}

impl Predef {
    /// Returns the result of the function, which is what its row says, in the unit that follows from those of the arguments.
    pub fn call(&self, a: Qty, b: Qty, c: Qty) -> Qty
        ensures { result ≡ predefined_of self.now.row a b c }
    {
        // Each is within the bounds of a quantity.
        let (_, _, _) = (a.get(), b.get(), c.get());
        (self.function)(a, b, c)
    }
}
