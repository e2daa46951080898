//! Holds a function for each row of the table, and calls it by the number of the row.
ghost use Rattle.std.specs.Prelude.{◌≡◌, ◌≢◌, ◌↔◌, ◌≤◌, ℕ, map, length, IfOk, IsOk, Err, Some};
ghost use Rattle.rpl_predef.specs.declared.predefs.PredefsFault.TheVariants as PredefsFault;
ghost use Rattle.rw_base.specs.Predefined.{predefined_of};
ghost use Rattle.rpl_predef.specs.Rows.{IsRow, first_wrong_row, AreRowsInOrder};

use crate::Predef;
use rw_base::Qty;

// How many rows the table has.
const ROWS: usize = 7;

/// The reasons why functions are no table.
#[derive(Clone, Copy, Debug, PartialEq, Eq)]
pub enum PredefsFault {
    /// There are not 7 functions, but this many.
    WrongCount(usize),
    /// The function in this place, counted from 1, is of another row.
    WrongPlace(u8),
}

/// One function for each row of the table, in the order of the rows' numbers.
#[derive(Drop)]
pub struct Predefs {
    /// The functions, in that order.
    pub rows: Vec<Predef>,
    ghost whole: { length rows.items ≡ 7 },
    ghost ordered: { AreRowsInOrder (map (λ p. p.row) rows.items) },
}

// The first place, counted from 1, with a function of another row.
fn first_wrong(rows: &[Predef]) -> Option<u8>
    requires { length rows.now ≤ 7 }
    ensures { result ≡ first_wrong_row 1 (map (λ p. p.row) rows.now) }
{
    let mut place = 1u8;
    for predef in rows {
        if predef.row != place {
            return Some(place);
        }
        place += 1;
    }
    None
}

impl Predefs {
    /// Returns the table of these functions: Min, Max, Abs, Clamp, RoundDown, Sign, MulDiv.
    ///
    /// Their count is judged first. `WrongPlace` names the first function of another row.
    pub fn of(rows: Vec<Predef>) -> Result<Predefs, PredefsFault>
        ensures accepted { IsOk result
            ↔ ((length rows.items ≡ 7) × AreRowsInOrder (map (λ p. p.row) rows.items)) }
        ensures rows { IfOk result (λ predefs. predefs.rows ≡ rows) }
        ensures count { (found : ℕ) → result ≡ Err (PredefsFault.WrongCount found)
            → (found ≡ length rows.items) × (found ≢ 7) }
        ensures place { (place : ℕ) → result ≡ Err (PredefsFault.WrongPlace place)
            → (length rows.items ≡ 7)
            × (first_wrong_row 1 (map (λ p. p.row) rows.items) ≡ Some place) }
    {
        if rows.len() != ROWS {
            return Err(PredefsFault::WrongCount(rows.len()));
        }
        if let Some(place) = first_wrong(&rows) {
            return Err(PredefsFault::WrongPlace(place));
        }
        Ok(Predefs { rows })
    }

    /// Returns what row `k` of the table, 1 to 7, says of these arguments, by the function that was handed in for it, in the unit
    /// that follows from theirs: `docs/LANGUAGE.md` has the functions under "Numbers". It takes no memory.
    pub fn call(&self, k: u8, a: Qty, b: Qty, c: Qty) -> Qty
        requires { IsRow k }
        ensures { result ≡ predefined_of k a b c }
    {
        self.rows[usize::from(k) - 1].call(a, b, c)
    }
}
