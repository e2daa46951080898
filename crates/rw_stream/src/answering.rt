//! Writes the answer of a dispatch that puts the solved term and nothing else.
ghost use Rattle.std.specs.Prelude.{◌≡◌, ◌∷◌, [], None};
ghost use Rattle.rw_method.specs.Puts.{put, solved_put, is_bounded};
ghost use Rattle.rw_method.specs.Solve.{answer, answer_of_puts};

use rw_method::{Balanced, Solved, View, add_put, put_solved};

// Puts one value.
#[inline(always)]
fn put_one(view: &View, place: u8, value: i128, number: u16, solved: &mut Solved)
    ensures { solved.new
        ≡ answer_of_puts (is_bounded view.entry.now) (put place value number ∷ []) }
{
    solved.clear();
    let asked = match solved {
        Solved::Puts(puts) => add_put(view, puts, place, value, number),
        _ => Ok(()),
    };
    if let Err(answer) = asked {
        *solved = answer;
    }
}

/// Writes the answer that puts the solved term and nothing else, in the place of another answer, since an answer is large.
#[inline(always)]
pub(crate) fn answer_solved(view: &View, balanced: Balanced, solved: &mut Solved)
    ensures { solved.new
        ≡ answer (is_bounded view.entry.now) (solved_put balanced) balanced None }
{
    match balanced {
        Balanced::Idle => *solved = Solved::Idle,
        Balanced::Solves {
            place,
            value,
            number,
        } => put_one(view, place, value, number, solved),
        _ => *solved = put_solved(view, balanced),
    }
}
