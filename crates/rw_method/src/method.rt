//! Defines a method: how the objects of one kind solve what they do not know.
ghost use Rattle.std.specs.Prelude.{◌≡◌, ℕ};
ghost use Rattle.rw_model.specs.Code.{code_of};
ghost use Rattle.rw_method.specs.View.{IsViewOf};
ghost use Rattle.rw_method.specs.Solve.{solve_of};

use crate::{Solved, View};
use rw_model::Kind;

/// The interface of a method: how the objects of one kind solve what they do not know, as `docs/DEFINITIONS.md` says under "How
/// an object solves".
pub trait Method: Drop {
    /// The number of the kind.
    ghost code: { Self → ℕ };

    /// Returns the number of the kind, as `Kind::code` has them.
    fn code(&self) -> u8
        ensures { result ≡ code self.now };

    /// Writes what a dispatch of an object of that kind returns, in the place of another result. It takes no memory.
    fn solve(&self, kind: &Kind, view: &View, solved: &mut Solved)
        requires code { code_of kind.now ≡ code self.now }
        requires view { IsViewOf kind.now view.now }
        ensures { solved.new ≡ solve_of kind.now view.entry.now };
}
