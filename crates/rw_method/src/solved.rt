//! Lists what a dispatch of an object can return.
ghost use Rattle.std.specs.Prelude.{◌≡◌, []};
ghost use Rattle.rw_method.specs.declared.solved.Solved.TheVariants as Solved;

use crate::PutList;

/// The results of a dispatch of an object.
#[derive(Debug, Drop)]
pub enum Solved {
    /// Too little is known, and nothing is put.
    Idle,
    /// The object puts these values.
    Puts(PutList),
    /// What is given does not agree.
    Conflict {
        /// The slot's place.
        place: u8,
        /// The value that is there, in the base units of the slot's dimension.
        held: i128,
        /// The value that the other slots give, in the same units.
        solved: i128,
    },
    /// A slot would get a value that it cannot have.
    OutOfRange {
        /// The slot's place.
        place: u8,
        /// The value, in the base units of the slot's dimension.
        value: i128,
    },
}

impl Solved {
    /// Makes it a result that puts nothing, whatever it was. The puts are removed where they are, since a list of them is large.
    #[inline(always)]
    pub fn clear(&mut self)
        ensures { self.new ≡ Solved.Puts [] }
    {
        match self {
            Solved::Puts(puts) => puts.clear(),
            _ => *self = Solved::Puts(PutList::none()),
        }
    }
}
