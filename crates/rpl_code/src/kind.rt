//! Lists the kinds of values, and counts the words that a value of each takes.
ghost use Rattle.std.specs.Prelude.{◌≡◌};
ghost use Rattle.rpl_code.specs.Weight.{words_of};

/// The kinds of values: a number, a truth value, a timestep, a slot, or a list of a limited number of numbers or slots.
#[derive(Clone, Copy, Debug, PartialEq, Eq, Drop)]
pub enum ValueKind {
    /// A number.
    N,
    /// True or false.
    B,
    /// A timestep.
    D,
    /// A slot.
    S,
    /// A list of at most this many numbers.
    NList(u16),
    /// A list of at most this many slots.
    SList(u16),
}

impl ValueKind {
    /// Returns the number of words that a value of this kind takes: one, and for a list one more than its maximum length.
    pub fn words(self) -> u32
        ensures { result ≡ words_of self }
    {
        match self {
            ValueKind::NList(most) | ValueKind::SList(most) => u32::from(most) + 1,
            _ => 1,
        }
    }
}
