//! Limits how many rules an agenda may have, and sizes its parts.
use rw_base::limits;

/// The maximum number of rules.
pub const RULES_MAX: usize = limits::RULES_MAX as usize;

/// The number of timesteps that have places of their own in an index of cells. Those that are this far apart share them.
pub(crate) const INDEX_STEPS: u16 = 16;

/// The number of words of 64 bits that have a bit for each rule.
pub(crate) const TURN_WORDS: usize = 4;

/// The number of looks from which on they are copied at once. Fewer are added one by one.
pub(crate) const MANY_LOOKS: usize = 16;
