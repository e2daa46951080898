//! Limits rules, the code that they are compiled to, and the length of a text. `docs/LANGUAGE.md` has these limits under "Limits,
//! costs and budgets".

/// The maximum that a firing may count.
pub const INSTRUCTIONS_MAX: u64 = 1_000_000;

/// The maximum number of looks of a firing at cells.
pub const LOOKS_MAX: u64 = 20_000;

/// The maximum number of puts of a firing.
pub const PUTS_MAX: u64 = 2_000;

/// The maximum number of words that a firing may keep at a time.
pub const WORDS_MAX: u64 = 1_000_000;

/// The maximum number of elements of a list.
pub const LIST_MAX: u16 = 4096;

/// The maximum number of rules of a policy, and of functions.
pub const RULES_MAX: u16 = 200;

/// The maximum depth to which a declaration may be nested.
pub const DEPTH_MAX: u8 = 100;

/// The maximum length of a text, in bytes.
pub const TEXT_MAX: usize = 16_777_216;
