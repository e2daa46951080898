//! Limits how much a basin may have, and how great the parameters of its objects may be.

/// The maximum length of a name, in bytes.
pub const NAME_MAX: usize = 32;

/// The maximum number of objects.
pub const OBJECTS_MAX: u16 = 500;

/// The maximum number of slots.
pub const SLOTS_MAX: u16 = 4_000;

/// The maximum number of cells, which are slots at timesteps.
pub const CELLS_MAX: u32 = 1_000_000;

/// The maximum number of slots of a link.
pub const LINK_MAX: usize = 8;

/// The maximum number of slots of a data object.
pub const DATA_SLOTS_MAX: usize = 8;

/// The greatest lag of a reach, in timesteps.
pub const LAG_MAX: u8 = 30;

/// The number of parts of the whole in which shares are given.
pub const PARTS: u16 = 1000;

/// The greatest share that may seep away, in such parts.
pub const SEEPAGE_MAX: u16 = 999;

/// The greatest power: how many kWh 10^9 m3 give that fall by 1 mm.
pub const POWER_MAX: u16 = 10_000;
