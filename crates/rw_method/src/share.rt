//! Lists how a term can count in the balance of its object, and holds shares in parts of a thousand.
ghost use Rattle.std.specs.Prelude.{◌≡◌, ◌≤◌};
ghost use Rattle.rw_model.specs.declared.limits.TheConstants.{PARTS, SEEPAGE_MAX};

use std::marker::Model;

/// The share of what is conveyed that seeps away: 0 to 999 of a thousand parts.
#[derive(Clone, Copy, Debug, PartialEq, Eq, Drop)]
pub struct Seepage {
    parts: u16,
}

impl Model for Seepage {
    ghost use Rattle.std.specs.Prelude.{ℕ, ◌≤◌};
    ghost use Rattle.rw_model.specs.declared.limits.TheConstants.{SEEPAGE_MAX};

    ghost Value = { ℕ };

    ghost view = { λ s. s.parts };

    ghost invariant = { λ s. s.parts ≤ SEEPAGE_MAX };

    ghost inverse = { λ n. record { parts = n } };
}

impl Seepage {
    /// Returns the share of this many of a thousand parts, 0 to 999.
    pub fn of(parts: u16) -> Seepage
        requires { parts ≤ SEEPAGE_MAX }
        ensures { result ≡ parts }
    {
        Seepage { parts }
    }

    /// Returns how many of a thousand parts it is, 0 to 999.
    pub fn get(self) -> u16
        ensures value { result ≡ self }
        ensures bound { result ≤ SEEPAGE_MAX }
    {
        self.parts
    }
}

/// The share of what is held that is released: 1 to 1000 of a thousand parts.
#[derive(Clone, Copy, Debug, PartialEq, Eq, Drop)]
pub struct Release {
    parts: u16,
}

impl Model for Release {
    ghost use Rattle.std.specs.Prelude.{ℕ, ◌≤◌};
    ghost use Rattle.rw_model.specs.declared.limits.TheConstants.{PARTS};

    ghost Value = { ℕ };

    ghost view = { λ r. r.parts };

    ghost invariant = { λ r. (1 ≤ r.parts) × (r.parts ≤ PARTS) };

    ghost inverse = { λ n. record { parts = n } };
}

impl Release {
    /// Returns the share of this many of a thousand parts, 1 to 1000.
    pub fn of(parts: u16) -> Release
        requires some { 1 ≤ parts }
        requires most { parts ≤ PARTS }
        ensures { result ≡ parts }
    {
        Release { parts }
    }

    /// Returns how many of a thousand parts it is, 1 to 1000.
    pub fn get(self) -> u16
        ensures value { result ≡ self }
        ensures some { 1 ≤ result }
        ensures most { result ≤ PARTS }
    {
        self.parts
    }
}

/// The ways in which a term can count in its object's balance.
#[derive(Clone, Copy, Debug, PartialEq, Eq)]
pub enum Share {
    /// It brings water.
    Brings,
    /// It takes water.
    Takes,
    /// It brings water, of which this share seeps away, rounded down.
    Conveys(Seepage),
    /// It joins what is held, and of both a share is released, rounded down.
    Routes {
        /// What is held without it, in m3.
        content: i64,
        /// The share that is released.
        release: Release,
    },
}
