//! Holds the inflows of a reach with a lag before the run.
ghost use Rattle.std.specs.Prelude.{◌≡◌};

use std::marker::Model;

/// The inflows of a lagged reach before the run, in m3/step, oldest first: the last one is that of timestep 0.
#[derive(Debug, Drop)]
pub struct History {
    inflows: Vec<i64>,
}

impl Model for History {
    ghost use Rattle.std.specs.Prelude.{List, ℤ};

    ghost Value = { List ℤ };

    ghost view = { λ h. h.inflows.items };
}

impl History {
    /// Returns the history of these inflows, in m3/step, oldest first.
    pub fn of(inflows: Vec<i64>) -> History
        ensures { result ≡ inflows.items }
    {
        History { inflows }
    }

    /// Returns the inflows, in m3/step, oldest first.
    pub fn as_slice(&self) -> &[i64]
        ensures { result.now ≡ self.now }
    {
        self.inflows.as_slice()
    }
}
