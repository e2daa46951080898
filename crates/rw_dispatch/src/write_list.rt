//! Holds the writes of one dispatch without taking memory.
ghost use Rattle.std.specs.Prelude.{◌≡◌, ◌<◌, [], ◌∷◌, ◌++◌, length};

use rw_run::Write;
use std::marker::Model;

/// The writes of one dispatch: at most 8 contents, in the order in which they are put. What is removed stays after the count, so
/// that removing all is quick.
#[derive(Debug, Drop)]
pub struct WriteList {
    writes: [Write; 8],
    count: usize,
}

impl Model for WriteList {
    ghost use Rattle.std.specs.Prelude.{◌≡◌, ◌≤◌, List, length, take};
    ghost use Rattle.rw_run.specs.Log.{Asked};

    ghost Value = { List Asked };

    ghost view = { λ w. take w.count w.writes };

    ghost invariant = { λ w. (w.count ≤ 8) × (length w.writes ≡ 8) };
}

impl WriteList {
    /// Returns the list without writes.
    pub fn none() -> WriteList
        ensures { result ≡ [] }
    {
        WriteList {
            writes: [Write::default(); 8],
            count: 0,
        }
    }

    /// Removes all writes.
    pub(crate) fn clear(&mut self)
        ensures { self.new ≡ [] }
    {
        self.count = 0;
    }

    /// Adds a write at the end.
    pub(crate) fn push(&mut self, write: Write)
        requires { length self.old < 8 }
        ensures { self.new ≡ self.old ++ write ∷ [] }
    {
        let count = self.count;
        self.writes[count] = write;
        self.count = count + 1;
    }

    /// Returns the writes.
    pub fn as_slice(&self) -> &[Write]
        ensures { result.now ≡ self.now }
    {
        &self.writes[..self.count]
    }
}
