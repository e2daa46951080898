//! Holds the puts of one dispatch without taking memory.
ghost use Rattle.std.specs.Prelude.{◌≡◌, ◌<◌, [], ◌∷◌, ◌++◌, length};

use crate::Put;
use std::marker::Model;

/// The puts of one dispatch: at most 8, in order of place. What is removed stays after the count, so that removing all is quick.
#[derive(Debug, Drop)]
pub struct PutList {
    puts: [Put; 8],
    count: usize,
}

impl Model for PutList {
    ghost use Rattle.std.specs.Prelude.{◌≡◌, ◌≤◌, List, length, take};
    ghost use Rattle.rw_method.specs.declared.put.Put.{Put};

    ghost Value = { List Put };

    ghost view = { λ p. take p.count p.puts };

    ghost invariant = { λ p. (p.count ≤ 8) × (length p.puts ≡ 8) };
}

impl PutList {
    /// Returns the list without puts.
    pub fn none() -> PutList
        ensures { result ≡ [] }
    {
        PutList {
            puts: [Put::default(); 8],
            count: 0,
        }
    }

    /// Adds a put at the end. There is room for 8.
    pub fn push(&mut self, put: Put)
        requires { length self.old < 8 }
        ensures { self.new ≡ self.old ++ put ∷ [] }
    {
        let count = self.count;
        self.puts[count] = put;
        self.count = count + 1;
    }

    /// Removes all puts.
    pub fn clear(&mut self)
        ensures { self.new ≡ [] }
    {
        self.count = 0;
    }

    /// Returns the puts.
    pub fn as_slice(&self) -> &[Put]
        ensures { result.now ≡ self.now }
    {
        &self.puts[..self.count]
    }
}
