//! Counts how often each object is dispatched, or each rule fires, by its number.
ghost use Rattle.std.specs.Prelude.{◌≡◌, ◌<◌, ℕ, IfOk, length};
ghost use Rattle.rw_engine.specs.Counts.{HasCount, count_of_number, raised};

use rw_base::NoMemory;
use std::alloc::Global;
use std::marker::Model;

/// How often each of the numbers from 1 on was counted, seen as the list of the counts.
#[derive(Drop)]
pub(crate) struct Counts {
    items: Vec<u8>,
}

impl Model for Counts {
    ghost use Rattle.std.specs.Prelude.{ℕ, List};

    ghost Value = { List ℕ };

    ghost view = { λ counts. counts.items.items };
}

impl Counts {
    /// For so many numbers, none of them counted. No other call takes memory.
    pub(crate) fn zero(alloc: Global, many: u16) -> Result<Counts, NoMemory>
        ensures many { IfOk result (λ counts. length counts ≡ many) }
    {
        Ok(Counts {
            items: Vec::from_elem(alloc, 0, usize::from(many))?,
        })
    }

    /// Counts anew.
    pub(crate) fn clear(&mut self)
        ensures zero { (number : ℕ) → count_of_number self.new number ≡ 0 }
        ensures many { length self.new ≡ length self.old }
    {
        for count in self.items.iter_mut() {
            *count = 0;
        }
    }

    /// How often a number was counted.
    pub(crate) fn get(&self, number: u16) -> u8
        requires { HasCount self.now number }
        ensures { result ≡ count_of_number self.now number }
    {
        self.items[usize::from(number) - 1]
    }

    /// Counts a number, which was counted less often than 255 times.
    pub(crate) fn raise(&mut self, number: u16)
        requires known { HasCount self.old number }
        requires few { count_of_number self.old number < 255 }
        ensures { self.new ≡ raised self.old number }
    {
        self.items[usize::from(number) - 1] += 1;
    }
}
