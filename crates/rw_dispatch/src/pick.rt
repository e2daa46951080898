//! Defines who decides which of the objects that wait is dispatched next.
ghost use Rattle.std.specs.Prelude.{◌≡◌, ◌≤◌, ◌<◌, ℕ, List, length, true};
ghost use Rattle.rw_dispatch.specs.Pick.{Picking, newest, oldest};
ghost use Rattle.rw_dispatch.specs.Queue.{objects_of};

use rw_base::ObjectNo;

/// The interface of the code that decides which of the objects that wait is dispatched next.
pub trait Pick {
    /// The rule by which it picks.
    ghost rule: { Self → Picking };

    /// Returns the place, among those that wait, of the object that is dispatched, by how many dispatches of the run there were.
    /// At least one object waits; they are in the order of the events since which they wait, and of one event in order of number.
    fn pick(&self, turn: u64, waiting: &[ObjectNo]) -> usize
        requires some { 1 ≤ length waiting.now }
        ensures picked { result ≡ rule self.now turn (objects_of waiting.now) }
        ensures below { result < length waiting.now };

    /// Returns whether it is known to pick the first always, so that it need not be asked.
    fn is_oldest(&self) -> bool
        ensures { result ≡ true → (turn : ℕ) (waits : List ℕ) → rule self.now turn waits ≡ 0 }
    {
        false
    }
}

/// Picks the object that has waited longest.
#[derive(Clone, Copy, Debug, PartialEq, Eq)]
pub struct Oldest;

impl Pick for Oldest {
    ghost rule = { λ _. oldest };

    fn pick(&self, _turn: u64, _waiting: &[ObjectNo]) -> usize {
        0
    }

    fn is_oldest(&self) -> bool {
        true
    }
}

/// Picks the object that has waited shortest.
#[derive(Clone, Copy, Debug, PartialEq, Eq)]
pub struct Newest;

impl Pick for Newest {
    ghost rule = { λ _. newest };

    fn pick(&self, _turn: u64, waiting: &[ObjectNo]) -> usize {
        waiting.len() - 1
    }
}
