//! Holds one method for each kind of object, and solves an object by the method of its kind.
ghost use Rattle.std.specs.Prelude.{◌≡◌, ◌≢◌, ◌↔◌, ◌≤◌, ℕ, map, length, IfOk, IsOk, Err, Some};
ghost use Rattle.rw_method.specs.declared.catalogue.CatalogueFault.TheVariants as CatalogueFault;
ghost use Rattle.rw_model.specs.Code.{code_of};
ghost use Rattle.rw_method.specs.View.{IsViewOf};
ghost use Rattle.rw_method.specs.Catalogue.{first_wrong, AreInOrder};
ghost use Rattle.rw_method.specs.Solve.{solve_of};

use crate::{Method, Solved, View};
use rw_model::Kind;

// How many kinds have a method.
const KINDS: usize = 9;

/// The reasons why methods are no catalogue.
#[derive(Clone, Copy, Debug, PartialEq, Eq)]
pub enum CatalogueFault {
    /// There are not 9 methods, but this many.
    WrongCount(usize),
    /// The method in this place, counted from 1, is of another kind.
    WrongPlace(u8),
}

/// One method for each kind with a balance, in the order of the kinds' numbers.
#[derive(Drop)]
pub struct Catalogue {
    /// The methods, in that order.
    pub methods: Vec<Box<dyn Method>>,
    ghost whole: { length methods.items ≡ 9 },
}

fn code_of(method: &Box<dyn Method>) -> u8
    ensures { result ≡ code method.now }
{
    method.code()
}

// The first place, counted from 1, with a method of another kind.
fn first_wrong(methods: &[Box<dyn Method>]) -> Option<u8>
    requires { length methods.now ≤ 9 }
    ensures { result ≡ first_wrong 1 (map (λ b. code b) methods.now) }
{
    let mut place = 1u8;
    for method in methods {
        if code_of(method) != place {
            return Some(place);
        }
        place += 1;
    }
    None
}

impl Catalogue {
    /// Returns the catalogue of these methods: gage, confluence, bifurcation, reach, reservoir, water user, canal, power
    /// reservoir, routed reach.
    ///
    /// Their count is judged first. `WrongPlace` names the first method of another kind.
    pub fn of(methods: Vec<Box<dyn Method>>) -> Result<Catalogue, CatalogueFault>
        ensures methods { IfOk result (λ catalogue. catalogue.methods ≡ methods) }
        ensures order { IfOk result
            (λ catalogue. AreInOrder (map (λ b. code b) catalogue.methods.items)) }
        ensures accepted { IsOk result
            ↔ ((length methods.items ≡ 9) × AreInOrder (map (λ b. code b) methods.items)) }
        ensures count { (found : ℕ) → result ≡ Err (CatalogueFault.WrongCount found)
            → (found ≡ length methods.items) × (found ≢ 9) }
        ensures place { (place : ℕ) → result ≡ Err (CatalogueFault.WrongPlace place)
            → (length methods.items ≡ 9)
            × (first_wrong 1 (map (λ b. code b) methods.items) ≡ Some place) }
    {
        if methods.len() != KINDS {
            return Err(CatalogueFault::WrongCount(methods.len()));
        }
        if let Some(place) = first_wrong(&methods) {
            return Err(CatalogueFault::WrongPlace(place));
        }
        Ok(Catalogue { methods })
    }

    /// Returns the method of a kind with a balance. A caller that asks it directly has its answer, which is large, in one place
    /// alone.
    pub fn method(&self, kind: &Kind) -> &Box<dyn Method>
        requires order { AreInOrder (map (λ b. code b) self.now.methods.items) }
        requires balance { 1 ≤ code_of kind.now }
        ensures { code_of kind.now ≡ code result.now }
    {
        let place = usize::from(kind.code()) - 1;
        &self.methods[place]
    }

    /// Returns what a dispatch of an object returns: what the method of its kind does. It takes no memory. `docs/DEFINITIONS.md`
    /// has it under "How an object solves".
    pub fn solve(&self, kind: &Kind, view: &View) -> Solved
        requires order { AreInOrder (map (λ b. code b) self.now.methods.items) }
        requires balance { 1 ≤ code_of kind.now }
        requires view { IsViewOf kind.now view.now }
        ensures { result ≡ solve_of kind.now view.entry.now }
    {
        let mut solved = Solved::Idle;
        self.method(kind).solve(kind, view, &mut solved);
        solved
    }
}
