//! Proves worked water balances of runs. Each law is the `ensures` of a function that does nothing.
ghost use Rattle.std.specs.Prelude.{◌≡◌, pos, [], ◌∷◌, Some, None, codes, false, true};
ghost use Rattle.rw_books.specs.Worked.{book, holding_dam, holding_reach};

/// A routed reach that holds 1000 and releases a quarter: 200 flow in on the first of three days, 693 out, and 507 are left. A
/// dam of 1000 into which 300 flow and out of which 300 flow. A dam with a LocalInflow of 30 and a Diversion of 5 on its one day,
/// and the same where the LocalInflow is not known. No day at all.
pub fn worked_books()
    ensures reach { book (codes "W") holding_reach 3 ((pos 200 ∷ pos 0 ∷ pos 0 ∷ [])
        ∷ (pos 300 ∷ pos 225 ∷ pos 168 ∷ []) ∷ (pos 900 ∷ pos 675 ∷ pos 507 ∷ []) ∷ [])
        ≡ Some (record { inflow = pos 200; outflow = pos 693; held = pos 507 }) }
    ensures dam { book (codes "Dam") (holding_dam false) 3 ((pos 100 ∷ pos 100 ∷ pos 100 ∷ [])
        ∷ (pos 50 ∷ pos 150 ∷ pos 100 ∷ []) ∷ (pos 1050 ∷ pos 1000 ∷ pos 1000 ∷ []) ∷ [])
        ≡ Some (record { inflow = pos 300; outflow = pos 300; held = pos 1000 }) }
    ensures sides { book (codes "Dam") (holding_dam true) 1 ((pos 100 ∷ []) ∷ (pos 20 ∷ [])
        ∷ (pos 1105 ∷ [])
        ∷ (pos 30 ∷ []) ∷ (pos 5 ∷ []) ∷ [])
        ≡ Some (record { inflow = pos 130; outflow = pos 25; held = pos 1105 }) }
    ensures unknown { book (codes "Dam") (holding_dam true) 1 ((pos 100 ∷ []) ∷ (pos 20 ∷ [])
        ∷ (pos 1105 ∷ [])
        ∷ [] ∷ (pos 5 ∷ []) ∷ []) ≡ None }
    ensures none { book (codes "Dam") (holding_dam false) 0 []
        ≡ Some (record { inflow = pos 0; outflow = pos 0; held = pos 1000 }) }
{}
