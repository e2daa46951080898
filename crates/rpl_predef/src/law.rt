//! Proves what the table of predefined functions is, as the program reaches it.
ghost use Rattle.std.specs.Prelude.{◌≡◌, Some, None, [], ◌∷◌};
ghost use Rattle.rpl_predef.specs.Rows.{first_wrong_row};

/// Seven rows with Min and Max exchanged are wrong in place 1, and in order they are wrong nowhere.
pub fn worked_places()
    ensures exchanged { first_wrong_row 1 (2 ∷ 1 ∷ 3 ∷ 4 ∷ 5 ∷ 6 ∷ 7 ∷ []) ≡ Some 1 }
    ensures last { first_wrong_row 1 (1 ∷ 2 ∷ 3 ∷ 4 ∷ 5 ∷ 6 ∷ 6 ∷ []) ≡ Some 7 }
    ensures order { first_wrong_row 1 (1 ∷ 2 ∷ 3 ∷ 4 ∷ 5 ∷ 6 ∷ 7 ∷ []) ≡ None }
{}
