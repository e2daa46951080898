//! Proves what the definitions of this crate mean in plain words.
ghost use Rattle.std.specs.Prelude.{◌≡◌, ◌≢◌, ◌≤◌, ◌↔◌, ℕ, ℤ, pos, neg_ℤ, List, map, Option, Some, None, Result, Contains};
ghost use Rattle.rw_base.specs.declared.quantity.ArithFault.{ArithFault};
ghost use Rattle.rw_base.specs.Quantity.{IsQuantity, AnswersExactly, quantity_max};
ghost use Rattle.rw_base.specs.Quotient.{floor_div, IsFloor};
ghost use Rattle.rw_base.specs.Dimension.{Dimension, AnswersDimension};
ghost use Rattle.rw_base.specs.Unit.{units, words_of_units, unit_in};
ghost use Rattle.rw_base.specs.Predefined.{rounded_down, predefined_of, IsFromZeroTo, IsMultipleOf, distance};
ghost use Rattle.rw_base.specs.declared.limits.TheConstants.{DEPTH_MAX, INSTRUCTIONS_MAX, LIST_MAX, LOOKS_MAX, PUTS_MAX, RULES_MAX, TEXT_MAX, WORDS_MAX};

/// What is exact has one answer: two calls that answer the same exact value, or the same exponents, answer alike.
#[tactic(auto, using(crate::proofs::OneAnswer::AnswersExactly_one, crate::proofs::OneAnswer::AnswersDimension_one))]
pub fn one_answer()
    ensures quantity { (exact : ℤ) (r s : Result ℤ ArithFault)
        → AnswersExactly exact r → AnswersExactly exact s → r ≡ s }
    ensures exponents { (d : Dimension) (r s : Option Dimension)
        → AnswersDimension d r → AnswersDimension d s → r ≡ s }
{}

/// Floor division gives the floor of the exact quotient, and no other number is that floor. Of quantities it gives a
/// quantity.
pub fn floor_division()
    ensures floor { (a b : ℤ) → IsFloor a b (floor_div a b) }
    ensures alone { (a b q : ℤ) → b ≢ pos 0 → IsFloor a b q → q ≡ floor_div a b }
    ensures fits { (a b : ℤ) → b ≢ pos 0 → IsQuantity a → IsQuantity (floor_div a b) }
{}

/// Rounding down gives a multiple that lies between 0 and the number, and no multiple there is nearer to it.
pub fn rounding_down()
    ensures multiple { (a b : ℤ) → b ≢ pos 0 → IsMultipleOf b (rounded_down a b) }
    ensures between { (a b : ℤ) → IsFromZeroTo a (rounded_down a b) }
    ensures nearest { (a b m : ℤ)
        → IsMultipleOf b m → IsFromZeroTo a m → distance a (rounded_down a b) ≤ distance a m }
{}

/// A predefined function answers a quantity where its arguments are quantities.
pub fn predefined_answers()
    ensures { (k : ℕ) (a b c : ℤ)
        → IsQuantity a → IsQuantity b → IsQuantity c → IsQuantity (predefined_of k a b c) }
{}

/// Each row of the table of units is found by its word, so no word stands there twice, and only words of the table
/// are found.
pub fn unit_table()
    ensures found { map (λ row. unit_in units row.0) units
        ≡ map (λ row. Some (row.1, row.2)) units }
    ensures none { (word : List ℕ) → unit_in units word ≡ None
        ↔ ¬ Contains (words_of_units units) word }
{}

/// Worked values of the predefined functions.
pub fn predefined_values()
    ensures least { predefined_of 1 (pos 3) (neg_ℤ (pos 5)) (pos 0) ≡ neg_ℤ (pos 5) }
    ensures greatest { predefined_of 2 (pos 3) (neg_ℤ (pos 5)) (pos 0) ≡ pos 3 }
    ensures size { predefined_of 3 (neg_ℤ (pos 5)) (pos 0) (pos 0) ≡ pos 5 }

    // Clamp: above the range, below it, and where the least is above the greatest.
    ensures above { predefined_of 4 (pos 9) (pos 2) (pos 7) ≡ pos 7 }
    ensures below { predefined_of 4 (pos 1) (pos 2) (pos 7) ≡ pos 2 }
    ensures crossed { predefined_of 4 (pos 5) (pos 7) (pos 2) ≡ pos 7 }

    // RoundDown, toward 0, and of a number over 0.
    ensures negative { predefined_of 5 (neg_ℤ (pos 7)) (pos 3) (pos 0) ≡ neg_ℤ (pos 6) }
    ensures positive { predefined_of 5 (pos 7) (neg_ℤ (pos 3)) (pos 0) ≡ pos 6 }
    ensures over_zero { predefined_of 5 (pos 7) (pos 0) (pos 0) ≡ pos 7 }
    ensures sign { predefined_of 6 (neg_ℤ (pos 9)) (pos 0) (pos 0) ≡ neg_ℤ (pos 1) }
    ensures no_sign { predefined_of 6 (pos 0) (pos 0) (pos 0) ≡ pos 0 }

    // MulDiv rounds down, over a negative number too, is 0 over 0, and is brought within -Q and Q after the division.
    ensures down { predefined_of 7 (neg_ℤ (pos 7)) (pos 1) (pos 2) ≡ neg_ℤ (pos 4) }
    ensures over_negative { predefined_of 7 (pos 7) (pos 1) (neg_ℤ (pos 2)) ≡ neg_ℤ (pos 4) }
    ensures none { predefined_of 7 (pos 5) (pos 5) (pos 0) ≡ pos 0 }
    ensures whole { predefined_of 7 quantity_max quantity_max quantity_max ≡ quantity_max }
    ensures most { predefined_of 7 quantity_max quantity_max (pos 1) ≡ quantity_max }
    ensures fewest { predefined_of 7 quantity_max (neg_ℤ quantity_max) (pos 1)
        ≡ neg_ℤ quantity_max }
    ensures no_function { predefined_of 0 (pos 7) (pos 7) (pos 7) ≡ pos 0 }
{}

/// What rules and their code that are read are held to, and how long a file is, in numbers: definitions have them by these names.
pub fn limits()
    ensures instructions { INSTRUCTIONS_MAX ≡ 1000000 }
    ensures looks { LOOKS_MAX ≡ 20000 }
    ensures puts { PUTS_MAX ≡ 2000 }
    ensures words { WORDS_MAX ≡ 1000000 }
    ensures list { LIST_MAX ≡ 4096 }
    ensures rules { RULES_MAX ≡ 200 }
    ensures depth { DEPTH_MAX ≡ 100 }
    ensures text { TEXT_MAX ≡ 16777216 }
{}
