//! Proves what the definitions of this crate mean for worked tokens and declarations, and that a text is read in one way.
ghost use Rattle.std.specs.Prelude.{◌≡◌, ◌≤◌, ℕ, List, [], ◌∷◌, Ok, Err, codes, pos};
ghost use Rattle.rw_base.specs.Quantity.{quantity_max};
ghost use Rattle.rpl_tree.specs.Tree.{Declared, brackets};
ghost use Rattle.rpl_tree.specs.declared.rules.ParsedRules.{ParsedRules};
ghost use Rattle.rpl_tree.specs.Seen.{rules_of};
ghost use Rattle.rpl_tree.specs.Bounds.{AreLimited};
ghost use Rattle.rpl_parse.specs.declared.token.Mark.TheVariants as Mark;
ghost use Rattle.rpl_parse.specs.Tokens.{Tok, mark, word, digits, text, lined};
ghost use Rattle.rpl_parse.specs.Scan.{tokens, all, bad_at, greatest};
ghost use Rattle.rpl_parse.specs.declared.front.TheConstants.{GREATEST};
ghost use Rattle.rpl_tree.specs.Depth.{depth};
ghost use Rattle.rpl_parse.specs.Grammar.{Spells};
ghost use Rattle.rpl_parse.specs.Statements.{IsDeclaration};
ghost use Rattle.rpl_parse.specs.Declarations.{pieces, piece, IsReading, bad_token, some_reading, one_reading, IsRuleset};
ghost use Rattle.rpl_parse.specs.Worked.{number_token, whole_number, marked, every_word, word_marks, every_sign, sign_marks, differences, from_the_left, logical, or_last, levels, tighter_right, chain_tokens, tighter_left, setting, set_to, comparisons};

/// A text is read as one ruleset, or refused for one reason.
pub fn one_reading()
    ensures some { some_reading }
    ensures one { one_reading }
{}

/// In a ruleset each declaration is at most 100 deep and has no more nodes than a text has bytes, and there are at most 200
/// rules and 200 functions.
pub fn bounds()
    ensures all { (rules : ParsedRules) → IsRuleset rules → AreLimited (rules_of rules) }
{}

/// Tokens are the longest; a word that begins as a reserved word is a name; comments and blanks separate tokens.
#[tactic(auto, unfolding(crate::specs::Scan::scan))]
pub fn worked_tokens()
    ensures longest { tokens (codes "<=>") ≡ all (lined (mark Mark.LessEqual) 1
        ∷ lined (mark Mark.Greater) 1 ∷ []) }
    ensures word { tokens (codes "ENDIFS") ≡ all (lined (word (codes "ENDIFS")) 1 ∷ []) }
    ensures reserved { tokens (codes "ENDIF") ≡ all (lined (mark Mark.EndIf) 1 ∷ []) }
    ensures line { tokens (codes "# a\n\nt") ≡ all (lined (mark Mark.Now) 3 ∷ []) }
    ensures string { tokens (codes "\"a#\"") ≡ all (lined (text (codes "a#")) 1 ∷ []) }
    ensures zeros { tokens (codes "000000000000000012") ≡ all (lined (number_token 12) 1 ∷ []) }
    ensures most { tokens (codes "100000000000000000")
        ≡ all (lined (number_token greatest) 1 ∷ []) }
{}

/// Each reserved word and each mark is the token that it spells.
#[tactic(auto, unfolding(crate::specs::Scan::scan))]
pub fn words_and_marks()
    ensures words { tokens every_word ≡ marked word_marks }
    ensures marks { tokens every_sign ≡ marked sign_marks }
{}

/// A byte that no token begins with, a string that is not closed in its line, 19 digits and a number above Q are bad tokens, at
/// the line in which they begin.
#[tactic(auto, unfolding(crate::specs::Scan::scan))]
pub fn worked_bad_tokens()
    ensures byte { tokens (codes "t\n@\n@") ≡ bad_at 2 }
    ensures string { tokens (codes "\n\"a\n\"") ≡ bad_at 2 }
    ensures digits { tokens (codes "0000000000000000001") ≡ bad_at 1 }
    ensures above { tokens (codes "100000000000000001") ≡ bad_at 1 }
    ensures limit { pos greatest ≡ quantity_max }
{}

/// Chains associate to the left. From the tightest to the loosest there are `[ ]`, `-` before one part, products, sums,
/// comparisons, NOT, AND, OR: each can be part of the next one without brackets, on either side. Brackets are a node.
pub fn worked_expressions()
    ensures chain { Spells from_the_left differences [] }
    ensures logic { Spells or_last logical [] }
    ensures right { Spells tighter_right levels [] }
    ensures left { Spells tighter_left chain_tokens [] }
    ensures node { depth (brackets (whole_number 1)) ≡ 2 }
{}

/// A rule that sets a slot, and one that compares twice.
pub fn worked_rules()
    ensures set { IsDeclaration (setting differences) (set_to from_the_left) }
    ensures twice { (d : Declared) → ¬ IsDeclaration (setting comparisons) d }
{}

/// Declarations are cut after the first word that ends one; what is left is one, too.
#[tactic(auto, unfolding(crate::specs::Scan::scan))]
pub fn worked_pieces()
    ensures two { pieces
        (lined (mark Mark.EndRule) 1 ∷ lined (mark Mark.Rule) 2 ∷ lined (mark Mark.Is) 3 ∷ [])
        ≡ piece (mark Mark.EndRule ∷ []) 1 ∷ piece (mark Mark.Rule ∷ mark Mark.Is ∷ []) 2 ∷ [] }
    ensures none { IsReading [] (Ok []) }
    ensures bad { IsReading (codes "RULE @ 0") (Err (bad_token 1)) }
{}

/// The greatest number that is read of a ruleset.
pub fn limits_of_rulesets()
    ensures number { GREATEST ≡ 100000000000000000 }
{}
