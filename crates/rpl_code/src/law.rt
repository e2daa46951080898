//! Proves that writing and reading undo each other, and what both give on worked texts.
ghost use Rattle.std.specs.Prelude.{◌≡◌, ◌≤◌, length, Ok, Err, [], ◌∷◌, ◌++◌, codes, List, ℕ, Result, MatchResult};
ghost use Rattle.rw_base.specs.declared.limits.TheConstants.{TEXT_MAX};
ghost use Rattle.rpl_code.specs.declared.numbers.TheConstants.{GREATEST};
ghost use Rattle.rw_base.specs.Answers.{Answers};
ghost use Rattle.rpl_code.specs.declared.instruction.Instruction.TheVariants as Instruction;
ghost use Rattle.rpl_code.specs.declared.block.Block.{Block};
ghost use Rattle.rpl_code.specs.declared.fault.CodeFault.{CodeFault};
ghost use Rattle.rpl_code.specs.declared.fault.CodeFault.TheVariants.{NoMemory};
ghost use Rattle.rpl_code.specs.Bounds.{IsCode};
ghost use Rattle.rpl_code.specs.Spelling.{spelt};
ghost use Rattle.rpl_code.specs.Reading.{read, bad_line, truncated};
ghost use Rattle.rpl_code.specs.Answers.{code_refusal_of};
ghost use Rattle.rpl_code.specs.Worked.{
  plain_rule,
  capped_code,
  capped_text,
  mixed,
  mixed_text,
  rule_text,
  seven_kept,
  seven_kept_text,
  two_puts,
  two_puts_text,
};

/// The text of a code is these lines, and they are read as the code.
pub fn worked_codes()
    ensures capped { spelt capped_code ≡ capped_text }
    ensures capped_is_read { read capped_text ≡ Ok capped_code }
    ensures mixed { spelt mixed ≡ mixed_text }
    ensures mixed_is_read { read mixed_text ≡ Ok mixed }
    ensures seven_kept { spelt seven_kept ≡ seven_kept_text }
    ensures seven_kept_is_read { read seven_kept_text ≡ Ok seven_kept }
    ensures two_puts { spelt two_puts ≡ two_puts_text }
    ensures two_puts_is_read { read two_puts_text ≡ Ok two_puts }
    ensures none { spelt [] ≡ codes "CODE 1\n" }
    ensures none_is_read { read (codes "CODE 1\n") ≡ Ok [] }
    ensures one { read (rule_text (codes "add")) ≡ Ok (plain_rule (Instruction.Add ∷ [])) }
{}

/// Lines that are no lines, each the fourth of its text. Numbers have no leading zeros, names begin with no digit, and
/// one blank stands between words.
pub fn worked_refusals()
    ensures zeros { read (rule_text (codes "num 01")) ≡ Err (bad_line 4) }
    ensures minus_zero { read (rule_text (codes "num -0")) ≡ Err (bad_line 4) }
    ensures great { read (rule_text (codes "num 100000000000000001")) ≡ Err (bad_line 4) }
    ensures number { read (rule_text (codes "load 4294967296")) ≡ Err (bad_line 4) }
    ensures long { read (rule_text (codes "list 4097")) ≡ Err (bad_line 4) }
    ensures short { read (rule_text (codes "widen 0")) ≡ Err (bad_line 4) }
    ensures ahead { read (rule_text (codes "put Dam.Outflow 256")) ≡ Err (bad_line 4) }
    ensures name { read (rule_text (codes "slot 2.Outflow")) ≡ Err (bad_line 4) }
    ensures point { read (rule_text (codes "slot Dam")) ≡ Err (bad_line 4) }
    ensures kind { read (rule_text (codes "target N,")) ≡ Err (bad_line 4) }
    ensures blank { read (rule_text (codes "add ")) ≡ Err (bad_line 4) }
    ensures empty { read (rule_text []) ≡ Err (bad_line 4) }
    ensures word { read (rule_text (codes "plus")) ≡ Err (bad_line 4) }
    ensures carriage_return { read (rule_text (codes "add" ++ 13 ∷ [])) ≡ Err (bad_line 4) }
    ensures two_blanks { read (rule_text (codes "num  7")) ≡ Err (bad_line 4) }
    ensures plus { read (rule_text (codes "num +7")) ≡ Err (bad_line 4) }
{}

/// Lines that are not allowed in their place, and texts that end too early.
pub fn worked_places()
    ensures heading { read (codes "RULE\n") ≡ Err (bad_line 1) }
    ensures one_line { read (codes "CODE 1\nRULE\nLOCALS - add\nEND\n") ≡ Err (bad_line 3) }
    ensures locals { read (codes "CODE 1\nRULE\nadd\nEND\n") ≡ Err (bad_line 3) }
    ensures behind { read (codes "CODE 1\nadd\n") ≡ Err (bad_line 2) }
    ensures first { read (codes "CODE 1\nEND\nRULE\n") ≡ Err (bad_line 2) }
    ensures early { read (codes "CODE 1\nRULE\nLOCALS -\nadd\n") ≡ Err truncated }
    ensures feed { read (codes "CODE 1\nRULE\nLOCALS -\nEND") ≡ Err truncated }
    ensures bad_before { read (codes "CODE 1\nRULE\nLOCALS\nadd") ≡ Err (bad_line 3) }
    ensures earlier { read (codes "CODE 1\nRULE\nLOCALS -\nnum 01\nplus\n") ≡ Err (bad_line 4) }
    ensures heading_return { read (codes "CODE 1" ++ 13 ∷ 10 ∷ []) ≡ Err (bad_line 1) }
    ensures second_heading { read (codes "CODE 1\nCODE 1\n") ≡ Err (bad_line 2) }
    ensures heading_alone { read (codes "CODE 1") ≡ Err truncated }
    ensures nothing { read [] ≡ Err truncated }
{}

/// What is written of a code is read as that code.
pub fn written_is_read()
    ensures { (blocks : List Block) → IsCode blocks → read (spelt blocks) ≡ Ok blocks }
{}

/// A text of 16 MiB or less that is read is what is written of the code that it is read as, so a code has one text. It
/// is read as nothing but a code.
pub fn read_is_written()
    ensures text { (text : List ℕ) (blocks : List Block)
        → length text ≤ TEXT_MAX → read text ≡ Ok blocks → text ≡ spelt blocks }
    ensures bounds { (text : List ℕ) (blocks : List Block)
        → length text ≤ TEXT_MAX → read text ≡ Ok blocks → IsCode blocks }
{}

/// A code that was written is read again as that code, or there is no memory.
pub fn written_code_is_read_again()
    ensures { (blocks : List Block) (result : Result (List Block) CodeFault) → IsCode blocks
        → Answers NoMemory code_refusal_of (λ code. code) result (read (spelt blocks))
        → MatchResult result (λ code. code ≡ blocks) (λ fault. fault ≡ NoMemory) }
{}

/// The greatest number that is read of code.
pub fn limits_of_code()
    ensures number { GREATEST ≡ 100000000000000000 }
{}
