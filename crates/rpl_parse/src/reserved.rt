//! Recognizes the reserved words of the language.
ghost use Rattle.std.specs.Prelude.{◌≡◌, nat_eq};
ghost use Rattle.std.specs.Cmp.Lexicographic.{pointwise};
ghost use Rattle.rpl_parse.specs.Scan.{look_up, declaration_words, block_words, words_of_values, reserved};

use crate::token::Mark;

fn is_word(a: &[u8], b: &[u8]) -> bool
    ensures { result ≡ pointwise nat_eq a.now b.now }
{
    a == b
}

/// Returns the mark of a reserved word.
#[inline(never)]
pub(crate) fn reserved(word: &[u8]) -> Option<Mark>
    ensures { result ≡ reserved word.now }
{
    if let [letter] = word {
        return if *letter == 116 {
            Some(Mark::Now)
        } else {
            None
        };
    }
    if let Some(mark) = declaration_words(word) {
        return Some(mark);
    }
    if let Some(mark) = block_words(word) {
        return Some(mark);
    }
    value_words(word)
}

fn declaration_words(word: &[u8]) -> Option<Mark>
    ensures { result ≡ look_up declaration_words word.now }
{
    if is_word(word, b"RULE") {
        Some(Mark::Rule)
    } else if is_word(word, b"ENDRULE") {
        Some(Mark::EndRule)
    } else if is_word(word, b"FUNCTION") {
        Some(Mark::Function)
    } else if is_word(word, b"ENDFUNCTION") {
        Some(Mark::EndFunction)
    } else if is_word(word, b"IS") {
        Some(Mark::Is)
    } else if is_word(word, b"NUMERIC") {
        Some(Mark::Numeric)
    } else if is_word(word, b"BOOLEAN") {
        Some(Mark::Boolean)
    } else if is_word(word, b"DATETIME") {
        Some(Mark::Datetime)
    } else if is_word(word, b"SLOT") {
        Some(Mark::Slot)
    } else if is_word(word, b"LIST") {
        Some(Mark::List)
    } else if is_word(word, b"OF") {
        Some(Mark::Of)
    } else if is_word(word, b"t") {
        Some(Mark::Now)
    } else {
        None
    }
}

fn block_words(word: &[u8]) -> Option<Mark>
    ensures { result ≡ look_up block_words word.now }
{
    if is_word(word, b"IF") {
        Some(Mark::If)
    } else if is_word(word, b"THEN") {
        Some(Mark::Then)
    } else if is_word(word, b"ELSE") {
        Some(Mark::Else)
    } else if is_word(word, b"ENDIF") {
        Some(Mark::EndIf)
    } else if is_word(word, b"WITH") {
        Some(Mark::With)
    } else if is_word(word, b"DO") {
        Some(Mark::Do)
    } else if is_word(word, b"ENDWITH") {
        Some(Mark::EndWith)
    } else if is_word(word, b"LET") {
        Some(Mark::Let)
    } else if is_word(word, b"IN") {
        Some(Mark::In)
    } else if is_word(word, b"ENDLET") {
        Some(Mark::EndLet)
    } else if is_word(word, b"FOR") {
        Some(Mark::For)
    } else if is_word(word, b"ENDFOR") {
        Some(Mark::EndFor)
    } else if is_word(word, b"MAP") {
        Some(Mark::Map)
    } else if is_word(word, b"ENDMAP") {
        Some(Mark::EndMap)
    } else {
        None
    }
}

fn value_words(word: &[u8]) -> Option<Mark>
    ensures { result ≡ look_up words_of_values word.now }
{
    if is_word(word, b"AND") {
        Some(Mark::And)
    } else if is_word(word, b"OR") {
        Some(Mark::Or)
    } else if is_word(word, b"NOT") {
        Some(Mark::Not)
    } else if is_word(word, b"TRUE") {
        Some(Mark::True)
    } else if is_word(word, b"FALSE") {
        Some(Mark::False)
    } else if is_word(word, b"KNOWN") {
        Some(Mark::Known)
    } else if is_word(word, b"APPEND") {
        Some(Mark::Append)
    } else if is_word(word, b"ITEM") {
        Some(Mark::Item)
    } else if is_word(word, b"LENGTH") {
        Some(Mark::Length)
    } else if is_word(word, b"MONTH") {
        Some(Mark::Month)
    } else if is_word(word, b"DAY") {
        Some(Mark::Day)
    } else if is_word(word, b"YEAR") {
        Some(Mark::Year)
    } else if is_word(word, b"StorageToElevation") {
        Some(Mark::StorageToElevation)
    } else if is_word(word, b"ElevationToStorage") {
        Some(Mark::ElevationToStorage)
    } else {
        None
    }
}
