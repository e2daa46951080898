//! Decides which texts are names of objects and slots, and holds such a name.
ghost use Rattle.std.specs.Prelude.{◌≡◌, string_bytes, ◌↔◌, ◌||◌, IsTrue, Contains, map};
ghost use Rattle.std.specs.List.{list_all};
ghost use Rattle.rw_base.specs.Byte.{is_letter, is_digit};
ghost use Rattle.rw_model.specs.Name.{IsName, is_name, is_plain, reserved_words};

use crate::limits::NAME_MAX;
use std::marker::Model;

/// The name of an object or of a slot, seen as its bytes.
#[derive(Debug, Drop)]
pub struct Name {
    text: String,
}

impl Model for Name {
    ghost use Rattle.std.specs.Prelude.{List, ℕ, string_bytes};

    ghost Value = { List ℕ };

    ghost view = { λ n. string_bytes n.text };
}

impl Name {
    /// Returns the name with this text.
    pub fn of(text: String) -> Name
        ensures { result ≡ string_bytes text }
    {
        Name { text }
    }

    /// Returns the text of the name.
    pub fn as_str(&self) -> &str
        ensures { result.now ≡ self.now }
    {
        self.text.as_str()
    }
}

// The words that the language of rules keeps for itself.
const RESERVED_WORDS: [&str; 40] = [
    "RULE",
    "ENDRULE",
    "FUNCTION",
    "ENDFUNCTION",
    "IS",
    "IF",
    "THEN",
    "ELSE",
    "ENDIF",
    "WITH",
    "DO",
    "ENDWITH",
    "LET",
    "IN",
    "ENDLET",
    "FOR",
    "ENDFOR",
    "MAP",
    "ENDMAP",
    "AND",
    "OR",
    "NOT",
    "TRUE",
    "FALSE",
    "KNOWN",
    "APPEND",
    "ITEM",
    "LENGTH",
    "MONTH",
    "DAY",
    "YEAR",
    "StorageToElevation",
    "ElevationToStorage",
    "NUMERIC",
    "BOOLEAN",
    "DATETIME",
    "SLOT",
    "LIST",
    "OF",
    "t",
];

fn is_letter(byte: u8) -> bool
    ensures { result ≡ is_letter byte }
{
    matches!(byte, b'a'..=b'z' | b'A'..=b'Z' | b'_')
}

fn goes_on(byte: u8) -> bool
    ensures { result ≡ (is_letter byte || is_digit byte) }
{
    is_letter(byte) || matches!(byte, b'0'..=b'9')
}

fn all_go_on(bytes: &[u8]) -> bool
    ensures { result ≡ list_all (λ byte. is_letter byte || is_digit byte) bytes.now }
{
    bytes.iter().all(|byte| goes_on(*byte))
}

/// Returns whether the bytes are a plain name: a letter or `_`, then letters, digits and `_`, at most 32 bytes.
pub fn is_plain(bytes: &[u8]) -> bool
    ensures { result ≡ is_plain bytes.now }
{
    match bytes {
        [] => false,
        [first, further @ ..] => bytes.len() <= NAME_MAX
            && (is_letter(*first) && all_go_on(further)),
    }
}

// Whether the text is one of the words.
fn is_among(words: &[&str], text: &str) -> bool
    ensures { IsTrue result ↔ Contains (map (λ word. word.now) words.now) text.now }
{
    for word in words {
        if *word == text {
            return true;
        }
    }
    false
}

fn is_reserved(text: &str) -> bool
    ensures { IsTrue result ↔ Contains reserved_words text.now }
{
    is_among(&RESERVED_WORDS, text)
}

/// Returns whether the text is a name: a plain name that is no reserved word.
pub fn is_name(text: &str) -> bool
    ensures name { IsTrue result ↔ IsName text.now }
    ensures test { result ≡ is_name text.now }
{
    is_plain(text.as_bytes()) && !is_reserved(text)
}
