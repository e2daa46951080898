//! Writes the counts and the values of a summary.
ghost use Rattle.std.specs.Prelude.{◌≡◌, ◌++◌, OnOk, string_bytes, codes};
ghost use Rattle.std.specs.Fmt.{decimal};
ghost use Rattle.rw_report.specs.Section.{value_words};

use rw_base::NoMemory;
use rw_report::{push_count, push_number};

/// Appends a word and a number.
pub(crate) fn push_counted(text: &mut String, word: &str, count: u64) -> Result<(), NoMemory>
    ensures { OnOk result
        (string_bytes text.new ≡ string_bytes text.old ++ (word.now ++ decimal count)) }
{
    text.push_str(word)?;
    push_count(text, count)
}

/// Appends a comma and a value, which is nothing where there is none.
pub(crate) fn push_value(text: &mut String, value: Option<i64>) -> Result<(), NoMemory>
    ensures { OnOk result (string_bytes text.new ≡ string_bytes text.old
        ++ (codes "," ++ value_words value)) }
{
    text.push_str(",")?;
    match value {
        Some(number) => push_number(text, number),
        None => Ok(()),
    }
}
