//! Packs the value of a cell, or none, into eight bytes.
ghost use Rattle.std.specs.Prelude.{◌≡◌, option_map, None, true};
ghost use Rattle.rw_model.specs.declared.content.Content.{Content};

use rw_base::QUANTITY_MAX;
use rw_model::Content;
use std::marker::Model;

// As what no value is kept, which is no quantity.
const NONE: i64 = i64::MAX;

/// What a cell holds, seen as a value in the base unit of its slot or none.
#[derive(Drop)]
pub struct KeptValue {
    number: i64,
}

impl Model for KeptValue {
    ghost use Rattle.std.specs.Prelude.{ℤ, Option};
    ghost use Rattle.rw_report.specs.Value.{value_kept};

    ghost Value = { Option ℤ };

    ghost view = { λ k. value_kept k.number };
}

impl KeptValue {
    /// Returns the value of a content, or none.
    #[inline(always)]
    pub fn of(content: Option<Content>) -> KeptValue
        ensures { result ≡ option_map (λ (content : Content). content.value) content }
    {
        match content {
            Some(content) => KeptValue {
                number: content.value.get(),
            },
            None => KeptValue { number: NONE },
        }
    }

    /// Returns the value, if there is one.
    #[inline(always)]
    pub fn get(&self) -> Option<i64>
        ensures { result ≡ self.now }
    {
        if self.number <= QUANTITY_MAX {
            Some(self.number)
        } else {
            None
        }
    }

    // Returns whether a content has this value.
    #[inline(always)]
    pub(crate) fn is_in(&self, content: Option<Content>) -> bool
        ensures { result ≡ true
            → self.now ≡ option_map (λ (content : Content). content.value) content }
    {
        match content {
            Some(content) => self.number == content.value.get(),
            None => self.number == NONE,
        }
    }
}
