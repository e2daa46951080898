//! Cuts a text at the first byte of a value.
ghost use Rattle.std.specs.Prelude.{◌≡◌, ◌<◌, [], ◌∷◌, length, MatchOption, IfSome};
ghost use Rattle.rpl_code.specs.Parting.{parted};

/// Returns what is before the first of these bytes and what is after it, if there is one.
pub(crate) fn cut(text: &[u8], byte: u8) -> Option<(&[u8], &[u8])>
    ensures parts { MatchOption result (parted byte text.now ≡ text.now ∷ [])
        (λ parts. parted byte text.now ≡ parts.0.now ∷ parted byte parts.1.now) }
    ensures less { IfSome result (λ parts. length parts.1.now < length text.now) }
{
    for (place, other) in text.iter().enumerate() {
        if *other == byte {
            return Some((&text[..place], &text[place + 1..]));
        }
    }
    None
}
