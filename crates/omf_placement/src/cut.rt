//! Splitting a text at a byte.

ghost use Rattle.std.specs.Prelude.{◌≡◌, ◌∷◌, ◌<◌, ◌==◌, length, IfSome, option_map};
ghost use Rattle.std.specs.List.{before_first, position_or_len, slice_split};
ghost use Rattle.omf_placement.specs.Inner.Parsing.{parts_after};

/// The position of the first `byte` in `text`, or the text's length.
fn first_of(text: &[u8], byte: u8) -> usize
    ensures { result ≡ position_or_len (λ c. c == byte) text.now }
{
    let place = text.iter().position(|c| *c == byte);
    place.unwrap_or(text.len())
}

/// Splits `text` at its first `byte`: the text before it, and the text after it, if the byte is present.
pub fn cut(text: &[u8], byte: u8) -> (&[u8], Option<&[u8]>)
    ensures parts { slice_split (λ c. c == byte) text.now ≡ result.0.now ∷ parts_after byte (option_map (λ t. t.now) result.1) }
    ensures first { result.0.now ≡ before_first (λ c. c == byte) text.now }
    ensures shorter { IfSome result.1 (λ t. length t.now < length text.now) }
{
    let (first, more) = text.split_at(first_of(text, byte));
    match more.split_first() {
        Some((_, rest)) => (first, Some(rest)),
        None => (first, None),
    }
}
