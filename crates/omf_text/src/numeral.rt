//! Hexadecimal numbers as a person types them: `7C00`, `0x7C00` and `7C00H`.

ghost use Rattle.std.specs.Prelude.{◌≡◌, ◌==◌, ◌||◌, option_map};
ghost use Rattle.omf_text.specs.Numerals.{after_0x, before_letter, digits_of, marked, without_zero};

/// Returns whether a byte is one of two letters.
fn is_either(byte: u8, upper: u8, lower: u8) -> bool
    ensures { result ≡ (byte == upper || byte == lower) }
{
    byte == upper || byte == lower
}

/// Returns what is before one of two letters at the end of a word; `None` if it ends otherwise.
#[tactic(auto, using(crate::proofs::NumeralLaws::letter_goes, crate::proofs::NumeralLaws::other_ends, crate::proofs::NumeralLaws::nothing_before))]
pub fn before_letter(word: &[u8], upper: u8, lower: u8) -> Option<&[u8]>
    ensures { option_map (λ front. front.now) result ≡ before_letter upper lower word.now }
{
    let (last, front) = word.split_last()?;
    if is_either(*last, upper, lower) {
        Some(front)
    } else {
        None
    }
}

/// Returns what is after `0x` at the start of a word; `None` if it starts otherwise.
fn after_0x(word: &[u8]) -> Option<&[u8]>
    ensures { option_map (λ digits. digits.now) result ≡ after_0x word.now }
{
    match word {
        [zero, x, digits @ ..] if *zero == b'0' && (*x == b'x' || *x == b'X') => Some(digits),
        _ => None,
    }
}

/// Returns digits without a zero in front of others.
fn without_zero(digits: &[u8]) -> &[u8]
    ensures { result.now ≡ without_zero digits.now }
{
    match digits {
        [b'0', others @ ..] if !others.is_empty() => others,
        _ => digits,
    }
}

/// Returns the digits of a word that is marked as hexadecimal: those after `0x`, or those before an `H` at the end, there without a zero in front
/// of others (`0FFH`). `None` if it is not marked.
pub fn marked(word: &[u8]) -> Option<&[u8]>
    ensures { option_map (λ digits. digits.now) result ≡ marked word.now }
{
    match after_0x(word) {
        Some(digits) => Some(digits),
        None => Some(without_zero(before_letter(word, b'H', b'h')?)),
    }
}

/// Returns the digits of a hexadecimal number: those of a word that is marked, or the word.
pub fn digits_of(word: &[u8]) -> &[u8]
    ensures { result.now ≡ digits_of word.now }
{
    match marked(word) {
        Some(digits) => digits,
        None => word,
    }
}
