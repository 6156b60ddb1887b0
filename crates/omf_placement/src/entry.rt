//! The entries of a placement text, one per line (a format of this profile).

ghost use Rattle.std.specs.Prelude.{◌≡◌, ◌≤◌, ◌<◌, ◌^◌, reverse, IfSome, option_map};
ghost use Rattle.omf_placement.specs.Entries.{without_return, without_spaces, said};
ghost use Rattle.omf_placement.specs.Inner.EntryReading.{hexadecimal, frame_of, placed_of, real_of, one_word, two_words, three_words, four_words, entry_said};
ghost use Rattle.omf_placement.specs.Inner.Parsing.{seen};

use crate::cut::cut;
use crate::frame::{Frame, Placed};

/// The entry on a line.
#[derive(Clone, Copy, Debug)]
pub enum Entry {
    /// A blank line.
    Blank,
    /// The place of the next segment.
    Segment(Placed),
    /// The frame of the next group; `None` if it is that of the group's lowest member.
    Group(Option<Frame>),
    /// The place of the next external.
    External(Placed),
}

/// The text of a line: without a carriage return at its end, then without a comment from the first `;` on, then without spaces at both
/// ends.
pub fn said_by(line: &[u8]) -> &[u8]
    ensures { result.now ≡ said line.now }
{
    let (before_comment, _) = cut(without_return(line), b';');
    trimmed_end(trimmed_front(before_comment))
}

/// The line without a carriage return at its end.
fn without_return(line: &[u8]) -> &[u8]
    ensures { result.now ≡ without_return line.now }
{
    match line.split_last() {
        Some((last, front)) if *last == b'\r' => front,
        _ => line,
    }
}

/// The text without the spaces at its start.
fn trimmed_front(text: &[u8]) -> &[u8]
    ensures { result.now ≡ without_spaces text.now }
{
    let mut left = text;
    while let Some((first, rest)) = left.split_first() {
        if *first != b' ' {
            return left;
        }
        left = rest;
    }
    left
}

/// The text without the spaces at its end.
fn trimmed_end(text: &[u8]) -> &[u8]
    ensures { result.now ≡ reverse (without_spaces (reverse text.now)) }
{
    let mut left = text;
    while let Some((last, rest)) = left.split_last() {
        if *last != b' ' {
            return left;
        }
        left = rest;
    }
    left
}

/// Parses a number of 1 to `most` hexadecimal digits, upper or lower case. `most` is at most 8.
pub fn hexadecimal(word: &[u8], most: usize) -> Option<u32>
    requires { most ≤ 8 }
    ensures value { result ≡ hexadecimal most word.now }
    ensures bound { IfSome result (λ n. n < 16 ^ most) }
{
    if word.is_empty() || word.len() > most {
        return None;
    }
    let mut value = 0u32;
    let mut left = word;
    while let Some((digit, rest)) = left.split_first() {
        value = value * 16 + char::from(*digit).to_digit(16)?;
        left = rest;
    }
    Some(value)
}

/// Parses a frame: its base and its selector.
fn frame_of(base: &[u8], selector: &[u8]) -> Option<Frame>
    ensures { result ≡ frame_of base.now selector.now }
{
    let base = hexadecimal(base, 8)?;
    let selector = hexadecimal(selector, 4)? as u16;
    Some(Frame { base, selector })
}

/// Parses a place: its address, and the base and the selector of its frame.
pub fn placed_of(address: &[u8], base: &[u8], selector: &[u8]) -> Option<Placed>
    ensures { result ≡ placed_of address.now base.now selector.now }
{
    let address = hexadecimal(address, 8)?;
    let frame = frame_of(base, selector)?;
    Some(Placed { address, frame })
}

/// Parses a place in the real-mode frame of its address.
fn real_of(address: &[u8]) -> Option<Placed>
    ensures { result ≡ real_of address.now }
{
    let address = hexadecimal(address, 8)?;
    let frame = Frame::real(address)?;
    Some(Placed { address, frame })
}

/// The entry of a line of one word: only the empty word is one.
fn one_word(word: &[u8]) -> Option<Entry>
    ensures { option_map seen result ≡ one_word word.now }
{
    if word.is_empty() {
        return Some(Entry::Blank);
    }
    None
}

/// The entry of a line of two words: `G real`.
fn two_words(letter: &[u8], second: &[u8]) -> Option<Entry>
    ensures { option_map seen result ≡ two_words letter.now second.now }
{
    if letter == b"G".as_slice() && second == b"real".as_slice() {
        return Some(Entry::Group(None));
    }
    None
}

/// The entry of a line of three words: `S address real`, or `G base selector`.
fn three_words(letter: &[u8], second: &[u8], third: &[u8]) -> Option<Entry>
    ensures { option_map seen result ≡ three_words letter.now second.now third.now }
{
    if letter == b"S".as_slice() && third == b"real".as_slice() {
        return Some(Entry::Segment(real_of(second)?));
    }
    if letter == b"G".as_slice() {
        return Some(Entry::Group(Some(frame_of(second, third)?)));
    }
    None
}

/// The entry of a line of four words: `S address base selector`, or `E address base selector`.
fn four_words(letter: &[u8], second: &[u8], third: &[u8], fourth: &[u8]) -> Option<Entry>
    ensures { option_map seen result ≡ four_words letter.now second.now third.now fourth.now }
{
    if letter == b"S".as_slice() {
        return Some(Entry::Segment(placed_of(second, third, fourth)?));
    }
    if letter == b"E".as_slice() {
        return Some(Entry::External(placed_of(second, third, fourth)?));
    }
    None
}

/// Parses the text of a line, words with one space between each two. Returns `None` if it is no entry.
pub fn entry_of(said: &[u8]) -> Option<Entry>
    ensures { option_map seen result ≡ entry_said said.now }
{
    let (letter, more) = cut(said, b' ');
    let Some(more) = more else {
        return one_word(letter);
    };
    let (second, more) = cut(more, b' ');
    let Some(more) = more else {
        return two_words(letter, second);
    };
    let (third, more) = cut(more, b' ');
    let Some(more) = more else {
        return three_words(letter, second, third);
    };
    let (fourth, more) = cut(more, b' ');
    if more.is_some() {
        return None;
    }
    four_words(letter, second, third, fourth)
}
