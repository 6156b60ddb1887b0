//! The entries of lines of a locator's text (this profile's rule).

ghost use Rattle.std.specs.Prelude.{◌≡◌, ◌∷◌, ◌==◌, ◌<◌, [], option_map, length, IfSome};
ghost use Rattle.std.specs.List.{list_all, list_any, slice_split};
ghost use Rattle.omf_placement.specs.Inner.EntryReading.{frame_of, real_of, words_of};
ghost use Rattle.omf_linking.specs.Locator.LinkEntries.{class_after, class_parts, classed_entry, decimal_of, entry_by, entry_of_all, entry_of_parts, frame_in, frames_by, framed_span, group_in, has_comment, if_short, is_printed, is_shared, lays, link_entry_on, name_entry, name_parts, named_entry, number_of, numbered_entry, opens, place_in, run_place, segment_in, shared_place, shared_word, span_in, span_of, store_in, stored_at, stored_place, stored_word, unnamed_entry, where_in, words_in};
ghost use Rattle.omf_linking.specs.Inner.LineParsing.{key_seen, parts_seen, seen, told_seen, words_left};

use crate::locator::span::{Span, Where};
use omf_placement::cut::cut;
use omf_placement::{Frame, Placed, hexadecimal, placed_of, said_by};
use omf_text::digits_of;

/// A key: what names a module, or an entry of a module's table.
#[derive(Clone, Copy)]
pub enum Key<'a> {
    /// `"NAME"`: the name, as the programs print it in quotes.
    Named(&'a [u8]),
    /// `"NAME" "CLASS"`: the names of a segment and of its class.
    OfClass(&'a [u8], &'a [u8]),
    /// `#N`: the number, from 1.
    Numbered(u32),
}

/// What an entry is given.
#[derive(Clone, Copy)]
pub enum Target {
    /// The place of a segment.
    Segment(Placed),
    /// The place of a segment, and the address at which its bytes are stored.
    Stored {
        /// Where it runs.
        place: Placed,
        /// Where its first byte is stored.
        address: u32,
    },
    /// The frame of a group; none if it is that of its lowest member.
    Group(Option<Frame>),
    /// The place of an external.
    External(Placed),
}

/// What a line says of an entry.
#[derive(Clone, Copy)]
pub enum Told {
    /// A place or a frame of its own.
    Own(Target),
    /// `S key address shared`: a segment is at this address, in the frame that its name and class share.
    SharedPlace(u32),
    /// `S key address shared at stored`: the same, and its bytes are stored at another address.
    SharedStored {
        /// Where it runs.
        address: u32,
        /// Where its first byte is stored.
        stored: u32,
    },
    /// `G key shared`: a group is in the frame that its name shares.
    SharedFrame,
}

/// Segments of all modules. A name is as the programs print it in quotes.
#[derive(Clone, Copy)]
pub enum Parts<'a> {
    /// `"CLASS"`: those of a class.
    OfClass(&'a [u8]),
    /// `"NAME"`: those of a name.
    OfName(&'a [u8]),
    /// `"NAME" "CLASS"`: those of a name and a class.
    OfBoth(&'a [u8], &'a [u8]),
}

/// The entry of a line.
#[derive(Clone, Copy)]
pub enum LinkEntry<'a> {
    /// A blank line, or a comment.
    Blank,
    /// `M key`: the lines of a module follow.
    Opens(Key<'a>),
    /// `S key ..`, `G key ..` or `X key ..`: what an entry of the module is given.
    Gives(Key<'a>, Told),
    /// `C "CLASS" ..` or `P "NAME" ..`: where segments of all modules are laid.
    Lays(Parts<'a>, Span),
    /// `F "NAME" base selector`: the frame of the groups of a name in all modules.
    Frames(&'a [u8], Frame),
}

/// Returns a number as 32 bits, if it is below 2^32.
fn if_short(number: u64) -> Option<u32>
    ensures { result ≡ if_short number }
{
    if number < 0x1_0000_0000 {
        Some(number as u32)
    } else {
        None
    }
}

/// Parses a number of 1 to 10 decimal digits below 2^32.
fn decimal_of(word: &[u8]) -> Option<u32>
    ensures { result ≡ decimal_of word.now }
{
    if word.is_empty() || word.len() > 10 {
        return None;
    }
    let mut value = 0u64;
    let mut left = word;
    while let Some((digit, rest)) = left.split_first() {
        value = value * 10 + u64::from(char::from(*digit).to_digit(10)?);
        left = rest;
    }
    if_short(value)
}

/// Parses `#` and a decimal number.
fn number_of(word: &[u8]) -> Option<u32>
    ensures { result ≡ number_of word.now }
{
    match word {
        [b'#', digits @ ..] => decimal_of(digits),
        _ => None,
    }
}

/// Parses a place in the real-mode frame of its address.
fn real_of(address: &[u8]) -> Option<Placed>
    ensures { result ≡ real_of address.now }
{
    let address = hexadecimal(address, 8)?;
    let frame = Frame::real(address)?;
    Some(Placed { address, frame })
}

/// Parses a frame: its base and its selector.
fn frame_of(base: &[u8], selector: &[u8]) -> Option<Frame>
    ensures { result ≡ frame_of base.now selector.now }
{
    let base = hexadecimal(base, 8)?;
    let selector = hexadecimal(selector, 4)? as u16;
    Some(Frame { base, selector })
}

/// Parses a place: `address base selector`, or `address real`.
fn place_in(words: Option<&[u8]>) -> Option<Placed>
    ensures { result ≡ place_in (words_left words.entry) }
{
    let (address, more) = cut(words?, b' ');
    let (second, more) = cut(more?, b' ');
    let Some(more) = more else {
        return if second == b"real".as_slice() {
            real_of(digits_of(address))
        } else {
            None
        };
    };
    let (third, more) = cut(more, b' ');
    if more.is_some() {
        return None;
    }
    placed_of(digits_of(address), digits_of(second), digits_of(third))
}

/// Parses a frame: `base selector`, or `real` for none.
fn frame_in(words: Option<&[u8]>) -> Option<Option<Frame>>
    ensures { result ≡ frame_in (words_left words.entry) }
{
    let (first, more) = cut(words?, b' ');
    let Some(more) = more else {
        return if first == b"real".as_slice() {
            Some(None)
        } else {
            None
        };
    };
    let (second, more) = cut(more, b' ');
    if more.is_some() {
        return None;
    }
    Some(Some(frame_of(digits_of(first), digits_of(second))?))
}

/// Returns whether a word is `shared`.
fn is_shared(word: &[u8]) -> bool
    ensures { result ≡ is_shared word.now }
{
    word == b"shared".as_slice()
}

/// Parses `address shared`.
fn shared_place(words: Option<&[u8]>) -> Option<Told>
    ensures { option_map told_seen result ≡ shared_place (words_left words.entry) }
{
    let (address, more) = cut(words?, b' ');
    let (second, more) = cut(more?, b' ');
    if more.is_some() {
        return None;
    }
    if !is_shared(second) {
        return None;
    }
    Some(Told::SharedPlace(hexadecimal(digits_of(address), 8)?))
}

/// Parses where a segment runs: a place, or `address shared`.
fn run_place(words: Option<&[u8]>) -> Option<Told>
    ensures { option_map told_seen result ≡ run_place (words_left words.entry) }
{
    match place_in(words) {
        Some(place) => Some(Told::Own(Target::Segment(place))),
        None => shared_place(words),
    }
}

/// Returns what a line says of a segment, with the address at which it is stored.
fn stored_at(told: Option<Told>, stored: Option<u32>) -> Option<Told>
    ensures { option_map told_seen result ≡ stored_at (option_map told_seen told) stored }
{
    let told = told?;
    let stored = stored?;
    match told {
        Told::Own(Target::Segment(place)) => Some(Told::Own(Target::Stored {
            place,
            address: stored,
        })),
        Told::SharedPlace(address) => Some(Told::SharedStored { address, stored }),
        Told::Own(Target::Stored { .. }) => None,
        Told::Own(Target::Group(_)) => None,
        Told::Own(Target::External(_)) => None,
        Told::SharedStored { .. } => None,
        Told::SharedFrame => None,
    }
}

/// Parses `at stored`: a word and a number.
fn stored_word(word: &[u8], number: &[u8]) -> Option<u32>
    ensures { result ≡ stored_word word.now number.now }
{
    if word == b"at".as_slice() {
        hexadecimal(digits_of(number), 8)
    } else {
        None
    }
}

/// Parses `address real`: two words.
fn place_of_two(address: &[u8], second: &[u8]) -> Option<Placed>
    ensures { result ≡ place_in (address.now ∷ second.now ∷ []) }
{
    if second == b"real".as_slice() {
        real_of(digits_of(address))
    } else {
        None
    }
}

/// Parses `address shared`: two words.
fn shared_of_two(address: &[u8], second: &[u8]) -> Option<Told>
    ensures { option_map told_seen result ≡ shared_place (address.now ∷ second.now ∷ []) }
{
    if !is_shared(second) {
        return None;
    }
    Some(Told::SharedPlace(hexadecimal(digits_of(address), 8)?))
}

/// Parses two words that say where a segment runs: `address real` or `address shared`.
fn run_of_two(address: &[u8], second: &[u8]) -> Option<Told>
    ensures { option_map told_seen result ≡ run_place (address.now ∷ second.now ∷ []) }
{
    match place_of_two(address, second) {
        Some(place) => Some(Told::Own(Target::Segment(place))),
        None => shared_of_two(address, second),
    }
}

/// Parses three words that say where a segment runs: `address base selector`.
fn run_of_three(address: &[u8], base: &[u8], selector: &[u8]) -> Option<Told>
    ensures { option_map told_seen result ≡ run_place (address.now ∷ base.now ∷ selector.now ∷ []) }
{
    let place = placed_of(digits_of(address), digits_of(base), digits_of(selector))?;
    Some(Told::Own(Target::Segment(place)))
}

/// Parses where a segment runs and where it is stored: `address base selector at stored`, `address real at stored` or
/// `address shared at stored`.
fn stored_place(words: Option<&[u8]>) -> Option<Told>
    ensures { option_map told_seen result ≡ stored_place (words_left words.entry) }
{
    let (first, more) = cut(words?, b' ');
    let (second, more) = cut(more?, b' ');
    let (third, more) = cut(more?, b' ');
    let (fourth, more) = cut(more?, b' ');
    let Some(more) = more else {
        return stored_at(run_of_two(first, second), stored_word(third, fourth));
    };
    let (fifth, more) = cut(more, b' ');
    if more.is_some() {
        return None;
    }
    stored_at(
        run_of_three(first, second, third),
        stored_word(fourth, fifth),
    )
}

/// Parses what an `S` line says: where a segment runs, and where it is stored.
fn segment_in(words: Option<&[u8]>) -> Option<Told>
    ensures { option_map told_seen result ≡ segment_in (words_left words.entry) }
{
    match run_place(words) {
        Some(told) => Some(told),
        None => stored_place(words),
    }
}

/// Parses `shared`.
fn shared_frame(words: Option<&[u8]>) -> Option<Told>
    ensures { option_map told_seen result ≡ shared_word (words_left words.entry) }
{
    let (first, more) = cut(words?, b' ');
    if more.is_some() {
        return None;
    }
    if !is_shared(first) {
        return None;
    }
    Some(Told::SharedFrame)
}

/// Parses what a `G` line says: a frame, or `shared`.
fn group_in(words: Option<&[u8]>) -> Option<Told>
    ensures { option_map told_seen result ≡ group_in (words_left words.entry) }
{
    match frame_in(words) {
        Some(frame) => Some(Told::Own(Target::Group(frame))),
        None => shared_frame(words),
    }
}

/// Returns the entry of an `M` line, after whose key nothing follows.
fn opens<'a>(key: Key<'a>, words: Option<&[u8]>) -> Option<LinkEntry<'a>>
    ensures { option_map seen result ≡ opens (key_seen key.entry) (words_left words.entry) }
{
    match words {
        None => Some(LinkEntry::Opens(key)),
        Some(_) => None,
    }
}

/// Parses an address, or `after`.
fn where_in(word: &[u8]) -> Option<Where>
    ensures { result ≡ where_in word.now }
{
    if word == b"after".as_slice() {
        return Some(Where::After);
    }
    Some(Where::From(hexadecimal(digits_of(word), 8)?))
}

/// Parses `at` and where segments are stored, or nothing.
fn store_in(words: Option<&[u8]>) -> Option<Option<Where>>
    ensures { result ≡ store_in (words_left words.entry) }
{
    let Some(words) = words else {
        return Some(None);
    };
    let (at, more) = cut(words, b' ');
    let (address, more) = cut(more?, b' ');
    if more.is_some() {
        return None;
    }
    if at == b"at".as_slice() {
        Some(Some(where_in(address)?))
    } else {
        None
    }
}

/// Parses from where on segments run, and where they are stored.
fn span_of(start: &[u8], frame: Option<Frame>, words: Option<&[u8]>) -> Option<Span>
    ensures { result ≡ span_of start.now frame (words_left words.entry) }
{
    let start = where_in(start)?;
    let stored = store_in(words)?;
    Some(Span {
        start,
        frame,
        stored,
    })
}

/// Parses the same, with the base of a frame and its selector.
fn framed_span(start: &[u8], base: &[u8], words: Option<&[u8]>) -> Option<Span>
    ensures { result ≡ framed_span start.now base.now (words_left words.entry) }
{
    let (selector, more) = cut(words?, b' ');
    let frame = frame_of(digits_of(base), digits_of(selector))?;
    span_of(start, Some(frame), more)
}

/// Parses where segments are laid: `where base selector` or `where real`, and `at where` for where they are stored.
fn span_in(words: Option<&[u8]>) -> Option<Span>
    ensures { result ≡ span_in (words_left words.entry) }
{
    let (start, more) = cut(words?, b' ');
    let (second, more) = cut(more?, b' ');
    if second == b"real".as_slice() {
        span_of(start, None, more)
    } else {
        framed_span(start, second, more)
    }
}

/// Returns the segments of a `C` line: those of a class.
fn class_parts<'a>(key: Key<'a>) -> Option<Parts<'a>>
    ensures { option_map parts_seen result ≡ class_parts (key_seen key.entry) }
{
    match key {
        Key::Named(class) => Some(Parts::OfClass(class)),
        Key::OfClass(_, _) => None,
        Key::Numbered(_) => None,
    }
}

/// Returns the segments of a `P` line: those of a name, or of a name and a class.
fn name_parts<'a>(key: Key<'a>) -> Option<Parts<'a>>
    ensures { option_map parts_seen result ≡ name_parts (key_seen key.entry) }
{
    match key {
        Key::Named(name) => Some(Parts::OfName(name)),
        Key::OfClass(name, class) => Some(Parts::OfBoth(name, class)),
        Key::Numbered(_) => None,
    }
}

/// Returns the entry of a line that lays segments.
fn lays<'a>(parts: Option<Parts<'a>>, words: Option<&[u8]>) -> Option<LinkEntry<'a>>
    ensures { option_map seen result ≡ lays (option_map parts_seen parts.entry) (words_left words.entry) }
{
    let parts = parts?;
    let span = span_in(words)?;
    Some(LinkEntry::Lays(parts, span))
}

/// Returns the entry of an `F` line: a name and a frame.
fn frames_by<'a>(key: Key<'a>, words: Option<&[u8]>) -> Option<LinkEntry<'a>>
    ensures { option_map seen result ≡ frames_by (key_seen key.entry) (frame_in (words_left words.entry)) }
{
    let Some(Some(frame)) = frame_in(words) else {
        return None;
    };
    match key {
        Key::Named(name) => Some(LinkEntry::Frames(name, frame)),
        Key::OfClass(_, _) => None,
        Key::Numbered(_) => None,
    }
}

/// Returns the entry of a letter, a key and the words after it, if the line is for all modules.
fn entry_of_all<'a>(letter: &[u8], key: Key<'a>, words: Option<&[u8]>) -> Option<LinkEntry<'a>>
    ensures { option_map seen result ≡ entry_of_all letter.now (key_seen key.entry) (words_left words.entry) }
{
    if letter == b"C".as_slice() {
        return lays(class_parts(key), words);
    }
    if letter == b"P".as_slice() {
        return lays(name_parts(key), words);
    }
    if letter == b"F".as_slice() {
        return frames_by(key, words);
    }
    None
}

/// Returns the entry of a letter, a key and the words after it, if there are any.
fn entry_by<'a>(letter: &[u8], key: Key<'a>, words: Option<&[u8]>) -> Option<LinkEntry<'a>>
    ensures { option_map seen result ≡ entry_by letter.now (key_seen key.entry) (words_left words.entry) }
{
    if letter == b"M".as_slice() {
        return opens(key, words);
    }
    if letter == b"S".as_slice() {
        return Some(LinkEntry::Gives(key, segment_in(words)?));
    }
    if letter == b"G".as_slice() {
        return Some(LinkEntry::Gives(key, group_in(words)?));
    }
    if letter == b"X".as_slice() {
        let place = place_in(words)?;
        return Some(LinkEntry::Gives(key, Told::Own(Target::External(place))));
    }
    entry_of_all(letter, key, words)
}

/// Returns the entry of a letter, a number and words.
fn numbered_entry<'a>(said: &[u8]) -> Option<LinkEntry<'a>>
    ensures { option_map seen result ≡ numbered_entry (words_of said.now) }
{
    let (letter, more) = cut(said, b' ');
    let (number, words) = cut(more?, b' ');
    let number = number_of(number)?;
    entry_by(letter, Key::Numbered(number), words)
}

/// Returns the entry of a line without a name: blank, or one with a number.
fn unnamed_entry<'a>(said: &[u8]) -> Option<LinkEntry<'a>>
    ensures { option_map seen result ≡ unnamed_entry said.now }
{
    if said.is_empty() {
        return Some(LinkEntry::Blank);
    }
    numbered_entry(said)
}

/// Returns whether a byte may be in a name as it is written: 20H to 7EH.
fn is_printed(byte: u8) -> bool
    ensures { result ≡ is_printed byte }
{
    byte >= 0x20 && byte <= 0x7E
}

/// Returns whether a name is written in bytes 20H to 7EH.
fn is_name(name: &[u8]) -> bool
    ensures { result ≡ list_all is_printed name.now }
{
    name.iter().all(|byte| is_printed(*byte))
}

/// Returns whether a comment begins in a text.
fn has_comment(text: &[u8]) -> bool
    ensures { result ≡ has_comment text.now }
{
    text.iter().any(|byte| *byte == b';')
}

/// Returns the words of a text, if it is not empty.
fn words_in(said: &[u8]) -> Option<&[u8]>
    ensures { words_left result ≡ words_in said.now }
{
    if said.is_empty() {
        return None;
    }
    Some(said)
}

/// Returns the entry of a letter, a key that ends with a name, and the rest of the line.
fn name_entry<'a>(letter: &[u8], key: Key<'a>, name: &[u8], rest: &[u8]) -> Option<LinkEntry<'a>>
    ensures { option_map seen result ≡ name_entry letter.now (key_seen key.entry) name.now rest.now }
{
    if !is_name(name) {
        return None;
    }
    entry_by(letter, key, words_in(said_by(rest)))
}

/// Returns the entry of a letter, a segment's name, and what follows the opening quote of its class.
fn classed_entry<'a>(letter: &[u8], name: &'a [u8], text: &'a [u8]) -> Option<LinkEntry<'a>>
    ensures { option_map seen result ≡ classed_entry letter.now name.now (slice_split (λ c. c == 34) text.now) }
{
    let (class, more) = cut(text, b'"');
    let (rest, more) = cut(more?, b'"');
    if more.is_some() && !has_comment(rest) {
        return None;
    }
    if !is_name(name) {
        return None;
    }
    name_entry(letter, Key::OfClass(name, class), class, rest)
}

/// Returns the entry of a letter and what follows the opening quote of a name.
fn named_entry<'a>(letter: &[u8], text: &'a [u8]) -> Option<LinkEntry<'a>>
    ensures { option_map seen result ≡ named_entry letter.now (slice_split (λ c. c == 34) text.now) }
{
    let (name, more) = cut(text, b'"');
    let (rest, more) = cut(more?, b'"');
    let Some(class) = more else {
        return name_entry(letter, Key::Named(name), name, rest);
    };
    if has_comment(rest) {
        return name_entry(letter, Key::Named(name), name, rest);
    }
    if !said_by(rest).is_empty() {
        return None;
    }
    classed_entry(letter, name, class)
}

/// Parses a line: a letter, a key, and a place, a frame or `shared`; or nothing. `None` if it is none of these.
///
/// - `M key`
/// - `S key address base selector` or `S key address real`, and the same with `X`; `S key address shared`; of a segment each also with
///   `at stored` at its end
/// - `G key base selector`, `G key real` or `G key shared`
/// - `C "CLASS" where base selector` or `C "CLASS" where real`, each also with `at where` at its end; the same with `P` and `"NAME"` or
///   `"NAME" "CLASS"`; where is an address or `after`
/// - `F "NAME" base selector`
///
/// A key is `"NAME"`, `"NAME" "CLASS"` or `#N`. From a `;` outside of names on a line is a comment.
pub fn link_entry_on(line: &[u8]) -> Option<LinkEntry<'_>>
    ensures { option_map seen result ≡ link_entry_on line.now }
{
    let (front, more) = cut(line, b'"');
    let Some(text) = more else {
        return unnamed_entry(said_by(front));
    };
    if has_comment(front) {
        return unnamed_entry(said_by(front));
    }
    named_entry(said_by(front), text)
}
