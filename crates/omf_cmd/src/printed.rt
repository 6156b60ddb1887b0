//! The line printed for a fault: as a string, and written word by word.

ghost use Rattle.std.specs.Prelude.{◌≡◌, ◌≤◌, ◌++◌, IfOk, Ok, length, map, string_bytes};
ghost use Rattle.omf_frame.specs.Bytes.{AddsText};
ghost use Rattle.omf_cmd.specs.FaultLine.{kind_name, cause_name, fault_line, fault_words};
ghost use Rattle.omf_cmd.specs.Inner.FaultWords.{word_text};
ghost use Rattle.omf_placement.specs.Entries.{in_words};
ghost use Rattle.omf_cmd.specs.Printed.{line};
ghost use Rattle.omf_cmd.specs.Runs.{IsWritten, PrintsOr};
ghost use Rattle.omf_cmd.specs.declared.fault.RunFault.TheVariants.{Reach, Write};

use crate::fault::RunFault;
use crate::line::write_word;
use crate::output::print_all;
use itoa::Buffer;
use omf_frame::Sink;
use omf_reloc::{Cause, Kind, ReachFault};
use std::alloc::{AllocError, Global};
use std::marker::Model;

/// The name of a kind of placement entry.
fn kind_name(kind: Kind) -> &'static str
    ensures { result.now ≡ kind_name kind }
{
    match kind {
        Kind::Segment => "segment",
        Kind::Group => "group",
        Kind::External => "external",
    }
}

/// The name of a cause for a fixup out of range.
fn cause_name(cause: Cause) -> &'static str
    ensures { result.now ≡ cause_name cause }
{
    match cause {
        Cause::Target => "Target",
        Cause::Location => "Location",
        Cause::Distance => "Distance",
    }
}

/// The most words of a fault's line.
const MOST: usize = 9;

/// A word of a fault's line: a text, or a number in decimal.
#[derive(Clone, Copy)]
pub(crate) enum Word {
    Text(&'static str),
    Number(u64),
}

/// The words of a fault's line. Contracts see them as texts.
#[derive(Drop)]
struct Words {
    words: [Word; MOST],
    count: usize,
}

impl Model for Words {
    ghost use Rattle.std.specs.Prelude.{ℕ, List, ◌≤◌, map, take};
    ghost use Rattle.omf_cmd.specs.Inner.FaultWords.{word_text};
    ghost use Rattle.omf_placement.specs.Entries.{in_words};

    ghost Value = { List (List ℕ) };

    ghost view = { λ w. map word_text (take w.count w.words) };

    ghost invariant = { λ w. w.count ≤ 9 };
}

impl Words {
    /// These words.
    fn of(words: &[Word]) -> Words
        requires { length words.now ≤ 9 }
        ensures { result ≡ map word_text words.now }
    {
        let mut all = [Word::Text(""); MOST];
        all[..words.len()].copy_from_slice(words);
        Words {
            words: all,
            count: words.len(),
        }
    }

    /// All of them.
    fn all(&self) -> &[Word]
        ensures { map word_text result.now ≡ self.now }
    {
        &self.words[..self.count]
    }
}

/// The words of the line for a placement that does not fit, or for a fixup out of range.
fn reach_words(fault: ReachFault) -> Words
    ensures { result ≡ fault_words (Reach fault) }
{
    match fault {
        ReachFault::Missing(kind, index) => Words::of(&[
            Word::Text("reach"),
            Word::Text("1"),
            Word::Text("Missing"),
            Word::Text(kind_name(kind)),
            Word::Number(u64::from(index)),
        ]),
        ReachFault::Extra(kind, index) => Words::of(&[
            Word::Text("reach"),
            Word::Text("2"),
            Word::Text("Extra"),
            Word::Text(kind_name(kind)),
            Word::Number(u64::from(index)),
        ]),
        ReachFault::Absolute(index) => Words::of(&[
            Word::Text("reach"),
            Word::Text("3"),
            Word::Text("Absolute"),
            Word::Number(u64::from(index)),
        ]),
        ReachFault::TooFar {
            number,
            within,
            cause,
        } => Words::of(&[
            Word::Text("reach"),
            Word::Text("4"),
            Word::Text("TooFar"),
            Word::Text(cause_name(cause)),
            Word::Text("record"),
            Word::Number(u64::from(number)),
            Word::Text("within"),
            Word::Number(u64::from(within)),
        ]),
    }
}

/// The words of the line for a fault.
fn words_of(fault: &RunFault) -> Words
    ensures { result ≡ fault_words fault.now }
{
    match *fault {
        RunFault::Memory => Words::of(&[Word::Text("memory")]),
        RunFault::Read => Words::of(&[Word::Text("read")]),
        RunFault::Write => Words::of(&[Word::Text("write")]),
        RunFault::Refused { reason, place } => Words::of(&[
            Word::Text("refused"),
            Word::Number(u64::from(reason.number())),
            Word::Text(reason.name()),
            Word::Text("record"),
            Word::Number(u64::from(place.number)),
            Word::Text("at"),
            Word::Number(place.start),
            Word::Text("within"),
            Word::Number(u64::from(place.within)),
        ]),
        RunFault::Line(number) => Words::of(&[
            Word::Text("placement"),
            Word::Text("line"),
            Word::Number(number),
        ]),
        RunFault::TooLong => Words::of(&[
            Word::Text("placement"),
            Word::Text("too"),
            Word::Text("long"),
        ]),
        RunFault::Reach(fault) => reach_words(fault),
    }
}

/// Appends a text and a word.
fn push_word(line: &mut String, before: &str, word: Word) -> Result<(), AllocError>
    ensures { AddsText result (string_bytes line.old) (string_bytes line.new) (before.now ++ word_text word) }
{
    line.push_str(before)?;
    match word {
        Word::Text(text) => line.push_str(text),
        Word::Number(number) => line.push_str(Buffer::new().format(number)),
    }
}

/// Words with one space between each two.
fn line_of(alloc: Global, words: &[Word]) -> Result<String, AllocError>
    ensures { IfOk result (λ line. string_bytes line ≡ in_words (map word_text words.now)) }
{
    let mut line = String::new(alloc);
    let [first, rest @ ..] = words else {
        return Ok(line);
    };
    push_word(&mut line, "", *first)?;
    for word in rest {
        push_word(&mut line, " ", *word)?;
    }
    Ok(line)
}

/// Writes a word and the bytes after it.
fn write_piece<K: Sink>(writer: &mut K, word: Word, after: &[u8]) -> Result<(), RunFault>
    ensures { PrintsOr Write (K.seen writer.old) (K.seen writer.new) (Ok (word_text word ++ after.now)) result }
{
    match word {
        Word::Text(text) => write_word(writer, text, after),
        Word::Number(number) => write_word(writer, Buffer::new().format(number), after),
    }
}

/// Writes a line: words with one space between each two, and a line feed.
fn write_pieces<K: Sink>(writer: &mut K, words: &[Word]) -> Result<(), RunFault>
    ensures { PrintsOr Write (K.seen writer.old) (K.seen writer.new) (Ok (line (map word_text words.now))) result }
{
    let [front @ .., last] = words else {
        return print_all(writer, b"\n", RunFault::Write);
    };
    for word in front {
        write_piece(writer, *word, b" ")?;
    }
    write_piece(writer, *last, b"\n")
}

/// Prints the line of a fault, and its line feed. A failing writer is ignored.
pub(crate) fn print_fault<K: Sink>(writer: &mut K, fault: &RunFault)
    ensures { IsWritten (K.seen writer.old) (K.seen writer.new) (line (fault_words fault.now)) }
{
    let _ = write_pieces(writer, words_of(fault).all());
}

/// The line printed for a fault, without its line feed. Numbers are decimal.
pub fn fault_line(alloc: Global, fault: &RunFault) -> Result<String, AllocError>
    ensures { IfOk result (λ line. string_bytes line ≡ fault_line fault.now) }
{
    line_of(alloc, words_of(fault).all())
}
