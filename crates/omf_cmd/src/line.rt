//! Lines written word by word, without memory.

ghost use Rattle.std.specs.Prelude.{◌≡◌, ◌++◌, ◌∷◌, [], Ok, flat_map, map};
ghost use Rattle.omf_cmd.specs.Printed.{line, spaced};
ghost use Rattle.omf_cmd.specs.Runs.{IsWritten, PrintsOr};
ghost use Rattle.omf_cmd.specs.declared.fault.RunFault.TheVariants.{Write};
ghost use Rattle.omf_placement.specs.Quoted.{escaped, quoted};

use crate::digits::two_digits;
use crate::fault::RunFault;
use crate::output::print_all;
use crate::printing::is_plain;
use omf_frame::Sink;

/// Writes a word and the bytes after it.
pub(crate) fn write_word<K: Sink>(writer: &mut K, word: &str, after: &[u8]) -> Result<(), RunFault>
    ensures { PrintsOr Write (K.seen writer.old) (K.seen writer.new) (Ok (word.now ++ after.now)) result }
{
    print_all(writer, word.as_bytes(), RunFault::Write)?;
    print_all(writer, after, RunFault::Write)
}

/// Writes words, each with a space after it: the front of a line.
///
/// # Errors
///
/// `Write` if the writer failed, or took nothing. A front of the words may then be written.
pub fn write_words<K: Sink>(writer: &mut K, words: &[&str]) -> Result<(), RunFault>
    ensures { PrintsOr Write (K.seen writer.old) (K.seen writer.new) (Ok (flat_map spaced (map (λ word. word.now) words.now))) result }
{
    for word in words {
        write_word(writer, *word, b" ")?;
    }
    Ok(())
}

/// Writes a line: words with one space between each two, and a line feed.
fn write_line<K: Sink>(writer: &mut K, words: &[&str]) -> Result<(), RunFault>
    ensures { PrintsOr Write (K.seen writer.old) (K.seen writer.new) (Ok (line (map (λ word. word.now) words.now))) result }
{
    let [front @ .., last] = words else {
        return print_all(writer, b"\n", RunFault::Write);
    };
    write_words(writer, front)?;
    write_word(writer, *last, b"\n")
}

/// Prints a line: words with one space between each two, and a line feed. A failing writer is ignored.
pub fn print_words<K: Sink>(writer: &mut K, words: &[&str])
    ensures { IsWritten (K.seen writer.old) (K.seen writer.new) (line (map (λ word. word.now) words.now)) }
{
    let _ = write_line(writer, words);
}

/// Writes a byte of a name, as it is or as `\x` and two digits.
fn write_escaped<K: Sink>(writer: &mut K, byte: u8) -> Result<(), RunFault>
    ensures { PrintsOr Write (K.seen writer.old) (K.seen writer.new) (Ok (escaped byte)) result }
{
    if is_plain(byte) {
        return print_all(writer, &[byte], RunFault::Write);
    }
    let [high, low] = two_digits(byte);
    print_all(writer, &[b'\\', b'x', high, low], RunFault::Write)
}

/// Writes the bytes of a name, each as it is or as `\x` and two digits.
fn write_name<K: Sink>(writer: &mut K, name: &[u8]) -> Result<(), RunFault>
    ensures { PrintsOr Write (K.seen writer.old) (K.seen writer.new) (Ok (flat_map escaped name.now)) result }
{
    for byte in name {
        write_escaped(writer, *byte)?;
    }
    Ok(())
}

/// Writes the end of a line: a name in double quotes, with `\xHH` for bytes that are not plain, and a line feed.
///
/// # Errors
///
/// `Write` if the writer failed, or took nothing. A front of the text may then be written.
pub fn write_last_name<K: Sink>(writer: &mut K, name: &[u8]) -> Result<(), RunFault>
    ensures { PrintsOr Write (K.seen writer.old) (K.seen writer.new) (Ok (line (quoted name.now ∷ []))) result }
{
    print_all(writer, b"\"", RunFault::Write)?;
    write_name(writer, name)?;
    print_all(writer, b"\"\n", RunFault::Write)
}
