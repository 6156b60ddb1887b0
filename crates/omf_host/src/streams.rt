//! The two streams of a program: its output, and the standard error.

ghost use Rattle.std.specs.Prelude.{◌≡◌, IfErr, IfOk, false, if◌then◌else◌, [], string_bytes, true};
ghost use Rattle.omf_frame.specs.Bytes.{AddsText};
ghost use Rattle.omf_host.specs.Streams.{IsTold, IsTried, front, fronted, told_lines};

use crate::output::put;
use omf_frame::Sink;
use std::alloc::{AllocError, Global};

/// The streams of a program. What it is asked for goes on its output. Faults, warnings, and how it is called after a mistake go on the standard
/// error: so they are never among what is asked for.
#[derive(Drop)]
pub struct Streams<K, E> {
    /// The standard output.
    pub output: K,
    /// The standard error. A program goes on, and ends as it would, where it can't be written.
    pub errors: E,
    /// The program's name, which is before each line of a fault.
    pub name: &'static str,
}

/// What is before each line of a program: its name and a colon.
fn front(alloc: Global, name: &str) -> Result<String, AllocError>
    ensures { IfOk result (λ words. string_bytes words ≡ front name.now) }
{
    let mut words = String::from_str(alloc, name)?;
    words.push_str(": ")?;
    Ok(words)
}

/// Appends words, if a line begins.
fn put_front(text: &mut Vec<u8>, words: &str, begins: bool) -> Result<(), AllocError>
    ensures { AddsText result text.old.items text.new.items (if begins then words.now else []) }
{
    if begins {
        text.extend_from_slice(words.as_bytes())
    } else {
        Ok(())
    }
}

/// A text with words before each of its lines.
fn fronted(alloc: Global, words: &str, text: &[u8]) -> Result<Vec<u8>, AllocError>
    ensures { IfOk result (λ lines. lines.items ≡ fronted words.now text.now true) }
{
    let mut lines = Vec::new(alloc);
    let mut begins = true;
    let mut rest = text;
    while let [byte, others @ ..] = rest {
        put_front(&mut lines, words, begins)?;
        lines.push(*byte)?;
        begins = *byte == b'\n';
        rest = others;
    }
    Ok(lines)
}

/// The lines of a program on the standard error.
fn told_lines(alloc: Global, name: &str, text: &[u8]) -> Result<Vec<u8>, AllocError>
    ensures { IfOk result (λ lines. lines.items ≡ told_lines name.now text.now) }
{
    let words = front(alloc, name)?;
    fronted(alloc, words.as_str(), text)
}

impl<K, E: Sink> Streams<K, E> {
    /// The streams of a program of this name.
    pub fn new(name: &'static str, output: K, errors: E) -> Self
        ensures { result ≡ record { output = output; errors = errors; name = name.entry } }
    {
        Streams {
            output,
            errors,
            name,
        }
    }

    /// Writes lines of faults or warnings on the standard error, each after the program's name; or a front of them, if it can't be written.
    ///
    /// # Errors
    ///
    /// `AllocError` if out of memory. Nothing is written then.
    pub fn report(&mut self, alloc: Global, lines: &[u8]) -> Result<(), AllocError>
        ensures told { IfOk result (λ _. IsTold self.old.name.now lines.now (E.seen self.old.errors) (E.seen self.new.errors)) }
        ensures untold { IfErr result (λ _. self.new ≡ self.old) }
        ensures output { self.new.output ≡ self.old.output }
        ensures name { self.new.name ≡ self.old.name }
    {
        let lines = told_lines(alloc, self.name, lines)?;
        let _ = put(&mut self.errors, &lines);
        Ok(())
    }
}
