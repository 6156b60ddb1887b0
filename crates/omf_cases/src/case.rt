//! A case: a program, its arguments and input, and what it is to print and end with.

use crate::fault::LineFault;
use crate::text::{push_text, text_of};
use omf_cmd::{Ended, Omf, run_in_memory};
use omf_drafting::place::Place;
use omf_linker::link::Link;
use omf_samples::bytes_of;
use std::alloc::{AllocError, Global};

/// A program that a case can run.
#[derive(Clone, Copy)]
enum Program {
    /// `omf`.
    Omf,
    /// `omf-link`.
    Link,
    /// `omf-place`.
    Place,
}

impl Program {
    /// The program of this name.
    fn named(name: &str) -> Result<Program, LineFault> {
        match name {
            "omf" => Ok(Program::Omf),
            "omf-link" => Ok(Program::Link),
            "omf-place" => Ok(Program::Place),
            _ => Err(LineFault::Program),
        }
    }

    /// Runs the program on arguments, its own name first, and an input.
    fn run(self, alloc: Global, arguments: &[&str], input: &[u8]) -> Result<Ended, AllocError> {
        match self {
            Program::Omf => run_in_memory::<Omf>(alloc, arguments, input),
            Program::Link => run_in_memory::<Link>(alloc, arguments, input),
            Program::Place => run_in_memory::<Place>(alloc, arguments, input),
        }
    }
}

/// A case, by the fields of its line.
#[derive(Drop)]
pub struct Case<'a> {
    name: &'a str,
    program: Program,
    /// The program's own name, and the arguments.
    call: &'a str,
    /// The input: records in hexadecimal, and a text after them.
    records: &'a str,
    text: &'a str,
    status: u8,
    printed: &'a str,
}

/// The arguments of a call: words with a space between each two; `""` is an empty argument.
fn arguments_of<'a>(alloc: Global, call: &'a str) -> Result<Vec<&'a str>, AllocError> {
    let mut arguments = Vec::new(alloc);
    for word in call.split(' ') {
        let argument = if word == "\"\"" { "" } else { word };
        arguments.push(argument)?;
    }
    Ok(arguments)
}

/// The bytes of an input: records in hexadecimal, and a text after them.
fn input_of(alloc: Global, records: &str, text: &str) -> Result<Vec<u8>, LineFault> {
    let mut input = bytes_of(alloc, records)?;
    push_text(&mut input, text)?;
    Ok(input)
}

/// The bytes that are to be printed: in hexadecimal after the word `hex`, else a text.
fn printed_of(alloc: Global, printed: &str) -> Result<Vec<u8>, LineFault> {
    match printed.strip_prefix("hex ") {
        Some(digits) => Ok(bytes_of(alloc, digits)?),
        None => text_of(alloc, printed),
    }
}

/// The field before the first bar of a line, and what follows the bar.
fn field(line: &str) -> Result<(&str, &str), LineFault> {
    match line.split_once('|') {
        Some((field, rest)) => Ok((field.trim(), rest)),
        None => Err(LineFault::Fields),
    }
}

/// The last field of a line.
fn last_field(line: &str) -> Result<&str, LineFault> {
    if line.contains('|') {
        return Err(LineFault::Fields);
    }
    Ok(line.trim())
}

/// A line about a program that ended or printed otherwise.
fn described(alloc: Global, name: &str, ended: Ended) -> Result<String, AllocError> {
    let status = ended.status;
    match String::from_utf8(ended.text) {
        Ok(text) => format!(in alloc; "{name}: status {status}, {text:?}"),
        Err(_) => format!(in alloc; "{name}: status {status}, other bytes"),
    }
}

impl<'a> Case<'a> {
    /// Reads a line: name, call, records, text, status and output, with a bar between each two.
    ///
    /// # Errors
    ///
    /// `Fields` if there are not six, `Name` if the first is empty, `Program` and `Status` if that field is wrong.
    pub fn parse(line: &'a str) -> Result<Case<'a>, LineFault> {
        let (name, rest) = field(line)?;
        let (call, rest) = field(rest)?;
        let (records, rest) = field(rest)?;
        let (text, rest) = field(rest)?;
        let (status, rest) = field(rest)?;
        let printed = last_field(rest)?;
        if name.is_empty() {
            return Err(LineFault::Name);
        }
        let Ok(status) = status.parse::<u8>() else {
            return Err(LineFault::Status);
        };
        let program = Program::named(call.split(' ').next().unwrap_or(""))?;
        Ok(Case {
            name,
            program,
            call,
            records,
            text,
            status,
            printed,
        })
    }

    /// Runs the program.
    fn run(&self, alloc: Global) -> Result<Ended, LineFault> {
        let arguments = arguments_of(alloc, self.call)?;
        let input = input_of(alloc, self.records, self.text)?;
        Ok(self.program.run(alloc, &arguments, &input)?)
    }

    /// Runs the program. Returns `None` if it ends and prints as expected, else a line with its name, its status and its output.
    ///
    /// # Errors
    ///
    /// `Bytes` and `Escape` if the records, the text or the output are wrong, `Memory`.
    pub fn difference(&self, alloc: Global) -> Result<Option<String>, LineFault> {
        let printed = printed_of(alloc, self.printed)?;
        let ended = self.run(alloc)?;
        if ended.is(self.status, &printed) {
            return Ok(None);
        }
        Ok(Some(described(alloc, self.name, ended)?))
    }
}
