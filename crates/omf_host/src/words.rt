//! The arguments of the process.

use crate::files::read_input;
use crate::text::put_name;
use crate::usage::{has_word, is_option, shown_of};
use std::alloc::{AllocError, Global};
use std::env;
use std::env::Env;
use std::io::ErrorKind;
use std::str::from_utf8;

/// The most bytes of an argument, with the zero at its end: the system passes no longer one.
const LONGEST: usize = 131_072;

/// The parts of an argument that is an option and its value: with `=` between them, or, after a dash and one letter, with nothing. None if it is
/// another argument.
fn option_and_value<'a>(usage: &str, word: &'a str) -> Option<(&'a str, &'a str)> {
    if let Some((option, value)) = word.split_once('=')
        && has_word(shown_of(usage, option))
    {
        return Some((option, value));
    }
    let (option, value) = word.split_at_checked(2)?;
    if !value.is_empty() && has_word(shown_of(usage, option)) {
        Some((option, value))
    } else {
        None
    }
}

/// Arguments, as a program takes them.
#[derive(Drop)]
struct Words<'a> {
    /// The text that shows how the program is called.
    usage: &'a str,
    taken: Vec<String>,
    /// Whether the next argument is no option: the program's own name, or the value of the option before it.
    is_value: bool,
    /// Whether `--` has ended the options.
    is_ended: bool,
}

impl Words<'_> {
    /// Whether the next argument may be `--` or an option.
    fn is_open(&self) -> bool {
        !self.is_value && !self.is_ended
    }

    /// Takes an argument: two, if it is an option and its value. What follows `--` is a file: a name there that begins with a dash gets `./`
    /// before it.
    fn take(&mut self, alloc: Global, word: String) -> Result<(), AllocError> {
        if self.is_ended && is_option(word.as_str()) {
            let mut name = String::from_str(alloc, "./")?;
            name.push_str(word.as_str())?;
            return Ok(self.taken.push(name)?);
        }
        if self.is_open() && word.as_str() == "--" {
            self.is_ended = true;
            return Ok(());
        }
        if self.is_open()
            && let Some((option, value)) = option_and_value(self.usage, word.as_str())
        {
            self.taken.push(String::from_str(alloc, option)?)?;
            return Ok(self.taken.push(String::from_str(alloc, value)?)?);
        }
        self.is_value = self.is_open() && has_word(shown_of(self.usage, word.as_str()));
        Ok(self.taken.push(word)?)
    }

    /// Takes each argument of a response file.
    fn take_all(&mut self, alloc: Global, words: Vec<String>) -> Result<(), AllocError> {
        for word in words {
            self.take(alloc, word)?;
        }
        Ok(())
    }
}

/// The words of a response file. White space is between two words; what is between two quotes, `"` or `'`, is one word or a part of one. The
/// byte 1AH ends the text, as DOS editors write it.
///
/// # Errors
///
/// `AllocError` if out of memory.
pub fn words_of(alloc: Global, text: &str) -> Result<Vec<String>, AllocError> {
    let mut words = Vec::new(alloc);
    let mut word: Option<String> = None;
    let mut quote = None;
    for c in text.chars() {
        if c == '\x1A' {
            break;
        }
        if quote == Some(c) {
            quote = None;
            continue;
        }
        if quote.is_none() && c.is_whitespace() {
            if let Some(word) = word.take() {
                words.push(word)?;
            }
            continue;
        }
        let mut longer = match word.take() {
            Some(word) => word,
            None => String::new(alloc),
        };
        if quote.is_none() && (c == '"' || c == '\'') {
            quote = Some(c);
        } else {
            longer.push(c)?;
        }
        word = Some(longer);
    }
    if let Some(word) = word {
        words.push(word)?;
    }
    Ok(words)
}

/// A text without a byte-order mark at its front, as some editors write one.
fn unmarked(text: &str) -> &str {
    text.strip_prefix('\u{FEFF}').unwrap_or(text)
}

/// The words of the file that is named after `@`; None if the argument does not begin so, or if there is no such file of UTF-8.
fn response(rt: &HostRuntime, argument: &str) -> Result<Option<Vec<String>>, AllocError> {
    let Some(name) = argument.strip_prefix('@') else {
        return Ok(None);
    };
    match read_input(rt, name) {
        Ok(bytes) => match String::from_utf8(bytes) {
            Ok(text) => Ok(Some(words_of(rt.alloc(), unmarked(text.as_str()))?)),
            Err(_) => Ok(None),
        },
        Err(error) if error.kind() == ErrorKind::OutOfMemory => Err(AllocError),
        Err(_) => Ok(None),
    }
}

/// The names that may be those of response files: what follows an `@` in front of an argument of the process, up to `--`.
///
/// # Errors
///
/// `AllocError` if out of memory.
pub(crate) fn response_names(rt: &HostRuntime) -> Result<Vec<String>, AllocError> {
    let mut names = Vec::new(rt.alloc());
    let words = match env::args(rt) {
        Ok(words) => words,
        Err(error) if error.kind() == ErrorKind::OutOfMemory => return Err(AllocError),
        Err(_) => return Ok(names),
    };
    for word in words.skip(1) {
        if word.as_str() == "--" {
            break;
        }
        if let Some(name) = word.as_str().strip_prefix('@') {
            names.push(String::from_str(rt.alloc(), name)?)?;
        }
    }
    Ok(names)
}

/// Takes the arguments as a program does, with those of response files in their place.
fn taken(
    rt: &HostRuntime,
    usage: &str,
    arguments: Vec<String>,
    has_name: bool,
) -> Result<Vec<String>, AllocError> {
    let alloc = rt.alloc();
    let mut words = Words {
        usage,
        taken: Vec::new(alloc),
        is_value: has_name,
        is_ended: false,
    };
    for argument in arguments {
        let from_file = if words.is_open() {
            response(rt, argument.as_str())?
        } else {
            None
        };
        match from_file {
            Some(others) => words.take_all(alloc, others)?,
            None => words.take(alloc, argument)?,
        }
    }
    Ok(words.taken)
}

/// The arguments of the process from one on; None if one of them is not UTF-8.
fn arguments_from(
    rt: &HostRuntime,
    usage: &str,
    first: usize,
) -> Result<Option<Vec<String>>, AllocError> {
    match env::args(rt) {
        Ok(words) => {
            let words = words.skip(first).collect(rt.alloc())?;
            Ok(Some(taken(rt, usage, words, first == 0)?))
        }
        Err(error) if error.kind() == ErrorKind::OutOfMemory => Err(AllocError),
        Err(_) => Ok(None),
    }
}

/// The bytes of an argument of the process; None after the last one.
fn argument(rt: &HostRuntime, number: usize) -> Result<Option<Vec<u8>>, AllocError> {
    let mut bytes = Vec::new(rt.alloc());
    bytes.resize(LONGEST, 0)?;
    match rt.arg(number, &mut bytes) {
        Ok(length) => {
            bytes.truncate(length);
            Ok(Some(bytes))
        }
        Err(_) => Ok(None),
    }
}

/// Arguments of the process, each as text.
#[derive(Drop)]
pub struct SpelledArguments {
    /// The arguments without the program's own name, as `arguments` has them. Of one that is not UTF-8 the bytes other than plain ASCII are `\xNN`,
    /// as names are printed.
    pub words: Vec<String>,
    /// Those that are not UTF-8.
    pub spelled: Vec<String>,
}

impl SpelledArguments {
    /// Adds an argument.
    fn add(&mut self, alloc: Global, bytes: Vec<u8>) -> Result<(), AllocError> {
        if let Ok(text) = from_utf8(&bytes) {
            return Ok(self.words.push(String::from_str(alloc, text)?)?);
        }
        let mut text = String::new(alloc);
        put_name(&mut text, &bytes)?;
        self.spelled.push(text.clone()?)?;
        Ok(self.words.push(text)?)
    }
}

/// The arguments of the process as text, for a program with this usage.
///
/// # Errors
///
/// `AllocError` if out of memory.
pub fn spelled_arguments(rt: &HostRuntime, usage: &str) -> Result<SpelledArguments, AllocError> {
    let alloc = rt.alloc();
    let mut given = SpelledArguments {
        words: Vec::new(alloc),
        spelled: Vec::new(alloc),
    };
    for number in 1..usize::MAX {
        match argument(rt, number)? {
            Some(bytes) => given.add(alloc, bytes)?,
            None => break,
        }
    }
    let SpelledArguments { words, spelled } = given;
    let words = taken(rt, usage, words, false)?;
    Ok(SpelledArguments { words, spelled })
}

/// The arguments of the process without the program's own name, for a program with this usage; None if one of them is not UTF-8. `@FILE` is
/// the words of a file, if it can be read. An option and its value may be one argument, with `=` between them, or with nothing after a dash and one
/// letter. `--` ends the options: a name after it that begins with a dash has `./` before it.
///
/// # Errors
///
/// `AllocError` if out of memory.
pub fn arguments(rt: &HostRuntime, usage: &str) -> Result<Option<Vec<String>>, AllocError> {
    arguments_from(rt, usage, 1)
}

/// The program's own name and the arguments of the process, as `arguments` has them.
///
/// # Errors
///
/// `AllocError` if out of memory.
pub fn program_and_arguments(
    rt: &HostRuntime,
    usage: &str,
) -> Result<Option<Vec<String>>, AllocError> {
    arguments_from(rt, usage, 0)
}
