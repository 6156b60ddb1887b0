//! The arguments of `omf-find`.

ghost use Rattle.std.specs.Prelude.{◌≡◌, IfOk, None, Some, if◌then◌else◌, option_map, string_bytes};
ghost use Rattle.omf_host.specs.Outputs.{is_standard};

use crate::fields::Format;
use omf_check::Profile;
use omf_host::number;
use omf_symbols::{Tool, tool_named};
use std::alloc::{AllocError, Global};

/// What is written.
#[derive(Clone, Copy)]
pub enum Output {
    /// A map, as text.
    Text,
    /// A map, an object of JSON on each line.
    Json,
    /// The names that are found, for a tool.
    Symbols(Tool),
}

/// What the arguments ask for.
#[derive(Drop)]
pub struct Asked {
    pub output: Output,
    pub profile: Profile,
    /// The address of the first byte of a raw image; None for an MZ or a .COM file.
    pub base: Option<u32>,
    /// The selectors that a raw image uses.
    pub selectors: Vec<u16>,
    /// What a tool adds to the addresses of the program; None for what it usually adds.
    pub load: Option<u32>,
    /// The number of bytes from which on one place of them is enough.
    pub least: usize,
    /// The number of bytes that differ at most of a segment that is shown as near; None if none is shown.
    pub near: Option<usize>,
    /// Whether the places that are only possible are shown.
    pub shows_possible: bool,
    /// The file for a link text of what is found; None if none is written.
    pub link: Option<String>,
    /// The names of the program and of the files; `-` is the standard input.
    pub files: Vec<String>,
}

impl Asked {
    /// A map of a program, as text.
    fn new(alloc: Global) -> Asked {
        Asked {
            output: Output::Text,
            profile: Profile {
                refuse_vendor_comments: false,
            },
            base: None,
            selectors: Vec::new(alloc),
            load: None,
            least: 16,
            near: None,
            shows_possible: false,
            link: None,
            files: Vec::new(alloc),
        }
    }

    /// Whether an option is given without the one that it is for, or beside an output that does not have it.
    fn is_contradictory(&self) -> bool {
        let is_map = match self.output {
            Output::Text | Output::Json => true,
            Output::Symbols(_) => false,
        };
        if is_map {
            self.load.is_some() || self.has_frames_alone()
        } else {
            self.shows_possible || self.near.is_some() || self.has_frames_alone()
        }
    }

    /// Whether selectors are given, and no address of a raw image.
    fn has_frames_alone(&self) -> bool {
        self.base.is_none() && !self.selectors.is_empty()
    }

    /// Asks for an output. Returns false if another one is asked for.
    fn take_output(&mut self, output: Output) -> bool {
        match (self.output, output) {
            (Output::Json, Output::Symbols(_)) | (Output::Symbols(_), Output::Json) => false,
            _ => {
                self.output = output;
                true
            }
        }
    }

    /// The form of faults: objects in JSON, else lines.
    pub fn format(&self) -> Format {
        match self.output {
            Output::Json => Format::Json,
            Output::Text | Output::Symbols(_) => Format::Text,
        }
    }
}

/// What one argument is.
#[derive(Clone, Copy)]
enum Word {
    Json,
    /// The name of a tool follows as the next argument.
    Symbols,
    /// An address follows.
    Base,
    /// A selector follows.
    Frame,
    /// An address follows.
    Load,
    /// A number follows.
    Least,
    /// The name of a file follows.
    Link,
    /// A number follows.
    Near,
    Possible,
    RefuseVendorComments,
    File,
    Unknown,
}

/// What an argument is: an option; a file's name, which does not begin with a dash unless it is `-` alone; or neither.
fn word_of(argument: &str) -> Word {
    match argument {
        "--json" => Word::Json,
        "--symbols" => Word::Symbols,
        "--base" => Word::Base,
        "--frame" => Word::Frame,
        "--load" => Word::Load,
        "--least" => Word::Least,
        "--link" => Word::Link,
        "--near" => Word::Near,
        "--possible" => Word::Possible,
        "--refuse-vendor-comments" => Word::RefuseVendorComments,
        "-" => Word::File,
        _ if argument.starts_with('-') => Word::Unknown,
        _ => Word::File,
    }
}

/// The address that an argument is: hexadecimal digits, alone, after `0x` or before an H.
fn address_of(argument: &str) -> Option<u32> {
    number(argument.as_bytes(), 8)
}

/// The selector that an argument is: hexadecimal digits, as those of an address.
fn selector_of(argument: &str) -> Option<u16> {
    let number = number(argument.as_bytes(), 4)?;
    u16::try_from(number).ok()
}

/// The file that an argument names for an output; None for the standard output, where the map is.
fn file_of(alloc: Global, argument: &str) -> Result<Option<String>, AllocError>
    ensures { IfOk result (λ file. option_map string_bytes file ≡ (if is_standard argument.now then None else Some argument.now)) }
{
    if argument == "-" {
        return Ok(None);
    }
    Ok(Some(String::from_str(alloc, argument)?))
}

/// Takes an option without a value. Returns whether it is one.
fn take_flag(asked: &mut Asked, word: Word) -> bool {
    match word {
        Word::Json => return asked.take_output(Output::Json),
        Word::Possible => asked.shows_possible = true,
        Word::RefuseVendorComments => asked.profile.refuse_vendor_comments = true,
        _ => return false,
    }
    true
}

/// Takes the value of an option. Returns whether it is one.
fn take_value(asked: &mut Asked, word: Word, value: &str) -> Result<bool, AllocError> {
    match word {
        Word::Symbols => match tool_named(value) {
            Some(tool) => return Ok(asked.take_output(Output::Symbols(tool))),
            None => return Ok(false),
        },
        Word::Frame => match selector_of(value) {
            Some(selector) => asked.selectors.push(selector)?,
            None => return Ok(false),
        },
        Word::Least => match value.parse::<usize>() {
            Ok(least) => asked.least = least,
            Err(_) => return Ok(false),
        },
        Word::Near => match value.parse::<usize>() {
            Ok(most) => asked.near = Some(most),
            Err(_) => return Ok(false),
        },
        Word::Base => match address_of(value) {
            Some(base) => asked.base = Some(base),
            None => return Ok(false),
        },
        Word::Link => match file_of(*asked.files.allocator(), value)? {
            Some(file) => asked.link = Some(file),
            None => return Ok(false),
        },
        Word::Load => match address_of(value) {
            Some(load) => asked.load = Some(load),
            None => return Ok(false),
        },
        _ => return Ok(false),
    }
    Ok(true)
}

/// Takes the value of an option, if there is one.
fn take_next(asked: &mut Asked, word: Word, value: Option<String>) -> Result<bool, AllocError> {
    match value {
        Some(value) => take_value(asked, word, value.as_str()),
        None => Ok(false),
    }
}

/// What the arguments ask for, without the program's own name; None if they are not understood.
///
/// # Errors
///
/// `AllocError` if memory ran out.
pub fn read_arguments(alloc: Global, arguments: Vec<String>) -> Result<Option<Asked>, AllocError> {
    let mut asked = Asked::new(alloc);
    let mut words = arguments.into_iter();
    while let Some(argument) = words.next() {
        match word_of(argument.as_str()) {
            Word::File => asked.files.push(argument)?,
            Word::Unknown => return Ok(None),
            word => {
                if !take_flag(&mut asked, word) && !take_next(&mut asked, word, words.next())? {
                    return Ok(None);
                }
            }
        }
    }
    if asked.is_contradictory() {
        return Ok(None);
    }
    Ok(Some(asked))
}
