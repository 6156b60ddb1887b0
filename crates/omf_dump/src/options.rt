//! The arguments of `omf-dump`.

use crate::format::{Format, Listing, Mode, Shape, Style, Subject, Which};
use omf_check::Profile;
use std::alloc::{AllocError, Global};

/// What is shown of each input.
#[derive(Clone, Copy)]
pub enum Task {
    /// Each record.
    Records,
    /// A list of its modules, or of their names.
    Lines(Subject),
}

/// What the arguments ask for.
#[derive(Drop)]
pub struct Asked {
    pub task: Task,
    pub mode: Mode,
    /// How a list is written.
    pub shape: Shape,
    /// The names of the files; `-` is the standard input.
    pub files: Vec<String>,
}

impl Asked {
    /// A list with lines on this.
    pub fn listing(&self, subject: Subject) -> Listing {
        Listing {
            profile: self.mode.profile,
            shape: self.shape,
            subject,
        }
    }
}

/// The options that arguments have.
#[derive(Clone, Copy)]
struct Flags {
    is_json: bool,
    is_csv: bool,
    has_verdict: bool,
    has_names: bool,
    is_defined: bool,
    is_undefined: bool,
    refuse_vendor_comments: bool,
    /// The most bytes of data that are shown of a record, if this is asked for.
    most: Option<usize>,
}

impl Flags {
    /// Those of no arguments.
    fn new() -> Flags {
        Flags {
            is_json: false,
            is_csv: false,
            has_verdict: false,
            has_names: false,
            is_defined: false,
            is_undefined: false,
            refuse_vendor_comments: false,
            most: None,
        }
    }

    /// The names that are listed; None if the options contradict each other.
    fn which(self) -> Option<Which> {
        match (self.is_defined, self.is_undefined) {
            (false, false) => Some(Which::All),
            (true, false) => Some(Which::Defined),
            (false, true) => Some(Which::Undefined),
            (true, true) => None,
        }
    }

    /// What is listed of each input; None if an option belongs to another task.
    fn subject(self) -> Option<Subject> {
        match (self.has_verdict, self.has_names, self.which()?) {
            (false, true, which) => Some(Subject::Names(which)),
            (true, false, Which::All) => Some(Subject::Verdicts),
            _ => None,
        }
    }

    /// What is shown of each input; None if an option belongs to another task.
    fn task(self) -> Option<Task> {
        let is_list = self.has_verdict || self.has_names;
        let is_of_records = !self.is_csv && !self.is_defined && !self.is_undefined;
        match (is_list, self.most) {
            (true, None) => Some(Task::Lines(self.subject()?)),
            (false, _) if is_of_records => Some(Task::Records),
            _ => None,
        }
    }

    /// How records and lists are written; None for two ways.
    fn shapes(self) -> Option<(Format, Shape)> {
        match (self.is_json, self.is_csv) {
            (false, false) => Some((Format::Text, Shape::Text)),
            (true, false) => Some((Format::Json, Shape::Json)),
            (false, true) => Some((Format::Text, Shape::Csv)),
            (true, true) => None,
        }
    }

    /// What is asked for, of these files; None if the options do not belong together.
    fn asked(self, files: Vec<String>) -> Option<Asked> {
        let task = self.task()?;
        let (format, shape) = self.shapes()?;
        let refuse_vendor_comments = self.refuse_vendor_comments;
        let most = self.most.unwrap_or(usize::MAX);
        Some(Asked {
            task,
            mode: Mode {
                profile: Profile {
                    refuse_vendor_comments,
                },
                style: Style { format, most },
            },
            shape,
            files,
        })
    }
}

/// What one argument is.
enum Word {
    Json,
    Csv,
    Verdict,
    Names,
    Defined,
    Undefined,
    /// The most bytes of data follow as the next argument.
    Data,
    RefuseVendorComments,
    File,
    Unknown,
}

/// What an argument is: an option; a file's name, which does not begin with a dash unless it is `-` alone; or neither.
fn word_of(argument: &str) -> Word {
    match argument {
        "--json" => Word::Json,
        "--csv" => Word::Csv,
        "--verdict" => Word::Verdict,
        "--names" => Word::Names,
        "--defined" => Word::Defined,
        "--undefined" => Word::Undefined,
        "--data" => Word::Data,
        "--refuse-vendor-comments" => Word::RefuseVendorComments,
        "-" => Word::File,
        _ if argument.starts_with('-') => Word::Unknown,
        _ => Word::File,
    }
}

/// The number that an argument is: decimal digits.
fn number_of(argument: Option<String>) -> Option<usize> {
    match argument {
        Some(digits) => digits.as_str().parse::<usize>().ok(),
        None => None,
    }
}

/// What the arguments ask for, without the program's own name; None if they are not understood.
///
/// # Errors
///
/// `AllocError` if memory ran out.
pub fn read_arguments(alloc: Global, arguments: Vec<String>) -> Result<Option<Asked>, AllocError> {
    let mut flags = Flags::new();
    let mut files = Vec::new(alloc);
    let mut words = arguments.into_iter();
    while let Some(argument) = words.next() {
        match word_of(argument.as_str()) {
            Word::Json => flags.is_json = true,
            Word::Csv => flags.is_csv = true,
            Word::Verdict => flags.has_verdict = true,
            Word::Names => flags.has_names = true,
            Word::Defined => flags.is_defined = true,
            Word::Undefined => flags.is_undefined = true,
            Word::Data => match number_of(words.next()) {
                Some(most) => flags.most = Some(most),
                None => return Ok(None),
            },
            Word::RefuseVendorComments => flags.refuse_vendor_comments = true,
            Word::File => files.push(argument)?,
            Word::Unknown => return Ok(None),
        }
    }
    Ok(flags.asked(files))
}
