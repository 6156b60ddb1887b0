//! The arguments of `omf-lib`.

use crate::names::typed_name;
use omf_check::Profile;
use std::alloc::{AllocError, Global};

/// What to do with each of several files.
#[derive(Clone, Copy)]
pub enum Look {
    List,
    Check,
}

/// Which members to take out of a library, and where to.
#[derive(Drop)]
pub struct Get {
    /// Their names or numbers; none are all.
    pub members: Vec<String>,
    pub folder: String,
    /// Whether the files are named by the members' numbers.
    pub is_numbered: bool,
}

/// A library to make of files.
#[derive(Drop)]
pub struct Make {
    pub profile: Profile,
    pub output: String,
    pub files: Vec<String>,
    /// Whether names that differ in case are one.
    pub ignores_case: bool,
}

/// Names to find in a library.
#[derive(Drop)]
pub struct Find {
    /// Their bytes.
    pub names: Vec<Vec<u8>>,
    /// Whether names are compared without case.
    pub ignores_case: bool,
}

/// What the arguments ask for; `-` is the standard input.
#[derive(Drop)]
pub enum Asked {
    Look {
        look: Look,
        profile: Profile,
        files: Vec<String>,
    },
    Get {
        file: String,
        get: Get,
    },
    Find {
        file: String,
        find: Find,
    },
    /// Of the modules in the files.
    Make(Make),
    /// Of the canonical bytes of the members of a library, the only file.
    Canon(Make),
}

/// The arguments after the task: names, and options.
#[derive(Drop)]
struct Words {
    names: Vec<String>,
    folder: Option<String>,
    output: Option<String>,
    is_numbered: bool,
    refuse_vendor_comments: bool,
    ignores_case: bool,
}

/// What one argument is.
enum Word {
    /// The folder follows as the next argument.
    Folder,
    /// The name of a new library follows.
    Output,
    Numbered,
    RefuseVendorComments,
    IgnoreCase,
    Name,
    Unknown,
}

/// What an argument is: an option; a name, which does not begin with a dash unless it is `-` alone; or neither.
fn word_of(argument: &str) -> Word {
    match argument {
        "-d" => Word::Folder,
        "-o" => Word::Output,
        "--numbered" => Word::Numbered,
        "--refuse-vendor-comments" => Word::RefuseVendorComments,
        "--ignore-case" => Word::IgnoreCase,
        "-" => Word::Name,
        _ if argument.starts_with('-') => Word::Unknown,
        _ => Word::Name,
    }
}

/// The arguments; None if an option is not known, or the folder is missing.
fn read_words(alloc: Global, arguments: Vec<String>) -> Result<Option<Words>, AllocError> {
    let mut read = Words {
        names: Vec::new(alloc),
        folder: None,
        output: None,
        is_numbered: false,
        refuse_vendor_comments: false,
        ignores_case: false,
    };
    let mut words = arguments.into_iter();
    while let Some(argument) = words.next() {
        match word_of(argument.as_str()) {
            Word::Folder => match words.next() {
                Some(folder) => read.folder = Some(folder),
                None => return Ok(None),
            },
            Word::Output => match words.next() {
                Some(output) => read.output = Some(output),
                None => return Ok(None),
            },
            Word::Numbered => read.is_numbered = true,
            Word::RefuseVendorComments => read.refuse_vendor_comments = true,
            Word::IgnoreCase => read.ignores_case = true,
            Word::Name => read.names.push(argument)?,
            Word::Unknown => return Ok(None),
        }
    }
    Ok(Some(read))
}

/// A look at files; None without a file, or with an option of another task.
fn look_of(look: Look, words: Words) -> Option<Asked> {
    if words.names.is_empty()
        || words.folder.is_some()
        || words.output.is_some()
        || words.is_numbered
        || words.ignores_case
    {
        return None;
    }
    let profile = Profile {
        refuse_vendor_comments: words.refuse_vendor_comments,
    };
    Some(Asked::Look {
        look,
        profile,
        files: words.names,
    })
}

/// Whether an option is given that `find` does not take.
fn has_option(words: &Words) -> bool {
    words.folder.is_some()
        || words.output.is_some()
        || words.is_numbered
        || words.refuse_vendor_comments
}

/// Names to find; None without a file or a name, or with an option of another task.
fn find_of(alloc: Global, words: Words) -> Result<Option<Asked>, AllocError> {
    if words.names.len() < 2 || has_option(&words) {
        return Ok(None);
    }
    let ignores_case = words.ignores_case;
    let mut names = words.names.into_iter();
    let Some(file) = names.next() else {
        return Ok(None);
    };
    let mut sought = Vec::new(alloc);
    for name in names {
        sought.push(typed_name(alloc, name.as_str())?)?;
    }
    let find = Find {
        names: sought,
        ignores_case,
    };
    Ok(Some(Asked::Find { file, find }))
}

/// Members to take; None without a file or a folder, or with an option of the other tasks.
fn get_of(alloc: Global, words: Words) -> Result<Option<Asked>, AllocError> {
    let Words {
        names,
        folder,
        output,
        is_numbered,
        refuse_vendor_comments,
        ignores_case,
    } = words;
    let Some(folder) = folder else {
        return Ok(None);
    };
    let mut names = names.into_iter();
    let Some(file) = names.next() else {
        return Ok(None);
    };
    // The empty name, as from a variable that is not set, would be the root folder.
    if refuse_vendor_comments || ignores_case || output.is_some() || folder.is_empty() {
        return Ok(None);
    }
    let get = Get {
        members: names.collect(alloc)?,
        folder,
        is_numbered,
    };
    Ok(Some(Asked::Get { file, get }))
}

/// A library to make; None without its name or a file, or with an option of `get`.
fn make_of(words: Words) -> Option<Make> {
    let Words {
        names,
        folder,
        output,
        is_numbered,
        refuse_vendor_comments,
        ignores_case,
    } = words;
    let output = output?;
    if names.is_empty() || output.is_empty() || folder.is_some() || is_numbered {
        return None;
    }
    let profile = Profile {
        refuse_vendor_comments,
    };
    Some(Make {
        profile,
        output,
        files: names,
        ignores_case,
    })
}

/// A library to make of the members of one, whose flag on case it keeps; None without their two names, or with an option of
/// another task.
fn canon_of(words: Words) -> Option<Asked> {
    if words.names.len() != 1 || words.ignores_case {
        return None;
    }
    Some(Asked::Canon(make_of(words)?))
}

impl Asked {
    /// Whether it is for names alone that arguments which are not UTF-8 are given: a file can't have such a name.
    pub fn takes(&self, spelled: &[String]) -> bool {
        match self {
            Asked::Find { file, .. } => !spelled.iter().any(|one| one.as_str() == file.as_str()),
            Asked::Look { .. } | Asked::Get { .. } | Asked::Make(_) | Asked::Canon(_) => {
                spelled.is_empty()
            }
        }
    }
}

/// What the arguments ask for, without the program's own name; None if they are not understood.
///
/// # Errors
///
/// `AllocError` if out of memory.
pub fn read_arguments(alloc: Global, arguments: Vec<String>) -> Result<Option<Asked>, AllocError> {
    let mut words = arguments.into_iter();
    let Some(task) = words.next() else {
        return Ok(None);
    };
    let rest = words.collect(alloc)?;
    let Some(words) = read_words(alloc, rest)? else {
        return Ok(None);
    };
    match task.as_str() {
        "list" => Ok(look_of(Look::List, words)),
        "check" => Ok(look_of(Look::Check, words)),
        "get" => get_of(alloc, words),
        "find" => find_of(alloc, words),
        "make" => Ok(make_of(words).map(|make| Asked::Make(make))),
        "canon" => Ok(canon_of(words)),
        _ => Ok(None),
    }
}
