//! The libraries that were not found, and why.

use omf_exe::missing_lines;
use omf_host::put_quoted;
use std::alloc::{AllocError, Global};
use std::fs::File;
use std::slice::from_ref;

/// Why no file with a library's name is taken.
#[derive(Drop)]
pub(crate) enum Why {
    /// This file does not begin with F0H.
    NoLibrary(String),
    /// This file cannot be read.
    Unreadable(String),
    /// The names of these two files differ from the library's in case.
    Several(String, String),
}

/// A library that was not found.
#[derive(Drop)]
pub(crate) struct Missing {
    /// Its name.
    pub(crate) name: Vec<u8>,
    /// Why no file is taken for it; None if none has its name.
    pub(crate) why: Option<Why>,
}

impl Why {
    /// Why a file is not taken that was to be read.
    fn of_file(rt: &HostRuntime, path: String) -> Why {
        match File::open(rt, path.as_str()) {
            Ok(_) => Why::NoLibrary(path),
            Err(_) => Why::Unreadable(path),
        }
    }

    /// Why none of the files in a folder that have a library's name is taken. `read` are those that were read. None if there is no such file.
    pub(crate) fn of(
        rt: &HostRuntime,
        front: &str,
        files: &[String],
        read: &[String],
    ) -> Result<Option<Why>, AllocError> {
        if let [first, ..] = read {
            let path = format!(in rt.alloc(); "{front}{first}")?;
            return Ok(Some(Why::of_file(rt, path)));
        }
        let [first, second, ..] = files else {
            return Ok(None);
        };
        let first = format!(in rt.alloc(); "{front}{first}")?;
        let second = format!(in rt.alloc(); "{front}{second}")?;
        Ok(Some(Why::Several(first, second)))
    }

    /// Appends the words.
    fn put(&self, line: &mut String) -> Result<(), AllocError> {
        match self {
            Why::NoLibrary(path) => {
                line.push_str("file ")?;
                put_quoted(line, path.as_bytes())?;
                line.push_str(" is no library")
            }
            Why::Unreadable(path) => {
                line.push_str("file ")?;
                put_quoted(line, path.as_bytes())?;
                line.push_str(" cannot be read")
            }
            Why::Several(first, second) => {
                line.push_str("it may be file ")?;
                put_quoted(line, first.as_bytes())?;
                line.push_str(" or ")?;
                put_quoted(line, second.as_bytes())
            }
        }
    }
}

impl Missing {
    /// Appends the line.
    fn put(&self, alloc: Global, lines: &mut String) -> Result<(), AllocError> {
        let line = missing_lines(alloc, from_ref(&self.name))?;
        lines.push_str(line.trim_end())?;
        if let Some(why) = &self.why {
            lines.push_str(": ")?;
            why.put(lines)?;
        }
        lines.push('\n')
    }
}

/// A line for each library that was not found.
pub(crate) fn lines_of(alloc: Global, missing: &[Missing]) -> Result<String, AllocError> {
    let mut lines = String::new(alloc);
    for library in missing {
        library.put(alloc, &mut lines)?;
    }
    Ok(lines)
}
