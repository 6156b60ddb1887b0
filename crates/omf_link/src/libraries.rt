//! The libraries that modules ask for: they are looked for by name.

ghost use Rattle.std.specs.Prelude.{◌≡◌};

use crate::folders::Folders;
use crate::host::read_files;
use crate::listing::{Folder, Listings, has_name, to_read};
use crate::missing::{Missing, Why};
use omf_exe::host::read_library;
use omf_exe::{ExeOptions, ProgramFiles, Refusal};
use omf_frame::Sink;
use omf_host::{Status, Streams, put_quoted};
use omf_linking::InputFile;
use std::alloc::{AllocError, Global};
use std::collections::BTreeSet;
use std::mem::replace;
use std::str;

/// The type of the record that a library begins with (TIS OMF 1.1, appendix 2).
const LIBRARY_HEADER: u8 = 0xF0;

/// How the modules of a library become files.
pub(crate) const GET: &str = "take its modules out with omf-lib get";

/// How the members of a library that modules need become modules of one file with these.
pub(crate) const JOIN: &str = "omf-link join takes its members that are needed";

/// Whether a file begins as a library does.
pub(crate) fn is_library(bytes: &[u8]) -> bool {
    bytes.first() == Some(&LIBRARY_HEADER)
}

/// Writes the line of a file that is a library, where modules are taken alone, and what to do. Returns the status.
pub(crate) fn refuse_library<K, E: Sink>(
    alloc: Global,
    name: &str,
    advice: &str,
    streams: &mut Streams<K, E>,
) -> Result<Status, AllocError> {
    let mut line = String::from_str(alloc, "file ")?;
    put_quoted(&mut line, name.as_bytes())?;
    line.push_str(": a library: ")?;
    line.push_str(advice)?;
    line.push('\n')?;
    streams.report(alloc, line.as_bytes())?;
    Ok(Status::Refused)
}

/// How often modules are looked through for libraries that they ask for: a library that is found may ask for others.
const ROUNDS: usize = 1000;

/// The files of a program, and the libraries that were looked for.
#[derive(Drop)]
pub(crate) struct Sources<'a> {
    /// The names of the files that are linked.
    names: &'a [String],
    /// The files whose modules are not read yet: those that are linked, or libraries that were found.
    files: Vec<InputFile>,
    /// The names of the libraries that were found.
    pub(crate) libraries: Vec<String>,
    /// The names that were looked for.
    known: BTreeSet<Vec<u8>>,
    /// Those that were not found.
    pub(crate) missing: Vec<Missing>,
    /// The listings of the folders that were searched.
    listings: Listings,
    /// The files that were read, and are no libraries.
    others: BTreeSet<String>,
}

/// Which libraries are looked for, and where.
#[derive(Clone, Copy)]
pub(crate) struct Search<'a, 'b> {
    pub(crate) options: &'a ExeOptions<'b>,
    pub(crate) folders: &'a Folders,
}

/// What comes of the search for a library.
#[derive(Drop)]
enum Sought {
    /// It is one of the files, or was read.
    Taken,
    /// It is not there; with why no file of its name is taken, if there is one.
    Missing(Option<Why>),
}

impl<'a> Sources<'a> {
    /// The files that are linked. None, after a line on why, if one could not be read.
    pub(crate) fn read<K: Sink, E: Sink>(
        rt: &HostRuntime,
        names: &'a [String],
        streams: &mut Streams<K, E>,
    ) -> Result<Option<Sources<'a>>, AllocError> {
        let Some(files) = read_files(rt, names, streams)? else {
            return Ok(None);
        };
        let alloc = rt.alloc();
        Ok(Some(Sources {
            names,
            files,
            libraries: Vec::new(alloc),
            known: BTreeSet::new(alloc),
            missing: Vec::new(alloc),
            listings: Listings::new(alloc),
            others: BTreeSet::new(alloc),
        }))
    }

    /// Whether a file of this name was read.
    fn has_file(&self, name: &str) -> bool {
        has_name(self.names, name) || has_name(&self.libraries, name)
    }

    /// Takes a file, if it is a library. Returns false if it is none.
    fn take_file(&mut self, rt: &HostRuntime, name: String) -> Result<bool, AllocError> {
        if self.has_file(name.as_str()) {
            return Ok(true);
        }
        if self.others.contains(name.as_str()) {
            return Ok(false);
        }
        match read_library(rt, name.as_str())? {
            Some(bytes) => {
                self.libraries.push(name.clone()?)?;
                self.files.push(InputFile::new(name, bytes))?;
                Ok(true)
            }
            None => {
                self.others.insert(name)?;
                Ok(false)
            }
        }
    }

    /// Takes the first of these files in a folder that is a library. Returns false if none is one.
    fn take_first(
        &mut self,
        rt: &HostRuntime,
        front: &str,
        names: &[String],
    ) -> Result<bool, AllocError> {
        for name in names {
            if self.take_file(rt, format!(in rt.alloc(); "{front}{name}")?)? {
                return Ok(true);
            }
        }
        Ok(false)
    }

    /// Looks for a library in a folder.
    fn take_in(
        &mut self,
        rt: &HostRuntime,
        folder: Folder<'_>,
        library: &str,
    ) -> Result<Sought, AllocError> {
        let files = self.listings.files(rt, folder, library)?;
        let read = to_read(rt.alloc(), library, &files)?;
        if self.take_first(rt, folder.front, &read)? {
            return Ok(Sought::Taken);
        }
        Ok(Sought::Missing(Why::of(rt, folder.front, &files, &read)?))
    }

    /// Looks for a library in folders. It is not there if its name leads into another folder.
    fn take(
        &mut self,
        rt: &HostRuntime,
        folders: &Folders,
        name: &[u8],
    ) -> Result<Sought, AllocError> {
        let mut why = None;
        let Ok(name) = str::from_utf8(name) else {
            return Ok(Sought::Missing(why));
        };
        if name.contains('/') {
            return Ok(Sought::Missing(why));
        }
        for (number, front) in folders.fronts().iter().enumerate() {
            let front = front.as_str();
            match self.take_in(rt, Folder { number, front }, name)? {
                Sought::Taken => return Ok(Sought::Taken),
                Sought::Missing(found) => why = why.or(found),
            }
        }
        Ok(Sought::Missing(why))
    }

    /// Looks for a library, unless it was looked for before, or the options leave it out.
    fn look_for(
        &mut self,
        rt: &HostRuntime,
        search: Search<'_, '_>,
        name: Vec<u8>,
    ) -> Result<(), AllocError> {
        if self.known.contains(&name) {
            return Ok(());
        }
        self.known.insert(name.clone()?)?;
        let is_left_out = match str::from_utf8(&name) {
            Ok(text) => search.options.leaves_out(text),
            Err(_) => false,
        };
        if is_left_out {
            return Ok(());
        }
        match self.take(rt, search.folders, &name)? {
            Sought::Taken => Ok(()),
            Sought::Missing(why) => Ok(self.missing.push(Missing { name, why })?),
        }
    }

    /// Looks for libraries, and returns those that were found.
    fn take_all(
        &mut self,
        rt: &HostRuntime,
        search: Search<'_, '_>,
        names: Vec<Vec<u8>>,
    ) -> Result<Vec<InputFile>, AllocError> {
        for name in names {
            self.look_for(rt, search, name)?;
        }
        Ok(self.unread(rt))
    }

    /// The files whose modules are not read yet.
    fn unread(&mut self, rt: &HostRuntime) -> Vec<InputFile>
        ensures { result.items ≡ self.old.files.items }
    {
        replace(&mut self.files, Vec::new(rt.alloc()))
    }

    /// Looks for the libraries that modules ask for, and returns those that were found.
    fn more_for(
        &mut self,
        rt: &HostRuntime,
        search: Search<'_, '_>,
        program: &ProgramFiles,
    ) -> Result<Vec<InputFile>, AllocError> {
        let names = program.sought(rt.alloc(), &[])?;
        self.take_all(rt, search, names)
    }

    /// Files with the libraries that their modules ask for.
    fn with_libraries(
        &mut self,
        rt: &HostRuntime,
        search: Search<'_, '_>,
        files: ProgramFiles,
    ) -> Result<Result<ProgramFiles, Refusal>, AllocError> {
        let mut program = files;
        for _ in 0..ROUNDS {
            let more = self.more_for(rt, search, &program)?;
            if more.is_empty() {
                return Ok(Ok(program));
            }
            program = match program.with_more(rt.alloc(), more) {
                Ok(program) => program,
                Err(refusal) => return Ok(Err(refusal)),
            };
        }
        Ok(Ok(program))
    }

    /// The files and the libraries that their modules ask for, with the modules that they give.
    pub(crate) fn joined(
        &mut self,
        rt: &HostRuntime,
        search: Search<'_, '_>,
    ) -> Result<Result<ProgramFiles, Refusal>, AllocError> {
        let files = self.unread(rt);
        match ProgramFiles::of(rt.alloc(), files, search.options.ignore_case) {
            Ok(program) => {
                if search.options.default_libraries {
                    self.with_libraries(rt, search, program)
                } else {
                    Ok(Ok(program))
                }
            }
            Err(refusal) => Ok(Err(refusal)),
        }
    }
}
