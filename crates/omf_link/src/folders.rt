//! The folders in which files and libraries are looked for: the current one, those of the options, and those of the variable LIB.

use crate::listing::{Folder, Listings};
use omf_exe::ExeOptions;
use omf_host::with_ending;
use std::alloc::AllocError;
use std::env;
use std::env::VarError;

/// The endings of the names of files that may be left out, after the name as it is.
const ENDINGS: [&str; 5] = ["", ".obj", ".lib", ".OBJ", ".LIB"];

/// The same where case does not count.
const CASELESS: [&str; 3] = ["", ".obj", ".lib"];

/// The folders of a search.
#[derive(Drop)]
pub(crate) struct Folders {
    /// What comes before the name of a file in each folder, in the order of the search: nothing for the current folder.
    fronts: Vec<String>,
}

/// The variable LIB; empty if it is not there, or is no text.
fn library_variable(rt: &HostRuntime) -> Result<String, AllocError> {
    match env::var(rt, "LIB") {
        Ok(folders) => Ok(folders),
        Err(VarError::OutOfMemory) => Err(AllocError),
        Err(VarError::NotPresent | VarError::NotUnicode) => Ok(String::new(rt.alloc())),
    }
}

impl Folders {
    /// The current folder, the folders of the options, and those of the variable LIB, which a semicolon or a colon separates.
    pub(crate) fn of(rt: &HostRuntime, options: &ExeOptions<'_>) -> Result<Folders, AllocError> {
        let mut fronts = Vec::new(rt.alloc());
        fronts.push(String::new(rt.alloc()))?;
        for folder in &options.folders {
            fronts.push(format!(in rt.alloc(); "{folder}/")?)?;
        }
        let mut folders = Folders { fronts };
        folders.add_all(rt, library_variable(rt)?.as_str())?;
        Ok(folders)
    }

    /// Adds the folders of a list.
    fn add_all(&mut self, rt: &HostRuntime, list: &str) -> Result<(), AllocError> {
        for folder in list.split([';', ':']) {
            if !folder.is_empty() {
                self.fronts.push(format!(in rt.alloc(); "{folder}/")?)?;
            }
        }
        Ok(())
    }

    /// What comes before the name of a file in each folder, in the order of the search.
    pub(crate) fn fronts(&self) -> &[String] {
        self.fronts.as_slice()
    }

    /// The folders in which an argument is looked for: with a `/` in it, only the current one.
    fn searched(&self, name: &str) -> &[String] {
        if name.contains('/') {
            self.fronts().get(..1).unwrap_or(&[])
        } else {
            self.fronts()
        }
    }

    /// The file that an argument names in another case: the only one in its folder, in the first folder that has one.
    fn in_other_case(
        &self,
        rt: &HostRuntime,
        listings: &mut Listings,
        name: &str,
    ) -> Result<Option<String>, AllocError> {
        for (number, front) in self.searched(name).iter().enumerate() {
            let front = front.as_str();
            let folder = Folder { number, front };
            if let Some(path) = listings.only(rt, folder, name, &CASELESS)? {
                return Ok(Some(path));
            }
        }
        Ok(None)
    }

    /// The file that an argument names: its name, with `.obj` or `.lib` after it where there is no file of the name alone, in the first folder
    /// that has one; where none has one, in another case. The argument itself, if there is none.
    fn file(
        &self,
        rt: &HostRuntime,
        listings: &mut Listings,
        name: &str,
    ) -> Result<String, AllocError> {
        if name == "-" {
            return String::from_str(rt.alloc(), name);
        }
        for front in self.searched(name) {
            if let Some(path) = with_ending(rt, front.as_str(), name, &ENDINGS)? {
                return Ok(path);
            }
        }
        match self.in_other_case(rt, listings, name)? {
            Some(path) => Ok(path),
            None => String::from_str(rt.alloc(), name),
        }
    }

    /// The files that arguments name.
    pub(crate) fn files(
        &self,
        rt: &HostRuntime,
        names: &[String],
    ) -> Result<Vec<String>, AllocError> {
        let mut listings = Listings::new(rt.alloc());
        let mut files = Vec::with_capacity(rt.alloc(), names.len())?;
        for name in names {
            files.push(self.file(rt, &mut listings, name.as_str())?)?;
        }
        Ok(files)
    }
}
