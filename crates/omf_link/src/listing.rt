//! The files of a folder by their names, where case does not count. For the libraries of a run a folder is listed once.

use omf_exe::library_files;
use omf_host::{is_file, unless_failed};
use std::alloc::{AllocError, Global};
use std::collections::BTreeMap;
use std::fs;

/// The names in a folder; those that differ in case alone by what they are in lower case.
type Names = BTreeMap<String, Vec<String>>;

/// What was found in a folder.
#[derive(Drop)]
pub(crate) struct Listing {
    /// The names in it; None if the folder cannot be listed.
    names: Option<Names>,
}

/// A name in lower case.
fn lower(alloc: Global, name: &str) -> Result<String, AllocError> {
    let mut lower = String::from_str(alloc, name)?;
    lower.make_ascii_lowercase();
    Ok(lower)
}

/// Adds a name.
fn add(names: &mut Names, alloc: Global, name: &str) -> Result<(), AllocError> {
    let key = lower(alloc, name)?;
    let mut alike = match names.remove(key.as_str()) {
        Some(alike) => alike,
        None => Vec::new(alloc),
    };
    alike.push(String::from_str(alloc, name)?)?;
    names.insert(key, alike)?;
    Ok(())
}

/// Adds the names that are a key in lower case.
fn add_alike(found: &mut Vec<String>, names: &Names, key: &str) -> Result<(), AllocError> {
    if let Some(alike) = names.get(key) {
        for name in alike {
            found.push(name.clone()?)?;
        }
    }
    Ok(())
}

/// The names of a library, and its name with `.lib`, where case does not count.
fn alike(alloc: Global, names: &Names, library: &str) -> Result<Vec<String>, AllocError> {
    let key = lower(alloc, library)?;
    let with_ending = format!(in alloc; "{key}.lib")?;
    let mut found = Vec::new(alloc);
    add_alike(&mut found, names, key.as_str())?;
    add_alike(&mut found, names, with_ending.as_str())?;
    found.sort()?;
    Ok(found)
}

/// Those of the names in a folder that are files, in order.
fn files_of(rt: &HostRuntime, front: &str, names: Vec<String>) -> Result<Vec<String>, AllocError> {
    let mut files = Vec::new(rt.alloc());
    for name in names {
        let path = format!(in rt.alloc(); "{front}{name}")?;
        if is_file(rt, path.as_str())? {
            files.push(name)?;
        }
    }
    Ok(files)
}

impl Listing {
    /// The names in a folder, of which this is before the name of each file.
    pub(crate) fn of(rt: &HostRuntime, front: &str) -> Result<Listing, AllocError> {
        let folder = if front.is_empty() { "." } else { front };
        let Some(entries) = unless_failed(fs::read_dir(rt, folder))? else {
            return Ok(Listing { names: None });
        };
        let mut names = BTreeMap::new(rt.alloc());
        for entry in entries {
            if let Some(entry) = unless_failed(entry)? {
                add(&mut names, rt.alloc(), entry.file_name())?;
            }
        }
        Ok(Listing { names: Some(names) })
    }

    /// The names under which a library may be in the folder: those that are there, where case does not count; or the spellings that are
    /// tried, where the folder cannot be listed.
    fn names(&self, alloc: Global, library: &str) -> Result<Vec<String>, AllocError> {
        match &self.names {
            Some(names) => alike(alloc, names, library),
            None => library_files(alloc, library),
        }
    }

    /// The files in the folder that are named as a library, where case does not count; in order.
    fn files(
        &self,
        rt: &HostRuntime,
        front: &str,
        library: &str,
    ) -> Result<Vec<String>, AllocError> {
        files_of(rt, front, self.names(rt.alloc(), library)?)
    }

    /// The only file in the folder with a name, where case does not count. None if there are none or several, or if the folder cannot be listed.
    fn only(
        &self,
        rt: &HostRuntime,
        front: &str,
        name: &str,
    ) -> Result<Option<String>, AllocError> {
        let Some(names) = &self.names else {
            return Ok(None);
        };
        let mut alike = Vec::new(rt.alloc());
        add_alike(&mut alike, names, lower(rt.alloc(), name)?.as_str())?;
        match files_of(rt, front, alike)?.as_slice() {
            [only] => Ok(Some(only.clone()?)),
            _ => Ok(None),
        }
    }
}

/// A folder of a search.
#[derive(Clone, Copy)]
pub(crate) struct Folder<'a> {
    /// Its number in the order of the search, from 0.
    pub(crate) number: usize,
    /// What comes before the name of a file in it.
    pub(crate) front: &'a str,
}

/// The listings of the folders of a search, in its order: each is made when it is first asked for, after those before it.
#[derive(Drop)]
pub(crate) struct Listings {
    made: Vec<Listing>,
}

impl Listings {
    /// None yet.
    pub(crate) fn new(alloc: Global) -> Listings {
        Listings {
            made: Vec::new(alloc),
        }
    }

    /// The listing of a folder.
    fn of(&mut self, rt: &HostRuntime, folder: Folder<'_>) -> Result<Option<&Listing>, AllocError> {
        if self.made.len() <= folder.number {
            self.made.push(Listing::of(rt, folder.front)?)?;
        }
        Ok(self.made.get(folder.number))
    }

    /// The files in a folder that are named as a library, where case does not count; in order.
    pub(crate) fn files(
        &mut self,
        rt: &HostRuntime,
        folder: Folder<'_>,
        library: &str,
    ) -> Result<Vec<String>, AllocError> {
        match self.of(rt, folder)? {
            Some(listing) => listing.files(rt, folder.front, library),
            None => Ok(Vec::new(rt.alloc())),
        }
    }

    /// The path of the only file in a folder with a name and the first of the endings that makes one, where case does not count. None if there is none.
    pub(crate) fn only(
        &mut self,
        rt: &HostRuntime,
        folder: Folder<'_>,
        name: &str,
        endings: &[&str],
    ) -> Result<Option<String>, AllocError> {
        let Some(listing) = self.of(rt, folder)? else {
            return Ok(None);
        };
        let front = folder.front;
        for ending in endings {
            let whole = format!(in rt.alloc(); "{name}{ending}")?;
            if let Some(file) = listing.only(rt, front, whole.as_str())? {
                return Ok(Some(format!(in rt.alloc(); "{front}{file}")?));
            }
        }
        Ok(None)
    }
}

/// Whether a name is one of these.
pub(crate) fn has_name(names: &[String], name: &str) -> bool {
    names.iter().any(|one| one.as_str() == name)
}

/// Those of the files with a library's name that are read, in order: the ones with a spelling that is tried; without them the only file.
pub(crate) fn to_read(
    alloc: Global,
    library: &str,
    files: &[String],
) -> Result<Vec<String>, AllocError> {
    let mut read = Vec::new(alloc);
    for name in library_files(alloc, library)? {
        if has_name(files, name.as_str()) && !has_name(&read, name.as_str()) {
            read.push(name)?;
        }
    }
    if let ([], [only]) = (read.as_slice(), files) {
        read.push(only.clone()?)?;
    }
    Ok(read)
}
