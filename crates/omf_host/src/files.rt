//! Files by name: reading, and writing of new files.

use std::alloc::{AllocError, Global};
use std::fs::{File, Metadata};
use std::io::{ErrorKind, Read, Write};
use std::os::unix::fs::{MetadataExt, chown};
use std::{fs, io};

/// The bytes of a file, or of the standard input if its name is `-`. They take no room beyond their own, since a program may hold
/// thousands of files.
///
/// # Errors
///
/// Those of the system; out of memory is one of them.
pub fn read_input(rt: &HostRuntime, name: &str) -> io::Result<Vec<u8>> {
    let mut bytes = if name == "-" {
        let mut bytes = Vec::new(rt.alloc());
        rt.stdin().read_to_end(&mut bytes)?;
        bytes
    } else {
        fs::read(rt, name)?
    };
    bytes.shrink_to_fit();
    Ok(bytes)
}

/// How the writing of a new file ended.
pub enum Written {
    /// The file is there, with all bytes.
    Whole,
    /// There was such a file before. It is unchanged.
    IsThere,
    /// There is no such file.
    Failed(io::Error),
}

/// Gives a new file the group and the owner of another one, as far as the system lets the process do so.
fn take_owner(rt: &HostRuntime, path: &str, new: &Metadata, like: &Metadata) {
    if new.gid() != like.gid() {
        let _ = chown(rt, path, None, Some(like.gid()));
    }
    if new.uid() != like.uid() {
        let _ = chown(rt, path, Some(like.uid()), None);
    }
}

/// Gives a new file the owner and the mode of another one. An owner that the system does not let the process give stays as it is.
fn make_like(rt: &HostRuntime, path: &str, file: &File, like: &Metadata) -> io::Result<()> {
    take_owner(rt, path, &file.metadata()?, like);
    file.set_permissions(like.permissions())
}

/// Gives a new file the owner and the mode of another one, if there is one, and then its bytes.
fn fill(
    rt: &HostRuntime,
    path: &str,
    file: &mut File,
    bytes: &[u8],
    like: Option<&Metadata>,
) -> io::Result<()> {
    if let Some(like) = like {
        make_like(rt, path, file, like)?;
    }
    file.write_all(bytes)
}

/// Writes a file under a name that is not there yet, with the owner and the mode of another one, if there is one. An error leaves no such file.
fn fill_new(rt: &HostRuntime, path: &str, bytes: &[u8], like: Option<&Metadata>) -> io::Result<()> {
    let mut file = File::create_new(rt, path)?;
    match fill(rt, path, &mut file, bytes, like) {
        Ok(()) => Ok(()),
        Err(error) => {
            let _ = fs::remove_file(rt, path);
            Err(error)
        }
    }
}

/// Why a file can't be written beside the one of a path: one is there, perhaps of a run that was stopped. Its name is in the words.
fn left_beside(alloc: Global, beside: &str) -> Result<io::Error, AllocError> {
    let name = match beside.rsplit_once('/') {
        Some((_folder, name)) => name,
        None => beside,
    };
    let words = format!(in alloc; "{name} is there already: remove it")?;
    Ok(io::Error::new(ErrorKind::AlreadyExists, words.as_str()))
}

/// Writes a file beside another one, as `fill_new` does. Where one is there already the error has its name.
pub(crate) fn fill_beside(
    rt: &HostRuntime,
    beside: &str,
    bytes: &[u8],
    like: Option<&Metadata>,
) -> Result<io::Result<()>, AllocError> {
    match fill_new(rt, beside, bytes, like) {
        Err(error) if error.kind() == ErrorKind::AlreadyExists => {
            Ok(Err(left_beside(rt.alloc(), beside)?))
        }
        filled => Ok(filled),
    }
}

/// Whether a path has a file, a folder or a link.
fn is_there(rt: &HostRuntime, path: &str) -> bool {
    fs::symlink_metadata(rt, path).is_ok()
}

/// Moves a file to a name that is not there. Links never replace a file; where the file system has none, the name is
/// looked up before the move.
pub(crate) fn move_new(rt: &HostRuntime, from: &str, to: &str) -> Written {
    match fs::hard_link(rt, from, to) {
        Ok(()) => match fs::remove_file(rt, from) {
            Ok(()) => Written::Whole,
            Err(error) => {
                let _ = fs::remove_file(rt, to);
                Written::Failed(error)
            }
        },
        Err(_) if is_there(rt, to) => Written::IsThere,
        Err(_) => match fs::rename(rt, from, to) {
            Ok(()) => Written::Whole,
            Err(error) => Written::Failed(error),
        },
    }
}

/// Writes a file that is not there: beside it, as `PATH.tmp`, and then under its own name. So the file is whole or not
/// there, and a file that was there before is unchanged.
///
/// # Errors
///
/// `AllocError` if there is no memory for the name. Nothing is written then.
pub fn write_new(rt: &HostRuntime, path: &str, bytes: &[u8]) -> Result<Written, AllocError> {
    if is_there(rt, path) {
        return Ok(Written::IsThere);
    }
    let beside = format!(in rt.alloc(); "{path}.tmp")?;
    if let Err(error) = fill_beside(rt, beside.as_str(), bytes, None)? {
        return Ok(Written::Failed(error));
    }
    let written = move_new(rt, beside.as_str(), path);
    if !matches!(&written, Written::Whole) {
        let _ = fs::remove_file(rt, beside.as_str());
    }
    Ok(written)
}
