//! Files whose names are given without their ending.

ghost use Rattle.std.specs.Prelude.{◌≡◌, ◌++◌, ◌↔◌, IfOk, IfSome, IsTrue, codes, map, string_bytes, true};
ghost use Rattle.omf_host.specs.Endings.{IsNamed, folded, is_object_file, is_with};

use std::alloc::{AllocError, Global};
use std::io::ErrorKind;
use std::{fs, io};

/// The endings of the name of a file of modules that may be left out, after the name as it is.
const OF_OBJECTS: [&str; 3] = ["", ".obj", ".OBJ"];

/// None for a failure of the system; but out of memory is an error.
pub fn unless_failed<T>(found: io::Result<T>) -> Result<Option<T>, AllocError> {
    match found {
        Ok(found) => Ok(Some(found)),
        Err(error) if error.kind() == ErrorKind::OutOfMemory => Err(AllocError),
        Err(_) => Ok(None),
    }
}

/// Whether there is a file of this name, which is no folder.
pub fn is_file(rt: &HostRuntime, path: &str) -> Result<bool, AllocError> {
    match unless_failed(fs::metadata(rt, path))? {
        Some(found) => Ok(!found.is_dir()),
        None => Ok(false),
    }
}

/// The path of a name with an ending in a folder.
fn path_with(alloc: Global, front: &str, name: &str, ending: &str) -> Result<String, AllocError>
    ensures { IfOk result (λ p. string_bytes p ≡ front.now ++ name.now ++ ending.now) }
{
    let mut path = String::from_str(alloc, front)?;
    path.push_str(name)?;
    path.push_str(ending)?;
    Ok(path)
}

/// The path of the file with this name in a folder, with the first of the endings that makes one. None if there is none.
pub fn with_ending(
    rt: &HostRuntime,
    front: &str,
    name: &str,
    endings: &[&str],
) -> Result<Option<String>, AllocError>
    ensures { IfOk result (λ found. IfSome found (λ p. is_with front.now name.now (map (λ e. e.now) endings.now) (string_bytes p) ≡ true)) }
{
    for ending in endings {
        let path = path_with(rt.alloc(), front, name, *ending)?;
        if is_file(rt, path.as_str())? {
            return Ok(Some(path));
        }
    }
    Ok(None)
}

/// The file of modules that an argument names: its name, with `.obj` after it where there is no file of the name alone. The argument itself, if
/// there is none; `-` is the standard input.
///
/// # Errors
///
/// `AllocError` if out of memory.
pub fn object_file(rt: &HostRuntime, name: &str) -> Result<String, AllocError>
    ensures { IfOk result (λ p. is_object_file name.now (string_bytes p) ≡ true) }
{
    if name == "-" {
        return String::from_str(rt.alloc(), name);
    }
    match with_ending(rt, "", name, &OF_OBJECTS)? {
        Some(path) => Ok(path),
        None => String::from_str(rt.alloc(), name),
    }
}

/// Whether bytes are a name and `.lib`, where case does not count.
fn has_library_ending(file: &[u8], name: &[u8]) -> bool
    ensures { IsTrue result ↔ (folded file.now ≡ folded name.now ++ codes ".lib") }
{
    let (front, ending) = file.split_at(file.len().saturating_sub(4));
    front.eq_ignore_ascii_case(name) && ending.eq_ignore_ascii_case(b".lib")
}

/// Whether a file has the name of a library, or its name with `.lib`, where case does not count.
pub fn is_named(file: &str, library: &str) -> bool
    ensures { IsTrue result ↔ IsNamed file.now library.now }
{
    file.eq_ignore_ascii_case(library) || has_library_ending(file.as_bytes(), library.as_bytes())
}

/// The files of modules that arguments name.
///
/// # Errors
///
/// `AllocError` if out of memory.
pub fn object_files(rt: &HostRuntime, names: &[String]) -> Result<Vec<String>, AllocError> {
    let mut files = Vec::with_capacity(rt.alloc(), names.len())?;
    for name in names {
        files.push(object_file(rt, name.as_str())?)?;
    }
    Ok(files)
}
