//! The file names of members.

use crate::members::{Member, name_of};
use omf_host::put_name;
use std::alloc::{AllocError, Global};

/// A member's name as text: that of its THEADR, with bytes other than printable ASCII, quotes and backslashes as
/// `\xNN`.
pub fn shown_name(alloc: Global, member: &Member<'_>) -> Result<String, AllocError> {
    let mut name = String::new(alloc);
    put_name(&mut name, name_of(member.bytes))?;
    Ok(name)
}

/// Whether a file with this name would be outside its folder.
pub fn is_outside(name: &str) -> bool {
    name.as_bytes().contains(&b'/')
}

/// The path of a member's file: `FOLDER/NAME.obj`.
pub fn path_of(alloc: Global, folder: &str, name: &str) -> Result<String, AllocError> {
    format!(in alloc; "{folder}/{name}.obj")
}

/// Whether an argument names a member: by its number, by its name as it is shown, or by the bytes of its name.
pub fn is_named(argument: &str, member: &Member<'_>, shown: &str) -> bool {
    argument == shown
        || argument.as_bytes() == name_of(member.bytes)
        || argument.parse::<usize>() == Ok(member.number)
}
