//! The names of files under which a library is looked for.

ghost use Rattle.std.specs.Prelude.{◌≡◌, ◌++◌, IfOk, codes, map, string_bytes};
ghost use Rattle.std.specs.Char.{to_ascii_lowercase, to_ascii_uppercase};
ghost use Rattle.omf_exe.specs.Libraries.{library_files};

use std::alloc::{AllocError, Global};

/// A name in lower case.
fn lower(alloc: Global, name: &str) -> Result<String, AllocError>
    ensures { IfOk result (λ t. string_bytes t ≡ map to_ascii_lowercase name.now) }
{
    let mut lower = String::from_str(alloc, name)?;
    lower.make_ascii_lowercase();
    Ok(lower)
}

/// A name in upper case.
fn upper(alloc: Global, name: &str) -> Result<String, AllocError>
    ensures { IfOk result (λ t. string_bytes t ≡ map to_ascii_uppercase name.now) }
{
    let mut upper = String::from_str(alloc, name)?;
    upper.make_ascii_uppercase();
    Ok(upper)
}

/// A name with an ending after it.
fn with_ending(alloc: Global, name: &str, ending: &str) -> Result<String, AllocError>
    ensures { IfOk result (λ t. string_bytes t ≡ name.now ++ ending.now) }
{
    let mut file = String::from_str(alloc, name)?;
    file.push_str(ending)?;
    Ok(file)
}

/// The names of files under which a library is looked for, in order: its name and its name with `.lib`, as it is written, in lower case,
/// and in upper case.
///
/// # Errors
///
/// `AllocError` if memory runs out.
pub fn library_files(alloc: Global, name: &str) -> Result<Vec<String>, AllocError>
    ensures { IfOk result (λ v. map string_bytes v.items ≡ library_files name.now) }
{
    let lower = lower(alloc, name)?;
    let upper = upper(alloc, name)?;
    let lower_file = with_ending(alloc, &lower, ".lib")?;
    let upper_file = with_ending(alloc, &upper, ".LIB")?;
    let mut files = Vec::new(alloc);
    files.push(String::from_str(alloc, name)?)?;
    files.push(with_ending(alloc, name, ".lib")?)?;
    files.push(lower)?;
    files.push(lower_file)?;
    files.push(upper)?;
    files.push(upper_file)?;
    Ok(files)
}
