//! The libraries that the modules of a program ask for in comments (TIS OMF 1.1, "COMENT", class 9F: default library search name).

ghost use Rattle.std.specs.Prelude.{◌≡◌, ◌++◌, IfOk, flat_map, map, string_bytes};
ghost use Rattle.omf_frame.specs.Bytes.{AddsText};
ghost use Rattle.omf_library.specs.Needed.{has_name};
ghost use Rattle.omf_exe.specs.Libraries.{missing_line, sought};

use omf_check::Checked;
use omf_library::needed::default_libraries;
use omf_text::print_quoted;
use std::alloc::{AllocError, Global};

/// Whether a name is known.
fn is_known(known: &[Vec<u8>], name: &[u8]) -> bool
    ensures { result ≡ has_name (map (λ k. k.items) known.now) name.now }
{
    for one in known {
        if one.as_slice() == name {
            return true;
        }
    }
    false
}

/// The names of libraries that are to be looked for: those that modules ask for, in order, each once, and that are not known yet.
///
/// # Errors
///
/// `AllocError` if memory runs out.
pub fn sought(
    alloc: Global,
    modules: &[Checked],
    known: &[Vec<u8>],
) -> Result<Vec<Vec<u8>>, AllocError>
    ensures { IfOk result (λ v. map (λ n. n.items) v.items ≡ sought (map (λ k. k.items) known.now) modules.now) }
{
    let names = default_libraries(alloc, modules)?;
    let mut sought = Vec::new(alloc);
    for name in &names {
        if !is_known(known, name) {
            let mut own = Vec::new(alloc);
            own.extend_from_slice(name)?;
            sought.push(own)?;
        }
    }
    Ok(sought)
}

/// Appends the line of a library that was not found.
fn put_missing(text: &mut String, name: &[u8]) -> Result<(), AllocError>
    ensures { AddsText result (string_bytes text.old) (string_bytes text.new) (missing_line name.now) }
{
    text.push_str("library ")?;
    print_quoted(text, name)?;
    Ok(text.push_str(" is not found\n")?)
}

/// A line for each library that was not found.
///
/// # Errors
///
/// `AllocError` if memory runs out.
pub fn missing_lines(alloc: Global, missing: &[Vec<u8>]) -> Result<String, AllocError>
    ensures { IfOk result (λ t. string_bytes t ≡ flat_map (λ n. missing_line n.items) missing.now) }
{
    let mut lines = String::new(alloc);
    for name in missing {
        put_missing(&mut lines, name)?;
    }
    Ok(lines)
}
