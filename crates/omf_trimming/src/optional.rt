//! The segments that a linker leaves out where nothing refers to them.

ghost use Rattle.std.specs.Prelude.{◌≡◌, ◌==◌, ◌++◌, IfOk, OnOk, length, not};
ghost use Rattle.omf_check.specs.Module.{recs_of, typed_modules};
ghost use Rattle.omf_check.specs.Tables.{names};
ghost use Rattle.omf_trimming.specs.Reaching.{always_stays, has_optional, is_debug_class, is_optional_class, is_optional_name, optional_segment, optional_segments};

use omf_check::{Checked, SegInfo, is_code_class};
use omf_frame::Name;
use std::alloc::{AllocError, Global};

/// What is left out where nothing refers to it.
#[derive(Clone, Copy, Debug, PartialEq, Eq)]
pub struct LeftOut {
    /// Segments of code: the name of their class ends in CODE.
    pub code: bool,
    /// Segments of debug information: the classes DEBSYM, DEBTYP and DWARF.
    pub debug: bool,
}

/// Whether a class is one of debug information.
fn is_debug_class(class: &[u8]) -> bool
    ensures { result ≡ is_debug_class class.now }
{
    class == b"DEBSYM".as_slice() || class == b"DEBTYP".as_slice() || class == b"DWARF".as_slice()
}

/// Whether segments of a class may be left out.
fn is_optional_class(left_out: LeftOut, class: &[u8]) -> bool
    ensures { result ≡ is_optional_class left_out class.now }
{
    left_out.code && is_code_class(class) || left_out.debug && is_debug_class(class)
}

/// Whether segments may be left out whose class, if they have one, has this name.
fn is_optional_name(left_out: LeftOut, class: Option<Name<'_>>) -> bool
    ensures { result ≡ is_optional_name left_out class.entry }
{
    match class {
        Some(class) => is_optional_class(left_out, class.0),
        None => false,
    }
}

/// Whether a segment of a module stays, whatever refers to it.
pub(crate) fn always_stays(left_out: LeftOut, module: &Checked, segment: SegInfo) -> bool
    ensures { result ≡ always_stays left_out (names (recs_of «module».now.bytes)) segment }
{
    segment.absolute.is_some() || !is_optional_name(left_out, module.name(segment.class))
}

/// Appends the index of a segment, if it may be left out.
fn push_optional(
    found: &mut Vec<u16>,
    left_out: LeftOut,
    module: &Checked,
    index: u16,
    segment: SegInfo,
) -> Result<(), AllocError>
    ensures { OnOk result (found.new.items ≡ found.old.items ++ optional_segment left_out (names (recs_of «module».now.bytes)) (index, segment)) }
{
    if !always_stays(left_out, module, segment) {
        found.push(index)?;
    }
    Ok(())
}

/// The segments of a module that may be left out.
fn optional_segments(
    alloc: Global,
    left_out: LeftOut,
    module: &Checked,
) -> Result<Vec<u16>, AllocError>
    ensures { IfOk result (λ v. v.items ≡ optional_segments left_out (recs_of «module».now.bytes)) }
{
    let mut found = Vec::new(alloc);
    for before in 0..module.segments() {
        let index = before + 1;
        let Some(segment) = module.segment(index) else {
            unreachable!()
        };
        push_optional(&mut found, left_out, module, index, segment)?;
    }
    Ok(found)
}

/// Whether a module has segments that may be left out.
fn has_any(alloc: Global, left_out: LeftOut, module: &Checked) -> Result<bool, AllocError>
    ensures { IfOk result (λ b. b ≡ not (length (optional_segments left_out (recs_of «module».now.bytes)) == 0)) }
{
    let found = optional_segments(alloc, left_out, module)?;
    Ok(!found.is_empty())
}

/// Whether one of the modules has segments that may be left out.
///
/// # Errors
///
/// `AllocError` if memory runs out.
pub fn has_optional(
    alloc: Global,
    left_out: LeftOut,
    modules: &[Checked],
) -> Result<bool, AllocError>
    ensures { IfOk result (λ b. b ≡ has_optional left_out (typed_modules modules.now)) }
{
    for module in modules {
        if has_any(alloc, left_out, module)? {
            return Ok(true);
        }
    }
    Ok(false)
}
