//! The module that gives a program a stack.

ghost use Rattle.std.specs.Prelude.{◌≡◌, ◌++◌, ◌∷◌, [], IfOk, OnOk};
ghost use Rattle.omf_layout.specs.Own.Stack.{stack_records};
ghost use Rattle.omf_layout.specs.Own.Written.{end_record, segment_record, written};

use crate::own::records::{Segment, put_end, put_header, put_names, put_segment};
use omf_frame::{Index, Name};
use std::alloc::{AllocError, Global};

/// Appends the segment and the end of the module.
fn put_stack(alloc: Global, out: &mut Vec<u8>, size: u32) -> Result<(), AllocError>
    ensures { OnOk result (out.new.items ≡ out.old.items ++ written (segment_record 0x74 size 2 2 ∷ end_record ∷ [])) }
{
    let segment = Segment {
        attribute: 0x74,
        size,
        name: Index(2),
        class: Index(2),
    };
    put_segment(alloc, out, &segment)?;
    put_end(out)
}

/// Returns the bytes of a module with a stack of this many bytes: one segment `STACK` of class `STACK`, paragraph-aligned, of the combine
/// type stack. The module has no data, and is not a main module; its name is `stack` (TIS OMF 1.1, "SEGDEF"). Its SEGDEF has the 32-bit type
/// 99H.
///
/// # Errors
///
/// `AllocError` if memory runs out.
pub fn stack_module(alloc: Global, size: u32) -> Result<Vec<u8>, AllocError>
    ensures { IfOk result (λ v. v.items ≡ written (stack_records size)) }
{
    let mut out = Vec::new(alloc);
    put_header(alloc, &mut out, &Name(b"stack"))?;
    put_names(alloc, &mut out, &[Name(b""), Name(b"STACK")])?;
    put_stack(alloc, &mut out, size)?;
    Ok(out)
}
