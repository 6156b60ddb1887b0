//! Writing the records of a module.

ghost use Rattle.std.specs.Prelude.{◌≡◌, ◌++◌, ◌<◌, OnOk, All, length, map};
ghost use Rattle.omf_layout.specs.Own.Written.{empty_group_record, end_record, framed, group_record, header, name_record, public_record, raise_record, raising, segment_record, written};

use crate::raised::RAISE;
use omf_check::put_record;
use omf_frame::{Field, Index, Le32, Name};
use std::alloc::{AllocError, Global};

/// Appends a THEADR with a module's name (TIS OMF 1.1, "THEADR"). It fails if memory runs out.
pub fn put_header(alloc: Global, out: &mut Vec<u8>, name: &Name<'_>) -> Result<(), AllocError>
    ensures { OnOk result (out.new.items ≡ out.old.items ++ framed (header name.now)) }
{
    let mut body = Vec::new(alloc);
    name.put(&mut body)?;
    put_record(out, 0x80, &body)
}

/// Appends an LNAMES with one name (TIS OMF 1.1, "LNAMES"). It fails if memory runs out.
pub fn put_name(alloc: Global, out: &mut Vec<u8>, name: &Name<'_>) -> Result<(), AllocError>
    ensures { OnOk result (out.new.items ≡ out.old.items ++ framed (name_record name.now)) }
{
    let mut body = Vec::new(alloc);
    name.put(&mut body)?;
    put_record(out, 0x96, &body)
}

/// Appends an LNAMES for each of these names.
pub(crate) fn put_names(
    alloc: Global,
    out: &mut Vec<u8>,
    names: &[Name<'_>],
) -> Result<(), AllocError>
    requires { All (λ n. length n < 256) names.now }
    ensures { OnOk result (out.new.items ≡ out.old.items ++ written (map name_record names.now)) }
{
    for name in names {
        put_name(alloc, out, name)?;
    }
    Ok(())
}

/// A segment that is written: its attribute byte, its length in bytes, and the indices of its name and its class.
#[derive(Drop)]
pub struct Segment {
    pub attribute: u8,
    pub size: u32,
    pub name: Index,
    pub class: Index,
}

/// Appends a SEGDEF of type 99H (TIS OMF 1.1, "SEGDEF"). It fails if memory runs out.
pub fn put_segment(alloc: Global, out: &mut Vec<u8>, segment: &Segment) -> Result<(), AllocError>
    ensures { OnOk result (out.new.items ≡ out.old.items ++ framed (segment_record segment.now.attribute segment.now.size segment.now.name segment.now.class)) }
{
    let mut body = Vec::new(alloc);
    body.push(segment.attribute)?;
    Le32(segment.size).put(&mut body)?;
    segment.name.put(&mut body)?;
    segment.class.put(&mut body)?;
    Index(1).put(&mut body)?;
    put_record(out, 0x99, &body)
}

/// Appends a COMENT that raises a segment to 4,096 bytes (TIS OMF 1.1, "COMENT"; this profile's rule).
fn put_raise(alloc: Global, out: &mut Vec<u8>, segment: Index) -> Result<(), AllocError>
    ensures { OnOk result (out.new.items ≡ out.old.items ++ framed (raise_record segment)) }
{
    let mut body = Vec::new(alloc);
    body.push(0)?;
    body.push(RAISE)?;
    segment.put(&mut body)?;
    put_record(out, 0x88, &body)
}

/// Appends the COMENT that raises a segment to 4,096 bytes, if it is raised. It fails if memory runs out.
pub fn put_raising(
    alloc: Global,
    out: &mut Vec<u8>,
    is_raised: bool,
    segment: Index,
) -> Result<(), AllocError>
    ensures { OnOk result (out.new.items ≡ out.old.items ++ written (raising is_raised segment)) }
{
    if is_raised {
        put_raise(alloc, out, segment)?;
    }
    Ok(())
}

/// Appends a GRPDEF with one segment (TIS OMF 1.1, "GRPDEF").
pub(crate) fn put_group(
    alloc: Global,
    out: &mut Vec<u8>,
    name: Index,
    member: Index,
) -> Result<(), AllocError>
    ensures { OnOk result (out.new.items ≡ out.old.items ++ framed (group_record name member)) }
{
    let mut body = Vec::new(alloc);
    name.put(&mut body)?;
    body.push(0xFF)?;
    member.put(&mut body)?;
    put_record(out, 0x9A, &body)
}

/// Appends a GRPDEF without a segment (TIS OMF 1.1, "GRPDEF").
pub(crate) fn put_empty_group(
    alloc: Global,
    out: &mut Vec<u8>,
    name: Index,
) -> Result<(), AllocError>
    ensures { OnOk result (out.new.items ≡ out.old.items ++ framed (empty_group_record name)) }
{
    let mut body = Vec::new(alloc);
    name.put(&mut body)?;
    put_record(out, 0x9A, &body)
}

/// A public that is written: the indices of its group, 0 for none, and of its segment; its name, and its offset in bytes.
#[derive(Drop)]
pub(crate) struct Public<'a> {
    pub group: Index,
    pub segment: Index,
    pub name: &'a Name<'a>,
    pub offset: u32,
}

/// Appends a PUBDEF of type 91H with one public (TIS OMF 1.1, "PUBDEF"). Its contents are built in `body`, whatever that had.
pub(crate) fn put_public(
    body: &mut Vec<u8>,
    out: &mut Vec<u8>,
    public: &Public<'_>,
) -> Result<(), AllocError>
    requires { length public.now.name.now < 256 }
    ensures { OnOk result (out.new.items ≡ out.old.items ++ framed (public_record public.now.group public.now.segment public.now.name.now public.now.offset)) }
{
    body.clear();
    public.group.put(body)?;
    public.segment.put(body)?;
    public.name.put(body)?;
    Le32(public.offset).put(body)?;
    Index(0).put(body)?;
    put_record(out, 0x91, body)
}

/// Appends a MODEND of a module that is not a main module (TIS OMF 1.1, "MODEND"). It fails if memory runs out.
pub fn put_end(out: &mut Vec<u8>) -> Result<(), AllocError>
    ensures { OnOk result (out.new.items ≡ out.old.items ++ framed end_record) }
{
    put_record(out, 0x8A, &[0])
}
