//! Reading the contents of each record.
ghost use Rattle.std.specs.Prelude.{◌≡◌, ◌==◌, ℕ, ◌≤◌, length, IfOk, Bool, cond, if◌then◌else◌};
ghost use Rattle.omf_records.specs.Inner.Names.{has_start};
ghost use Rattle.omf_records.specs.Inner.Gives.{Gives};
ghost use Rattle.omf_records.specs.Inner.Seen.{contents_seen, kind_seen, odd_if, width_if, map_ok};
ghost use Rattle.omf_records.specs.Values.{alignment};
ghost use Rattle.omf_records.specs.Inner.RecordReaders.{header_whole, comment_whole, names_whole, attribute_reader, absolute_reader, size_reader, segment_whole, group_whole, externs_whole, base_reader, publics_whole, communals_whole, data_whole, plain_whole, iterated_whole, fixups_whole, start_reader, mod_end_whole, carried_whole};

use crate::acbp::Acbp;
use crate::at::{At, LayoutFault};
use crate::field::{byte, index, index_here, le16, name, number, number_here};
use crate::here::Here;
use crate::item::Items;
use crate::record::{Blocks, PlainData, Rec, Segment};
use crate::subrecord::{Reference, read_reference};
use omf_frame::{Index, Reason};

/// THEADR, LHEADR.
pub(crate) fn header_at<'a>(kind: u8, here: Here<'a>) -> Result<Rec<'a>, LayoutFault>
    ensures contents { map_ok contents_seen result ≡ header_whole.read here.entry.within here.entry.bytes.now }
    ensures kind { IfOk result (λ r. kind_seen r ≡ kind) }
{
    let (name, here) = name(here)?;
    here.end()?;
    Ok(Rec::Header { kind, name })
}

/// COMENT.
pub(crate) fn comment_at<'a>(here: Here<'a>) -> Result<Rec<'a>, LayoutFault>
    ensures contents { map_ok contents_seen result ≡ comment_whole.read here.entry.within here.entry.bytes.now }
    ensures kind { IfOk result (λ r. kind_seen r ≡ 0x88) }
{
    let (type_byte, here) = byte(here)?;
    let (class, here) = byte(here)?;
    let text = here.bytes();
    Ok(Rec::Comment {
        type_byte,
        class,
        text,
    })
}

/// LNAMES.
pub(crate) fn names_at<'a>(here: Here<'a>) -> Result<Rec<'a>, LayoutFault>
    ensures contents { map_ok contents_seen result ≡ names_whole.read here.entry.within here.entry.bytes.now }
    ensures kind { IfOk result (λ r. kind_seen r ≡ 0x96) }
{
    Ok(Rec::Names(Items::new(here)?))
}

/// LLNAMES.
pub(crate) fn local_names_at<'a>(here: Here<'a>) -> Result<Rec<'a>, LayoutFault>
    ensures contents { map_ok contents_seen result ≡ names_whole.read here.entry.within here.entry.bytes.now }
    ensures kind { IfOk result (λ r. kind_seen r ≡ 0xCA) }
{
    Ok(Rec::LocalNames(Items::new(here)?))
}

/// Reads SEGDEF's attribute byte.
fn attribute<'a>(here: Here<'a>) -> Result<(Acbp, Here<'a>), LayoutFault>
    ensures { Gives here.entry.wide result (attribute_reader.read here.entry.within here.entry.bytes.now) }
{
    let (byte, after) = byte(here)?;
    match Acbp::new(byte) {
        Ok(attribute) => Ok((attribute, after)),
        Err(reason) => Err(here.fault(reason)),
    }
}

/// Reads the frame number and offset of an absolute segment.
fn absolute<'a>(
    here: Here<'a>,
    attribute: Acbp,
) -> Result<(Option<(u16, u8)>, Here<'a>), LayoutFault>
    ensures { Gives here.entry.wide result ((absolute_reader attribute).read here.entry.within here.entry.bytes.now) }
{
    if attribute.byte() / 32 != 0 {
        return Ok((None, here));
    }
    let (number, here) = le16(here)?;
    let (offset, here) = byte(here)?;
    Ok((Some((number, offset)), here))
}

/// Reads SEGDEF's length field.
fn size<'a>(here: Here<'a>, attribute: Acbp) -> Result<(u32, Here<'a>), LayoutFault>
    ensures { Gives here.entry.wide result ((size_reader here.entry.wide attribute).read here.entry.within here.entry.bytes.now) }
{
    let (size, after) = number(here)?;
    if attribute.is_big() && size != 0 {
        return Err(here.fault(Reason::BigLength));
    }
    Ok((size, after))
}

/// SEGDEF.
pub(crate) fn segment_at<'a>(here: Here<'a>) -> Result<Rec<'a>, LayoutFault>
    ensures contents { map_ok contents_seen result ≡ (segment_whole here.entry.wide).read here.entry.within here.entry.bytes.now }
    ensures kind { IfOk result (λ r. kind_seen r ≡ odd_if (width_if here.entry.wide) 0x98) }
{
    let width = here.width();
    let (attribute, here) = attribute(here)?;
    let (absolute, here) = absolute(here, attribute)?;
    let (size, here) = size(here, attribute)?;
    let (name, here) = index_here(here)?;
    let (class, here) = index_here(here)?;
    let (overlay, here) = index(here)?;
    here.end()?;
    let segment = Segment {
        attribute,
        absolute,
        size,
        name,
        class,
        overlay,
    };
    Ok(Rec::Segment { width, segment })
}

/// GRPDEF.
pub(crate) fn group_at<'a>(here: Here<'a>) -> Result<Rec<'a>, LayoutFault>
    ensures contents { map_ok contents_seen result ≡ group_whole.read here.entry.within here.entry.bytes.now }
    ensures kind { IfOk result (λ r. kind_seen r ≡ 0x9A) }
{
    let (name, here) = index_here(here)?;
    let members = Items::new(here)?;
    Ok(Rec::Group { name, members })
}

/// EXTDEF.
pub(crate) fn externs_at<'a>(here: Here<'a>) -> Result<Rec<'a>, LayoutFault>
    ensures contents { map_ok contents_seen result ≡ externs_whole.read here.entry.within here.entry.bytes.now }
    ensures kind { IfOk result (λ r. kind_seen r ≡ 0x8C) }
{
    Ok(Rec::Externs(Items::new(here)?))
}

/// LEXTDEF.
pub(crate) fn local_externs_at<'a>(here: Here<'a>) -> Result<Rec<'a>, LayoutFault>
    ensures contents { map_ok contents_seen result ≡ externs_whole.read here.entry.within here.entry.bytes.now }
    ensures kind { IfOk result (λ r. kind_seen r ≡ odd_if (width_if here.entry.wide) 0xB4) }
{
    let odd = here.is_wide();
    let externs = Items::new(here)?;
    Ok(Rec::LocalExterns { odd, externs })
}

/// Reads the base frame's number of a PUBDEF, which is present if the segment index is 0.
fn base_frame<'a>(
    here: Here<'a>,
    segment: &At<Index>,
) -> Result<(Option<u16>, Here<'a>), LayoutFault>
    ensures { Gives here.entry.wide result ((base_reader (segment.now.item == 0)).read here.entry.within here.entry.bytes.now) }
{
    if segment.item.0 != 0 {
        return Ok((None, here));
    }
    let (number, here) = le16(here)?;
    Ok((Some(number), here))
}

/// PUBDEF, LPUBDEF.
pub(crate) fn publics_at<'a>(is_local: bool, here: Here<'a>) -> Result<Rec<'a>, LayoutFault>
    ensures contents { map_ok contents_seen result ≡ (publics_whole here.entry.wide).read here.entry.within here.entry.bytes.now }
    ensures kind { IfOk result (λ r. kind_seen r ≡ odd_if (width_if here.entry.wide) (if is_local then 0xB6 else 0x90)) }
{
    let width = here.width();
    let (group, here) = index_here(here)?;
    let (segment, here) = index_here(here)?;
    let (frame, here) = base_frame(here, &segment)?;
    match Items::new(here) {
        Ok(publics) if is_local => Ok(Rec::LocalPublics {
            width,
            group,
            segment,
            frame,
            publics,
        }),
        Ok(publics) => Ok(Rec::Publics {
            width,
            group,
            segment,
            frame,
            publics,
        }),
        Err(fault) => Err(fault),
    }
}

/// COMDEF.
pub(crate) fn communals_at<'a>(here: Here<'a>) -> Result<Rec<'a>, LayoutFault>
    ensures contents { map_ok contents_seen result ≡ communals_whole.read here.entry.within here.entry.bytes.now }
    ensures kind { IfOk result (λ r. kind_seen r ≡ 0xB0) }
{
    Ok(Rec::Communals(Items::new(here)?))
}

/// LCOMDEF.
pub(crate) fn local_communals_at<'a>(here: Here<'a>) -> Result<Rec<'a>, LayoutFault>
    ensures contents { map_ok contents_seen result ≡ communals_whole.read here.entry.within here.entry.bytes.now }
    ensures kind { IfOk result (λ r. kind_seen r ≡ 0xB8) }
{
    Ok(Rec::LocalCommunals(Items::new(here)?))
}

/// Reads the contents of an LEDATA.
#[inline(always)]
pub(crate) fn plain_data_at<'a>(here: Here<'a>) -> Result<PlainData<'a>, LayoutFault>
    ensures { result ≡ (data_whole here.entry.wide).read here.entry.within here.entry.bytes.now }
{
    let (segment, here) = index_here(here)?;
    let (offset, here) = number_here(here)?;
    let bytes = here.bytes();
    Ok(PlainData {
        segment,
        offset,
        bytes,
    })
}

/// LEDATA.
pub(crate) fn plain_at<'a>(here: Here<'a>) -> Result<Rec<'a>, LayoutFault>
    ensures contents { map_ok contents_seen result ≡ (plain_whole here.entry.wide).read here.entry.within here.entry.bytes.now }
    ensures kind { IfOk result (λ r. kind_seen r ≡ odd_if (width_if here.entry.wide) 0xA0) }
{
    let width = here.width();
    match plain_data_at(here) {
        Ok(plain) => Ok(Rec::Plain {
            width,
            segment: plain.segment,
            offset: plain.offset,
            data: plain.bytes,
        }),
        Err(fault) => Err(fault),
    }
}

/// LIDATA.
pub(crate) fn iterated_at<'a>(here: Here<'a>) -> Result<Rec<'a>, LayoutFault>
    ensures contents { map_ok contents_seen result ≡ (iterated_whole here.entry.wide).read here.entry.within here.entry.bytes.now }
    ensures kind { IfOk result (λ r. kind_seen r ≡ odd_if (width_if here.entry.wide) 0xA2) }
{
    let width = here.width();
    let (segment, here) = index_here(here)?;
    let (offset, here) = number_here(here)?;
    let bytes = here.bytes();
    Ok(Rec::Iterated {
        segment,
        offset,
        blocks: Blocks { bytes, width },
    })
}

/// FIXUPP.
pub(crate) fn fixups_at<'a>(here: Here<'a>) -> Result<Rec<'a>, LayoutFault>
    ensures contents { map_ok contents_seen result ≡ (fixups_whole here.entry.wide).read here.entry.within here.entry.bytes.now }
    ensures kind { IfOk result (λ r. kind_seen r ≡ odd_if (width_if here.entry.wide) 0x9C) }
{
    let width = here.width();
    let subrecords = Items::new(here)?;
    Ok(Rec::Fixups { width, subrecords })
}

/// Reads MODEND's start address, which is present if bit 6 of the type byte is set.
fn start<'a>(here: Here<'a>, type_byte: u8) -> Result<(Option<Reference>, Here<'a>), LayoutFault>
    ensures { Gives here.entry.wide result ((start_reader here.entry.wide type_byte).read here.entry.within here.entry.bytes.now) }
{
    if type_byte / 64 % 2 == 0 {
        return Ok((None, here));
    }
    let (start, here) = read_reference(here)?;
    Ok((Some(start), here))
}

/// MODEND.
pub(crate) fn mod_end_at<'a>(here: Here<'a>) -> Result<Rec<'a>, LayoutFault>
    ensures contents { map_ok contents_seen result ≡ (mod_end_whole here.entry.wide).read here.entry.within here.entry.bytes.now }
    ensures kind { IfOk result (λ r. kind_seen r ≡ odd_if (width_if here.entry.wide) 0x8A) }
{
    let width = here.width();
    let (type_byte, here) = byte(here)?;
    let (start, here) = start(here, type_byte)?;
    here.end()?;
    Ok(Rec::ModEnd {
        width,
        type_byte,
        start,
    })
}

/// TYPDEF, LINNUM, LINSYM, ALIAS, VERNUM, of type `kind`.
pub(crate) fn carried_at<'a>(kind: u8, here: Here<'a>) -> Result<Rec<'a>, LayoutFault>
    ensures contents { map_ok contents_seen result ≡ carried_whole.read here.entry.within here.entry.bytes.now }
    ensures kind { IfOk result (λ r. kind_seen r ≡ kind) }
{
    let contents = here.bytes();
    Ok(Rec::Carried { kind, contents })
}
