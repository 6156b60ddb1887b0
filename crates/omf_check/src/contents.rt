//! The contents of records of some types, as a look-up at a record returns them.

ghost use Rattle.std.specs.Prelude.{◌≡◌, IfNone, IfSome, false};
ghost use Rattle.omf_check.specs.Inner.Contents.{comment_seen, data_seen, externals_local, externals_seen, publics_seen, references_seen};
ghost use Rattle.omf_check.specs.Inner.Known.{holds_comment, holds_data, holds_externals, holds_publics, holds_references, holds_segment};
ghost use Rattle.omf_frame.specs.Types.{is_local};
ghost use Rattle.omf_records.specs.Inner.Seen.{contents_seen, kind_seen, rec_seen};
ghost use Rattle.omf_records.specs.Values.{Segment as SegmentContents};

use omf_frame::{Index, Width};
use omf_records::{
    At, Blocks, Communal, Extern, Items, Public, Rec, Reference, Segment, Subrecord,
};

/// The contents of an LEDATA or of an LIDATA (TIS OMF 1.1, "LEDATA", "LIDATA").
#[derive(Drop)]
pub enum Data<'a> {
    /// LEDATA: data at an offset in a segment, in bytes. `width` is that of the record's offset field.
    Plain {
        width: Width,
        segment: At<Index>,
        offset: At<u32>,
        bytes: &'a [u8],
    },
    /// LIDATA: repeated blocks at an offset in a segment, in bytes.
    Iterated {
        segment: At<Index>,
        offset: At<u32>,
        blocks: Blocks<'a>,
    },
}

/// The contents of a PUBDEF or of an LPUBDEF (TIS OMF 1.1, "PUBDEF", "LPUBDEF").
#[derive(Drop)]
pub struct Publics<'a> {
    /// The width of the offsets in the record.
    pub width: Width,
    /// The index of the base group, or 0.
    pub group: At<Index>,
    /// The index of the base segment, or 0.
    pub segment: At<Index>,
    /// The base frame's number, present if the segment index is 0.
    pub frame: Option<u16>,
    pub items: Items<Public<'a>>,
}

/// The contents of a COMENT (TIS OMF 1.1, "COMENT").
#[derive(Drop)]
pub struct Comment<'a> {
    pub type_byte: u8,
    pub class: u8,
    pub text: &'a [u8],
}

/// The external names of a record. They are local if its type is LEXTDEF or LCOMDEF.
#[derive(Drop)]
pub enum Externals<'a> {
    /// EXTDEF or LEXTDEF.
    Externs {
        local: bool,
        items: Items<Extern<'a>>,
    },
    /// COMDEF or LCOMDEF.
    Communals {
        local: bool,
        items: Items<Communal<'a>>,
    },
}

/// The contents of a FIXUPP or of a MODEND (TIS OMF 1.1, "FIXUPP", "MODEND").
#[derive(Drop)]
pub enum References<'a> {
    /// FIXUPP. `width` is that of its displacements.
    Fixups {
        width: Width,
        subrecords: Items<Subrecord<'a>>,
    },
    /// MODEND: its type byte, and the start address, present if bit 6 of the type byte is set.
    ModEnd {
        width: Width,
        type_byte: u8,
        start: Option<Reference>,
    },
}

/// A copy of a segment.
#[inline(always)]
fn copied_segment(segment: &Segment) -> Segment
    ensures { result ≡ segment.now }
{
    Segment {
        attribute: segment.attribute,
        absolute: segment.absolute,
        size: segment.size,
        name: segment.name,
        class: segment.class,
        overlay: segment.overlay,
    }
}

/// A copy of a reference.
#[inline(always)]
fn copied_reference(reference: &Reference) -> Reference
    ensures { result ≡ reference.now }
{
    Reference {
        fix: reference.fix,
        frame: reference.frame,
        target: reference.target,
        displacement: reference.displacement,
    }
}

/// A copy of a start address, if there is one.
#[inline(always)]
fn copied_start(start: &Option<Reference>) -> Option<Reference>
    ensures { result ≡ start.now }
{
    match start {
        Some(reference) => Some(copied_reference(reference)),
        None => None,
    }
}

/// The contents, if the record is a COMENT.
#[inline(always)]
pub(crate) fn comment_of<'a>(rec: &Rec<'a>) -> Option<Comment<'a>>
    ensures some { IfSome result (λ c. comment_seen c ≡ rec_seen rec.now) }
    ensures none { IfNone result (holds_comment (contents_seen rec.now) ≡ false) }
{
    match rec {
        Rec::Comment {
            type_byte,
            class,
            text,
        } => Some(Comment {
            type_byte: *type_byte,
            class: *class,
            text: *text,
        }),
        _ => None,
    }
}

/// The segment, if the record is a SEGDEF.
#[inline(always)]
pub(crate) fn segment_of(rec: &Rec<'_>) -> Option<Segment>
    ensures some { IfSome result (λ s. SegmentContents s ≡ contents_seen rec.now) }
    ensures none { IfNone result (holds_segment (contents_seen rec.now) ≡ false) }
{
    match rec {
        Rec::Segment { segment, .. } => Some(copied_segment(segment)),
        _ => None,
    }
}

/// The contents, if the record is a PUBDEF; if `local` is set, if it is an LPUBDEF.
#[inline(always)]
pub(crate) fn publics_of<'a>(local: bool, rec: &Rec<'a>) -> Option<Publics<'a>>
    ensures some { IfSome result (λ p. publics_seen local p ≡ rec_seen rec.now) }
    ensures none { IfNone result (holds_publics local (kind_seen rec.now) (contents_seen rec.now) ≡ false) }
{
    match rec {
        Rec::Publics {
            width,
            group,
            segment,
            frame,
            publics,
        } if !local => Some(Publics {
            width: *width,
            group: *group,
            segment: *segment,
            frame: *frame,
            items: publics.iter(),
        }),
        Rec::LocalPublics {
            width,
            group,
            segment,
            frame,
            publics,
        } if local => Some(Publics {
            width: *width,
            group: *group,
            segment: *segment,
            frame: *frame,
            items: publics.iter(),
        }),
        _ => None,
    }
}

/// The external names, if the record is an EXTDEF, a LEXTDEF, a COMDEF or an LCOMDEF.
#[inline(always)]
pub(crate) fn externals_of<'a>(rec: &Rec<'a>) -> Option<Externals<'a>>
    ensures some { IfSome result (λ e. externals_seen e ≡ contents_seen rec.now) }
    ensures local { IfSome result (λ e. externals_local e ≡ is_local (kind_seen rec.now)) }
    ensures none { IfNone result (holds_externals (contents_seen rec.now) ≡ false) }
{
    match rec {
        Rec::Externs(items) => Some(Externals::Externs {
            local: false,
            items: items.iter(),
        }),
        Rec::LocalExterns { externs, .. } => Some(Externals::Externs {
            local: true,
            items: externs.iter(),
        }),
        Rec::Communals(items) => Some(Externals::Communals {
            local: false,
            items: items.iter(),
        }),
        Rec::LocalCommunals(items) => Some(Externals::Communals {
            local: true,
            items: items.iter(),
        }),
        _ => None,
    }
}

/// The contents, if the record is a FIXUPP or a MODEND.
#[inline(always)]
pub(crate) fn references_of<'a>(rec: &Rec<'a>) -> Option<References<'a>>
    ensures some { IfSome result (λ r. references_seen r ≡ rec_seen rec.now) }
    ensures none { IfNone result (holds_references (contents_seen rec.now) ≡ false) }
{
    match rec {
        Rec::Fixups { width, subrecords } => Some(References::Fixups {
            width: *width,
            subrecords: subrecords.iter(),
        }),
        Rec::ModEnd {
            width,
            type_byte,
            start,
        } => Some(References::ModEnd {
            width: *width,
            type_byte: *type_byte,
            start: copied_start(start),
        }),
        _ => None,
    }
}

/// The contents, if the record is an LEDATA or an LIDATA.
#[inline(always)]
pub(crate) fn data_of<'a>(rec: &Rec<'a>) -> Option<Data<'a>>
    ensures some { IfSome result (λ d. data_seen d ≡ rec_seen rec.now) }
    ensures none { IfNone result (holds_data (contents_seen rec.now) ≡ false) }
{
    match rec {
        Rec::Plain {
            width,
            segment,
            offset,
            data,
        } => Some(Data::Plain {
            width: *width,
            segment: *segment,
            offset: *offset,
            bytes: *data,
        }),
        Rec::Iterated {
            segment,
            offset,
            blocks,
        } => Some(Data::Iterated {
            segment: *segment,
            offset: *offset,
            blocks: *blocks,
        }),
        _ => None,
    }
}
