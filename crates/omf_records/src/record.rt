//! Typed records, which borrow from the record's bytes.
ghost use Rattle.std.specs.Prelude.{◌≡◌, ◌<◌};
ghost use Rattle.omf_records.specs.Inner.Seen.{odd_if};

use crate::acbp::Acbp;
use crate::at::At;
use crate::entry::{Communal, Extern, Member, Public};
use crate::item::Items;
use crate::subrecord::{Reference, Subrecord};
use omf_frame::{Index, Name, Width};
use std::marker::Model;

/// The contents of a SEGDEF (TIS OMF 1.1, "SEGDEF").
#[derive(Drop)]
pub struct Segment {
    /// The attribute byte: alignment, combination, Big, Use32.
    pub attribute: Acbp,
    /// The frame number of an absolute segment, and its offset in the frame in bytes.
    pub absolute: Option<(u16, u8)>,
    /// The length in bytes; 0 if the segment is Big.
    pub size: u32,
    pub name: At<Index>,
    pub class: At<Index>,
    pub overlay: Index,
}

impl Model for Segment {
    ghost use Rattle.omf_records.specs.Values.{SegmentItem};

    ghost Value = { SegmentItem };

    ghost view = { λ s. record { attribute = s.attribute; absolute = s.absolute; size = s.size; name = s.name; class = s.class; overlay = s.overlay } };
}

/// The contents of an LEDATA: data at an offset in a segment, in bytes (TIS OMF 1.1, "LEDATA").
#[derive(Drop)]
pub struct PlainData<'a> {
    pub segment: At<Index>,
    pub offset: At<u32>,
    pub bytes: &'a [u8],
}

impl<'a> Model for PlainData<'a> {
    ghost use Rattle.omf_records.specs.Values.{DataItem};

    ghost Value = { DataItem };

    ghost view = { λ d. record { segment = d.segment; offset = d.offset; bytes = d.bytes.now } };
}

/// The repeated blocks of an LIDATA as bytes, and the width of their repeat counts.
#[derive(Clone, Copy, Debug, Drop, PartialEq, Eq)]
pub struct Blocks<'a> {
    pub bytes: &'a [u8],
    pub width: Width,
}

/// The contents of a record. `width` is that of its offsets, lengths and displacements: the odd one of two types has 32 bits.
#[derive(Drop)]
pub enum Rec<'a> {
    /// THEADR or LHEADR: `kind` is 80H or 82H.
    Header {
        kind: u8,
        name: Name<'a>,
    },
    /// COMENT: its type byte, class byte and text.
    Comment {
        type_byte: u8,
        class: u8,
        text: &'a [u8],
    },
    /// LNAMES.
    Names(Items<Name<'a>>),
    /// SEGDEF.
    Segment {
        width: Width,
        segment: Segment,
    },
    /// GRPDEF: the index of its name, and its members.
    Group {
        name: At<Index>,
        members: Items<Member<'a>>,
    },
    /// EXTDEF.
    Externs(Items<Extern<'a>>),
    /// PUBDEF: its base, and the public names. `frame` is the base frame's number, present if the segment index is 0.
    Publics {
        width: Width,
        group: At<Index>,
        segment: At<Index>,
        frame: Option<u16>,
        publics: Items<Public<'a>>,
    },
    /// COMDEF.
    Communals(Items<Communal<'a>>),
    /// LEDATA: data at an offset in a segment, in bytes.
    Plain {
        width: Width,
        segment: At<Index>,
        offset: At<u32>,
        data: &'a [u8],
    },
    /// LIDATA: repeated blocks at an offset in a segment, in bytes. Its type is odd if repeat counts have 32 bits.
    Iterated {
        segment: At<Index>,
        offset: At<u32>,
        blocks: Blocks<'a>,
    },
    /// FIXUPP.
    Fixups {
        width: Width,
        subrecords: Items<Subrecord<'a>>,
    },
    /// MODEND: its type byte, and the start address, present if bit 6 of the type byte is set.
    ModEnd {
        width: Width,
        type_byte: u8,
        start: Option<Reference>,
    },
    /// LLNAMES.
    LocalNames(Items<Name<'a>>),
    /// LEXTDEF. Types B4H and B5H differ in nothing else.
    LocalExterns {
        odd: bool,
        externs: Items<Extern<'a>>,
    },
    /// LPUBDEF: as PUBDEF.
    LocalPublics {
        width: Width,
        group: At<Index>,
        segment: At<Index>,
        frame: Option<u16>,
        publics: Items<Public<'a>>,
    },
    /// LCOMDEF.
    LocalCommunals(Items<Communal<'a>>),
    /// TYPDEF, LINNUM, LINSYM, ALIAS or VERNUM, not interpreted.
    Carried {
        kind: u8,
        contents: &'a [u8],
    },
}

/// The type byte `even`, or the odd one after it for 32-bit fields.
fn odd_if(width: Width, even: u8) -> u8
    requires { even < 255 }
    ensures { result ≡ odd_if width even }
{
    match width {
        Width::Bits16 => even,
        Width::Bits32 => even + 1,
    }
}

impl<'a> Rec<'a> {
    ghost use Rattle.std.specs.Prelude.{◌≡◌};
    ghost use Rattle.omf_records.specs.Inner.Seen.{kind_seen};

    /// The record's type byte.
    pub fn kind(&self) -> u8
        ensures { result ≡ kind_seen self.now }
    {
        match self {
            Rec::Header { kind, .. } | Rec::Carried { kind, .. } => *kind,
            Rec::Comment { .. } => 0x88,
            Rec::Names(_) => 0x96,
            Rec::Segment { width, .. } => odd_if(*width, 0x98),
            Rec::Group { .. } => 0x9A,
            Rec::Externs(_) => 0x8C,
            Rec::Publics { width, .. } => odd_if(*width, 0x90),
            Rec::Communals(_) => 0xB0,
            Rec::Plain { width, .. } => odd_if(*width, 0xA0),
            Rec::Iterated { blocks, .. } => odd_if(blocks.width, 0xA2),
            Rec::Fixups { width, .. } => odd_if(*width, 0x9C),
            Rec::ModEnd { width, .. } => odd_if(*width, 0x8A),
            Rec::LocalNames(_) => 0xCA,
            Rec::LocalExterns { odd, .. } => 0xB4 + u8::from(*odd),
            Rec::LocalPublics { width, .. } => odd_if(*width, 0xB6),
            Rec::LocalCommunals(_) => 0xB8,
        }
    }
}
