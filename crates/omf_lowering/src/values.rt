//! The values that a lowering reads, and what it makes of them.

use omf_frame::Index;
use omf_image::Part;
use omf_records::At;

/// An external of a CEXTDEF: the index of its name, and its type index (TIS OMF 1.1, "CEXTDEF").
#[derive(Clone, Copy, Drop)]
pub struct NamedExternal {
    pub name: At<Index>,
    pub type_index: Index,
}

/// A backpatch of a BAKPAT: an offset in the segment in bytes, and the value that is added to the location there (TIS OMF 1.1, "BAKPAT").
#[derive(Clone, Copy, Drop)]
pub struct Backpatch {
    pub offset: u32,
    pub value: u32,
}

/// What a SEGDEF is a pattern of: its attribute byte, and the indices of its name, class and overlay (TIS OMF 1.1, "SEGDEF").
#[derive(Clone, Copy, Drop)]
pub struct Pattern {
    pub attribute: u8,
    pub name: Index,
    pub class: Index,
    pub overlay: Index,
}

/// The data of an LEDATA or an LIDATA among the records of a lowered module.
#[derive(Clone, Copy, Drop)]
pub struct Piece {
    /// The number of its record, from 0.
    pub number: usize,
    /// Whether the record is an LEDATA.
    pub is_plain: bool,
    /// The index of its segment.
    pub segment: u16,
    /// Its offset in the segment, in bytes.
    pub offset: u32,
    /// Its size in bytes; for an LIDATA that of the expanded blocks.
    pub size: usize,
    /// The offset of its first byte in the contents of the record.
    pub at: u32,
}

/// A value to add to a location in the data of an LEDATA.
#[derive(Clone, Copy, Drop)]
pub struct Patch {
    /// The number of the record, from 0.
    pub number: usize,
    /// The offset of the location in the contents of the record.
    pub at: usize,
    pub part: Part,
    pub value: u32,
}
