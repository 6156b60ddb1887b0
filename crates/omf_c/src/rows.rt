//! The rows of a module's tables, for C.

/// Where a name is in the module: its first byte, and its number of bytes, 0 to 255. An offset of 0 is no name.
#[repr(C)]
#[derive(Clone, Copy, Drop)]
pub struct NamePlace {
    /// In bytes from the start of the module.
    pub offset: u64,
    /// In bytes.
    pub size: u64,
}

/// Where bytes are in the module: the first of them, and their number.
#[repr(C)]
#[derive(Clone, Copy, Drop)]
pub struct Span {
    /// In bytes from the start of the module.
    pub offset: u64,
    /// In bytes.
    pub size: u64,
}

/// A record (TIS OMF 1.1, "Object record format").
#[repr(C)]
#[derive(Clone, Copy, Drop)]
pub struct RecordRow {
    /// Its bytes: type, length, contents and checksum.
    pub bytes: Span,
    /// Its type byte.
    pub type_byte: u32,
    /// Its number, from 0.
    pub number: u32,
}

/// A header (TIS OMF 1.1, "THEADR", "LHEADR").
#[repr(C)]
#[derive(Clone, Copy, Drop)]
pub struct HeaderRow {
    /// The name of the module.
    pub name: NamePlace,
    /// The type byte of the record: 80H is a THEADR, 82H an LHEADR.
    pub type_byte: u32,
    /// The number of the record, from 0.
    pub number: u32,
}

/// A comment (TIS OMF 1.1, "COMENT").
#[repr(C)]
#[derive(Clone, Copy, Drop)]
pub struct CommentRow {
    /// The bytes after the class.
    pub text: Span,
    /// The comment class.
    pub class_byte: u32,
    /// The comment type byte: 80H is no purge, 40H is no list.
    pub flags: u32,
    /// The number of the record, from 0.
    pub number: u32,
    /// Always 0.
    pub unused: u32,
}

/// A segment (TIS OMF 1.1, "SEGDEF").
#[repr(C)]
#[derive(Clone, Copy, Drop)]
pub struct SegmentRow {
    pub name: NamePlace,
    pub class_name: NamePlace,
    pub overlay_name: NamePlace,
    /// Its length in bytes, 0 to 2^32.
    pub size: u64,
    /// The A field: 0 absolute, 1 byte, 2 word, 3 paragraph, 4 page, 5 double word.
    pub align: u32,
    /// The C field: 0 private, 2, 4 and 7 public, 5 stack, 6 common.
    pub combine: u32,
    /// The bits of its code: 16 or 32.
    pub bits: u32,
    /// 1 if it is absolute.
    pub is_absolute: u32,
    /// Of an absolute segment: the number of its frame, and its offset in the frame in bytes. 0 of any other.
    pub frame: u32,
    pub frame_offset: u32,
}

/// A group (TIS OMF 1.1, "GRPDEF").
#[repr(C)]
#[derive(Clone, Copy, Drop)]
pub struct GroupRow {
    pub name: NamePlace,
    /// The number of its members.
    pub members: u64,
}

/// A member of a group.
#[repr(C)]
#[derive(Clone, Copy, Drop)]
pub struct MemberRow {
    /// The index of a segment, from 1.
    pub segment: u32,
}

/// An external name (TIS OMF 1.1, "EXTDEF", "COMDEF", "LEXTDEF", "LCOMDEF").
#[repr(C)]
#[derive(Clone, Copy, Drop)]
pub struct ExternalRow {
    pub name: NamePlace,
    pub type_index: u32,
    /// 1 if it is local to the module.
    pub is_local: u32,
    /// 0 if it is no communal, 1 if it is a near one, 2 if it is a far one.
    pub communal: u32,
    /// Of a communal: the number of its elements, 1 of a near one; and the size of an element in bytes. 0 of any other.
    pub elements: u32,
    pub element_size: u32,
    /// Always 0.
    pub unused: u32,
}

/// A public name (TIS OMF 1.1, "PUBDEF", "LPUBDEF").
#[repr(C)]
#[derive(Clone, Copy, Drop)]
pub struct PublicRow {
    pub name: NamePlace,
    /// In bytes: in its segment, or in its base frame if it has no segment.
    pub offset: u32,
    /// The index of its segment and of its group, from 1; 0 for none.
    pub segment: u32,
    pub group: u32,
    /// The number of its base frame if it has no segment; else 0.
    pub frame: u32,
    pub type_index: u32,
    /// 1 if it is local to the module.
    pub is_local: u32,
}

/// A data record (TIS OMF 1.1, "LEDATA", "LIDATA").
#[repr(C)]
#[derive(Clone, Copy, Drop)]
pub struct DataRow {
    /// The data of an LEDATA, the repeated blocks of an LIDATA.
    pub stored: Span,
    /// The number of its data bytes; of an LIDATA, of those that its blocks expand to.
    pub size: u64,
    /// The first of them, in bytes from the start of its segment.
    pub offset: u32,
    /// The index of its segment, from 1.
    pub segment: u32,
    /// The type byte of the record: A0H and A1H are an LEDATA, A2H and A3H an LIDATA.
    pub type_byte: u32,
    /// The number of the record, from 0.
    pub number: u32,
}

/// The end of a module, with its start before relocation (TIS OMF 1.1, "MODEND").
#[repr(C)]
#[derive(Clone, Copy, Drop)]
pub struct StartReferenceRow {
    /// 1 if the module is a main one.
    pub is_main: u32,
    /// 1 if it names a start. Each field up to `bits` is 0 if it names none.
    pub has_start: u32,
    /// The frame method, 0 to 2 or 5, and the index of its segment, group or external; 0 for F5.
    pub frame_method: u32,
    pub frame_index: u32,
    /// The target method, 0 to 2, and the index of its segment, group or external.
    pub target_method: u32,
    pub target_index: u32,
    /// In bytes, as a number without a sign; 0 if the record has none.
    pub displacement: u32,
    /// The bits of its displacement's field: 16 or 32.
    pub bits: u32,
    /// Where it is: the number of the MODEND, from 0, and the offset in it of the start's fix data byte, or 0.
    pub number: u32,
    pub within: u32,
}

/// A place of a segment or an external: its address, and the frame that it is addressed by.
#[repr(C)]
#[derive(Clone, Copy, Drop)]
pub struct PlaceRow {
    pub address: u32,
    /// The address of the frame's first byte.
    pub base: u32,
    /// The selector of the frame.
    pub selector: u16,
    /// It is not read.
    pub unused: u16,
}

/// The frame of a group.
#[repr(C)]
#[derive(Clone, Copy, Drop)]
pub struct FrameRow {
    /// The address of its first byte.
    pub base: u32,
    /// Its selector.
    pub selector: u16,
    /// It is not read.
    pub unused: u16,
}

/// A placement: the places of the segments, the frames of the groups and the places of the externals, in index order.
#[repr(C)]
#[derive(Clone, Copy, Drop)]
pub struct PlacementRows<'a> {
    pub segments: &'a [PlaceRow],
    pub groups: &'a [FrameRow],
    pub externals: &'a [PlaceRow],
}

/// A fixup with its threads resolved (TIS OMF 1.1, "FIXUPP").
#[repr(C)]
#[derive(Clone, Copy, Drop)]
pub struct FixupRow {
    /// The first byte of its location, in bytes from the start of its segment.
    pub offset: u64,
    /// The index of the segment that it changes, from 1.
    pub segment: u32,
    /// The LOCATION field, the type of the location.
    pub location: u32,
    /// The size of the location in bytes: 1, 2, 4 or 6.
    pub size: u32,
    /// 1 if it is self-relative, 0 if it is segment-relative.
    pub is_self_relative: u32,
    /// The frame method, 0 to 2, 4 or 5, and the index of its segment, group or external; 0 for F4 and F5.
    pub frame_method: u32,
    pub frame_index: u32,
    /// The target method, 0 to 2, and the index of its segment, group or external.
    pub target_method: u32,
    pub target_index: u32,
    /// In bytes, as a number without a sign; 0 if the FIXUP has none.
    pub displacement: u32,
    /// The bits of its displacement's field: 16 or 32.
    pub bits: u32,
    /// Where it is: the number of its FIXUPP, from 0, and the offset of its first byte in that record.
    pub number: u32,
    pub within: u32,
}

/// A run of bytes of a relocated segment. No byte next to it is covered.
#[repr(C)]
#[derive(Clone, Copy, Drop)]
pub struct RunRow {
    /// Its number of bytes.
    pub size: u64,
    /// The index of the segment, from 1.
    pub segment: u32,
    /// Its first byte, in bytes from the start of the segment.
    pub offset: u32,
}

/// The start address of a relocated module (TIS OMF 1.1, "MODEND").
#[repr(C)]
#[derive(Clone, Copy, Drop)]
pub struct StartRow {
    /// The selector of its frame.
    pub selector: u32,
    /// In bytes, in its frame.
    pub offset: u32,
}

/// A member of a library (TIS OMF 1.1, appendix 2).
#[repr(C)]
#[derive(Clone, Copy, Drop)]
pub struct LibraryMemberRow {
    /// Of its first byte, in bytes from the start of the library.
    pub offset: u64,
    /// In bytes.
    pub size: u64,
}

/// A file of a program: its bytes, and its name, which the lines of a fault show.
#[repr(C)]
#[derive(Clone, Copy, Drop)]
pub struct FileRow<'a> {
    pub bytes: &'a [u8],
    pub name: &'a [u8],
}

/// What is asked of a program.
#[repr(C)]
#[derive(Clone, Copy, Drop)]
pub struct ProgramRow {
    /// The bytes of the stack; 0 for as many as the modules' own.
    pub stack: u16,
    /// 1 is DOS order of segments, 2 the order of the modules; any other is DOS order if a module asks for it.
    pub order: u16,
    /// Whether it is a .COM file.
    pub is_com: bool,
    /// Whether names are compared without case.
    pub ignore_case: bool,
    /// Whether several publics may have one name, if no external has it.
    pub allow_twice: bool,
    /// Whether 16-bit segments and groups may be longer than 64 KB.
    pub allow_group: bool,
    /// Whether near references may be into another frame.
    pub allow_near: bool,
    /// Whether 16-bit and 32-bit parts may be one segment.
    pub allow_mixed: bool,
}
