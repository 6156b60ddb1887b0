//! Why a module is refused, and where.

ghost use Rattle.std.specs.Prelude.{◌≡◌};
ghost use Rattle.omf_frame.specs.Fault.{framing_sentence, reason_number, reason_name, sentence};
ghost use Rattle.omf_frame.specs.declared.fault.FrameFault.TheVariants.{Memory};

use std::alloc::AllocError;
use std::fmt;

/// Why a module is refused. Reasons are numbered 1 to 33: framing from 1, layout from 8, meaning from 21.
/// docs/REASONS.md gives the usual cause of each, the remedy, and an example in bytes.
#[derive(Clone, Copy, PartialEq, Eq)]
pub enum Reason {
    /// 1: the input ends between records, before any MODEND. So does an empty input.
    NoEnd = 1,
    /// 2: the input ends inside a record. The place counts the bytes present.
    Cut,
    /// 3: the type byte is in neither the standard nor this profile.
    UnknownType,
    /// 4: the type is known but not supported: a COMDAT, a backpatch, a vendor's extension, a library.
    UnsupportedType,
    /// 5: the record's length is 0, too short for the checksum byte.
    EmptyRecord,
    /// 6: the checksum byte is not 0, and the record's bytes do not sum to 0 modulo 256.
    Checksum,
    /// 7: the first record is neither THEADR nor LHEADR.
    NoHeader,
    /// 8: a field runs past the end of the contents, or of its block.
    Short,
    /// 9: bytes are left over after the last field.
    Long,
    /// 10: a SEGDEF has alignment 6 or 7, which have no meaning.
    Alignment,
    /// 11: a SEGDEF has the Big bit and a length other than 0.
    BigLength,
    /// 12: a GRPDEF component is not a segment index (FFH).
    GroupComponent,
    /// 13: a COMDEF data type is neither 62H (near) nor 61H (far).
    CommunalType,
    /// 14: the first byte of a communal's length is invalid.
    CommunalLength,
    /// 15: a THREAD, a fixup or the start address has frame method F3, F6 or F7.
    FrameMethod,
    /// 16: a THREAD, a fixup or the start address has target method 3, an explicit frame number.
    TargetMethod,
    /// 17: a fixup's location type is undefined.
    LocationType,
    /// 18: a self-relative fixup's location is a base, a pointer or a high byte.
    SelfRelative,
    /// 19: the blocks of an LIDATA are nested deeper than the limit.
    TooDeep,
    /// 20: an LIDATA expands to more bytes than the limit.
    DataTooLong,
    /// 21: a name index of a SEGDEF (its name or class; the overlay is not checked) or GRPDEF has no LNAMES or LLNAMES entry so far.
    UndefinedName,
    /// 22: a segment index has no SEGDEF so far.
    UndefinedSegment,
    /// 23: a group index has no GRPDEF so far.
    UndefinedGroup,
    /// 24: an external index has no EXTDEF, COMDEF, LEXTDEF or LCOMDEF entry so far.
    UndefinedExternal,
    /// 25: a fixup or the start address uses a thread that no THREAD has set.
    UndefinedThread,
    /// 26: data extend past the end of their segment.
    OutsideSegment,
    /// 27: a fixup's location extends past the end of the preceding data record.
    OutsideRecord,
    /// 28: a fixup precedes any data record.
    NoDataRecord,
    /// 29: a fixup follows an LIDATA record.
    FixupOnIterated,
    /// 30: the module has more names, segments, groups, externals or items than the limit.
    TooMany,
    /// 31: a COMENT of class AAH: the module is of the Phar Lap dialect.
    OtherDialect,
    /// 32: a COMENT has a class from C0H to FFH, which the profile refuses.
    VendorComment,
    /// 33: MODEND's start address has frame method F4, the location's segment; a start address has no location.
    StartFrame,
}

impl Reason {
    /// The reason's number, from 1 to 33.
    pub fn number(self) -> u8
        ensures { result ≡ reason_number self }
    {
        self as u8
    }

    /// The reason's name, as in printed texts.
    pub fn name(self) -> &'static str
        ensures { result.now ≡ reason_name self }
    {
        match self {
            Reason::NoEnd => "NoEnd",
            Reason::Cut => "Cut",
            Reason::UnknownType => "UnknownType",
            Reason::UnsupportedType => "UnsupportedType",
            Reason::EmptyRecord => "EmptyRecord",
            Reason::Checksum => "Checksum",
            Reason::NoHeader => "NoHeader",
            Reason::Short => "Short",
            Reason::Long => "Long",
            Reason::Alignment => "Alignment",
            Reason::BigLength => "BigLength",
            Reason::GroupComponent => "GroupComponent",
            Reason::CommunalType => "CommunalType",
            Reason::CommunalLength => "CommunalLength",
            Reason::FrameMethod => "FrameMethod",
            Reason::TargetMethod => "TargetMethod",
            Reason::LocationType => "LocationType",
            Reason::SelfRelative => "SelfRelative",
            Reason::TooDeep => "TooDeep",
            Reason::DataTooLong => "DataTooLong",
            Reason::UndefinedName => "UndefinedName",
            Reason::UndefinedSegment => "UndefinedSegment",
            Reason::UndefinedGroup => "UndefinedGroup",
            Reason::UndefinedExternal => "UndefinedExternal",
            Reason::UndefinedThread => "UndefinedThread",
            Reason::OutsideSegment => "OutsideSegment",
            Reason::OutsideRecord => "OutsideRecord",
            Reason::NoDataRecord => "NoDataRecord",
            Reason::FixupOnIterated => "FixupOnIterated",
            Reason::TooMany => "TooMany",
            Reason::OtherDialect => "OtherDialect",
            Reason::VendorComment => "VendorComment",
            Reason::StartFrame => "StartFrame",
        }
    }

    /// What the reason means, in a sentence without a period.
    pub fn sentence(self) -> &'static str
        ensures { result.now ≡ sentence self }
    {
        match self {
            Reason::NoEnd => "the input ends before a MODEND",
            Reason::Cut => "the input ends inside a record",
            Reason::UnknownType => "the record's type is unknown",
            Reason::UnsupportedType => "the record's type is not read",
            Reason::EmptyRecord => "the record's length is 0",
            Reason::Checksum => "the record's checksum is wrong",
            Reason::NoHeader => "the first record is no header",
            Reason::Short => "a field does not fit into its record",
            Reason::Long => "bytes are left over in the record",
            Reason::Alignment => "the segment's alignment has no meaning",
            Reason::BigLength => "a Big segment has a length",
            Reason::GroupComponent => "the group's component is no segment",
            Reason::CommunalType => "the communal is neither near nor far",
            Reason::CommunalLength => "the communal's length is invalid",
            Reason::FrameMethod => "the frame method is not read",
            Reason::TargetMethod => "the target method is not read",
            Reason::LocationType => "the location's type is unknown",
            Reason::SelfRelative => "the location cannot be self-relative",
            Reason::TooDeep => "blocks are nested too deep",
            Reason::DataTooLong => "repeated data are too long",
            Reason::UndefinedName => "the name is not defined",
            Reason::UndefinedSegment => "the segment is not defined",
            Reason::UndefinedGroup => "the group is not defined",
            Reason::UndefinedExternal => "the external is not defined",
            Reason::UndefinedThread => "the thread is not set",
            Reason::OutsideSegment => "data pass the end of their segment",
            Reason::OutsideRecord => "the location passes the end of its data",
            Reason::NoDataRecord => "a fixup precedes any data",
            Reason::FixupOnIterated => "a fixup applies to repeated data",
            Reason::TooMany => "a limit of the module's tables is passed",
            Reason::OtherDialect => "the module is of another dialect",
            Reason::VendorComment => "a vendor's comment is refused",
            Reason::StartFrame => "the start's frame is that of a location",
        }
    }
}

/// The reason's name.
impl fmt::Debug for Reason {
    ghost use Rattle.std.specs.Prelude.{Some};
    ghost use Rattle.omf_frame.specs.Fault.{reason_name};

    ghost debug_output = { λ reason. Some (reason_name reason) };

    fn fmt<W: fmt::Write>(&self, f: &mut fmt::Formatter<W>) -> fmt::Result {
        f.write_str(self.name())
    }
}

/// What the reason means.
impl fmt::Display for Reason {
    ghost use Rattle.std.specs.Prelude.{Some};
    ghost use Rattle.omf_frame.specs.Fault.{sentence};

    ghost output = { λ reason. Some (sentence reason) };

    fn fmt<W: fmt::Write>(&self, f: &mut fmt::Formatter<W>) -> fmt::Result {
        f.write_str(self.sentence())
    }
}

impl std::error::Error for Reason {}

/// A place in a module: the record's number from 0, its offset in the stream in bytes, and the offset in the record of the
/// field at fault (0 is the type byte). If the input ends inside a record, `within` counts the record's bytes present.
#[derive(Clone, Copy, Debug, PartialEq, Eq)]
pub struct Place {
    pub number: u32,
    pub start: u64,
    pub within: u32,
}

/// Why framing failed.
#[derive(Clone, Copy, Debug, PartialEq, Eq)]
pub enum FrameFault {
    /// 1: out of memory.
    Memory,
    /// 2: the input is not a module, by this reason (1 to 7) at this place.
    Refused(Reason, Place),
}

impl FrameFault {
    /// What the fault means, in a sentence without a period.
    fn sentence(&self) -> &'static str
        ensures { result.now ≡ framing_sentence self.now }
    {
        match self {
            FrameFault::Memory => "memory ran out",
            FrameFault::Refused(..) => "the input is not framed as a module",
        }
    }
}

/// What the fault means.
impl fmt::Display for FrameFault {
    ghost use Rattle.std.specs.Prelude.{Some};
    ghost use Rattle.omf_frame.specs.Fault.{framing_sentence};

    ghost output = { λ fault. Some (framing_sentence fault) };

    fn fmt<W: fmt::Write>(&self, f: &mut fmt::Formatter<W>) -> fmt::Result {
        f.write_str(self.sentence())
    }
}

impl std::error::Error for FrameFault {}

impl From<AllocError> for FrameFault {
    ghost from_gives = { λ _ e. e ≡ Memory };

    fn from(_error: AllocError) -> FrameFault {
        FrameFault::Memory
    }
}
