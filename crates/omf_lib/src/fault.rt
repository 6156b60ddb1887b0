//! What can be wrong with a library, or odd about it. The numbers are those of docs/LIBRARIES.md.

use omf_frame::{Place, Reason};
use omf_library::{LibraryFault, SpanFault};

/// What is wrong, and where: offsets in the file; members are counted from 0.
#[derive(Clone, Copy)]
pub enum Fault<'a> {
    /// 1: the file does not begin with F0H.
    NoHeader,
    /// 2: the file ends in the header.
    HeaderCut,
    /// 3: the header has this length, which is no page size.
    PageSize(u32),
    /// 4: a page that must begin with a member or with F1H begins with neither.
    NoMember {
        offset: usize,
        member: usize,
    },
    /// 5: the file ends inside a record of a member.
    MemberCut {
        offset: usize,
        member: usize,
    },
    /// 6: the file ends before the F1H.
    NoEnd {
        offset: usize,
        member: usize,
    },
    /// 7: no program takes a member.
    Member {
        offset: usize,
        member: usize,
        reason: Reason,
        place: Place,
    },
    /// 8: the dictionary's offset is no multiple of 512.
    DictionaryOffset(usize),
    /// 9: the dictionary begins before the end of the F1H, or ends after the file.
    DictionaryOutside(usize),
    /// 10: an entry passes the end of its block.
    EntryOutside(usize),
    /// 11: an entry's page is no member's.
    EntryNowhere(Named<'a>),
    /// 12: the search of the standard does not find an entry.
    NotFound(Named<'a>),
    /// 13: a search that keeps its bucket does not find an entry.
    NotFoundKept(Named<'a>),
    /// 14: a public of a member is found by neither search.
    NoEntry(Public<'a>),
    /// 15: the entry of a public has the page of another member.
    OtherMember(Public<'a>),
    /// 16: the searches pass too many full blocks; the dictionary from this offset on, or all of it, is not searched.
    LongSearches(usize),
    /// 21: the member at an entry's page does not define its name.
    Undefined(Named<'a>),
}

/// What is odd about a library and no fault, and where.
#[derive(Clone, Copy)]
pub enum Note {
    /// 17: the bytes between a member and the next page are not all zero; the offset of the first that is not.
    Padding {
        offset: usize,
        member: usize,
    },
    /// 18: bytes between the F1H record and the dictionary.
    Gap {
        offset: usize,
        length: usize,
    },
    /// 19: bytes after the dictionary, or after the F1H record if the header has none, that are no extended dictionary.
    After {
        offset: usize,
        length: usize,
    },
    /// 22: the check of modules refuses a member, and accepts its lowering; a linker takes that. The type of the record at which the check refuses it.
    Lowered {
        offset: usize,
        member: usize,
        kind: u8,
    },
}

/// An entry of the dictionary: the offset of its bucket, its page and its name.
#[derive(Clone, Copy)]
pub struct Named<'a> {
    pub offset: usize,
    pub page: u16,
    pub name: &'a [u8],
}

/// A public of a member.
#[derive(Clone, Copy)]
pub struct Public<'a> {
    pub offset: usize,
    pub member: usize,
    pub name: &'a [u8],
}

impl From<LibraryFault> for Fault<'static> {
    ghost use Rattle.std.specs.Prelude.{◌≡◌};
    ghost use Rattle.omf_lib.specs.Lines.{header_fault};

    ghost from_gives = { λ f fault. fault ≡ header_fault f };

    fn from(fault: LibraryFault) -> Fault<'static> {
        match fault {
            LibraryFault::HeaderCut => Fault::HeaderCut,
            LibraryFault::PageSize(size) => Fault::PageSize(size),
            LibraryFault::NoHeader
            | LibraryFault::Memory
            | LibraryFault::Refused { .. }
            | LibraryFault::NoEnd { .. } => Fault::NoHeader,
        }
    }
}

impl From<SpanFault> for Fault<'static> {
    ghost use Rattle.std.specs.Prelude.{◌≡◌};
    ghost use Rattle.omf_lib.specs.Lines.{page_fault};

    ghost from_gives = { λ f fault. fault ≡ page_fault f };

    fn from(fault: SpanFault) -> Fault<'static> {
        match fault {
            SpanFault::NoMember { offset, member } => Fault::NoMember { offset, member },
            SpanFault::MemberCut { offset, member } => Fault::MemberCut { offset, member },
            SpanFault::NoEnd { offset, member } => Fault::NoEnd { offset, member },
        }
    }
}
