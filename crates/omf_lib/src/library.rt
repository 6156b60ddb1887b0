//! What of a file can be read as a library: its header, and its members one after another.

ghost use Rattle.std.specs.Prelude.{◌≡◌, IfOk};
ghost use Rattle.omf_library.specs.Dictionary.{IsDictionary};
ghost use Rattle.omf_lib.specs.Members.{begins_before, IsLibraryRead, IsPlaced};

use crate::members::Member;
use omf_library::{
    BLOCK, Dictionary, Header, LibraryFault, Span, Spans, dictionary_in, read_header, spans_in,
};
use std::alloc::{AllocError, Global};

/// A file with the header of a library; its members, and how they end.
#[derive(Drop)]
pub struct Library<'a> {
    pub bytes: &'a [u8],
    pub header: Header,
    pub spans: Spans<'a>,
}

/// Reads a file as a library; or why it has no header of one.
pub fn read_library<'a>(
    alloc: Global,
    bytes: &'a [u8],
) -> Result<Result<Library<'a>, LibraryFault>, AllocError>
    ensures { IfOk result (λ read. IsLibraryRead bytes.entry.now read) }
{
    match read_header(bytes) {
        Ok(header) => {
            let spans = spans_in(alloc, bytes, header.page as usize)?;
            Ok(Ok(Library {
                bytes,
                header,
                spans,
            }))
        }
        Err(fault) => Ok(Err(fault)),
    }
}

/// Whether the dictionary of a header with one begins before an offset.
fn begins_before(header: Header, offset: usize) -> bool
    ensures { result ≡ begins_before header offset }
{
    header.blocks != 0 && (header.dictionary as usize) < offset
}

/// The number of the page at an offset.
pub fn page_of(header: Header, offset: usize) -> Option<usize> {
    offset.checked_div(header.page as usize)
}

/// The member with this number.
pub fn member_of<'a>(number: usize, span: &Span<'a>) -> Member<'a>
    ensures offset { result.offset ≡ span.now.offset }
    ensures bytes { result.bytes.now ≡ span.now.bytes.now }
{
    Member {
        number,
        offset: span.offset,
        bytes: span.bytes,
    }
}

impl<'a> Library<'a> {
    /// The dictionary; None if a part of it is not in the file.
    pub fn dictionary(&self) -> Option<Dictionary<'a>>
        ensures { IsDictionary self.now.header self.now.bytes.now result }
    {
        dictionary_in(self.header, self.bytes)
    }

    /// The dictionary, if it is in the file, and after the F1H record at this offset.
    #[tactic(auto, using(crate::proofs::FindLaws::placed_there))]
    pub fn dictionary_after(&self, end: usize) -> Option<Dictionary<'a>>
        ensures { IsPlaced self.now.header self.now.bytes.now end result }
    {
        if begins_before(self.header, end) {
            None
        } else {
            self.dictionary()
        }
    }

    /// The offset of the dictionary.
    pub fn dictionary_offset(&self) -> usize {
        self.header.dictionary as usize
    }

    /// What follows the dictionary.
    pub fn after_dictionary(&self) -> &'a [u8] {
        let length = (self.header.blocks as usize).saturating_mul(BLOCK);
        let end = self.dictionary_offset().saturating_add(length);
        self.bytes.get(end..).unwrap_or(&[])
    }
}
