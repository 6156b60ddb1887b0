//! The header of a library (TIS OMF 1.1, appendix 2, "Library header").

ghost use Rattle.std.specs.Prelude.{◌≡◌, ◌+◌, ◌<◌, length};
ghost use Rattle.omf_library.specs.Library.{IsHeaderRead, is_page_size, word_at};

use crate::fault::LibraryFault;

/// The type of the record that a library begins with.
const LIBRARY_HEADER: u8 = 0xF0;

/// The fields of a library's header.
#[derive(Clone, Copy, Debug, PartialEq, Eq)]
pub struct Header {
    /// The page size in bytes: the length of the header record.
    pub page: u32,
    /// The offset of the dictionary.
    pub dictionary: u32,
    /// The number of the dictionary's blocks, of 512 bytes each.
    pub blocks: u32,
    /// Flags: bit 0 is set where names that differ in case differ.
    pub flags: u8,
}

/// The little-endian number of two bytes.
fn word_at(bytes: &[u8], at: usize) -> u32
    requires { at + 1 < length bytes.now }
    ensures value { result ≡ word_at bytes.now at }
    ensures bounded { result < 65536 }
{
    u32::from(bytes[at]) + 256 * u32::from(bytes[at + 1])
}

/// Whether a page may have this size.
fn is_page_size(size: u32) -> bool
    ensures { result ≡ is_page_size size }
{
    matches!(
        size,
        16 | 32 | 64 | 128 | 256 | 512 | 1024 | 2048 | 4096 | 8192 | 16384 | 32768
    )
}

/// Reads the header of a library.
///
/// # Errors
///
/// `NoHeader`, `HeaderCut` or `PageSize`, the first that holds.
pub fn read_header(bytes: &[u8]) -> Result<Header, LibraryFault>
    ensures { IsHeaderRead bytes.now result }
{
    if bytes.is_empty() || bytes[0] != LIBRARY_HEADER {
        return Err(LibraryFault::NoHeader);
    }
    if bytes.len() < 3 {
        return Err(LibraryFault::HeaderCut);
    }
    let page = word_at(bytes, 1) + 3;
    if bytes.len() < page as usize {
        return Err(LibraryFault::HeaderCut);
    }
    if !is_page_size(page) {
        return Err(LibraryFault::PageSize(page));
    }
    Ok(Header {
        page,
        dictionary: word_at(bytes, 3) + 65536 * word_at(bytes, 5),
        blocks: word_at(bytes, 7),
        flags: bytes[9],
    })
}
