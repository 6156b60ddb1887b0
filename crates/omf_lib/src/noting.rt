//! What of a library's bytes is odd, and no fault.

use crate::fault::Note;
use crate::library::Library;
use crate::text::put_note;
use omf_library::{Header, Region, RegionKind, account_of};
use std::alloc::AllocError;

/// The bytes of a region.
fn bytes_of<'a>(bytes: &'a [u8], region: Region) -> &'a [u8] {
    let end = region.offset.saturating_add(region.length);
    bytes.get(region.offset..end).unwrap_or(&[])
}

/// The offset of the first byte of a region that is not zero.
fn first_filled(bytes: &[u8], region: Region) -> Option<usize> {
    let within = bytes_of(bytes, region).iter().position(|byte| *byte != 0)?;
    Some(region.offset.saturating_add(within))
}

/// What is odd about a region. `after` is the number of the member before it, if it is the padding of a member's last page.
/// `is_whole` is false where a dictionary is missing, which fault 9 is about.
fn note_of(bytes: &[u8], region: Region, after: Option<usize>, is_whole: bool) -> Option<Note> {
    let Region {
        kind,
        offset,
        length,
    } = region;
    match kind {
        RegionKind::Padding => Some(Note::Padding {
            member: after?,
            offset: first_filled(bytes, region)?,
        }),
        RegionKind::Gap => Some(Note::Gap { offset, length }),
        RegionKind::After if is_whole => Some(Note::After { offset, length }),
        RegionKind::After
        | RegionKind::Header
        | RegionKind::Member
        | RegionKind::End
        | RegionKind::Dictionary
        | RegionKind::Extended => None,
    }
}

/// Whether the dictionary is where the header has it, if it has one.
fn is_whole(header: Header, regions: &[Region]) -> bool {
    header.blocks == 0
        || regions
            .iter()
            .any(|region| region.kind == RegionKind::Dictionary)
}

/// Appends a line for each region that is odd, if the library has an end.
pub fn note_regions(text: &mut String, library: &Library<'_>) -> Result<(), AllocError> {
    if library.spans.end.is_err() {
        return Ok(());
    }
    let alloc = *text.allocator();
    let regions = account_of(alloc, library.header, &library.spans, library.bytes)?;
    let is_whole = is_whole(library.header, regions.as_slice());
    let mut members: usize = 0;
    let mut after = None;
    for region in regions.iter() {
        if let Some(note) = note_of(library.bytes, *region, after, is_whole) {
            put_note(text, note)?;
        }
        after = None;
        if region.kind == RegionKind::Member {
            after = Some(members);
            members = members.saturating_add(1);
        }
    }
    Ok(())
}
