//! The extents of a module's data records.

ghost use Rattle.std.specs.Prelude.{◌≡◌, ◌++◌, [], ◌∷◌, length, flat_map, IfOk, OnOk, option_to_list};
ghost use Rattle.omf_records.specs.Inner.Seen.{odd_if, rec_seen};
ghost use Rattle.omf_records.specs.Values.{width};
ghost use Rattle.omf_image.specs.Inner.Expanding.{expanded};
ghost use Rattle.omf_image.specs.Limits.{profile_limits};
ghost use Rattle.omf_check.specs.Inner.Contents.{data_seen};
ghost use Rattle.omf_check.specs.Module.{recs_of};
ghost use Rattle.omf_check.specs.Sound.{ModuleHolds};
ghost use Rattle.omf_reloc.specs.Inner.Measuring.{measured, CanMeasure};
ghost use Rattle.omf_reloc.specs.Inner.Walking.{Expands};

use omf_check::{Checked, Data, Undecoded};
use omf_frame::Index;
use omf_image::{Extent, Limits, expanded_len};
use omf_records::{At, Blocks, Rec};
use std::alloc::{AllocError, Global};

/// The expanded length of an LIDATA's blocks, in bytes.
fn blocks_len(blocks: Blocks<'_>) -> u64
    requires { Expands (odd_if blocks.width 0xA2) blocks.bytes.now }
    ensures { result ≡ length (expanded (width (odd_if blocks.entry.width 0xA2)) profile_limits blocks.entry.bytes.now) }
{
    match expanded_len(blocks, Limits::profile()) {
        Ok(len) => u64::from(len),
        Err(_) => unreachable!(),
    }
}

/// The extent of `len` bytes at an offset of a segment.
fn extent_from(segment: &At<Index>, offset: &At<u32>, len: u64) -> Extent
    ensures { result ≡ record { segment = segment.now.item; first = offset.now.item; len = len } }
{
    Extent {
        segment: segment.item.0,
        first: offset.item,
        len,
    }
}

/// The extent of a data record: its segment, its offset there, and the number of its bytes, for an LIDATA of those that its blocks expand
/// to; `None` for any other record (TIS OMF 1.1, "LEDATA", "LIDATA").
pub fn measure(rec: &Rec<'_>) -> Option<Extent>
    requires { CanMeasure (rec_seen rec.now) }
    ensures { option_to_list result ≡ measured (rec_seen rec.now) }
{
    match rec {
        Rec::Plain {
            segment,
            offset,
            data,
            ..
        } => Some(extent_from(segment, offset, data.len() as u64)),
        Rec::Iterated {
            segment,
            offset,
            blocks,
        } => Some(extent_from(segment, offset, blocks_len(*blocks))),
        Rec::Header { .. }
        | Rec::Comment { .. }
        | Rec::Names(_)
        | Rec::Segment { .. }
        | Rec::Group { .. }
        | Rec::Externs(_)
        | Rec::Publics { .. }
        | Rec::Communals(_)
        | Rec::Fixups { .. }
        | Rec::ModEnd { .. }
        | Rec::LocalNames(_)
        | Rec::LocalExterns { .. }
        | Rec::LocalPublics { .. }
        | Rec::LocalCommunals(_)
        | Rec::Carried { .. } => None,
    }
}

/// The extent of the data of an LEDATA, or of what the blocks of an LIDATA expand to.
fn data_extent(source: &Data<'_>) -> Extent
    requires { CanMeasure (data_seen source.now) }
    ensures { result ∷ [] ≡ measured (data_seen source.now) }
{
    match source {
        Data::Plain {
            segment,
            offset,
            bytes,
            ..
        } => extent_from(segment, offset, bytes.len() as u64),
        Data::Iterated {
            segment,
            offset,
            blocks,
        } => extent_from(segment, offset, blocks_len(*blocks)),
    }
}

/// Appends the extent of a data record. Other records add nothing, and are not decoded.
fn push_extent(extents: &mut Vec<Extent>, rec: &Undecoded<'_>) -> Result<(), AllocError>
    requires { CanMeasure rec.now }
    ensures { OnOk result (extents.new.items ≡ extents.old.items ++ measured rec.now) }
{
    match rec.as_data() {
        Some(source) => {
            extents.push(data_extent(&source))?;
            Ok(())
        }
        None => Ok(()),
    }
}

/// The extents of a module's data records, in file order.
pub(crate) fn extents(alloc: Global, module: &Checked) -> Result<Vec<Extent>, AllocError>
    ensures listed { IfOk result (λ v. v.items ≡ flat_map measured (recs_of «module».now.bytes)) }
    ensures holds { ModuleHolds profile_limits (recs_of «module».now.bytes) }
{
    let mut extents = Vec::new(alloc);
    for (_, record) in module.undecoded() {
        push_extent(&mut extents, &record)?;
    }
    Ok(extents)
}
