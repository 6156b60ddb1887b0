//! The image of a module at a placement.

ghost use Rattle.std.specs.Result.{result_err};
ghost use Rattle.std.specs.Prelude.{◌≡◌, ◌↔◌, ℕ, [], ◌∷◌, flat_map, IfSome, OnOk, IfOk, IfErr, None, Some, Option, slice_get, option_map, option_to_list};
ghost use Rattle.omf_records.specs.Inner.Seen.{odd_if};
ghost use Rattle.omf_records.specs.Values.{width};
ghost use Rattle.omf_image.specs.Inner.Expanding.{expanded};
ghost use Rattle.omf_image.specs.Limits.{profile_limits};
ghost use Rattle.omf_image.specs.Inner.Joined.{runs_of};
ghost use Rattle.omf_image.specs.Overlay.{AreLaidOver, IsRunAt, byte_at};
ghost use Rattle.omf_image.specs.declared.run.Run.{Run};
ghost use Rattle.omf_image.specs.Painting.{all_zeros};
ghost use Rattle.omf_check.specs.Inner.Contents.{data_seen};
ghost use Rattle.omf_check.specs.Module.{recs_of};
ghost use Rattle.omf_check.specs.Sound.{ModuleHolds};
ghost use Rattle.omf_reloc.specs.Image.{laid, image};
ghost use Rattle.omf_reloc.specs.Offsets.{outcome_at};
ghost use Rattle.omf_reloc.specs.Inner.PieceSeen.{piece_seen};
ghost use Rattle.omf_reloc.specs.Inner.Widths.{fixupp_type};
ghost use Rattle.omf_reloc.specs.Plain.{Fixed, pieces};
ghost use Rattle.omf_reloc.specs.Reach.{Reaches, far_faults};
ghost use Rattle.omf_reloc.specs.Inner.ReachSteps.{IsFirstFar, piece_cause};
ghost use Rattle.omf_reloc.specs.Inner.Measuring.{measured};
ghost use Rattle.omf_reloc.specs.Inner.Walking.{with_fixup, closed_by, opened_by, CanAdd, Expands, CanExpand, HasOffsets, IsNext, CanWalk, open_place};

use crate::fault::{Cause, RelocateFault, too_far};
use crate::measuring::extents;
use crate::offset::{outcome, start_outcome};
use crate::pieces::{Piece, pieces_of};
use crate::plain::PlainFixup;
use omf_check::{Checked, Data, Undecoded};
use omf_frame::{Index, Width};
use omf_image::{Image, Limits, expand, painted};
use omf_placement::Placement;
use omf_records::{At, Blocks};
use std::alloc::{AllocError, Global};
use std::marker::Model;

/// The last data record: its bytes at an offset of a segment, with the fixups so far applied.
#[derive(Drop)]
struct Open {
    segment: u16,
    offset: u32,
    bytes: Vec<u8>,
}

impl Model for Open {
    ghost use Rattle.omf_image.specs.Overlay.{Laid};

    ghost Value = { Laid };

    ghost view = { λ o. record { segment = o.segment; offset = o.offset; bytes = o.bytes.items } };
}

impl Open {
    /// Bytes at an offset of a segment.
    fn new(segment: &At<Index>, offset: &At<u32>, bytes: Vec<u8>) -> Open
        ensures { result ≡ record { segment = segment.now.item; offset = offset.now.item; bytes = bytes.items } }
    {
        Open {
            segment: segment.item.0,
            offset: offset.item,
            bytes,
        }
    }

    /// Applies a fixup. Returns why it is out of range, if it is; the data are then unchanged.
    #[inline(always)]
    fn add(&mut self, placement: &Placement, width: Width, fixup: &PlainFixup) -> Option<Cause>
        requires { CanAdd fixup.now self.old }
        ensures data { self.new ≡ with_fixup placement.now (fixupp_type width) fixup.now self.old }
        ensures cause { result ≡ result_err (outcome_at placement.now self.old.segment self.old.offset (fixupp_type width, fixup.now)) }
    {
        match outcome(placement, self.segment, self.offset, width, fixup) {
            Ok(additions) => {
                let position = usize::from(fixup.location.offset());
                additions.add_to(&mut self.bytes, position);
                None
            }
            Err(cause) => Some(cause),
        }
    }
}

/// A walk over a module's pieces.
#[derive(Drop)]
struct Walk {
    /// The image of the data records before the last.
    image: Image,
    /// The last data record, which is not in the image yet.
    open_data: Option<Open>,
}

impl Model for Walk {
    ghost use Rattle.omf_reloc.specs.Inner.Walking.{Walk as Walked};

    ghost Value = { Walked };

    ghost view = { λ w. record { image = w.image; open_data = w.open_data } };
}

/// The expanded bytes of an LIDATA's blocks.
fn expanded(alloc: Global, blocks: Blocks<'_>) -> Result<Vec<u8>, AllocError>
    requires { Expands (odd_if blocks.width 0xA2) blocks.bytes.now }
    ensures { IfOk result (λ v. v.items ≡ expanded (width (odd_if blocks.entry.width 0xA2)) profile_limits blocks.entry.bytes.now) }
{
    let (bytes, _moved) = expand(alloc, blocks, Limits::profile())?;
    Ok(bytes)
}

/// The least room of the bytes of an LEDATA. A vector with less is copied once more when the image is laid: it moves up to 16 bytes out of
/// their vector.
const ROOM: usize = 17;

/// A copy of the bytes of an LEDATA.
fn copied(alloc: Global, bytes: &[u8]) -> Result<Vec<u8>, AllocError>
    ensures { IfOk result (λ v. v.items ≡ bytes.now) }
{
    let mut copy = Vec::with_capacity(alloc, bytes.len().max(ROOM))?;
    copy.extend_from_slice(bytes)?;
    Ok(copy)
}

/// Lays a data record, if there is one, over an image.
fn lay(image: &mut Image, last: Option<Open>) -> Result<(), AllocError>
    requires { IfSome last HasOffsets }
    ensures { OnOk result (AreLaidOver image.old (option_to_list last) image.new) }
{
    match last {
        Some(last) => image.lay(last.segment, last.offset, last.bytes),
        None => Ok(()),
    }
}

impl Walk {
    /// A walk from the first piece on, over this image.
    fn new(image: Image) -> Walk
        ensures { result ≡ record { image = image; open_data = None } }
    {
        Walk {
            image,
            open_data: None,
        }
    }

    /// Lays the last data record, if there is one, and frees its bytes.
    fn close(&mut self) -> Result<(), AllocError>
        requires { IfSome self.old.open_data HasOffsets }
        ensures image { OnOk result (AreLaidOver self.old.image (option_to_list self.old.open_data) self.new.image) }
    {
        let last = self.open_data.take();
        lay(&mut self.image, last)
    }

    /// Makes a data record the last one.
    fn open(&mut self, next: Open)
        ensures image { self.new.image ≡ self.old.image }
        ensures open_data { self.new.open_data ≡ Some next }
    {
        self.open_data = Some(next);
    }

    /// Applies a fixup to the last data record. Returns why it does not reach, if it does not.
    #[inline(always)]
    fn fix(&mut self, placement: &Placement, width: Width, fixup: &PlainFixup) -> Option<Cause>
        requires { IfSome self.old.open_data (CanAdd fixup.now) }
        ensures image { self.new.image ≡ self.old.image }
        ensures open_data { self.new.open_data ≡ option_map (with_fixup placement.now (fixupp_type width) fixup.now) self.old.open_data }
        ensures cause { result ≡ piece_cause placement.now (open_place self.old.open_data) (Fixed (fixupp_type width) (fixup.now ∷ [])) }
    {
        match &mut self.open_data {
            Some(data) => data.add(placement, width, fixup),
            None => None,
        }
    }

    /// Makes a data record the last one. The bytes of the previous one are freed first, so that two are never in memory together.
    fn take_data(&mut self, alloc: Global, source: &Data<'_>) -> Result<(), AllocError>
        requires offsets { IfSome self.old.open_data HasOffsets }
        requires expands { CanExpand (data_seen source.now).kind (data_seen source.now).contents }
        ensures image { OnOk result (AreLaidOver self.old.image (closed_by (data_seen source.now).contents self.old.open_data) self.new.image) }
        ensures open_data { OnOk result (self.new.open_data ≡ opened_by (data_seen source.now).kind (data_seen source.now).contents self.old.open_data) }
    {
        match source {
            Data::Plain {
                segment,
                offset,
                bytes,
                ..
            } => {
                self.close()?;
                self.open(Open::new(segment, offset, copied(alloc, bytes)?));
                Ok(())
            }
            Data::Iterated {
                segment,
                offset,
                blocks,
            } => {
                self.close()?;
                self.open(Open::new(segment, offset, expanded(alloc, *blocks)?));
                Ok(())
            }
        }
    }

    /// Takes the next record. A data record becomes the last one. Any other record changes nothing, and is not decoded.
    fn take_record(&mut self, alloc: Global, rec: &Undecoded<'_>) -> Result<(), AllocError>
        requires offsets { IfSome self.old.open_data HasOffsets }
        requires expands { CanExpand rec.now.kind rec.now.contents }
        ensures image { OnOk result (AreLaidOver self.old.image (closed_by rec.now.contents self.old.open_data) self.new.image) }
        ensures open_data { OnOk result (self.new.open_data ≡ opened_by rec.now.kind rec.now.contents self.old.open_data) }
    {
        match rec.as_data() {
            Some(source) => self.take_data(alloc, &source),
            None => Ok(()),
        }
    }

    /// Takes a fixup as the next piece. Returns why it does not reach, if it does not.
    #[inline(always)]
    fn take_fixup(
        &mut self,
        placement: &Placement,
        width: Width,
        fixup: &PlainFixup,
    ) -> Option<Cause>
        requires { CanWalk (Fixed (fixupp_type width) (fixup.now ∷ [])) self.old }
        ensures next { IsNext placement.now (Fixed (fixupp_type width) (fixup.now ∷ [])) self.old self.new }
        ensures cause { result ≡ piece_cause placement.now (open_place self.old.open_data) (Fixed (fixupp_type width) (fixup.now ∷ [])) }
    {
        self.fix(placement, width, fixup)
    }

    /// Takes the next piece. Returns why it does not reach, if it does not.
    #[inline(always)]
    fn take(
        &mut self,
        alloc: Global,
        placement: &Placement,
        piece: &Piece<'_>,
    ) -> Result<Option<Cause>, AllocError>
        requires { CanWalk (piece_seen piece.now) self.old }
        ensures next { OnOk result (IsNext placement.now (piece_seen piece.now) self.old self.new) }
        ensures cause { IfOk result (λ cause. cause ≡ piece_cause placement.now (open_place self.old.open_data) (piece_seen piece.now)) }
    {
        match piece {
            Piece::Kept(rec) => {
                self.take_record(alloc, rec)?;
                Ok(None)
            }
            Piece::Fixed { width, fixup } => Ok(self.fix(placement, *width, fixup)),
            Piece::End {
                width,
                start: Some(reference),
                ..
            } => Ok(start_outcome(placement, *width, reference).err()),
            Piece::End { start: None, .. } => Ok(None),
        }
    }

    /// Lays the last data record and returns the image.
    fn finish(self) -> Result<Image, AllocError>
        requires { IfSome self.open_data HasOffsets }
        ensures { IfOk result (λ image. AreLaidOver self.image (option_to_list self.open_data) image) }
    {
        let mut image = self.image;
        lay(&mut image, self.open_data)?;
        Ok(image)
    }
}

/// The image of a module with zeros at each byte that a data record covers.
fn zeros_of(alloc: Global, module: &Checked) -> Result<Image, AllocError>
    ensures zeros { IfOk result (AreLaidOver [] (all_zeros (flat_map measured (recs_of «module».now.bytes)))) }
    ensures holds { ModuleHolds profile_limits (recs_of «module».now.bytes) }
{
    let covered = extents(alloc, module)?;
    painted(alloc, covered)
}

/// The image of a module at a placement. The bytes that data records cover are filled with zeros first, so that no run grows or moves
/// later.
///
/// # Errors
///
/// `Reach` with the first reference that does not reach, in file order; `Memory` if out of memory.
pub(crate) fn walked(
    alloc: Global,
    module: &Checked,
    placement: &Placement,
) -> Result<Image, RelocateFault>
    ensures laid { IfOk result (λ i. AreLaidOver [] (laid profile_limits placement.now (pieces (recs_of «module».now.bytes))) i) }
    ensures reaches { IfOk result (λ i. slice_get (far_faults placement.now (recs_of «module».now.bytes)) 0 ≡ None) }
    ensures far { IfErr result (IsFirstFar (slice_get (far_faults placement.now (recs_of «module».now.bytes)) 0)) }
    ensures holds { ModuleHolds profile_limits (recs_of «module».now.bytes) }
{
    let zeros = zeros_of(alloc, module)?;
    let mut walk = Walk::new(zeros);
    let mut pieces = pieces_of(module);
    'pieces: loop {
        // Most pieces are fixups that use no thread. Each is applied where it is read.
        if let Some((place, width, fixup)) = pieces.next_direct() {
            if let Some(cause) = walk.take_fixup(placement, width, &fixup) {
                return Err(RelocateFault::Reach(too_far(place, cause)));
            }
            continue;
        }
        let Some((place, piece)) = pieces.next() else {
            return Ok(walk.finish()?);
        };
        if let Some(cause) = walk.take(alloc, placement, &piece)? {
            return Err(RelocateFault::Reach(too_far(place, cause)));
        }
    }
}

/// The image of a module at a placement: the data of each LEDATA with its fixups applied, and the expanded blocks of each LIDATA (TIS OMF
/// 1.1, "LEDATA", "LIDATA", "FIXUPP"). Where data records overlap, the last one wins. Every byte is inside its segment, and every byte that
/// a fixup changes is inside the data of its LEDATA (law `accepted_are_safe`).
///
/// # Errors
///
/// `AllocError` if memory runs out.
pub fn relocate(alloc: Global, module: &Checked, placement: &Placement) -> Result<Image, AllocError>
    requires { Reaches placement.now (recs_of «module».now.bytes) }
    ensures laid { IfOk result (λ i. AreLaidOver [] (laid profile_limits placement.now (pieces (recs_of «module».now.bytes))) i) }
    ensures bytes { IfOk result (λ i. (segment x : ℕ) → byte_at i segment x ≡ image profile_limits placement.now (recs_of «module».now.bytes) segment x) }
    ensures runs { IfOk result (λ i. (segment k : ℕ) (run : Option Run) → IsRunAt (byte_at i segment) k run
        ↔ (run ≡ slice_get (runs_of (laid profile_limits placement.now (pieces (recs_of «module».now.bytes))) segment) k)) }
{
    match walked(alloc, module, placement) {
        Ok(image) => Ok(image),
        Err(RelocateFault::Memory) => Err(AllocError),
        Err(RelocateFault::Reach(_fault)) => unreachable!(),
    }
}
