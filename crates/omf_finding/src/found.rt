//! Whether a module is in a program at a placement.

ghost use Rattle.std.specs.Prelude.{◌≡◌, ◌≤◌, ℕ, length, true, false, IfOk, IfErr};
ghost use Rattle.omf_image.specs.Limits.{profile_limits};
ghost use Rattle.omf_reloc.specs.Reach.{Reaches};
ghost use Rattle.omf_check.specs.Module.{recs_of};
ghost use Rattle.omf_check.specs.Sound.{ModuleHolds};
ghost use Rattle.omf_check.specs.Tables.{segments};
ghost use Rattle.omf_finding.specs.Found.{IsFound, IsFoundInPart};
ghost use Rattle.omf_finding.specs.Inner.Agreeing.{lies_in, SegmentAgrees, FirstAgree, ComparedBelow, HasByte, SomeCompared};

use crate::indices::Indices;
use omf_check::Checked;
use omf_image::Image;
use omf_reloc::{Placed, Placement, RelocateFault, reach_and_relocate};
use std::alloc::{AllocError, Global};

/// Bytes are those of a program from an address on.
fn lies_in(program: &[u8], base: u32, address: u64, bytes: &[u8]) -> bool
    ensures { result ≡ lies_in program.now base address bytes.now }
{
    let base = u64::from(base);
    if address < base {
        return false;
    }
    let start = usize::try_from(address - base).unwrap_or(usize::MAX);
    program[start.min(program.len())..].starts_with(bytes)
}

/// Each byte of a segment that is at an address is the program's.
fn segment_agrees(image: &Image, segment: u16, address: u32, program: &[u8], base: u32) -> bool
    ensures found { result ≡ true → SegmentAgrees image.now segment address program.now base }
    ensures wrong { result ≡ false → SegmentAgrees image.now segment address program.now base → ⊥ }
{
    let mut k = 0;
    while let Some((first, bytes)) = image.run_with_bytes(segment, k) {
        if !lies_in(program, base, u64::from(address) + u64::from(first), bytes) {
            return false;
        }
        k += 1;
    }
    true
}

/// Each byte of an image whose segments lie at these places is the program's, but for absent segments.
fn image_agrees(
    image: &Image,
    places: &[Placed],
    absent: &Indices,
    program: &[u8],
    base: u32,
) -> bool
    requires { length places.now ≤ 65535 }
    ensures found { result ≡ true → FirstAgree image.now places.now absent.now program.now base (length places.now) }
    ensures wrong { result ≡ false → FirstAgree image.now places.now absent.now program.now base (length places.now) → ⊥ }
{
    for n in 0..places.len() {
        let segment = n as u16 + 1;
        if !absent.has(segment)
            && !segment_agrees(image, segment, places[n].address, program, base)
        {
            return false;
        }
    }
    true
}

/// Whether an image has a byte of a segment.
fn has_byte(image: &Image, segment: u16) -> bool
    ensures some { result ≡ true → HasByte image.now segment }
    ensures none { result ≡ false → HasByte image.now segment → ⊥ }
{
    match image.run_with_bytes(segment, 0) {
        Some((_first, bytes)) => !bytes.is_empty(),
        None => false,
    }
}

/// Whether an image has a byte in one of n segments that is not absent.
fn some_compared(image: &Image, count: usize, absent: &Indices) -> bool
    requires { count ≤ 65535 }
    ensures some { result ≡ true → SomeCompared image.now absent.now }
    ensures none { result ≡ false → ComparedBelow image.now absent.now count → ⊥ }
{
    for n in 0..count {
        let segment = n as u16 + 1;
        if has_byte(image, segment) && !absent.has(segment) {
            return true;
        }
    }
    false
}

/// Each byte of an image whose segments lie at these places is the program's, but for absent segments, and there is such a byte.
fn part_agrees(
    image: &Image,
    places: &[Placed],
    absent: &Indices,
    program: &[u8],
    base: u32,
) -> bool
    requires { length places.now ≤ 65535 }
    ensures agrees { result ≡ true → FirstAgree image.now places.now absent.now program.now base (length places.now) }
    ensures compared { result ≡ true → SomeCompared image.now absent.now }
    ensures wrong { result ≡ false → FirstAgree image.now places.now absent.now program.now base (length places.now) → ComparedBelow image.now absent.now (length places.now) → ⊥ }
{
    if some_compared(image, places.len(), absent) {
        image_agrees(image, places, absent, program, base)
    } else {
        false
    }
}

/// The number of segments of a module, which is well-formed.
pub(crate) fn segment_count(module: &Checked) -> u16
    ensures count { result ≡ length (segments (recs_of «module».now.bytes)) }
    ensures bounded { result ≤ 32767 }
    ensures holds { ModuleHolds profile_limits (recs_of «module».now.bytes) }
{
    let _records = module.undecoded();
    module.segments()
}

/// Whether a module is in a program at a placement: the placement reaches, and each byte of the image is the program's at its address, but
/// for the segments that are named as absent. The program's first byte is at `base`.
///
/// # Errors
///
/// `AllocError` if out of memory, and the placement reaches.
pub fn is_found(
    alloc: Global,
    module: &Checked,
    placement: &Placement,
    absent: &Indices,
    program: &[u8],
    base: u32,
) -> Result<bool, AllocError>
    ensures found { IfOk result (λ found. found ≡ true → IsFound (recs_of «module».now.bytes) placement.now absent.now program.now base) }
    ensures wrong { IfOk result (λ found. found ≡ false → IsFound (recs_of «module».now.bytes) placement.now absent.now program.now base → ⊥) }
    ensures memory { IfErr result (λ e. Reaches placement.now (recs_of «module».now.bytes)) }
{
    let _count = segment_count(module);
    match reach_and_relocate(alloc, module, placement) {
        Ok(image) => Ok(image_agrees(&image, placement.segments(), absent, program, base)),
        Err(RelocateFault::Reach(_fault)) => Ok(false),
        Err(RelocateFault::Memory) => Err(AllocError),
    }
}

/// The same, and some byte of the image is in a segment that is not absent.
///
/// # Errors
///
/// Those of `is_found`.
pub fn is_found_in_part(
    alloc: Global,
    module: &Checked,
    placement: &Placement,
    absent: &Indices,
    program: &[u8],
    base: u32,
) -> Result<bool, AllocError>
    ensures found { IfOk result (λ found. found ≡ true → IsFoundInPart (recs_of «module».now.bytes) placement.now absent.now program.now base) }
    ensures wrong { IfOk result (λ found. found ≡ false → IsFoundInPart (recs_of «module».now.bytes) placement.now absent.now program.now base → ⊥) }
    ensures memory { IfErr result (λ e. Reaches placement.now (recs_of «module».now.bytes)) }
{
    let _count = segment_count(module);
    match reach_and_relocate(alloc, module, placement) {
        Ok(image) => Ok(part_agrees(&image, placement.segments(), absent, program, base)),
        Err(RelocateFault::Reach(_)) => Ok(false),
        Err(RelocateFault::Memory) => Err(AllocError),
    }
}
