//! The modules of a file, as parts of a library.

use omf_check::Profile;
use omf_frame::{Framer, is_header};
use omf_making::{Judgement, Part, Refusal, judge_taken};
use std::alloc::{AllocError, AllocFailed, Global};

/// Why the modules of a file become no parts.
#[derive(Clone, Copy)]
pub enum PartsFault {
    /// Out of memory.
    Memory,
    /// No program takes the module with this number, from 0.
    Refused { module: usize, why: Refusal },
    /// From this offset on neither a module nor padding follows.
    Rest(usize),
}

impl From<AllocError> for PartsFault {
    fn from(_error: AllocError) -> PartsFault {
        PartsFault::Memory
    }
}

impl<T: Drop> From<AllocFailed<T>> for PartsFault {
    fn from(_error: AllocFailed<T>) -> PartsFault {
        PartsFault::Memory
    }
}

/// Bytes without those of this value at their front.
fn without(bytes: &[u8], value: u8) -> &[u8] {
    let count = bytes.iter().take_while(|byte| **byte == value).count();
    bytes.get(count..).unwrap_or(&[])
}

/// Bytes without the padding at their front: bytes of one value, 00H or 1AH.
fn unpadded(bytes: &[u8]) -> &[u8] {
    match bytes {
        [0x00, ..] => without(bytes, 0x00),
        [0x1A, ..] => without(bytes, 0x1A),
        _ => bytes,
    }
}

/// Whether another module follows, or else the file ends.
fn is_followed(left: &[u8], at: usize) -> Result<bool, PartsFault> {
    match left {
        [] => Ok(false),
        [kind, ..] if is_header(*kind) => Ok(true),
        _ => Err(PartsFault::Rest(at)),
    }
}

/// The modules of a file, one at least, each with the padding after it.
///
/// # Errors
///
/// `Refused` for the first module that no program takes; `Rest` if something else follows; `Memory` if out of memory.
pub fn parts_of_file(
    alloc: Global,
    profile: Profile,
    bytes: &[u8],
) -> Result<Vec<Part>, PartsFault> {
    let mut framer = Framer::new(alloc);
    let mut parts = Vec::new(alloc);
    let mut left = bytes;
    for number in 0..usize::MAX {
        let taken = match judge_taken(alloc, &mut framer, profile, left)? {
            Judgement::Taken(taken) => taken,
            Judgement::Refused(why) => {
                return Err(PartsFault::Refused {
                    module: number,
                    why,
                });
            }
        };
        parts.push(Part::taken(alloc, left, &taken)?)?;
        left = unpadded(left.get(taken.length..).unwrap_or(&[]));
        if !is_followed(left, bytes.len().saturating_sub(left.len()))? {
            return Ok(parts);
        }
    }
    Err(PartsFault::Memory)
}
