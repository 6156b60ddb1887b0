//! The place of one segment or one external.

ghost use Rattle.std.specs.Prelude.{◌≡◌, ◌≤◌, ◌^◌, IfSome, option_map};
ghost use Rattle.omf_layout.specs.Layout.{segment_laid, external_at, external_laid};
ghost use Rattle.omf_layout.specs.Inner.Spots.{spot_laid};
ghost use Rattle.omf_placement.specs.Placement.{absolute_place};
ghost use Rattle.omf_layout.specs.Wants.{bytes_aligned};

use crate::alignment::Alignment;
use crate::options::{Options, anchor};
use crate::room::address_from;
use omf_check::SegInfo;
use omf_placement::Frame;

/// An address, its frame, and the first free address after what is laid there.
#[derive(Clone, Copy)]
pub struct Spot {
    pub address: u32,
    pub frame: Frame,
    pub free: u64,
}

/// Returns the spot of an absolute segment with this frame number and offset, which takes no free room.
fn absolute_spot(number: u16, offset: u8, free: u64) -> Spot
    ensures { spot_laid result ≡ record { what = absolute_place number offset; free = free } }
{
    let base = 16 * u32::from(number);
    let frame = Frame {
        base,
        selector: number,
    };
    Spot {
        address: base + u32::from(offset),
        frame,
        free,
    }
}

/// Returns the spot of a segment, at the first free address that suits; none if it does not fit.
pub fn segment_spot(
    options: Options,
    free: u64,
    segment: SegInfo,
    alignment: Alignment,
) -> Option<Spot>
    requires { free ≤ 2 ^ 32 }
    ensures value { option_map spot_laid result ≡ segment_laid options.frames free (segment, alignment) }
    ensures low { IfSome result (λ s. s.free ≤ 2 ^ 32) }
    ensures high { IfSome result (λ s. free ≤ s.free) }
{
    match segment.absolute {
        Some((number, offset)) => Some(absolute_spot(number, offset, free)),
        None => {
            let address = address_from(options.frames, alignment.bytes(), free, segment.length)?;
            let frame = options.frames.frame_at(address);
            let free = u64::from(address) + segment.length;
            Some(Spot {
                address,
                frame,
                free,
            })
        }
    }
}

/// Returns the spot of `size` bytes of an external; none if they do not fit.
pub fn external_at(options: Options, alignment: Alignment, free: u64, size: u64) -> Option<Spot>
    requires from { options.base ≤ free }
    requires low { free ≤ 2 ^ 32 }
    ensures value { option_map spot_laid result ≡ external_at options (bytes_aligned alignment) free size }
    ensures low { IfSome result (λ s. s.free ≤ 2 ^ 32) }
    ensures high { IfSome result (λ s. free ≤ s.free) }
{
    let address = address_from(options.frames, alignment.bytes(), free, size)?;
    let frame = options.frames.frame_at(anchor(options.base, address));
    let free = u64::from(address) + size;
    Some(Spot {
        address,
        frame,
        free,
    })
}

/// Returns the spot of a communal of this length; of any other external the spare one.
pub fn external_spot(
    options: Options,
    spare: Option<Spot>,
    free: u64,
    room: Option<u64>,
) -> Option<Spot>
    requires from { options.base ≤ free }
    requires low { free ≤ 2 ^ 32 }
    ensures value { option_map spot_laid result ≡ external_laid options (option_map (λ s. (spot_laid s).what) spare) free room }
    ensures low { IfSome result (λ s. s.free ≤ 2 ^ 32) }
    ensures high { IfSome result (λ s. free ≤ s.free) }
{
    match room {
        Some(size) => external_at(options, Alignment::Dword, free, size),
        None => {
            let Spot { address, frame, .. } = spare?;
            Some(Spot {
                address,
                frame,
                free,
            })
        }
    }
}
