//! Where a layout begins, and its frames.

ghost use Rattle.std.specs.Prelude.{◌≡◌, ◌<◌, ◌≤◌, ◌^◌};
ghost use Rattle.omf_layout.specs.Room.{limit, frame_at, anchor};

use omf_placement::Frame;

/// The frames of a layout.
#[derive(Clone, Copy)]
pub enum Frames {
    /// Real mode: an address's frame begins at its paragraph, the next lower multiple of 16 or the address itself, and its selector is
    /// that divided by 16. The limit is 2^20.
    Real,
    /// One frame with its base at address 0 and this selector. The limit is 2^32.
    Flat {
        /// The frame's selector.
        selector: u16,
    },
}

/// Options of a layout.
#[derive(Clone, Copy)]
pub struct Options {
    /// The lowest address: the first segment that is not absolute is at the first address of its alignment from here on.
    pub base: u32,
    /// The frames.
    pub frames: Frames,
}

impl Frames {
    /// Returns the limit: the first address that is too high.
    pub fn limit(self) -> u64
        ensures value { result ≡ limit self }
        ensures most { result ≤ 2 ^ 32 }
    {
        match self {
            Frames::Real => 1 << 20,
            Frames::Flat { .. } => 1 << 32,
        }
    }

    /// Returns the frame of an address below the limit.
    pub fn frame_at(self, address: u32) -> Frame
        requires { address < limit self }
        ensures { result ≡ frame_at self address }
    {
        match self {
            Frames::Real => {
                let selector = address / 16;
                Frame {
                    base: 16 * selector,
                    selector: selector as u16,
                }
            }
            Frames::Flat { selector } => Frame { base: 0, selector },
        }
    }
}

/// Returns the address whose frame an external at `address` takes: the base if the external is less than 64 KB above the base's
/// paragraph, so that near references reach it; else its own address.
pub fn anchor(base: u32, address: u32) -> u32
    requires { base ≤ address }
    ensures value { result ≡ anchor base address }
    ensures no_higher { result ≤ address }
{
    if address - base / 16 * 16 < 1 << 16 {
        base
    } else {
        address
    }
}
