//! Frames and places.

ghost use Rattle.std.specs.Prelude.{◌≡◌};

/// A frame (TIS OMF 1.1, "FIXUPP"): the address from which offsets count, and the value of a segment register that addresses it.
///
/// In real mode the base is 16 times the selector; a placement may give any other pair.
#[derive(Clone, Copy, Debug, PartialEq, Eq)]
pub struct Frame {
    /// The address of the frame's first byte.
    pub base: u32,
    /// The number that a fixup adds to a base or pointer location.
    pub selector: u16,
}

impl Frame {
    ghost use Rattle.omf_placement.specs.Placement.{real_frame};

    /// The real-mode frame of an address below 2^20: its selector is the address divided by 16, and its base is 16 times the selector (a
    /// rule of this profile). `None` for any other address.
    pub fn real(address: u32) -> Option<Frame>
        ensures { result ≡ real_frame address }
    {
        if address >= 1 << 20 {
            return None;
        }
        let selector = address / 16;
        Some(Frame {
            base: 16 * selector,
            selector: selector as u16,
        })
    }
}

/// The place of a segment or an external: its address, and the frame that it is addressed by.
#[derive(Clone, Copy, Debug, PartialEq, Eq)]
pub struct Placed {
    pub address: u32,
    pub frame: Frame,
}
