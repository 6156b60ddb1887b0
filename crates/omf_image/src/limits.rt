//! Limits on repeated blocks.

ghost use Rattle.std.specs.Prelude.{◌≡◌};
ghost use Rattle.omf_image.specs.Limits.{profile_limits};

/// Limits on the blocks of an LIDATA record: their nesting depth (an outermost block has depth 1), and the bytes they expand to.
#[derive(Clone, Copy, Debug, PartialEq, Eq)]
pub struct Limits {
    /// The greatest depth of a block.
    pub nesting: u32,
    /// The greatest number of bytes that the blocks of one record expand to.
    pub expanded: u32,
}

impl Limits {
    /// The limits of this profile: 64 levels, and 268,435,456 (10000000H) bytes.
    pub fn profile() -> Limits
        ensures { result ≡ profile_limits }
    {
        Limits {
            nesting: 64,
            expanded: 268_435_456,
        }
    }
}
