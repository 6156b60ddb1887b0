//! Alignments of segments.

ghost use Rattle.std.specs.Prelude.{◌≡◌, ◌≤◌};
ghost use Rattle.omf_records.specs.Values.{alignment};
ghost use Rattle.omf_layout.specs.Own.Order.{is_block};
ghost use Rattle.omf_layout.specs.Wants.{alignment_named, bytes_aligned};

/// The alignment of a segment's address (TIS OMF 1.1, "SEGDEF", A field; for `Block` this profile's rule).
#[derive(Clone, Copy)]
pub enum Alignment {
    /// Any address. Absolute segments, which have no alignment, count as this.
    Byte,
    /// A multiple of 2.
    Word,
    /// A multiple of 16.
    Paragraph,
    /// A multiple of 256.
    Page,
    /// A multiple of 4.
    Dword,
    /// A multiple of 4,096. No A field has it: a comment raises the segment.
    Block,
}

impl Alignment {
    /// Returns the alignment in a SEGDEF's attribute byte.
    pub fn named_by(attribute: u8) -> Alignment
        ensures { result ≡ alignment_named (alignment attribute) }
    {
        match attribute / 32 {
            2 => Alignment::Word,
            3 => Alignment::Paragraph,
            4 => Alignment::Page,
            5 => Alignment::Dword,
            _ => Alignment::Byte,
        }
    }

    /// Returns whether it is `Block`.
    pub fn is_block(self) -> bool
        ensures { result ≡ is_block self }
    {
        matches!(self, Alignment::Block)
    }

    /// Returns the alignment in bytes: 1, 2, 4, 16, 256 or 4,096.
    pub fn bytes(self) -> u16
        ensures value { result ≡ bytes_aligned self }
        ensures some { 1 ≤ result }
    {
        match self {
            Alignment::Byte => 1,
            Alignment::Word => 2,
            Alignment::Paragraph => 16,
            Alignment::Page => 256,
            Alignment::Dword => 4,
            Alignment::Block => 4096,
        }
    }
}
