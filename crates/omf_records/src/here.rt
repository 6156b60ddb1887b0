//! A position in a record's contents.
ghost use Rattle.std.specs.Prelude.{◌≡◌, ℕ, ◌+◌, ◌≤◌, length, drop};
ghost use Rattle.omf_frame.specs.Bytes.{AreBytes};

use crate::at::LayoutFault;
use omf_frame::{Reason, Width};

/// A position in a record, and the bytes from there to the end of the contents.
#[derive(Clone, Copy, Drop)]
pub struct Here<'a> {
    within: u32,
    /// Whether the record has 32-bit fields.
    wide: bool,
    bytes: &'a [u8],
    /// The largest record.
    ghost fits: { within + length bytes.now ≤ 65537 },
    ghost are_bytes: { AreBytes bytes.now },
}

impl<'a> Here<'a> {
    ghost use Rattle.std.specs.Prelude.{◌≡◌, ℕ, ◌+◌, ◌≤◌, length, drop};
    ghost use Rattle.omf_frame.specs.declared.fault.Reason.TheVariants.{Short};
    ghost use Rattle.omf_records.specs.Layout.{fault};
    ghost use Rattle.omf_records.specs.Inner.Readers.{ends_read};
    ghost use Rattle.omf_records.specs.Inner.Seen.{width_if};
    ghost use Rattle.omf_records.specs.Values.{is_wide};

    /// The start of the contents of a record of type `kind`, at offset 3.
    #[inline(always)]
    pub(crate) fn start(kind: u8, body: &'a [u8]) -> Here<'a>
        requires { length body.now ≤ 65534 }
        ensures place { result.within ≡ 3 }
        ensures width { result.wide ≡ is_wide kind }
        ensures bytes { result.bytes.now ≡ body.now }
    {
        Here {
            within: 3,
            wide: kind % 2 == 1,
            bytes: body,
        }
    }

    pub(crate) fn within(self) -> u32
        ensures { result ≡ self.entry.within }
    {
        self.within
    }

    pub(crate) fn is_wide(self) -> bool
        ensures { result ≡ self.entry.wide }
    {
        self.wide
    }

    /// The width of the record's fields.
    #[inline(always)]
    pub(crate) fn width(self) -> Width
        ensures { result ≡ width_if self.entry.wide }
    {
        if self.wide {
            Width::Bits32
        } else {
            Width::Bits16
        }
    }

    pub(crate) fn bytes(self) -> &'a [u8]
        ensures { result.now ≡ self.entry.bytes.now }
    {
        self.bytes
    }

    /// A fault of the field at this position.
    #[inline(always)]
    pub(crate) fn fault(self, reason: Reason) -> LayoutFault
        ensures { result ≡ fault self.entry.within reason }
    {
        LayoutFault {
            reason,
            within: self.within,
        }
    }

    /// Fails with `Long` unless this is the end of the contents.
    pub(crate) fn end(self) -> Result<(), LayoutFault>
        ensures { result ≡ ends_read tt self.entry.within self.entry.bytes.now }
    {
        if self.bytes.is_empty() {
            return Ok(());
        }
        Err(self.fault(Reason::Long))
    }

    /// The position `n` bytes further on.
    #[inline(always)]
    pub(crate) fn pass(self, n: usize) -> Here<'a>
        requires { n ≤ length self.bytes.now }
        ensures width { result.wide ≡ self.entry.wide }
        ensures within { result.within ≡ self.entry.within + n }
        ensures bytes { result.bytes.now ≡ drop n self.entry.bytes.now }
    {
        Here {
            within: self.within + n as u32,
            wide: self.wide,
            bytes: &self.bytes[n..],
        }
    }
}
