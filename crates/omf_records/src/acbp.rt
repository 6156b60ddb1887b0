//! The attribute byte of a SEGDEF (TIS OMF 1.1, "SEGDEF", ACBP).
ghost use Rattle.std.specs.Prelude.{◌≡◌, IfOk, nat_lt};
ghost use Rattle.omf_frame.specs.declared.fault.Reason.TheVariants as reason;
ghost use Rattle.omf_records.specs.Entries.{unless};
ghost use Rattle.omf_records.specs.Methods.{alignment_number, combination_number, refusal};
ghost use Rattle.omf_records.specs.Values.{alignment, combination, is_big, is_use32};

use omf_frame::Reason;
use std::marker::Model;

/// The alignment of a segment: the A field.
#[derive(Clone, Copy)]
pub enum Alignment {
    /// 0: none, since the segment is absolute.
    Absolute,
    /// 1: any address.
    Byte,
    /// 2: a multiple of 2.
    Word,
    /// 3: a multiple of 16.
    Paragraph,
    /// 4: a multiple of 256.
    Page,
    /// 5: a multiple of 4.
    Dword,
}

/// How a segment is combined with others of its name: the C field.
#[derive(Clone, Copy)]
pub enum Combination {
    /// 0: not at all.
    Private,
    /// 1: reserved.
    Reserved1,
    /// 2: one after another.
    Public,
    /// 3: reserved.
    Reserved3,
    /// 4: as 2.
    Public4,
    /// 5: as 2, for the stack.
    Stack,
    /// 6: one over another.
    Common,
    /// 7: as 2.
    Public7,
}

/// The attribute byte of a SEGDEF: alignment in bits 7 to 5, combination in bits 4 to 2, Big in bit 1, Use32 in bit 0.
#[derive(Clone, Copy, Drop)]
pub struct Acbp(u8);

impl Model for Acbp {
    ghost use Rattle.std.specs.Prelude.{◌≡◌, ℕ, []};
    ghost use Rattle.omf_records.specs.Inner.Names.{wrong_alignment};

    ghost Value = { ℕ };

    ghost view = { λ a. a.0 };

    ghost invariant = { λ a. wrong_alignment a.0 ≡ [] };

    ghost inverse = { λ n. record { 0 = n } };
}

impl Acbp {
    /// The attribute byte, unless its alignment is refused.
    #[inline(always)]
    pub fn new(byte: u8) -> Result<Acbp, Reason>
        ensures reason { refusal result ≡ unless (nat_lt (alignment byte) 6) reason.Alignment }
        ensures ok { IfOk result (λ a. a ≡ byte) }
    {
        if byte / 32 > 5 {
            Err(Reason::Alignment)
        } else {
            Ok(Acbp(byte))
        }
    }

    /// The byte.
    #[inline(always)]
    pub fn byte(self) -> u8
        ensures { result ≡ self }
    {
        self.0
    }

    /// The alignment.
    pub fn alignment(self) -> Alignment
        ensures { alignment_number result ≡ alignment self }
    {
        match self.0 / 32 {
            0 => Alignment::Absolute,
            1 => Alignment::Byte,
            2 => Alignment::Word,
            3 => Alignment::Paragraph,
            4 => Alignment::Page,
            5 => Alignment::Dword,
            6.. => unreachable!(),
        }
    }

    /// The combination.
    pub fn combination(self) -> Combination
        ensures { combination_number result ≡ combination self }
    {
        match self.0 / 4 % 8 {
            0 => Combination::Private,
            1 => Combination::Reserved1,
            2 => Combination::Public,
            3 => Combination::Reserved3,
            4 => Combination::Public4,
            5 => Combination::Stack,
            6 => Combination::Common,
            7.. => Combination::Public7,
        }
    }

    /// Whether the segment has the largest size: 65,536 bytes, or 2^32 in a 32-bit record.
    #[inline(always)]
    pub fn is_big(self) -> bool
        ensures { result ≡ is_big self }
    {
        self.0 / 2 % 2 == 1
    }

    /// Whether the segment's code and offsets have 32 bits.
    pub fn is_use32(self) -> bool
        ensures { result ≡ is_use32 self }
    {
        self.0 % 2 == 1
    }
}
